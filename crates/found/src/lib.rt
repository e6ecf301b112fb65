// What is found of a term in a range of positions, by a walk over the blocks that may hold it.

#![tactic(auto)]

ghost use Rattle.std.specs.Prelude.{◌≡◌, IfOk};
ghost use Rattle.refusal.specs.Refusal.{number_of};
ghost use Rattle.found.specs.Found.{question_number};
ghost use Rattle.found.specs.code.Segment.{LookupWalk, WalkCounted};

use crate::map::opened;
use crate::walk::{Walk, WalkCount};
use pair::Pair;
use refusal::Refusal;

mod map; // the blocks that are read, found by the map
pub mod walk; // the blocks that are read, one run of wanted positions after another

// A question: the positions of a term from one to another.
#[derive(Clone, Copy)]
pub struct Question {
    pub term: u32,
    pub from: u32,
    pub to: u32,
}

impl Question {
    // Its lowest pair.
    pub(crate) fn first(self) -> Pair
        ensures { result ≡ record { term = self.term; position = self.from } }
    {
        Pair {
            term: self.term,
            position: self.from,
        }
    }

    // Its highest pair.
    pub(crate) fn last(self) -> Pair
        ensures { result ≡ record { term = self.term; position = self.to } }
    {
        Pair {
            term: self.term,
            position: self.to,
        }
    }

    // Refuses a card that is not sound, and a term and positions that are no question.
    #[tactic(auto, using(refusal::proofs::Numbers::number_positive, refusal::proofs::Numbers::number_returned), unfolding(crate::specs::Found::question_number, pair::specs::Tests::first_of))]
    pub fn check(self, card: &[u32]) -> Result<(), Refusal>
        ensures { number_of result ≡ question_number card.now self.term self.from self.to }
    {
        judge::judge(card)?;
        if !pair::is_pair(self.term, self.from) || self.to < self.from {
            return Err(Refusal::NoQuestion);
        }
        Ok(())
    }

    // Judges the card and the question, and opens its walk.
    pub fn walk(self, card: &[u32]) -> Result<Walk, Refusal>
        ensures number { number_of result ≡ question_number card.now self.term self.from self.to }
        ensures walk { IfOk result (LookupWalk card.now self.term self.from self.to) }
    {
        self.check(card)?;
        Ok(opened(card, self))
    }

    // The same with the count of what is ahead of the walk.
    pub fn counted_walk(self, card: &[u32]) -> Result<WalkCount, Refusal>
        ensures number { number_of result ≡ question_number card.now self.term self.from self.to }
        ensures counted { IfOk result (WalkCounted card.now self.term self.from self.to) }
    {
        let walk = self.walk(card)?;
        let count = walk.count_ahead(card);
        Ok(WalkCount { walk, count })
    }
}
