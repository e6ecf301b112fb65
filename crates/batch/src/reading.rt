// The records of a batch: five words each, kind, term, from, to and arrival number.
ghost use Rattle.std.specs.Prelude.{◌≡◌, eqb};
ghost use Rattle.pair.specs.Rank.{rank};
ghost use Rattle.batch.specs.Batch.{ill_formed};
ghost use Rattle.batch.specs.code.Search.{update_of, adds_above, reaches_to};
ghost use Rattle.batch.specs.code.Untouched.{leaves_to};
ghost use Rattle.batch.specs.code.Records.{records_of, record_of, kind_of};

use pair::Pair;

// The words of a record.
pub(crate) const RECORD_WORDS: usize = 5;

pub(crate) type RecordWords = [u32; RECORD_WORDS];

// The records of a batch, less the words behind the last whole one.
pub(crate) fn records_of(batch: &[u32]) -> &[RecordWords]
    ensures { result.now ≡ records_of batch.now }
{
    batch.as_chunks().0
}

// What a record does.
#[derive(Clone, Copy, PartialEq, Eq)]
pub(crate) enum Kind {
    Adds,
    Removes,
    Annuls,
}

// A record of a batch.
#[derive(Clone, Copy)]
pub(crate) struct Record {
    pub(crate) kind: u32,
    pub(crate) term: u32,
    pub(crate) from: u32,
    pub(crate) to: u32,
    pub(crate) arrival: u32,
}

impl Record {
    // The record that five words are.
    pub(crate) fn of(words: &RecordWords) -> Record
        ensures { result ≡ record_of words.now }
    {
        let [kind, term, from, to, arrival] = *words;
        Record {
            kind,
            term,
            from,
            to,
            arrival,
        }
    }

    // What it does; None where its number is that of no kind.
    pub(crate) fn kind(self) -> Option<Kind>
        ensures { result ≡ kind_of self.kind }
    {
        match self.kind {
            1 => Some(Kind::Adds),
            2 => Some(Kind::Removes),
            3 => Some(Kind::Annuls),
            _ => None,
        }
    }

    // The rank of the first pair that it names.
    pub(crate) fn first_rank(self) -> u64
        ensures { result ≡ rank self.term self.from }
    {
        let first = Pair {
            term: self.term,
            position: self.from,
        };
        first.rank()
    }

    // The rank of the last pair that it names.
    pub(crate) fn last_rank(self) -> u64
        ensures { result ≡ rank self.term self.to }
    {
        let last = Pair {
            term: self.term,
            position: self.to,
        };
        last.rank()
    }

    // Whether it is ill formed. Without branches, so that a walk over records is vectorised.
    #[tactic(auto, unfolding(crate::specs::Batch::ill_formed))]
    pub(crate) fn is_ill_formed(self) -> bool
        ensures { result ≡ ill_formed (update_of self) }
    {
        ((self.term == 0) & !self.is_round())
            | ((self.term != 0) & !self.is_addition() & !self.is_removal())
            | (self.from == 0)
            | (self.to == 0)
            | (self.is_addition() & (self.from != self.to))
    }

    // Whether it adds a pair.
    pub(crate) fn is_addition(self) -> bool
        ensures { result ≡ eqb self.kind 1 }
    {
        self.kind() == Some(Kind::Adds)
    }

    // Whether it removes positions of its term.
    pub(crate) fn is_removal(self) -> bool
        ensures { result ≡ eqb self.kind 2 }
    {
        self.kind() == Some(Kind::Removes)
    }

    // Whether it is a round to be annulled.
    pub(crate) fn is_round(self) -> bool
        ensures { result ≡ eqb self.kind 3 }
    {
        self.kind() == Some(Kind::Annuls)
    }

    // Whether it adds a pair above a rank.
    #[tactic(auto, unfolding(crate::specs::code::Search::adds_above))]
    pub(crate) fn adds_above(self, rank: u64) -> bool
        ensures { result ≡ adds_above rank (update_of self) }
    {
        self.kind() == Some(Kind::Adds) && rank < self.first_rank()
    }

    // Whether it removes positions of its term and reaches to a rank.
    #[tactic(auto, unfolding(crate::specs::code::Search::reaches_to))]
    pub(crate) fn reaches_to(self, rank: u64) -> bool
        ensures { result ≡ reaches_to rank (update_of self) }
    {
        self.kind() == Some(Kind::Removes) && rank <= self.last_rank()
    }

    // Up to which position it leaves the pairs behind a pair, of the pair's term: up to where it starts, if it is of that term; 0 where it
    // starts at or below the pair.
    pub(crate) fn leaves_to(self, rank: u64) -> u32
        ensures { result ≡ leaves_to rank (update_of self) }
    {
        if self.first_rank() <= rank {
            0
        } else if self.term == Pair::of_rank(rank).term {
            self.from - 1
        } else {
            u32::MAX
        }
    }
}
