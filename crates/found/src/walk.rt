// A walk over the blocks that a lookup reads: it finds one run of wanted positions after another, each a part of the card.
ghost use Rattle.std.specs.Prelude.{◌≡◌, ◌<◌, [], IfSome, IsNone, length};
ghost use Rattle.pair.specs.Rank.{word_limit};
ghost use Rattle.found.specs.code.Walk.{PlacePart, FirstPlace, FirstRun, NextRun, Ready, ReadyWalk, ahead_of, ahead, blocks_of};

use card::layout;
use card::layout::Configuration;
use wanted::Part;

// The wanted positions of the block at a place, as a part of the card.
pub fn place_part(card: &[u32], place: u16, term: u32, after: u32, to: u32) -> Part
    ensures { PlacePart card.now place term after to result }
{
    let part = wanted::block_part(layout::place(card, place), term, after, to);
    if part.len == 0 {
        return Part { start: 0, len: 0 };
    }
    Part {
        start: layout::place_start(card, place) + part.start,
        ..part
    }
}

// Blocks of one segment: so many places from one on, around the circle. Wanted of them are positions above after.
#[derive(Clone, Copy)]
pub struct Stretch {
    pub place: u16,
    pub blocks: u16,
    pub after: u32,
}

impl Stretch {
    const EMPTY: Stretch = Stretch {
        place: 0,
        blocks: 0,
        after: 0,
    };

    // Its first place, which it leaves behind.
    pub fn next_place(&mut self, card: &[u32]) -> Option<u16>
        ensures some { IfSome result (λ place. FirstPlace card.now self.old place self.new) }
        ensures none { IsNone result → self.old.blocks ≡ 0 }
        ensures spent { IsNone result → self.new.blocks ≡ 0 }
    {
        self.blocks = self.blocks.checked_sub(1)?;
        let place = self.place;
        self.place = Configuration::of(card).place_on(place, 1);
        Some(place)
    }

    // The wanted positions of its first block that has any, as a part of the card. It leaves that block and those before it behind.
    fn next_run(&mut self, card: &[u32], term: u32, to: u32) -> Option<Part>
        ensures some { IfSome result (λ part. FirstRun card.now term to self.old part self.new) }
        ensures none { IsNone result → Ready card.now self.old → ahead_of card.now term to self.old ≡ [] }
        ensures spent { IsNone result → self.new.blocks ≡ 0 }
    {
        while let Some(place) = self.next_place(card) {
            let part = place_part(card, place, term, self.after, to);
            if 0 < part.len {
                return Some(part);
            }
        }
        None
    }

    // How many wanted positions it has.
    fn count_ahead(self, card: &[u32], term: u32, to: u32) -> usize
        requires ready { Ready card.now self }
        requires few { length (ahead_of card.now term to self) < word_limit }
        ensures { result ≡ length (ahead_of card.now term to self) }
    {
        let mut rest = self;
        let mut count: usize = 0;
        while let Some(place) = rest.next_place(card) {
            let part = place_part(card, place, term, rest.after, to);
            let len = part.len;
            count += len;
        }
        count
    }
}

// The blocks still to be read, of the new segment and then of the old. Wanted of them are positions of the term, up to one.
#[derive(Clone, Copy)]
pub struct Walk {
    pub term: u32,
    pub to: u32,
    pub new: Stretch,
    pub old: Stretch,
}

impl Walk {
    // The walk that has no blocks.
    pub const EMPTY: Walk = Walk {
        term: 0,
        to: 0,
        new: Stretch::EMPTY,
        old: Stretch::EMPTY,
    };

    // The next run, which it leaves behind; none where nothing is ahead, and then it has no blocks.
    pub fn next_run(&mut self, card: &[u32]) -> Option<Part>
        ensures some { IfSome result (λ part. NextRun card.now self.entry.now part self.exit.now) }
        ensures none { IsNone result → ReadyWalk card.now self.entry.now → ahead card.now self.entry.now ≡ [] }
        ensures spent { IsNone result → blocks_of self.exit.now ≡ 0 }
    {
        if let Some(part) = self.new.next_run(card, self.term, self.to) {
            return Some(part);
        }
        self.old.next_run(card, self.term, self.to)
    }

    // How many wanted positions are ahead.
    pub(crate) fn count_ahead(self, card: &[u32]) -> usize
        requires ready { ReadyWalk card.now self }
        requires few { length (ahead card.now self) < word_limit }
        ensures { result ≡ length (ahead card.now self) }
    {
        let new = self.new.count_ahead(card, self.term, self.to);
        let old = self.old.count_ahead(card, self.term, self.to);
        new + old
    }
}

// A walk at its start, and how many wanted positions are ahead of it.
#[derive(Clone, Copy)]
pub struct WalkCount {
    pub walk: Walk,
    pub count: usize,
}
