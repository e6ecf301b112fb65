// The blocks that a lookup reads, found by the map: its pairs rise from block to block of a segment.
ghost use Rattle.std.specs.Prelude.{◌≡◌, ◌-◌, ◌≤◌};
ghost use Rattle.card.specs.Layout.{place_count, around};
ghost use Rattle.found.specs.Found.{mapped_to, question_number};
ghost use Rattle.found.specs.code.Segment.{SoundSegment, spanned, LiveAfter, LookupWalk};

use crate::Question;
use crate::walk::{Stretch, Walk};
use card::layout::{Configuration, first_pair};
use pair::Pair;

// A segment of a card: so many places from one on, around the circle.
#[derive(Clone, Copy)]
struct Segment {
    configuration: Configuration,
    start: u16,
    len: u16,
}

impl Segment {
    // How many of its places stand up to the last whose map pair is at most the rank.
    fn mapped_to(self, card: &[u32], rank: u64) -> u16
        requires { SoundSegment card.now self.configuration self.start self.len }
        ensures { result ≡ mapped_to card.now «rank» (around (place_count card.now) self.start self.len) }
    {
        let mut low: u16 = 0;
        let mut high = self.len;
        while low < high {
            let middle = low + (high - low) / 2;
            let place = self.configuration.place_on(self.start, middle);
            if first_pair(card, place) <= rank {
                low = middle + 1;
            } else {
                high = middle;
            }
        }
        low
    }

    // The blocks that are read of it: from the last whose map pair is at most (term, from), or else the first, up to the last whose map pair is
    // at most (term, to).
    fn span(self, card: &[u32], q: Question, after: u32) -> Stretch
        requires segment { SoundSegment card.now self.configuration self.start self.len }
        requires from_le_to { q.from ≤ q.to }
        ensures { result ≡ spanned card.now self.start self.len q.term q.from q.to after }
    {
        let skipped = self.mapped_to(card, q.first().rank()).saturating_sub(1);
        let read = self.mapped_to(card, q.last().rank());
        Stretch {
            place: self.configuration.place_on(self.start, skipped),
            blocks: read - skipped,
            after,
        }
    }
}

// Wanted are positions above this one, where pairs of the segment whose rank is at most the bound are not live.
fn live_after(q: Question, bound: u64) -> u32
    requires { 1 ≤ q.from }
    ensures { LiveAfter q.term q.from q.to bound result }
{
    let last = Pair::of_rank(bound);
    if q.term < last.term {
        return q.to;
    }
    if q.term == last.term && q.from <= last.position {
        return last.position;
    }
    q.from - 1
}

// The walk that a lookup makes.
pub(crate) fn opened(card: &[u32], q: Question) -> Walk
    requires { question_number card.now q.term q.from q.to ≡ 0 }
    ensures { LookupWalk card.now q.term q.from q.to result }
{
    let k = Configuration::of(card);
    let new = Segment {
        configuration: k,
        start: k.new_start(),
        len: k.new_length,
    };
    let old = Segment {
        configuration: k,
        start: k.old_start,
        len: k.old_length,
    };
    Walk {
        term: q.term,
        to: q.to,
        new: new.span(card, q, live_after(q, 0)),
        old: old.span(card, q, live_after(q, k.boundary)),
    }
}
