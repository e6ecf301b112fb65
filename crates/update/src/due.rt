// The due block: what remains is put into it, one pair after the other, until the next pair has no room.
ghost use Rattle.std.specs.Prelude.{◌≡◌, replicate};
ghost use Rattle.pair.specs.Rank.{Proper};
ghost use Rattle.pair.specs.Rising.{Each};
ghost use Rattle.card.specs.Layout.{block_size};
ghost use Rattle.update.specs.Step.{remains};
ghost use Rattle.update.specs.code.Due.{DueOf};

use crate::merge::Pass;
use pack::Packing;

// The due block: how many of its words are used, the rank of its last pair, 0 for none, and whether pairs stand beyond it.
#[derive(Clone, Copy)]
pub(crate) struct Due {
    pub(crate) used: usize,
    pub(crate) last: u64,
    pub(crate) more: bool,
}

impl Due {
    // The due block that is packed so.
    fn of(packing: Packing, more: bool) -> Due
        ensures { result ≡ record { used = packing.used; last = packing.last; more = more } }
    {
        Due {
            used: packing.used,
            last: packing.last,
            more,
        }
    }
}

// Fills the words, which are 0 at first.
pub(crate) fn fill(pass: Pass, words: &mut [u32]) -> Due
    requires { words.old ≡ replicate (block_size pass.card.now) 0 }
    ensures due { DueOf pass.entry.card.now pass.entry.batch.now words.new result }
    ensures pairs { Each Proper (remains pass.entry.card.now pass.entry.batch.now) }
{
    let mut place = pass.start();
    let mut packing = pack::EMPTY;
    while let Some(next) = pass.next(place) {
        let Some(put) = pack::put(words, packing, next.rank) else {
            return Due::of(packing, true);
        };
        place = next;
        packing = put;
    }
    Due::of(packing, false)
}
