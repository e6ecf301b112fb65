// The judge: a card's number, from its configuration words and a walk over its live blocks.

#![tactic(auto)]

ghost use Rattle.std.specs.Prelude.{◌≡◌, ◌<◌, ℕ, get_or, IfOk};
ghost use Rattle.pair.specs.Rank.{word_limit};
ghost use Rattle.pair.specs.Tests.{first_of};
ghost use Rattle.refusal.specs.Refusal.{number_of};
ghost use Rattle.card.specs.Layout.{place_count, around};
ghost use Rattle.card.specs.Sound.{configuration_conditions, judged};
ghost use Rattle.card.specs.code.Configuration.{Ordered};
ghost use Rattle.judge.specs.code.Scan.{block_scanned, segment_scanned, new_sound, old_sound};

use block::Ends;
use card::layout;
use card::layout::Configuration;
use refusal::Refusal;

// A card whose configuration words are in order, and what they say.
#[derive(Clone, Copy)]
struct Configured<'a> {
    card: &'a [u32],
    k: Configuration,
    ghost ordered: { Ordered card.now k },
    ghost words: { (at : ℕ) → get_or card.now at 0 < word_limit },
}

impl Configured<'_> {
    // Refuses a card whose configuration words are not in order.
    fn of(card: &[u32]) -> Result<Configured<'_>, Refusal>
        ensures number { number_of result ≡ first_of (configuration_conditions card.now) }
        ensures card { IfOk result (λ c. c.card.now ≡ card.now) }
    {
        card::check_configuration(card)?;
        Ok(Configured {
            card,
            k: Configuration::of(card),
        })
    }

    // Scans the block at a place; none where it is no live block, or begins with another pair than the map says.
    #[tactic(auto, unfolding(crate::specs::code::Scan::block_scanned, block::specs::code::Scan::scanned))]
    fn scan_place(self, i: u16) -> Option<Ends>
        ensures { result ≡ block_scanned self.entry.card.now i }
    {
        let ends = block::scan(layout::place(self.card, i))?;
        if ends.first != layout::first_pair(self.card, i) {
            return None;
        }
        Some(ends)
    }

    // Scans len places from start, around the circle, whose pairs are to rise above the rank after; the rank of the last pair.
    #[tactic(auto, using(crate::proofs::Judging::walk), unfolding(pair::specs::Rank::Words))]
    fn scan_segment(self, start: u16, len: u16, after: u64) -> Option<u64>
        ensures { result ≡ segment_scanned self.entry.card.now after (around (place_count self.entry.card.now) start len) }
    {
        let mut last = after;
        for j in 0..len {
            let block = self.scan_place(self.k.place_on(start, j))?;
            if block.first <= last {
                return None;
            }
            last = block.last;
        }
        Some(last)
    }

    // Whether the new segment is sound and rises up to the boundary.
    #[tactic(auto, using(crate::proofs::Judging::new_walk))]
    fn new_is_sound(self) -> bool
        ensures { result ≡ new_sound self.entry.card.now }
    {
        let k = self.k;
        self.scan_segment(k.new_start(), k.new_length, 0) == Some(k.boundary)
    }

    // Whether the old segment is sound and rises, and its first block reaches above the boundary.
    #[tactic(auto, using(crate::proofs::Judging::old_walk), unfolding(pair::specs::Rank::Words))]
    fn old_is_sound(self) -> bool
        ensures { result ≡ old_sound self.entry.card.now }
    {
        let k = self.k;
        if k.old_length == 0 {
            return true;
        }
        let Some(first) = self.scan_place(k.old_start) else {
            return false;
        };
        if first.last <= k.boundary {
            return false;
        }
        let start = k.place_on(k.old_start, 1);
        self.scan_segment(start, k.old_length - 1, first.last)
            .is_some()
    }
}

// Refuses a card that is not sound.
#[tactic(auto, using(refusal::proofs::Numbers::number_positive, crate::proofs::Judged::judged_early, crate::proofs::Judged::judged_segments))]
pub fn judge(card: &[u32]) -> Result<(), Refusal>
    ensures { number_of result ≡ judged card.now }
{
    let card = Configured::of(card)?;
    if !card.new_is_sound() || !card.old_is_sound() {
        return Err(Refusal::BadBlocks);
    }
    Ok(())
}
