// What remains, one pair after the other: the old pairs and the additions above the boundary, less those that the batch withdraws.
ghost use Rattle.std.specs.Prelude.{ℕ, ◌≡◌, ◌≤◌, ◌<◌, get_or};
ghost use Rattle.pair.specs.Rank.{word_limit};
ghost use Rattle.card.specs.Layout.{block_size};
ghost use Rattle.card.specs.Sound.{judged};
ghost use Rattle.batch.specs.Batch.{updates, batch_number};
ghost use Rattle.batch.specs.code.Rounds.{round_reaches};
ghost use Rattle.update.specs.code.Merge.{Begun, Merges, Merged, lesser_of, place_along, Runs};

use crate::old;
use crate::old::OldCursor;
use card::layout::Configuration;
use pair::Pair;

// A place in the merge: the rank of the pair in hand, before the first pair the boundary's; the old pairs, the record from which
// additions are sought, and the cursor of decisions.
#[derive(Clone, Copy)]
pub(crate) struct Merge {
    pub(crate) rank: u64,
    pub(crate) old: OldCursor,
    pub(crate) addition: usize,
    pub(crate) decisions: batch::Cursor,
}

// The lesser of two ranks, if there is one.
fn lesser(a: Option<u64>, b: Option<u64>) -> Option<u64>
    ensures { result ≡ lesser_of a b }
{
    match (a, b) {
        (Some(a), Some(b)) => Some(a.min(b)),
        _ => a.or(b),
    }
}

// What a pass goes over: a sound card with blocks of so many words, a batch in order, and where the batch's rounds reach to.
#[derive(Clone, Copy)]
pub(crate) struct Pass<'a> {
    pub(crate) card: &'a [u32],
    pub(crate) batch: &'a [u32],
    pub(crate) reaches: &'a [u32],
    pub(crate) size: usize,
    ghost sound: { judged card.now ≡ 0 },
    ghost in_order: { batch_number batch.now ≡ 0 },
    ghost reached: { reaches.now ≡ round_reaches (updates batch.now) },
    ghost sized: { size ≡ block_size card.now },
    ghost card_words: { (i : ℕ) → get_or card.now i 0 < word_limit },
    ghost batch_words: { (i : ℕ) → get_or batch.now i 0 < word_limit },
}

impl<'a> Pass<'a> {
    pub(crate) fn of(card: &'a [u32], batch: &'a [u32], reaches: &'a [u32]) -> Pass<'a>
        requires card_value { judged card.now ≡ 0 }
        requires batch_value { batch_number batch.now ≡ 0 }
        requires reaches_value { reaches.now ≡ round_reaches (updates batch.now) }
        ensures card { result.card.now ≡ card.now }
        ensures batch { result.batch.now ≡ batch.now }
    {
        let size = Configuration::of(card).size as usize;
        Pass {
            card,
            batch,
            reaches,
            size,
        }
    }

    // Before the first pair.
    pub(crate) fn start(self) -> Merge
        ensures { Begun self.entry.card.now result }
    {
        Merge {
            rank: Configuration::of(self.card).boundary,
            old: old::first(self.card),
            addition: 0,
            decisions: batch::START,
        }
    }

    // The place at the next pair, if there is one.
    pub(crate) fn next(self, merge: Merge) -> Option<Merge>
        requires { Merges self.card.now self.batch.now merge }
        ensures { Merged self.entry.card.now self.entry.batch.now merge.rank result }
    {
        let mut place = merge;
        loop {
            let old = old::skip(self.card, place.old, place.rank);
            let added = batch::next_addition(self.batch, place.addition, place.rank);
            let Some(rank) = lesser(added.rank, old.in_hand()) else {
                return None;
            };
            let decision = batch::decide(self.batch, self.reaches, place.decisions, rank);
            place = Merge {
                rank,
                old,
                addition: added.at,
                decisions: decision.cursor,
            };
            if !decision.withdrawn {
                return Some(place);
            }
        }
    }

    // How many pairs behind the one in hand, of its entry, no record touches.
    pub(crate) fn run(self, merge: Merge) -> usize
        requires merges { Merges self.card.now self.batch.now merge }
        requires rank_nonzero { 0 < merge.rank }
        ensures { Runs self.entry.card.now self.entry.batch.now merge result }
    {
        let old = merge.old;
        if old.count == 0 || old.rank != merge.rank || Pair::of_rank(merge.rank).term != old.term {
            return 0;
        }
        let to = batch::untouched(self.batch, self.reaches, merge.decisions, merge.rank);
        wanted::up_to(&self.card[old.at..old.at + old.count], to)
    }

    // The place at the last of so many pairs behind the one in hand.
    pub(crate) fn along(self, merge: Merge, n: usize) -> Merge
        requires merges { Merges self.card.now self.batch.now merge }
        requires n_le_count { n ≤ merge.old.count }
        ensures { result ≡ place_along self.entry.card.now merge n }
    {
        if n == 0 {
            return merge;
        }
        let old = old::along(self.card, merge.old, n);
        Merge {
            rank: old.rank,
            old,
            ..merge
        }
    }
}
