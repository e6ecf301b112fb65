// The old segment read pair by pair.
ghost use Rattle.std.specs.Prelude.{◌≡◌, ◌≤◌};
ghost use Rattle.card.specs.Sound.{judged};
ghost use Rattle.update.specs.code.Old.{in_hand, BlockEntry, entry_read, Stands, Advanced, Skipped, before_first, along, Freeing, Spends, SpentTo};

use card::layout;
use card::layout::Configuration;
use pair::Pair;
use wanted::reads_on;

// A place in the old segment: the next place and how many are left; the next word of the block in hand and its end; the term in
// hand and how many of its positions are still to come; the rank of the pair in hand, 0 for none.
#[derive(Clone, Copy)]
pub(crate) struct OldCursor {
    pub(crate) place: u16,
    pub(crate) places: u16,
    pub(crate) at: usize,
    pub(crate) end: usize,
    pub(crate) term: u32,
    pub(crate) count: usize,
    pub(crate) rank: u64,
}

impl OldCursor {
    // The pair in hand, if there is one.
    #[tactic(auto, unfolding(crate::specs::code::Old::in_hand))]
    pub(crate) fn in_hand(self) -> Option<u64>
        ensures { result ≡ in_hand self }
    {
        if self.rank == 0 {
            return None;
        }
        Some(self.rank)
    }
}

// Reads the first pair of the entry at a word.
#[tactic(auto, unfolding(crate::specs::code::Old::entry_read))]
pub(crate) fn entry(card: &[u32], at: usize, end: usize, place: u16, places: u16) -> OldCursor
    requires { BlockEntry card.now at end }
    ensures { result ≡ entry_read card.now at end place places }
{
    let term = card[at];
    let count = card[at + 1] as usize;
    let pair = Pair {
        term,
        position: card[at + 2],
    };
    OldCursor {
        place,
        places,
        at: at + 3,
        end,
        term,
        count: count - 1,
        rank: pair.rank(),
    }
}

// The next pair of the old segment.
fn next(card: &[u32], old: OldCursor) -> OldCursor
    requires { Stands card.now old }
    ensures { Advanced card.now old result }
{
    if 0 < old.count {
        let pair = Pair {
            term: old.term,
            position: card[old.at],
        };
        return OldCursor {
            at: old.at + 1,
            count: old.count - 1,
            rank: pair.rank(),
            ..old
        };
    }
    if reads_on(&card[..old.end], old.at) {
        return entry(card, old.at, old.end, old.place, old.places);
    }
    if old.places == 0 {
        return OldCursor {
            at: old.end,
            rank: 0,
            ..old
        };
    }
    let k = Configuration::of(card);
    let start = layout::place_start(card, old.place);
    entry(
        card,
        start,
        start + k.size as usize,
        k.place_on(old.place, 1),
        old.places - 1,
    )
}

// The first old pair.
pub(crate) fn first(card: &[u32]) -> OldCursor
    requires { judged card.now ≡ 0 }
    ensures { Advanced card.now (before_first card.now) result }
{
    let k = Configuration::of(card);
    let old = OldCursor {
        place: k.old_start,
        places: k.old_length,
        at: 0,
        end: 0,
        term: 0,
        count: 0,
        rank: 0,
    };
    next(card, old)
}

// The first old pair from a pair in hand on that is above a rank.
pub(crate) fn skip(card: &[u32], old: OldCursor, rank: u64) -> OldCursor
    requires { Stands card.now old }
    ensures { Skipped card.now old rank result }
{
    let mut o = old;
    while o.rank != 0 && o.rank <= rank {
        o = next(card, o);
    }
    o
}

// The cursor so many positions further in its entry.
pub(crate) fn along(card: &[u32], old: OldCursor, n: usize) -> OldCursor
    requires stands { Stands card.now old }
    requires n_le_count { n ≤ old.count }
    ensures { result ≡ along card.now old n }
{
    if n == 0 {
        return old;
    }
    let at = old.at + n;
    let pair = Pair {
        term: old.term,
        position: card[at - 1],
    };
    OldCursor {
        at,
        count: old.count - n,
        rank: pair.rank(),
        ..old
    }
}

// Leading old places with no pair above a rank: how many, and the last pair of the place behind them, if it is known.
#[derive(Clone, Copy)]
pub(crate) struct Spent {
    pub(crate) count: u16,
    pub(crate) last: Option<u64>,
}

pub(crate) const UNSPENT: Spent = Spent {
    count: 0,
    last: None,
};

// The leading old places with no pair above a rank; the first so many have none.
pub(crate) fn spent_from(card: &[u32], from: u16, rank: u64) -> Spent
    requires card_value { judged card.now ≡ 0 }
    requires freeing { Freeing card.now rank from }
    ensures { SpentTo card.now rank result }
{
    let k = Configuration::of(card);
    for n in from..k.old_length {
        let last = block::scan(layout::place(card, k.place_on(k.old_start, n)))
            .unwrap()
            .last;
        if rank < last {
            return Spent {
                count: n,
                last: Some(last),
            };
        }
    }
    Spent {
        count: k.old_length,
        last: None,
    }
}

// The same from those with no pair above a lower rank; no block is scanned again.
pub(crate) fn spent_on(card: &[u32], spent: Spent, rank: u64) -> Spent
    requires card_value { judged card.now ≡ 0 }
    requires spends { Spends card.now rank spent }
    ensures { SpentTo card.now rank result }
{
    match spent.last {
        None => spent_from(card, spent.count, rank),
        Some(last) if rank < last => spent,
        Some(_) => spent_from(card, spent.count + 1, rank),
    }
}
