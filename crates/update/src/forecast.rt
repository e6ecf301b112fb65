// Will it fit: what an uncut run of a batch comes to, told without a write. What remains is packed as the run would pack it, and only counted.
ghost use Rattle.std.specs.Prelude.{◌≡◌, ◌+◌, ◌≤◌, length};
ghost use Rattle.pair.specs.Rank.{term};
ghost use Rattle.pair.specs.Rising.{last};
ghost use Rattle.update.specs.Step.{remains};
ghost use Rattle.update.specs.Pass.{limit_for};
ghost use Rattle.update.specs.Forecast.{told_by, forecast_of, blocks_of, limit_of, finishes_of, writes_of, foreseen, outlook, forecast};
ghost use Rattle.update.specs.code.Merge.{Merges, run_at};
ghost use Rattle.update.specs.code.Old.{Spends};
ghost use Rattle.update.specs.code.Tally.{blocks_most, counted, Closed, Addable, Added, Packs, PacksOn, PackedAll};

use crate::merge::{Merge, Pass};
use crate::old::{Spent, UNSPENT};
use crate::{check, old};
use batch::{RECORDS_MOST, rounds};
use card::layout::Configuration;
use pair::Pair;
use refusal::Refusal;
use wanted::reads_on;

// The words of an entry of one position, and the most steps for a block.
const ENTRY_WORDS: usize = 3;

const STEPS_PER_BLOCK: u32 = 3;

// What an uncut run comes to: how many blocks what remains fills and the step limit, where the pass finishes; where it stops because a configuration
// write would leave no place free, also after how many configuration writes.
#[derive(Clone, Copy, Debug, PartialEq, Eq)]
pub enum Outlook {
    Finishes {
        blocks: u32,
        limit: u32,
    },
    Stops {
        blocks: u32,
        limit: u32,
        writes: u32,
    },
}

impl Outlook {
    // How many blocks what remains fills.
    pub fn blocks(self) -> u32
        ensures { result ≡ blocks_of (told_by self) }
    {
        match self {
            Outlook::Finishes { blocks, .. } => blocks,
            Outlook::Stops { blocks, .. } => blocks,
        }
    }

    // The step limit.
    pub fn limit(self) -> u32
        ensures { result ≡ limit_of (told_by self) }
    {
        match self {
            Outlook::Finishes { limit, .. } => limit,
            Outlook::Stops { limit, .. } => limit,
        }
    }

    // Whether the pass finishes.
    pub fn is_finishing(self) -> bool
        ensures { result ≡ finishes_of (told_by self) }
    {
        matches!(self, Outlook::Finishes { .. })
    }

    // How many configuration writes are made before number 8, 0 where the pass finishes.
    pub fn writes(self) -> u32
        ensures { result ≡ writes_of (told_by self) }
    {
        match self {
            Outlook::Finishes { .. } => 0,
            Outlook::Stops { writes, .. } => writes,
        }
    }
}

// Blocks that are full: how many, how many of their configuration writes leave a place free before the first that does not, and the old places
// that these spend.
#[derive(Clone, Copy)]
pub(crate) struct Tally {
    pub(crate) blocks: u32,
    pub(crate) free: u32,
    pub(crate) spent: Spent,
}

// The block in hand: how many of its words are used, the rank of its last pair, 0 for none, and the blocks before it.
#[derive(Clone, Copy)]
pub(crate) struct Filling {
    pub(crate) used: usize,
    pub(crate) last: u64,
    pub(crate) tally: Tally,
}

const NOTHING: Filling = Filling {
    used: 0,
    last: 0,
    tally: Tally {
        blocks: 0,
        free: 0,
        spent: UNSPENT,
    },
};

// One block more, whose configuration write leaves so many old places.
#[tactic(auto, unfolding(crate::specs::code::Tally::free_with))]
fn count_block(k: Configuration, tally: Tally, spent: Spent, held: u16) -> Tally
    requires { tally.blocks ≤ blocks_most }
    ensures { result ≡ counted k tally spent held }
{
    let blocks = tally.blocks + 1;
    let taken = held as u32 + k.new_length as u32 + blocks;
    if tally.free == tally.blocks && taken < k.places as u32 {
        return Tally {
            blocks,
            free: blocks,
            spent,
        };
    }
    Tally {
        blocks,
        spent,
        ..tally
    }
}

// One block more, which ends with a pair and is not the last. Once a write leaves no place free, blocks are only counted.
fn close(pass: Pass, tally: Tally, last: u64) -> Tally
    requires blocks_le_blocks_most { tally.blocks ≤ blocks_most }
    requires spends { Spends pass.card.now last tally.spent }
    ensures { Closed pass.entry.card.now tally last result }
{
    if tally.free != tally.blocks {
        return Tally {
            blocks: tally.blocks + 1,
            ..tally
        };
    }
    let k = Configuration::of(pass.card);
    let spent = old::spent_on(pass.card, tally.spent, last);
    count_block(k, tally, spent, k.old_length - spent.count)
}

// The last of a pair and so many of its term behind it, in the words from one on.
fn last_of(card: &[u32], rank: u64, at: usize, more: usize) -> u64
    requires { at + more ≤ length card.now }
    ensures { result ≡ last rank (run_at card.now (term rank) at more) }
{
    if more == 0 {
        return rank;
    }
    let pair = Pair {
        position: card[at + more - 1],
        ..Pair::of_rank(rank)
    };
    pair.rank()
}

// Puts a pair and so many of its term behind it into the block in hand, and those that have no room there into the next.
fn add(pass: Pass, filling: Filling, rank: u64, at: usize, more: usize) -> Filling
    requires { Addable pass.card.now filling rank at more }
    ensures { Added pass.entry.card.now filling rank at more result }
{
    let room = pass.size - filling.used;
    let head = pack::cost(filling.last, rank) - 1;
    let last = last_of(pass.card, rank, at, more);
    if head + more < room {
        return Filling {
            used: filling.used + head + 1 + more,
            last,
            ..filling
        };
    }
    if room <= head {
        return Filling {
            used: ENTRY_WORDS + more,
            last,
            tally: close(pass, filling.tally, filling.last),
        };
    }
    let fit = room - head;
    let end = last_of(pass.card, rank, at, fit - 1);
    Filling {
        used: ENTRY_WORDS + more - fit,
        last,
        tally: close(pass, filling.tally, end),
    }
}

// The block in hand, with the place in the merge at its last pair.
#[derive(Clone, Copy)]
pub(crate) struct Packed {
    pub(crate) filling: Filling,
    pub(crate) place: Merge,
}

// Packs the entries of the old block in hand that follow an entry wholly packed, up to the first that a record may touch.
fn add_entries(pass: Pass, start: Packed) -> Packed
    requires packs { Packs pass.card.now pass.batch.now start.filling start.place.rank }
    requires merges { Merges pass.card.now pass.batch.now start.place }
    ensures { PacksOn pass.entry.card.now pass.entry.batch.now start.place.rank result }
{
    let Packed {
        mut filling,
        mut place,
    } = start;
    if place.old.rank != place.rank || place.rank == 0 {
        return start;
    }
    let bound = batch::quiet_before(pass.batch, pass.reaches, place.decisions, place.rank);
    if bound == 0 {
        return start;
    }
    while place.old.count == 0 && reads_on(&pass.card[..place.old.end], place.old.at) {
        let old = place.old;
        let first = old::entry(pass.card, old.at, old.end, old.place, old.places);
        let whole = old::along(pass.card, first, first.count);
        if bound <= whole.rank || first.rank == 0 {
            break;
        }
        filling = add(pass, filling, first.rank, first.at, first.count);
        place = Merge {
            rank: whole.rank,
            old: whole,
            ..place
        };
    }
    Packed { filling, place }
}

// Packs all that remains.
fn pack_all(pass: Pass) -> Filling
    ensures { PackedAll pass.entry.card.now pass.entry.batch.now result }
{
    let mut place = pass.start();
    let mut filling = NOTHING;
    while let Some(next) = pass.next(place) {
        let more = pass.run(next);
        filling = add(pass, filling, next.rank, next.old.at, more);
        place = pass.along(next, more);
        if pass.reaches.is_empty() && more == next.old.count {
            let packed = add_entries(pass, Packed { filling, place });
            filling = packed.filling;
            place = packed.place;
        }
    }
    filling
}

// The step limit for so many blocks.
fn step_limit(blocks: u32) -> u32
    requires { blocks ≤ blocks_most + 1 }
    ensures { result ≡ limit_for blocks }
{
    if blocks == 0 {
        return 1;
    }
    STEPS_PER_BLOCK * blocks
}

// The answer where all blocks are counted.
#[tactic(auto, unfolding(crate::specs::Forecast::foreseen))]
fn answer(tally: Tally) -> Outlook
    requires { tally.blocks ≤ blocks_most + 1 }
    ensures { told_by result ≡ foreseen tally.blocks (limit_for tally.blocks) tally.free }
{
    let Tally { blocks, free, .. } = tally;
    let limit = step_limit(blocks);
    if free == blocks {
        return Outlook::Finishes { blocks, limit };
    }
    Outlook::Stops {
        blocks,
        limit,
        writes: free,
    }
}

// What the run comes to.
fn look_ahead(pass: Pass) -> Outlook
    ensures { told_by result ≡ outlook pass.entry.card.now (remains pass.entry.card.now pass.entry.batch.now) }
{
    let filling = pack_all(pass);
    if filling.last == 0 {
        return answer(filling.tally);
    }
    answer(count_block(Configuration::of(pass.card), filling.tally, UNSPENT, 0))
}

// What an uncut run of a batch comes to on a card. A table of where the rounds reach to is made only where there are some.
pub fn forecast(card: &[u32], batch: &[u32]) -> Result<Outlook, Refusal>
    ensures { forecast_of result ≡ forecast card.now batch.now }
{
    check(card, batch)?;
    let mut first = [0u32; 1];
    if rounds::fill_reaches(batch, &mut first) == 0 {
        return Ok(look_ahead(Pass::of(card, batch, &first[..0])));
    }
    let mut reaches = [0u32; RECORDS_MOST];
    let count = rounds::fill_reaches(batch, &mut reaches);
    Ok(look_ahead(Pass::of(card, batch, &reaches[..count])))
}
