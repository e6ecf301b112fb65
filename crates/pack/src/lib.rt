// A block in hand: pairs are put into its words one after the other.

#![tactic(auto)]

ghost use Rattle.std.specs.Prelude.{◌≡◌, ◌⊎◌, true, length};
ghost use Rattle.pair.specs.Rank.{term};
ghost use Rattle.block.specs.Block.{cost};
ghost use Rattle.pack.specs.code.Packing.{Room, has_room, put_words, put};

use pair::Pair;

// The words that a pair of a new term and one of the term in hand cost.
const ENTRY_COST: usize = 3;

const POSITION_COST: usize = 1;

// The most words of a block.
pub const WORDS_MOST: usize = 1024;

// How many words are used, the rank of the last pair, 0 for none, and where its term's count stands.
#[derive(Clone, Copy)]
pub struct Packing {
    pub used: usize,
    pub last: u64,
    pub count: usize,
}

pub const EMPTY: Packing = Packing {
    used: 0,
    last: 0,
    count: 0,
};

// What a pair costs after another.
pub fn cost(last: u64, rank: u64) -> usize
    ensures value { result ≡ cost (term last) rank }
    ensures either { (result ≡ 1) ⊎ (result ≡ 3) }
{
    let before = Pair::of_rank(last);
    let pair = Pair::of_rank(rank);
    if pair.term == before.term {
        return POSITION_COST;
    }
    ENTRY_COST
}

// Whether a pair has room in so many words.
#[tactic(auto, unfolding(crate::specs::code::Packing::has_room))]
fn has_room(words: usize, packing: Packing, rank: u64) -> bool
    ensures value { result ≡ has_room words packing rank }
    ensures room { result ≡ true → Room words packing rank }
{
    let Packing { used, last, count } = packing;
    let cost = cost(last, rank);
    words <= WORDS_MOST
        && used <= words
        && cost <= words - used
        && (cost == ENTRY_COST || count < used)
}

// Puts a pair into the words, if it has room.
#[tactic(auto, unfolding(crate::specs::code::Packing::put_words, crate::specs::code::Packing::put, crate::specs::code::Packing::packing_with))]
pub fn put(words: &mut [u32], packing: Packing, rank: u64) -> Option<Packing>
    ensures words { words.new ≡ put_words words.old packing rank }
    ensures packing { result ≡ put (length words.old) packing rank }
{
    if !has_room(words.len(), packing, rank) {
        return None;
    }
    let Packing { used, last, count } = packing;
    let pair = Pair::of_rank(rank);
    if cost(last, rank) == POSITION_COST {
        words[used] = pair.position;
        words[count] = (used - count) as u32;
        return Some(Packing {
            used: used + POSITION_COST,
            last: rank,
            count,
        });
    }
    words[used] = pair.term;
    words[used + 1] = 1;
    words[used + 2] = pair.position;
    Some(Packing {
        used: used + ENTRY_COST,
        last: rank,
        count: used + 1,
    })
}
