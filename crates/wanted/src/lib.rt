// The wanted positions of a term, those above one position and at most another, as a part of the words that hold them.

#![tactic(auto)]

ghost use Rattle.std.specs.Prelude.{◌≡◌, drop};
ghost use Rattle.block.specs.code.Scan.{reads_on};
ghost use Rattle.wanted.specs.code.Wanted.{UpTo, EntryPart, BlockPart};

// A part of some words: where it starts and how many words it has.
#[derive(Clone, Copy)]
pub struct Part {
    pub start: usize,
    pub len: usize,
}

// The empty part.
const NOTHING: Part = Part { start: 0, len: 0 };

// How many of the rising positions are at most the bound. None or all are told by the first or the last of them alone.
#[tactic(auto, using(crate::proofs::Wanting::halving))]
pub fn up_to(positions: &[u32], bound: u32) -> usize
    ensures { UpTo positions.now bound result }
{
    let len = positions.len();
    if len == 0 || bound < positions[0] {
        return 0;
    }
    if positions[len - 1] <= bound {
        return len;
    }
    let mut low: usize = 0;
    let mut high: usize = len;
    while low < high {
        let middle = low + (high - low) / 2;
        if positions[middle] <= bound {
            low = middle + 1;
        } else {
            high = middle;
        }
    }
    low
}

// The walk over one entry: where its wanted positions start, which is how many of its positions stand before them, and how many they are.
#[tactic(auto, using(crate::proofs::Wanting::entry_counts))]
fn entry_part(positions: &[u32], after: u32, to: u32) -> Part
    ensures { EntryPart positions.now after to result }
{
    let start = up_to(positions, after);
    let end = up_to(positions, to);
    Part {
        start,
        len: end.saturating_sub(start),
    }
}

// Whether another entry is to be read at i: three words remain, and the next is not 0.
#[tactic(auto, unfolding(block::specs::code::Scan::reads_on))]
pub fn reads_on(words: &[u32], i: usize) -> bool
    ensures { result ≡ reads_on (drop i words.now) }
{
    2 < words.len().saturating_sub(i) && words[i] != 0
}

// The wanted positions of a block: it goes from entry to entry, to the first whose term is not below the wanted one.
#[tactic(auto, using(crate::proofs::Seeking::seek), unfolding(pair::specs::Rank::Words))]
pub fn block_part(words: &[u32], term: u32, after: u32, to: u32) -> Part
    ensures { BlockPart words.now term after to result }
{
    let mut i: usize = 0;
    while reads_on(words, i) {
        let next = words[i];
        let count = words[i + 1] as usize;
        let start = i + 2;
        let room = words.len() - start;
        if room < count {
            return NOTHING;
        }
        if term < next {
            return NOTHING;
        }
        let end = start + count;
        if next == term {
            let found = entry_part(&words[start..end], after, to);
            return Part {
                start: start + found.start,
                ..found
            };
        }
        i = end;
    }
    NOTHING
}
