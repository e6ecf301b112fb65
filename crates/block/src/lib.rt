// A block of words: entries of a term, a count and that many positions.

#![tactic(auto)]

ghost use Rattle.std.specs.Prelude.{◌≡◌, ◌≤◌, length, drop};
ghost use Rattle.pair.specs.Rising.{rising_from};
ghost use Rattle.block.specs.Block.{zeros};
ghost use Rattle.block.specs.code.Scan.{entry_stands, scanned};

use pair::Pair;

// The ranks of the first and the last pair of a live block.
#[derive(Clone, Copy)]
pub struct Ends {
    pub first: u64,
    pub last: u64,
}

// Whether each position is greater than the one before, and the first greater than 0.
#[tactic(auto, using(crate::proofs::Walk::rise))]
fn rises(positions: &[u32]) -> bool
    ensures { result ≡ rising_from 0 positions.now }
{
    let mut ok = true;
    let mut before: u32 = 0;
    for &position in positions {
        ok = ok & (before < position);
        before = position;
    }
    ok
}

// Whether every word is 0. It goes over all of them, so that it is vectorised.
fn is_zero(words: &[u32]) -> bool
    ensures { result ≡ zeros words.now }
{
    let mut ok = true;
    for &word in words {
        ok = ok & (word == 0);
    }
    ok
}

// Whether an entry that goes on from the term stands at i: three words remain, its term is greater, and its positions are there.
#[tactic(auto, unfolding(crate::specs::code::Scan::entry_stands))]
fn entry_stands(words: &[u32], i: usize, term: u32) -> bool
    requires { i ≤ length words.now }
    ensures { result ≡ entry_stands term (drop i words.now) }
{
    let after = i + 2;
    after < words.len()
        && term < words[i]
        && 0 < words[i + 1]
        && words[i + 1] as usize <= words.len() - after
}

// Goes over the words of a block once; none where they are no live block. An entry that does not stand ends the walk as the zeros do, and what follows is then not all 0.
#[tactic(auto, using(crate::proofs::Scanning::scan))]
pub fn scan(words: &[u32]) -> Option<Ends>
    ensures { result ≡ scanned words.now }
{
    if !entry_stands(words, 0, 0) {
        return None;
    }
    let mut ok = true;
    let mut i: usize = 0;
    let mut term: u32 = 0;
    let mut position: u32 = 0;
    while entry_stands(words, i, term) {
        let start = i + 2;
        let end = start + words[i + 1] as usize;
        ok = ok & rises(&words[start..end]);
        term = words[i];
        position = words[end - 1];
        i = end;
    }
    if !(ok & is_zero(&words[i..])) {
        return None;
    }
    let first = Pair {
        term: words[0],
        position: words[2],
    };
    let last = Pair { term, position };
    Some(Ends {
        first: first.rank(),
        last: last.rank(),
    })
}
