// Looking up a term in a range of positions.

#![tactic(auto)]

ghost use Rattle.std.specs.Prelude.{◌≡◌, ◌+◌, ◌*◌, ◌≤◌, length};
ghost use Rattle.std.proofs.lemmas.List.Edits.{sets};
ghost use Rattle.refusal.specs.Refusal.{number_of};
ghost use Rattle.pair.specs.Bounds.{lowest, highest};
ghost use Rattle.found.specs.Found.{question_number, lookup};
ghost use Rattle.found.specs.code.Walk.{ahead_of, ahead, Ready, ReadyWalk};
ghost use Rattle.found.specs.Views.{run, run_start, Viewed};
ghost use Rattle.lookup.specs.Answer.{Answered, part_of};

use found::Question;
use found::walk::{Stretch, Walk, WalkCount, place_part};
use pair::Pair;
use refusal::Refusal;
use wanted::Part;

// What a lookup found: so many positions, in so many blocks that were read.
#[derive(Clone, Copy)]
pub struct Found {
    pub count: u32,
    pub blocks: u32,
}

// Moves words to as many others. The library's copy would call memmove of the C library, which nothing here needs.
fn move_words(words: &[u32], answer: &mut [u32])
    requires { length answer.old ≡ length words.now }
    ensures { answer.new ≡ words.now }
{
    for j in 0..words.len() {
        answer[j] = words[j];
    }
}

// Moves the wanted positions of a stretch to the answer words from one on; the word behind them.
fn copy_stretch(
    card: &[u32],
    term: u32,
    to: u32,
    s: Stretch,
    answer: &mut [u32],
    at: usize,
) -> usize
    requires ready { Ready card.now s }
    requires answer_in_bounds { at + length (ahead_of card.now term to s) ≤ length answer.old }
    ensures word { result ≡ at + length (ahead_of card.now term to s) }
    ensures answer { answer.new ≡ sets answer.old at (ahead_of card.now term to s) }
{
    let mut rest = s;
    let mut next = at;
    while let Some(place) = rest.next_place(card) {
        let Part { start, len } = place_part(card, place, term, rest.after, to);
        move_words(&card[start..start + len], &mut answer[next..next + len]);
        next += len;
    }
    next
}

// Moves the wanted positions that are ahead to the first answer words.
fn copy_ahead(card: &[u32], walk: Walk, answer: &mut [u32])
    requires ready { ReadyWalk card.now walk }
    requires answer_in_bounds { length (ahead card.now walk) ≤ length answer.old }
    ensures { answer.new ≡ sets answer.old 0 (ahead card.now walk) }
{
    let moved = copy_stretch(card, walk.term, walk.to, walk.new, answer, 0);
    copy_stretch(card, walk.term, walk.to, walk.old, answer, moved);
}

// Writes the live positions that a question asks for into the first answer words.
pub fn lookup(card: &[u32], q: Question, answer: &mut [u32]) -> Result<Found, Refusal>
    ensures { Answered (lookup card.now q.term q.from q.to answer.old) result answer.new }
{
    let WalkCount { walk, count } = q.counted_walk(card)?;
    if answer.len() < count {
        return Err(Refusal::TooFewWords);
    }
    copy_ahead(card, walk, answer);
    Ok(Found {
        count: count as u32,
        blocks: walk.new.blocks as u32 + walk.old.blocks as u32,
    })
}

// The lookup of all positions of a term: from the lowest pair's to the highest pair's.
pub fn lookup_all(card: &[u32], term: u32, answer: &mut [u32]) -> Result<Found, Refusal>
    ensures { Answered (lookup card.now term lowest.position highest.position answer.old) result answer.new }
{
    let q = Question {
        term,
        from: Pair::LOWEST.position,
        to: Pair::HIGHEST.position,
    };
    lookup(card, q, answer)
}

// The part of the card that has the wanted live positions of the first block that has any, new segment before old; an empty part where none has.
pub fn run_part(card: &[u32], q: Question) -> Result<Part, Refusal>
    ensures { Viewed card.now q.term q.from q.to (number_of result) (part_of result).start (part_of result).len }
{
    let mut walk = q.walk(card)?;
    match walk.next_run(card) {
        Some(part) => Ok(part),
        None => Ok(Part { start: 0, len: 0 }),
    }
}

// The number of a run view.
pub fn run_view_number(card: &[u32], q: Question) -> u32
    ensures { result ≡ question_number card.now q.term q.from q.to }
{
    refusal::number_of(q.check(card))
}

// The run view as a part of the card itself.
pub fn run_view(card: &[u32], q: Question) -> &[u32]
    ensures result_value { result.now ≡ run card.now q.term q.from q.to }
    ensures ref_ptr_value { result.ref_ptr ≡ (card.entry.ref_ptr.0, run_start card.now q.term q.from q.to * 4 + card.entry.ref_ptr.1) }
{
    let Ok(part) = run_part(card, q) else {
        return &card[0..0];
    };
    &card[part.start..part.start + part.len]
}
