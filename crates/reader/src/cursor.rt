// The posting reader's work on a plain slice and a cursor: a place in the card that moves on by one posting at a time.
ghost use Rattle.std.specs.Prelude.{◌≡◌, [], IfOk, IfSome, IsNone};
ghost use Rattle.refusal.specs.Refusal.{number_of};
ghost use Rattle.found.specs.Found.{found, question_number};
ghost use Rattle.found.specs.code.Walk.{ReadyWalk, ahead};
ghost use Rattle.reader.specs.code.Cursor.{CursorAt, NextInHand, CursorStep};

use found::Question;
use found::walk::Walk;
use refusal::Refusal;

// A place in a card: the postings that are left of a run, and the walk behind it. Only this crate makes one.
#[derive(Clone, Copy)]
pub struct Cursor {
    pub(crate) at: usize,
    pub(crate) left: usize,
    pub(crate) walk: Walk,
}

impl Cursor {
    // The place before a walk.
    pub(crate) fn before(walk: Walk) -> Cursor
        ensures { result ≡ record { at = 0; left = 0; walk = walk } }
    {
        Cursor {
            at: 0,
            left: 0,
            walk,
        }
    }
}

// Judges the card and the question. The cursor stands before the question's postings.
pub(crate) fn open_at(card: &[u32], q: Question) -> Result<Cursor, Refusal>
    ensures number { number_of result ≡ question_number card.now q.term q.from q.to }
    ensures cursor { IfOk result (λ k. CursorAt card.now k (found card.now q.term q.from q.to)) }
{
    let walk = q.walk(card)?;
    Ok(Cursor::before(walk))
}

// The cursor before the next run of a walk. It is called once a run, and kept out of the way of the steps within one.
#[cold]
fn run_at(card: &[u32], walk: Walk) -> Option<Cursor>
    ensures some { IfSome result (NextInHand card.now walk) }
    ensures none { IsNone result → ReadyWalk card.now walk → ahead card.now walk ≡ [] }
{
    let mut behind = walk;
    let run = behind.next_run(card)?;
    Some(Cursor {
        at: run.start,
        left: run.len,
        walk: behind,
    })
}

// One posting, or the end, and on to the place behind it; nothing is judged. At the end the walk is left without blocks, so that a further step
// reads none of the card's.
#[inline]
pub fn step_at(card: &[u32], cursor: &mut Cursor) -> Option<u32>
    ensures { CursorStep card.now cursor.old result cursor.new }
{
    if cursor.left == 0 {
        let Some(next) = run_at(card, cursor.walk) else {
            cursor.walk = Walk::EMPTY;
            return None;
        };
        *cursor = next;
    }
    let Some(&position) = card.get(cursor.at) else {
        return None; // a cursor of another card
    };
    cursor.at += 1;
    cursor.left -= 1;
    Some(position)
}
