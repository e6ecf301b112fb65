// The posting reader: the card beside a place in it.

#![tactic(auto)]

ghost use Rattle.std.specs.Prelude.{◌≡◌, ◌<◌, length, IfOk};
ghost use Rattle.std.specs.Result.{result_unwrap_or};
ghost use Rattle.refusal.specs.Refusal.{number_of};
ghost use Rattle.pair.specs.Rank.{word_limit};
ghost use Rattle.found.specs.Found.{found, question_number};
ghost use Rattle.reader.specs.code.Cursor.{left_at, StandsIn};
ghost use Rattle.reader.specs.Reader.{all_yielded, yielded, yield_of, read, ReadOff};

use crate::cursor::{Cursor, open_at, step_at};
use found::Question;
use found::walk::Walk;
use refusal::Refusal;

pub mod cursor; // a place in the card that moves on by one posting at a time

// It carries the number of its question, 0 where that is not refused, and yields the question's postings one after another, then the end for
// ever. Only this crate makes one.
#[derive(Clone, Copy)]
pub struct PostingReader<'a> {
    pub number: u32,
    pub(crate) card: &'a [u32],
    pub(crate) cursor: Cursor,
    ghost stands: { StandsIn card.now cursor },
}

// A reader, and how many postings it has before it.
#[derive(Clone, Copy)]
pub struct Counted<'a> {
    pub count: usize,
    pub reader: PostingReader<'a>,
}

// Judges the card and the question. Refused, the reader carries the number and yields nothing.
pub fn open<'a>(card: &'a [u32], q: Question) -> PostingReader<'a>
    ensures number { result.number ≡ question_number card.now q.term q.from q.to }
    ensures card { result.card ≡ card.entry }
    ensures left { left_at result.card.now result.cursor ≡ all_yielded card.now q.term q.from q.to }
{
    let (number, cursor) = match open_at(card, q) {
        Ok(cursor) => (0, cursor),
        Err(refusal) => (u32::from(refusal), Cursor::before(Walk::EMPTY)),
    };
    PostingReader {
        number,
        card,
        cursor,
    }
}

// Judges the card and the question, and counts the postings before the reader.
pub fn open_counted<'a>(card: &'a [u32], q: Question) -> Result<Counted<'a>, Refusal>
    ensures number { number_of result ≡ question_number card.now q.term q.from q.to }
    ensures count { IfOk result (λ r. (r.count ≡ length (found card.now q.term q.from q.to)) × (r.count < word_limit)) }
    ensures reader_number { IfOk result (λ r. r.reader.number ≡ 0) }
    ensures card { IfOk result (λ r. r.reader.card ≡ card.entry) }
    ensures left { IfOk result (λ r. left_at r.reader.card.now r.reader.cursor ≡ found card.now q.term q.from q.to) }
{
    let counted = q.counted_walk(card)?;
    Ok(Counted {
        count: counted.count,
        reader: PostingReader {
            number: 0,
            card,
            cursor: Cursor::before(counted.walk),
        },
    })
}

impl PostingReader<'_> {
    // Where it stands: step_at goes on from there.
    pub fn cursor(&self) -> Cursor
        ensures { result ≡ self.now.cursor }
    {
        self.cursor
    }
}

impl<'a> Iterator for PostingReader<'a> {
    ghost use Rattle.std.specs.Iterator.{item_count};
    ghost use Rattle.reader.specs.code.PostingReader.{left_in, ReaderStep};

    type Item = u32;

    ghost next_gives = { ReaderStep };

    ghost remaining = { item_count left_in };

    // The next posting, or the end; nothing is judged.
    #[inline]
    fn next(&mut self) -> Option<u32> {
        step_at(self.card, &mut self.cursor)
    }
}

// What a reader of the question yields after n others. Its contract speaks of no reader, so whoever calls it needs no walk by hand.
pub fn posting(card: &[u32], q: Question, n: usize) -> Option<u32>
    ensures { yield_of result ≡ yielded card.now q.term q.from q.to n }
{
    open(card, q).nth(n)
}

// Opens a reader and reads the first postings, as many as there are answer words. Answers how many.
pub fn read(card: &[u32], q: Question, answer: &mut [u32]) -> Result<usize, Refusal>
    ensures { ReadOff (number_of result) (result_unwrap_or result 0) answer.new (read card.now q.term q.from q.to answer.old) }
{
    let cursor = open_at(card, q)?;
    let mut reader = PostingReader {
        number: 0,
        card,
        cursor,
    };
    for (count, word) in answer.iter_mut().enumerate() {
        match reader.next() {
            Some(position) => *word = position,
            None => return Ok(count),
        }
    }
    Ok(answer.len())
}
