// The C functions of the game index: numbers and word slices over the crates below. include/gameindex.h declares them.

#![tactic(auto)]

ghost use Rattle.std.specs.Prelude.{◌≡◌};
ghost use Rattle.card.specs.Layout.{format_number, formatted};
ghost use Rattle.card.specs.Sound.{judged};
ghost use Rattle.span.specs.Span.{write_span};
ghost use Rattle.update.specs.Step.{step};
ghost use Rattle.update.specs.Forecast.{forecast};
ghost use Rattle.pair.specs.Bounds.{lowest, highest};
ghost use Rattle.gameindex.specs.Flat.{Stepped, Foretold, Spanned, Filled, LookedUp, Paged, ReadScores};
ghost use Rattle.found.specs.Found.{lookup};
ghost use Rattle.found.specs.Views.{Viewed};
ghost use Rattle.reader.specs.Reader.{read, ReadOff};
ghost use Rattle.page.specs.Page.{printed};
ghost use Rattle.lines.specs.Lines.{scored};

use found::Question;
use lookup::Found;
use refusal::{Refusal, number_of};
use update::forecast;

// Formats a card; the reply is the number, 0 where it is done.
#[unsafe(no_mangle)]
pub extern "C" fn gi_format(card: &mut [u32], b: u32, n: u32) -> u32
    ensures { (result ≡ format_number card.old b n) × (card.new ≡ formatted card.old b n) }
{
    number_of(card::format(card, b, n))
}

// Judges a card; the reply is the number, 0 for a sound card.
#[unsafe(no_mangle)]
pub extern "C" fn gi_judge(card: &[u32]) -> u32
    ensures { result ≡ judged card.now }
{
    number_of(judge::judge(card))
}

// One step of a pass; the reply is the number, 0 where a write was made. The write, the old places freed and whether the pass finished are filled in.
#[unsafe(no_mangle)]
pub extern "C" fn gi_step(
    card: &mut [u32],
    batch: &[u32],
    write: &mut u32,
    freed: &mut u32,
    finished: &mut u32,
) -> u32
    ensures { Stepped result write.new freed.new finished.new card.new (step card.old batch.now) }
{
    match update::step(card, batch) {
        Ok(written) => {
            *write = written.number();
            *freed = written.freed();
            *finished = u32::from(written.is_finished());
            0
        }
        Err(refusal) => {
            *write = 0;
            *freed = 0;
            *finished = 0;
            refusal.into()
        }
    }
}

// What an uncut run of a batch comes to; the reply is the number, 0 where it is told. How many blocks what remains fills, the step limit, whether
// the pass finishes and the configuration writes before number 8 are filled in.
#[unsafe(no_mangle)]
pub extern "C" fn gi_forecast(
    card: &[u32],
    batch: &[u32],
    blocks: &mut u32,
    limit: &mut u32,
    finishes: &mut u32,
    writes: &mut u32,
) -> u32
    ensures { Foretold result blocks.new limit.new finishes.new writes.new (forecast card.now batch.now) }
{
    match forecast::forecast(card, batch) {
        Ok(outlook) => {
            *blocks = outlook.blocks();
            *limit = outlook.limit();
            *finishes = u32::from(outlook.is_finishing());
            *writes = outlook.writes();
            0
        }
        Err(refusal) => {
            *blocks = 0;
            *limit = 0;
            *finishes = 0;
            *writes = 0;
            refusal.into()
        }
    }
}

// Where a write of a step stands in the card that the step left; the reply is the number, 0 where it is done. The first word and the count of words go behind the last two references.
#[unsafe(no_mangle)]
pub extern "C" fn gi_write_span(
    card: &[u32],
    write: u32,
    start: &mut usize,
    count: &mut usize,
) -> u32
    ensures { Spanned result start.new count.new (write_span card.now write) }
{
    match span::write_span(card, write) {
        Ok(span) => {
            *start = span.start;
            *count = span.count;
            0
        }
        Err(refusal) => {
            *start = 0;
            *count = 0;
            refusal.into()
        }
    }
}

// The number of a lookup's answer; the count of positions and of blocks read go behind the references.
fn fill(answer: Result<Found, Refusal>, found: &mut u32, blocks: &mut u32) -> u32
    ensures { Filled result found.new blocks.new answer }
{
    match answer {
        Ok(
            Found {
                count,
                blocks: read,
            },
        ) => {
            *found = count;
            *blocks = read;
            0
        }
        Err(refusal) => {
            *found = 0;
            *blocks = 0;
            refusal.into()
        }
    }
}

// Looks a term up; the reply is the number, 0 where it is done. The count of positions and of blocks read go behind the last two references.
#[unsafe(no_mangle)]
pub extern "C" fn gi_lookup(
    card: &[u32],
    term: u32,
    from: u32,
    to: u32,
    answer: &mut [u32],
    found: &mut u32,
    blocks: &mut u32,
) -> u32
    ensures { LookedUp result found.new blocks.new answer.new (lookup card.now term from to answer.old) }
{
    let reply = lookup::lookup(card, Question { term, from, to }, answer);
    fill(reply, found, blocks)
}

// Looks up all positions of a term, from the lowest pair's to the highest pair's; the reply and the counts are those of the lookup.
#[unsafe(no_mangle)]
pub extern "C" fn gi_lookup_all(
    card: &[u32],
    term: u32,
    answer: &mut [u32],
    found: &mut u32,
    blocks: &mut u32,
) -> u32
    ensures { LookedUp result found.new blocks.new answer.new (lookup card.now term lowest.position highest.position answer.old) }
{
    let whole = lookup::lookup_all(card, term, answer);
    fill(whole, found, blocks)
}

// Finds the positions of the first block that has any; the reply is the number, 0 where it is done. Where in the card they start and how many they are go behind the last two references.
#[unsafe(no_mangle)]
pub extern "C" fn gi_run_view(
    card: &[u32],
    term: u32,
    from: u32,
    to: u32,
    start: &mut usize,
    found: &mut usize,
) -> u32
    ensures { Viewed card.now term from to result start.new found.new }
{
    match lookup::run_part(card, Question { term, from, to }) {
        Ok(part) => {
            *start = part.start;
            *found = part.len;
            0
        }
        Err(refusal) => {
            *start = 0;
            *found = 0;
            refusal.into()
        }
    }
}

// Reads the first positions of a question, as many as there are answer words; the reply is the number, 0 where it is done. The count of positions goes behind the last reference.
#[unsafe(no_mangle)]
pub extern "C" fn gi_read(
    card: &[u32],
    term: u32,
    from: u32,
    to: u32,
    answer: &mut [u32],
    found: &mut usize,
) -> u32
    ensures { ReadOff result found.new answer.new (read card.now term from to answer.old) }
{
    match reader::read(card, Question { term, from, to }, answer) {
        Ok(postings) => {
            *found = postings;
            0
        }
        Err(refusal) => {
            *found = 0;
            refusal.into()
        }
    }
}

// Writes the page of a question into the first bytes of the memory; the reply is the number, 0 where it is done. The count of lines goes behind the last reference.
#[unsafe(no_mangle)]
pub extern "C" fn gi_page(
    card: &[u32],
    term: u32,
    from: u32,
    to: u32,
    memory: &mut [u8],
    lines: &mut u32,
) -> u32
    ensures { Paged result lines.new memory.new (printed card.now term from to memory.old) }
{
    match page::page(card, Question { term, from, to }, memory) {
        Ok(count) => {
            *lines = count;
            0
        }
        Err(refusal) => {
            *lines = 0;
            refusal.into()
        }
    }
}

// Reads a scorekeepers' file into the first batch words; the reply is the number, 0 where it is done. The words of the batch and the line that earned a number 12 or 13 go behind the last two references.
#[unsafe(no_mangle)]
pub extern "C" fn gi_scores(
    bytes: &[u8],
    batch: &mut [u32],
    words: &mut usize,
    line: &mut usize,
) -> u32
    ensures { ReadScores result words.new line.new batch.new (scored bytes.now batch.old) }
{
    let (count, earned, number) = match lines::read_batch(bytes, batch) {
        Ok(count) => (count, 0, 0),
        Err(fault) => (0, fault.line, fault.refusal.into()),
    };
    *words = count;
    *line = earned;
    number
}
