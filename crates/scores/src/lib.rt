// The outcome of a scorekeepers' file: its batch taken through a pass on a fresh card, and the line that is printed of it.

#![tactic(auto)]

ghost use Rattle.std.specs.Prelude.{◌≡◌, ◌<◌, ◌≤◌, length};
ghost use Rattle.std.proofs.lemmas.List.Edits.{sets};
ghost use Rattle.pair.specs.Rank.{word_limit};
ghost use Rattle.card.specs.Sound.{judged};
ghost use Rattle.scores.specs.Outcome.{ended, told, steps_most, pass, outcome, printed_line, printed};

use lines::BATCH_WORDS;
use refusal::Refusal;

// The sizes of the card, and its words.
const BLOCK_WORDS: u32 = 8;

const PLACES: u32 = 6;

const CARD_WORDS: usize = 68;

// The most bytes of the line that is printed: a letter, a tab, ten figures and a line feed.
pub const LINE_BYTES: usize = 13;

// Steps with a batch until the pass finishes or a step is refused, and answers how many steps it took.
fn run_pass(card: &mut [u32], batch: &[u32]) -> Result<u32, Refusal>
    requires batch_bound { steps_most card.old batch.now < word_limit }
    requires card_value { judged card.old ≡ 0 }
    ensures { told result ≡ pass card.old batch.now }
{
    let mut steps: u32 = 0;
    loop {
        let written = update::step(card, batch)?;
        steps += 1;
        if written.is_finished() {
            return Ok(steps);
        }
    }
}

// How a file ends: the steps of the pass that finished, or why it is refused.
pub fn outcome_of(bytes: &[u8]) -> Result<u32, Refusal>
    ensures { told result ≡ outcome bytes.now }
{
    let mut batch = [0u32; BATCH_WORDS];
    let words = lines::read_batch(bytes, &mut batch)?;
    let mut card = [0u32; CARD_WORDS];
    card::format(&mut card, BLOCK_WORDS, PLACES)?;
    run_pass(&mut card, &batch[..words])
}

// Writes a letter, a tab, the figures of a number and a line feed, and answers how many bytes these are.
fn put_line(line: &mut [u8; LINE_BYTES], letter: u8, n: u32) -> usize
    ensures value { (result ≡ length (printed_line letter n)) × (line.new ≡ sets line.old 0 (printed_line letter n)) }
    ensures upper_bound { result ≤ 13 }
{
    line[0] = letter;
    line[1] = b'\t';
    figures::put_number(line, 2, n);
    let end = 2 + figures::figure_count(n);
    line[end] = b'\n';
    end + 1
}

// Writes the line that is printed of an outcome, a count of steps or any number, and answers how many bytes it has.
pub fn put_outcome(line: &mut [u8; LINE_BYTES], outcome: Result<u32, u32>) -> usize
    ensures value { (result ≡ length (printed (ended outcome))) × (line.new ≡ sets line.old 0 (printed (ended outcome))) }
    ensures upper_bound { result ≤ 13 }
{
    match outcome {
        Ok(steps) => put_line(line, b'D', steps),
        Err(number) => put_line(line, b'N', number),
    }
}

// Writes the line that is printed of a file, and answers how many bytes it has.
pub fn put_outcome_of(line: &mut [u8; LINE_BYTES], bytes: &[u8]) -> usize
    ensures value { (result ≡ length (printed (outcome bytes.now))) × (line.new ≡ sets line.old 0 (printed (outcome bytes.now))) }
    ensures upper_bound { result ≤ 13 }
{
    match outcome_of(bytes) {
        Ok(steps) => put_outcome(line, Ok(steps)),
        Err(refusal) => put_outcome(line, Err(u32::from(refusal))),
    }
}
