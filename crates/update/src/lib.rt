// One step of a pass: the due block, its map entry, or the configuration words are written, the first of these that differs.

#![tactic(auto)]

ghost use Rattle.std.specs.Prelude.{◌≡◌, ◌+◌, ◌≤◌, length, replicate, OnOk};
ghost use Rattle.std.proofs.lemmas.List.Edits.{sets};
ghost use Rattle.refusal.specs.Refusal.{number_of};
ghost use Rattle.pair.specs.Rank.{Proper};
ghost use Rattle.pair.specs.Rising.{Each};
ghost use Rattle.card.specs.Layout.{block_size};
ghost use Rattle.card.specs.Sound.{judged};
ghost use Rattle.card.specs.code.Configuration.{put, Ordered};
ghost use Rattle.batch.specs.Batch.{batch_number};
ghost use Rattle.update.specs.Step.{remains, step};
ghost use Rattle.update.specs.Answer.{write_number, freed_by, finished_by, IsAnswer};
ghost use Rattle.update.specs.Forecast.{forecast_number};
ghost use Rattle.update.specs.code.Due.{DueOf};
ghost use Rattle.update.specs.code.Plan.{Freed, followed, settling, Planned};

use batch::{RECORDS_MOST, rounds};
use card::layout;
use card::layout::{CONFIGURATION_WORDS, Configuration};
use due::Due;
use merge::Pass;
use pack::WORDS_MOST;
use refusal::Refusal;

mod due;
pub mod forecast;
mod merge;
mod old;

// The words of a pair.
const PAIR_WORDS: usize = 2;

// The write that a step made: the due block, its map entry, or the configuration words, with how many old places they free and whether the pass
// finishes with them.
#[derive(Clone, Copy, Debug, PartialEq, Eq)]
pub enum Written {
    Block,
    MapEntry,
    Configuration { freed: u32, finished: bool },
}

impl Written {
    // Which of the three writes it is: 1, 2 or 3.
    pub fn number(self) -> u32
        ensures { result ≡ write_number self }
    {
        match self {
            Written::Block => 1,
            Written::MapEntry => 2,
            Written::Configuration { .. } => 3,
        }
    }

    // How many old places it frees.
    pub fn freed(self) -> u32
        ensures { result ≡ freed_by self }
    {
        match self {
            Written::Configuration { freed, .. } => freed,
            _ => 0,
        }
    }

    // Whether the pass finishes with it.
    pub fn is_finished(self) -> bool
        ensures { result ≡ finished_by self }
    {
        match self {
            Written::Configuration { finished, .. } => finished,
            _ => false,
        }
    }
}

// How many old places the configuration write frees.
fn freed(card: &[u32], k: Configuration, due: Due) -> u16
    requires card_value { judged card.now ≡ 0 }
    requires ordered { Ordered card.now k }
    ensures { Freed card.now due result }
{
    if due.more {
        return old::spent_from(card, 0, due.last).count;
    }
    k.old_length
}

// The configuration that the configuration write sets.
#[tactic(auto, unfolding(crate::specs::code::Plan::followed))]
fn following(k: Configuration, due: Due, freed: u16, grown: u16) -> Configuration
    requires { freed ≤ k.old_length }
    ensures { result ≡ followed k due freed grown }
{
    let old_start = k.place_on(k.old_start, freed);
    if due.more {
        return Configuration {
            old_start,
            old_length: k.old_length - freed,
            new_length: grown,
            boundary: due.last,
            ..k
        };
    }
    Configuration {
        old_start,
        old_length: grown,
        new_length: 0,
        boundary: 0,
        ..k
    }
}

// A write: where in the card it stands, how many words it has, and which it is.
#[derive(Clone, Copy)]
struct WritePlan {
    start: usize,
    count: usize,
    written: Written,
}

// Plans the configuration write.
fn settle(words: &mut [u32], k: Configuration, due: Due, freed: u16, grown: u16) -> WritePlan
    requires { freed ≤ k.old_length }
    ensures plan { result ≡ settling due freed }
    ensures words { words.new ≡ put words.old (followed k due freed grown) }
{
    following(k, due, freed, grown).put(words);
    WritePlan {
        start: 0,
        count: CONFIGURATION_WORDS,
        written: Written::Configuration {
            freed: freed as u32,
            finished: !due.more,
        },
    }
}

// Plans the next write for a due block, whose words become the write's, or refuses.
#[tactic(auto, using(crate::proofs::Plans::large))]
fn plan(card: &[u32], k: Configuration, words: &mut [u32], due: Due) -> Result<WritePlan, Refusal>
    requires card_value { judged card.now ≡ 0 }
    requires ordered { Ordered card.now k }
    requires words_len { length words.old ≡ block_size card.now }
    ensures { Planned card.now words.old due words.new result }
{
    let freed = freed(card, k, due);
    if due.used == 0 {
        return Ok(settle(words, k, due, freed, k.new_length));
    }
    let grown = k.new_length + 1;
    if k.places <= k.old_length - freed + grown {
        return Err(Refusal::Crowded);
    }
    let place = k.due_place();
    if layout::place(card, place) != &*words {
        return Ok(WritePlan {
            start: layout::place_start(card, place),
            count: words.len(),
            written: Written::Block,
        });
    }
    words[1] = words[2]; // the first pair: its term, and its position after the entry's count
    if layout::entry(card, place) != &words[..PAIR_WORDS] {
        return Ok(WritePlan {
            start: layout::entry_start(card, place),
            count: PAIR_WORDS,
            written: Written::MapEntry,
        });
    }
    Ok(settle(words, k, due, freed, grown))
}

// Fills words, which are 0 at first, with the due block. A table of where the batch's rounds reach to is made only where there are some.
fn fill_due(card: &[u32], batch: &[u32], words: &mut [u32]) -> Due
    requires card_value { judged card.now ≡ 0 }
    requires batch_value { batch_number batch.now ≡ 0 }
    requires words_value { words.old ≡ replicate (block_size card.now) 0 }
    ensures due { DueOf card.now batch.now words.new result }
    ensures pairs { Each Proper (remains card.now batch.now) }
{
    let mut first = [0u32; 1];
    if rounds::fill_reaches(batch, &mut first) == 0 {
        return due::fill(Pass::of(card, batch, &first[..0]), words);
    }
    let mut reaches = [0u32; RECORDS_MOST];
    let count = rounds::fill_reaches(batch, &mut reaches);
    due::fill(Pass::of(card, batch, &reaches[..count]), words)
}

// Writes words over those of the card from one on. The library's copy would call memcpy of the C library, and so would this loop as a part
// of a step, where the words are its own.
#[inline(never)]
fn write(card: &mut [u32], at: usize, words: &[u32])
    requires { at + length words.now ≤ length card.old }
    ensures { card.new ≡ sets card.old at words.now }
{
    for i in 0..words.len() {
        card[at + i] = words[i];
    }
}

// Refuses a card that is not sound, and a batch that is not in order.
fn check(card: &[u32], batch: &[u32]) -> Result<(), Refusal>
    ensures number { number_of result ≡ forecast_number card.now batch.now }
    ensures sound { OnOk result (judged card.now ≡ 0) }
    ensures in_order { OnOk result (batch_number batch.now ≡ 0) }
{
    judge::judge(card)?;
    batch::check(batch)
}

// One step of a pass over a card with a batch.
pub fn step(card: &mut [u32], batch: &[u32]) -> Result<Written, Refusal>
    ensures answer { IsAnswer (step card.old batch.now) result }
    ensures card { card.new ≡ (step card.old batch.now).card }
{
    check(card, batch)?;
    let k = Configuration::of(card);
    let mut buffer = [0u32; WORDS_MOST];
    let words = &mut buffer[..k.size as usize];
    let due = fill_due(card, batch, words);
    let plan = plan(card, k, words, due)?;
    write(card, plan.start, &words[..plan.count]);
    Ok(plan.written)
}
