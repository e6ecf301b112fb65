// The scorekeepers' file: lines of text, one record a line, and the batch that it makes.

#![tactic(auto)]

ghost use Rattle.std.specs.Prelude.{◌≡◌, ◌+◌, ◌*◌, ◌≤◌, [], ◌∷◌, length, IfOk, IfErr};
ghost use Rattle.std.proofs.lemmas.List.Edits.{sets};
ghost use Rattle.batch.specs.Batch.{record_words, records_most};
ghost use Rattle.lines.specs.Lines.{scored};
ghost use Rattle.lines.specs.code.Gathering.{kind_number, Gathers, HasFault, answered};

use line::{Record, read_line};
use refusal::Refusal;

mod line; // a line and its record

// The words of a record, the first word of its key, and the most records and words of a batch.
const RECORD_WORDS: usize = 5;

const KEY: usize = 1;

const RECORDS_MOST: usize = batch::RECORDS_MOST;

pub const BATCH_WORDS: usize = RECORD_WORDS * batch::RECORDS_MOST;

const LINE_FEED: u8 = b'\n';

// The bytes that settle any file: 4,097 lines of at most 34 bytes and a line feed.
pub const SETTLING_BYTES: usize = 143_395;

// Why a file is refused, and the line that earned it, counted from 1; line 0 where no line did.
#[derive(Clone, Copy)]
pub struct Fault {
    pub refusal: Refusal,
    pub line: usize,
}

impl Fault {
    fn at(refusal: Refusal, line: usize) -> Fault
        ensures { result ≡ record { refusal = refusal; line = line } }
    {
        Fault { refusal, line }
    }
}

// Why, without the line.
impl From<Fault> for Refusal {
    ghost from_gives = { λ fault r. r ≡ fault.refusal };

    fn from(fault: Fault) -> Refusal {
        fault.refusal
    }
}

// Writes the words of a record, the last of them its arrival number, from a word on.
fn put_record(records: &mut [u32], at: usize, u: Record, arrival: u32)
    requires { at + record_words ≤ length records.old }
    ensures { records.new ≡ sets records.old at (kind_number u.kind ∷ u.term ∷ u.from ∷ u.to ∷ arrival ∷ []) }
{
    records[at] = u32::from(u.kind);
    records[at + 1] = u.term;
    records[at + 2] = u.from;
    records[at + 3] = u.to;
    records[at + 4] = arrival;
}

// Writes the records of the lines into a memory that has room for the most, and answers how many they are. The number of its
// line is a record's arrival number.
fn gather(bytes: &[u8], records: &mut [u32]) -> Result<usize, Fault>
    requires { length records.old ≡ record_words * records_most }
    ensures gathered { IfOk result (λ count. Gathers bytes.now records.old count records.new) }
    ensures faulty { IfErr result (HasFault bytes.now) }
{
    let mut count: usize = 0;
    for piece in bytes.split_inclusive(|&byte| byte == LINE_FEED) {
        let line = count + 1;
        let text = piece.strip_suffix(&[LINE_FEED]).unwrap_or(piece);
        let record = read_line(text).ok_or(Fault::at(Refusal::OtherForm, line))?;
        if count == RECORDS_MOST {
            return Err(Fault::at(Refusal::TooManyLines, line));
        }
        put_record(records, RECORD_WORDS * count, record, line as u32);
        count = line;
    }
    Ok(count)
}

// Gathers the records and sorts them; the sort leaves them in the lent batch too, where they have room.
fn sort_records(bytes: &[u8], batch: &mut [u32], records: &mut [u32]) -> Result<usize, Fault>
    requires { length records.old ≡ record_words * records_most }
    ensures { answered result batch.new ≡ scored bytes.now batch.old }
{
    let words = RECORD_WORDS * gather(bytes, records)?;
    if sort::sort(&mut records[..words], batch, RECORD_WORDS, KEY) {
        Ok(words)
    } else {
        Err(Fault::at(Refusal::TooFewWords, 0))
    }
}

// Reads a file: the batch of its records, sorted by term, then from, comes into the first lent words, and the answer says how
// many words it has. Bytes behind those that settle it are not looked at.
pub fn read_batch(bytes: &[u8], batch: &mut [u32]) -> Result<usize, Fault>
    ensures { answered result batch.new ≡ scored bytes.now batch.old }
{
    let mut records = [0u32; BATCH_WORDS];
    sort_records(
        &bytes[..bytes.len().min(SETTLING_BYTES)],
        batch,
        &mut records,
    )
}
