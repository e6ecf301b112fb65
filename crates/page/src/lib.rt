// The bulletin page: a lookup's postings as lines of text.

#![tactic(auto)]

ghost use Rattle.std.specs.Prelude.{◌≡◌, ◌*◌, ◌≤◌, length};
ghost use Rattle.std.specs.Result.{result_unwrap_or};
ghost use Rattle.refusal.specs.Refusal.{number_of};
ghost use Rattle.reader.specs.code.PostingReader.{left_in};
ghost use Rattle.page.specs.Page.{line_fields, field_bytes, line_bytes, printed, PrintedOff};
ghost use Rattle.page.specs.code.Putting.{FieldsPut, LinePut, LinesPut};

use crate::text::{COLUMN_WIDTH, FIELD_BYTES, put_field, put_head};
use found::Question;
use reader::{PostingReader, open_counted};
use refusal::Refusal;

mod text; // numbers and blanks as bytes of lent memory

// Postings of a line.
const LINE_FIELDS: usize = 5;

// Bytes of a line, the last of which is the line feed.
const LINE_BYTES: usize = 66;

// Where in a line it stands.
const LINE_FEED: usize = LINE_BYTES - 1;

// Writes the five fields of a line.
#[tactic(auto, unfolding(crate::specs::Page::joined))]
fn put_fields(reader: &mut PostingReader<'_>, fields: &mut [u8])
    requires { length fields.old ≡ line_fields * field_bytes }
    ensures { FieldsPut (left_in reader.old) (left_in reader.new) fields.new }
{
    for j in 0..LINE_FIELDS {
        put_field(
            &mut fields[FIELD_BYTES * j..FIELD_BYTES * (j + 1)],
            reader.next(),
        );
    }
}

// Writes the line after i others: the term on the first line only, the fields, a line feed.
fn put_line(reader: &mut PostingReader<'_>, term: u32, i: usize, line: &mut [u8])
    requires { length line.old ≡ line_bytes }
    ensures { LinePut term i (left_in reader.old) (left_in reader.new) line.new }
{
    put_head(&mut line[..COLUMN_WIDTH], term, i);
    put_fields(reader, &mut line[COLUMN_WIDTH..LINE_FEED]);
    line[LINE_FEED] = b'\n';
}

// Writes so many lines.
#[tactic(auto, unfolding(crate::specs::Page::joined))]
fn put_lines(mut reader: PostingReader<'_>, term: u32, lines: usize, memory: &mut [u8])
    requires { line_bytes * lines ≤ length memory.old }
    ensures { LinesPut term lines (left_in reader.entry) memory.old memory.new }
{
    for i in 0..lines {
        put_line(
            &mut reader,
            term,
            i,
            &mut memory[LINE_BYTES * i..LINE_BYTES * (i + 1)],
        );
    }
}

// Writes the page of a question into the first bytes of the memory. Answers how many lines.
pub fn page(card: &[u32], q: Question, memory: &mut [u8]) -> Result<u32, Refusal>
    ensures { PrintedOff (number_of result) (result_unwrap_or result 0) memory.new (printed card.now q.term q.from q.to memory.old) }
{
    let counted = open_counted(card, q)?;
    let lines = counted.count.div_ceil(LINE_FIELDS);
    if memory.len() < LINE_BYTES * lines {
        return Err(Refusal::ShortMemory);
    }
    put_lines(counted.reader, q.term, lines, memory);
    Ok(lines as u32)
}
