// A line and its record.
ghost use Rattle.std.specs.Prelude.{◌≡◌};
ghost use Rattle.lines.specs.Lines.{line_record};
ghost use Rattle.lines.specs.code.Gathering.{words_of, kind_of};

use figures::number;

const TAB: u8 = b'\t';

// What a record does.
#[derive(Clone, Copy)]
pub(crate) enum Kind {
    Adds,
    Removes,
}

// The first word of a record.
impl From<Kind> for u32 {
    ghost use Rattle.lines.specs.code.Gathering.{kind_number};

    ghost from_gives = { λ kind n. n ≡ kind_number kind };

    fn from(kind: Kind) -> u32 {
        match kind {
            Kind::Adds => 1,
            Kind::Removes => 2,
        }
    }
}

// The record of a line.
#[derive(Clone, Copy)]
pub(crate) struct Record {
    pub(crate) kind: Kind,
    pub(crate) term: u32,
    pub(crate) from: u32,
    pub(crate) to: u32,
}

// The kind that a first field shows.
#[tactic(auto, using(crate::proofs::Fields::kind_of_one, crate::proofs::Fields::kind_of_other))]
fn kind_of(field: &[u8]) -> Option<Kind>
    ensures { result ≡ kind_of field.now }
{
    match field {
        [b'A'] => Some(Kind::Adds),
        [b'R'] => Some(Kind::Removes),
        _ => None,
    }
}

// The record of a line: A, a term and a position, or R, a term, from and to, with tabs between them.
pub(crate) fn read_line(line: &[u8]) -> Option<Record>
    ensures { words_of result ≡ line_record line.now }
{
    let mut fields = line.split(|&byte| byte == TAB);
    let kind = kind_of(fields.next()?)?;
    let term = number(fields.next()?)?;
    let from = number(fields.next()?)?;
    let to = match kind {
        Kind::Adds => from,
        Kind::Removes => number(fields.next()?)?,
    };
    match fields.next() {
        None => Some(Record {
            kind,
            term,
            from,
            to,
        }),
        Some(_) => None,
    }
}
