// Numbers and blanks as bytes.
ghost use Rattle.std.specs.Prelude.{◌≡◌, length};
ghost use Rattle.page.specs.Figures.{column_width, column};
ghost use Rattle.page.specs.Page.{field_bytes};
ghost use Rattle.page.specs.code.Putting.{head_of, field_of};

use figures::last_figure;

// Columns of a number.
pub(crate) const COLUMN_WIDTH: usize = 10;

// Bytes of a field: one blank and a number's columns.
pub(crate) const FIELD_BYTES: usize = 11;

// Writes a number right-aligned in ten columns: ten blanks, and over them its figures from the last on.
fn put_column(columns: &mut [u8], n: u32)
    requires { length columns.old ≡ column_width }
    ensures { columns.new ≡ column n }
{
    columns.fill(b' ');
    let mut rest = n;
    for place in (0..COLUMN_WIDTH).rev() {
        columns[place] = last_figure(rest);
        rest /= 10;
        if rest == 0 {
            return;
        }
    }
}

// Writes what stands before the fields of the line after i others: the term on the first line, blanks on the others.
pub(crate) fn put_head(columns: &mut [u8], term: u32, i: usize)
    requires { length columns.old ≡ column_width }
    ensures { columns.new ≡ head_of term i }
{
    if i == 0 {
        put_column(columns, term);
    } else {
        columns.fill(b' ');
    }
}

// Writes the field of what a reader yields: a blank and the posting, or blanks alone.
#[tactic(auto, unfolding(crate::specs::code::Putting::field_of))]
pub(crate) fn put_field(field: &mut [u8], posting: Option<u32>)
    requires { length field.old ≡ field_bytes }
    ensures { field.new ≡ field_of posting }
{
    match posting {
        Some(position) => {
            field[0] = b' ';
            put_column(&mut field[1..], position);
        }
        None => field.fill(b' '),
    }
}
