// Numbers as decimal figures, read from bytes and written into them.

#![tactic(auto)]

ghost use Rattle.std.specs.Prelude.{◌≡◌, ◌%◌, length};
ghost use Rattle.figures.specs.Figures.{figure, decimal};
ghost use Rattle.figures.specs.code.Reading.{number_in, with_figure, put_number};

// The number with a figure more; none where the byte is no figure, or no word holds it.
fn with_figure(value: u32, byte: u8) -> Option<u32>
    ensures { result ≡ with_figure value byte }
{
    if !byte.is_ascii_digit() {
        return None;
    }
    let longer = value.checked_mul(10)?;
    longer.checked_add(u32::from(byte - b'0'))
}

// The number that bytes show: figures without leading zeros, of a number that a word holds.
pub fn number(bytes: &[u8]) -> Option<u32>
    ensures { result ≡ number_in bytes.now }
{
    if bytes.is_empty() {
        return None;
    }
    if (bytes.len() != 1) & (bytes[0] == b'0') {
        return None;
    }
    let mut value: u32 = 0;
    for &byte in bytes {
        value = with_figure(value, byte)?;
    }
    Some(value)
}

// The byte of a number's last figure.
pub fn last_figure(n: u32) -> u8
    ensures { result ≡ figure (n % 10) }
{
    b'0' + (n % 10) as u8
}

// How many figures a number has.
pub fn figure_count(n: u32) -> usize
    ensures { result ≡ length (decimal n) }
{
    let mut count: usize = 1;
    let mut rest = n / 10;
    while rest != 0 {
        count += 1;
        rest = rest / 10;
    }
    count
}

// Writes the figures of a number from a byte on, from the last to the first; nothing where they have no room.
pub fn put_number(memory: &mut [u8], at: usize, n: u32)
    ensures { memory.new ≡ put_number memory.old at n }
{
    let count = figure_count(n);
    if memory.len() < count || memory.len() - count < at {
        return;
    }
    let mut rest = n;
    for i in (at..at + count).rev() {
        memory[i] = last_figure(rest);
        rest = rest / 10;
    }
}
