// The scorekeepers' program: reads a file from standard input and prints one line, what its pass came to.

#![tactic(auto)]

ghost use Rattle.std.specs.Prelude.{◌≤◌, length, IfOk};

use lines::SETTLING_BYTES;
use scores::LINE_BYTES;
use std::io;
use std::io::{Read, Write};

// Reads until the buffer is full or the input ends, and answers how many bytes came.
fn read_input<R: Read>(input: &mut R, buffer: &mut [u8]) -> io::Result<usize>
    ensures { IfOk result (λ count. count ≤ length buffer.new) }
{
    let mut count: usize = 0;
    while count < buffer.len() {
        let more = input.read(&mut buffer[count..])?;
        if more == 0 {
            break;
        }
        count += more;
    }
    Ok(count)
}

// A read that fails prints nothing, and nothing is left to be done where the write fails.
fn main(rt: HostRuntime) {
    let mut buffer = [0u8; SETTLING_BYTES];
    if let Ok(count) = read_input(&mut rt.stdin(), &mut buffer) {
        let mut line = [0u8; LINE_BYTES];
        let length = scores::put_outcome_of(&mut line, &buffer[..count]);
        let _written = io::writer(&rt).write_all(&line[..length]);
    }
}
