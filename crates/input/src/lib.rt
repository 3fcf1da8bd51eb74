// Standard input read into a lent buffer, for the programs: nothing is allocated, and of a longer input the rest is not read.

#![tactic(auto)]

ghost use Rattle.std.specs.Prelude.{◌≤◌, IfOk, length};

use std::io;
use std::io::Read;

// Reads until the buffer is full or standard input ends, and returns how many bytes were put at the buffer's start.
pub fn read_full(rt: &impl Input, buffer: &mut [u8]) -> io::Result<usize>
    ensures { IfOk result (λ n. n ≤ length buffer.new) }
{
    let mut input = rt.reader();
    let mut n: usize = 0;
    while n < buffer.len() {
        let read = input.read(&mut buffer[n..])?;
        if read == 0 {
            return Ok(n);
        }
        n += read;
    }
    Ok(n)
}
