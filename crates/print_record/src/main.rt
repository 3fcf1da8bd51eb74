// The record program: reads a rule on standard input and prints its record, a line an item.
// What it prints is defined in crates/runs/specs/Print.antt, and `print` is proved to give it; one byte more than is taken tells a longer input.

#![tactic(auto)]

use printing::print;
use std::io;

fn main(rt: HostRuntime) -> io::Result<()> {
    let mut bytes = [0u8; print::MAX_INPUT + 1];
    let read = input::read_full(&rt, &mut bytes)?;
    let mut out = [0u8; print::MAX_PRINTED];
    let n = print::print(&bytes[..read], &mut out);
    rt.write_all(&out[..n])
}
