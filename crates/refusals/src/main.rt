// Opens Unicode's examples of UTF-8 and texts at their limits, has every public call refuse, and prints what is answered and what the lent slices hold then.
// The file `stdout` has what 01 says.

#![tactic(auto)]

mod filled; // filled.rt: whether slices are as before
mod lent; // lent.rt: what is lent
mod lexing; // lexing.rt: the token call
mod opening; // opening.rt: bytes opened
mod paging; // paging.rt: rows read into items
mod repairing; // repairing.rt: a repair
mod rows; // rows.rt: a record printed
mod running; // running.rt: a run
mod scoping; // scoping.rt: the scope calls
mod told; // told.rt: what is said of answers and slices

use std::io;

fn main(rt: HostRuntime) -> io::Result<()> {
    opening::tried(&rt)?;
    scoping::tried(&rt)?;
    lexing::tried(&rt)?;
    running::tried(&rt)?;
    repairing::tried(&rt)?;
    paging::tried(&rt)
}
