// Saving and loading, and the capacity: each refusal at its edge on both sides, through the public calls. Prints what it saw: a line a
// call, its arguments and then its whole reply.
#![tactic(auto)]

mod calls;
mod capacity;
mod keep;
mod print;

use std::io;

fn main(rt: HostRuntime) -> io::Result<()> {
    keep::saves(&rt)?;
    keep::loads(&rt)?;
    capacity::tables(&rt)?;
    capacity::growths(&rt)?;
    capacity::files(&rt)
}
