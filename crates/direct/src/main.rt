// What no run file can say: openings and arguments that a file has no way to write, the store that a refused opening gives, stores out of form. Each
// prints a heading and then a line `code a b` for each call, the opening first.
#![tactic(auto)]

mod edges;
mod openings;
mod session;

use std::io;

fn main(rt: HostRuntime) -> io::Result<()> {
    openings::openings(&rt)?;
    openings::refused_opening(&rt)?;
    edges::far_arguments(&rt)?;
    edges::out_of_form(&rt)
}
