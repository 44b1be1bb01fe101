// Reads a run file from standard input and writes what the runner puts.
#![tactic(auto)]

use input::read_full;
use runner::{INPUT, OUTPUT};
use std::io::{self, Write};

fn main(rt: HostRuntime) -> io::Result<()> {
    let mut input = [0u8; INPUT];
    let n = read_full(&mut rt.stdin(), &mut input)?;
    let mut output = [0u8; OUTPUT];
    let end = runner::run_file(&input[..n], &mut output);
    io::writer(&rt).write_all(&output[..end])
}
