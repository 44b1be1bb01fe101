// Runs each run file that an argument names: prints the name on a line, and then what the runner puts.
#![tactic(auto)]

use input::read_full;
use runner::{INPUT, OUTPUT};
use std::env;
use std::fs::{Files, open};
use std::io::{self, Write};

fn run_named(rt: &(impl Files + Print + Eprint), path: &str) -> io::Result<()> {
    let mut file = match open(rt, path) {
        Ok(file) => file,
        Err(error) => return eprintln!(rt; "{path}: {error}"),
    };
    let mut input = [0u8; INPUT];
    let n = read_full(&mut file, &mut input)?;
    let mut output = [0u8; OUTPUT];
    let end = runner::run_file(&input[..n], &mut output);
    println!(rt; "{path}")?;
    io::writer(rt).write_all(&output[..end])
}

fn main(rt: HostRuntime) -> io::Result<()> {
    for argument in env::args(&rt)?.skip(1) {
        run_named(&rt, &argument)?;
    }
    Ok(())
}
