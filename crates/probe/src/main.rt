// Takes stores as bytes, in form or not. Of each record of standard input, a store and a call on it, it writes the answer and the store that is
// handed back.
#![tactic(auto)]

mod layout;
mod number;
mod reading;
mod writing;

use crate::layout::{RECORD, REPLY};
use input::read_full;
use std::io::{self, Write};

// Whether a whole record came, to which the reply has gone.
fn answer_one(rt: &HostRuntime) -> io::Result<bool> {
    let mut bytes = [0u8; RECORD];
    let n = read_full(&mut rt.stdin(), &mut bytes)?;
    if n < RECORD {
        return Ok(false);
    }
    let mut out = [0u8; REPLY];
    writing::put_reply(&mut out, &reading::reply_to(&bytes));
    io::writer(rt).write_all(&out)?;
    Ok(true)
}

fn main(rt: HostRuntime) -> io::Result<()> {
    // A loop has to end, and nothing says that the input does: a number of turns that no run uses up.
    for _ in 0..u64::MAX {
        if !answer_one(&rt)? {
            break;
        }
    }
    Ok(())
}
