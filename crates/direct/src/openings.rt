// Openings that no file can write, of an unknown kind, with too many objects, and with not as many values as kinds: 14. And the store that a refused opening
// gives.
use crate::edges::{ACCOUNT, BEYOND};
use crate::session::Session;
use kinds::Account;
use std::io;

// One object more than a store can have.
const MOST: usize = 65;

// So many kinds and so many opening values, all alike.
fn open_alike(
    rt: &impl Print,
    letter: u8,
    opening: i64,
    kinds: usize,
    openings: usize,
) -> io::Result<()> {
    let letters = [letter; MOST];
    let values = [opening; MOST];
    Session::open(
        rt,
        &letters[..kinds.min(MOST)],
        &values[..openings.min(MOST)],
    )?;
    Ok(())
}

pub(crate) fn openings(rt: &impl Print) -> io::Result<()> {
    println!(rt; "openings")?;
    open_alike(rt, b'A', i64::MAX, 1, 1)?;
    open_alike(rt, b'R', i64::MIN, 1, 1)?;
    open_alike(rt, b'K', i64::MIN, 1, 1)?;
    open_alike(rt, b'K', i64::MAX, 1, 1)?;
    open_alike(rt, b'S', BEYOND, 1, 1)?;
    open_alike(rt, b'S', i64::MIN, 1, 1)?;
    open_alike(rt, b'B', 10, 1, 1)?;
    open_alike(rt, b'A', 10, 65, 65)?;
    open_alike(rt, b'A', 10, 1, 2)?;
    open_alike(rt, b'A', 10, 2, 1)
}

// It gives a store with no objects and no transactions, to which calls apply as usual.
pub(crate) fn refused_opening(rt: &impl Print) -> io::Result<()> {
    println!(rt; "refused opening")?;
    let mut session = Session::open(rt, b"AB", &[10, 7])?;
    session.respond(1)?;
    session.commit(1)?;
    session.abort(1)?;
    session.access(0, ACCOUNT, Account::BALANCE, 0)?;
    session.plain(0)
}
