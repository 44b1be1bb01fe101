// Arguments that no file can write, and stores out of form.
use crate::session::Session;
use kinds::{Account, Bin, Counter, Register};
use std::io;

// The objects that a store is opened with.
pub(crate) const ACCOUNT: u32 = 0;

const REGISTER: u32 = 1;

const COUNTER: u32 = 2;

const BIN: u32 = 3;

// One more than a file can write; the last 32 of its bits are those of 0.
pub(crate) const BEYOND: i64 = 4_294_967_296;

fn begin<'a, P: Print>(rt: &'a P) -> io::Result<Session<'a, P>> {
    Session::open(rt, b"ARKS", &[10, 7, -7, 5])
}

pub(crate) fn far_arguments(rt: &impl Print) -> io::Result<()> {
    println!(rt; "far arguments")?;
    let mut session = begin(rt)?;
    session.access(0, ACCOUNT, Account::BALANCE, i64::MIN)?;
    session.access(0, ACCOUNT, Account::DEPOSIT, i64::MAX)?;
    session.access(0, ACCOUNT, Account::WITHDRAW, i64::MIN)?;
    session.access(0, REGISTER, Register::READ, i64::MAX)?;
    session.access(0, REGISTER, Register::WRITE, i64::MAX)?;
    session.access(0, COUNTER, Counter::ADJUST, i64::MIN)?;
    session.access(0, COUNTER, Counter::ADJUST, i64::MAX)?;
    session.access(0, COUNTER, Counter::COUNT, i64::MIN)?;
    session.access(0, BIN, Bin::PUT, BEYOND)?;
    session.access(0, BIN, Bin::TAKE, i64::MIN)?;
    session.access(0, BIN, Bin::LOOK, i64::MAX)
}

// Every call once: 15.
fn refused_all<P: Print>(session: &mut Session<P>) -> io::Result<()> {
    session.plain(0)?;
    session.respond(1)?;
    session.commit(1)?;
    session.abort(1)
}

// A store whose holder breaks its form: no call takes it. Once mended, it is as it was.
pub(crate) fn out_of_form(rt: &impl Print) -> io::Result<()> {
    println!(rt; "out of form")?;
    let mut session = begin(rt)?;
    session.plain(0)?;
    session.store.tree.count = 2000;
    refused_all(&mut session)?;
    session.store.tree.count = 1;
    session.store.tree.parent[1] = 1;
    refused_all(&mut session)?;
    session.store.tree.parent[1] = 0;
    session.plain(0)?;
    session.commit(1)
}
