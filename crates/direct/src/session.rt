// A store's calls, each with its answer printed. Nothing is asked of the store.
use refusal::{Answer, Child, Request};
use std::io::{self, Write};
use store::{Reply, Store};
use text::print::{ANSWER, put_answer};

// Where is printed, and the store that the last call handed back.
#[derive(Drop)]
pub(crate) struct Session<'a, P: Print> {
    rt: &'a P,
    pub(crate) store: Store,
}

impl<'a, P: Print> Session<'a, P> {
    pub(crate) fn open(rt: &'a P, kinds: &[u8], openings: &[i64]) -> io::Result<Session<'a, P>> {
        let reply = Store::open(kinds, openings);
        print_answer(rt, reply.answer)?;
        Ok(Session {
            rt,
            store: reply.store,
        })
    }

    // Prints the answer, and goes on with the store.
    fn go_on(&mut self, reply: Reply) -> io::Result<()> {
        self.store = reply.store;
        print_answer(self.rt, reply.answer)
    }

    pub(crate) fn plain(&mut self, parent: u32) -> io::Result<()> {
        self.go_on(self.store.create(parent, Child::Plain))
    }

    pub(crate) fn access(
        &mut self,
        parent: u32,
        object: u32,
        operation: u32,
        argument: i64,
    ) -> io::Result<()> {
        let request = Request {
            object,
            operation,
            argument,
        };
        self.go_on(self.store.create(parent, Child::Access(request)))
    }

    pub(crate) fn respond(&mut self, t: u32) -> io::Result<()> {
        self.go_on(self.store.respond(t))
    }

    pub(crate) fn commit(&mut self, t: u32) -> io::Result<()> {
        self.go_on(self.store.commit(t))
    }

    pub(crate) fn abort(&mut self, t: u32) -> io::Result<()> {
        self.go_on(self.store.abort(t))
    }
}

// A line has room for codes of three digits; the store's have two.
fn print_answer(rt: &impl Print, answer: Answer) -> io::Result<()> {
    if 999 < answer.code {
        return Ok(());
    }
    let mut line = [0u8; ANSWER];
    let end = put_answer(&mut line, 0, answer.code, answer.a, answer.b);
    io::writer(rt).write_all(&line[..end])
}
