// A record taken apart, from its front on.
ghost use Rattle.std.specs.Prelude.{◌≡◌, ◌+◌, ◌*◌, ◌≤◌, length};

use crate::layout::{CALL, RECORD};
use crate::number::Number;
use columns::accesses::Accesses;
use columns::lists::Lists;
use columns::objects::Objects;
use columns::tree::Tree;
use refusal::{Child, Request};
use store::{Reply, Store};

// The bytes that are still to be read.
#[derive(Drop)]
struct Reader<'a> {
    rest: &'a [u8],
}

impl Reader<'_> {
    fn number<T: Number>(&mut self) -> T
        requires { T.BYTES ≤ length self.old.rest.now }
        ensures { T.BYTES + length self.new.rest.now ≡ length self.old.rest.now }
    {
        let number = T::read(self.rest);
        self.rest = &self.rest[T::BYTES..];
        number
    }

    fn column<T: Number, const N: usize>(&mut self) -> [T; N]
        requires { T.BYTES * N ≤ length self.old.rest.now }
        ensures { T.BYTES * N + length self.new.rest.now ≡ length self.old.rest.now }
    {
        let mut column = [T::default(); N];
        for number in &mut column {
            *number = self.number();
        }
        column
    }

    // Its fields in the order of their declaration.
    fn store(&mut self) -> Store
        requires { length self.old.rest.now ≡ RECORD }
        ensures { length self.new.rest.now ≡ CALL }
    {
        Store {
            objects: Objects {
                count: self.number(),
                kind: self.column(),
                opening: self.column(),
            },
            tree: Tree {
                count: self.number(),
                parent: self.column(),
                state: self.column(),
            },
            accesses: Accesses {
                object: self.column(),
                operation: self.column(),
                argument: self.column(),
                outcome: self.column(),
                value: self.column(),
            },
            lists: Lists {
                listed: self.number(),
                order: self.column(),
                holder: self.column(),
                place: self.column(),
            },
        }
    }
}

// What the store answers to the record's call.
pub(crate) fn reply_to(bytes: &[u8; RECORD]) -> Reply {
    let mut reader = Reader { rest: bytes };
    let store = reader.store();
    let letter: u8 = reader.number();
    let t: u32 = reader.number();
    let request = Request {
        object: reader.number(),
        operation: reader.number(),
        argument: reader.number(),
    };
    match letter {
        b'N' => store.create(t, Child::Plain),
        b'U' => store.create(t, Child::Access(request)),
        b'G' => store.respond(t),
        b'C' => store.commit(t),
        _ => store.abort(t),
    }
}
