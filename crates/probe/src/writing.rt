// A reply put together, from its front on.
ghost use Rattle.std.specs.Prelude.{◌≡◌, ◌+◌, ◌*◌, ◌≤◌, length};

use crate::layout::{ANSWER, REPLY};
use crate::number::Number;
use refusal::Answer;
use store::{Reply, Store};

// The reply, and how many of its bytes are put.
#[derive(Drop)]
struct Writer<'a> {
    bytes: &'a mut [u8; REPLY],
    put: usize,
}

impl Writer<'_> {
    fn number<T: Number>(&mut self, number: T)
        requires { self.old.put + T.BYTES ≤ REPLY }
        ensures { self.new.put ≡ self.old.put + T.BYTES }
    {
        let bytes = &mut *self.bytes;
        number.write(&mut bytes[self.put..]);
        self.put += T::BYTES;
    }

    fn column<T: Number>(&mut self, column: &[T])
        requires { self.old.put + T.BYTES * length column.now ≤ REPLY }
        ensures { self.new.put ≡ self.old.put + T.BYTES * length column.now }
    {
        for number in column {
            self.number(*number);
        }
    }

    fn answer(&mut self, answer: Answer)
        requires { self.old.put ≡ 0 }
        ensures { self.new.put ≡ ANSWER }
    {
        self.number(answer.code);
        self.number(answer.a);
        self.number(answer.b);
    }

    // Its fields in the order of their declaration.
    fn store(&mut self, store: &Store)
        requires { self.old.put ≡ ANSWER }
    {
        self.number(store.objects.count);
        self.column(&store.objects.kind);
        self.column(&store.objects.opening);
        self.number(store.tree.count);
        self.column(&store.tree.parent);
        self.column(&store.tree.state);
        self.column(&store.accesses.object);
        self.column(&store.accesses.operation);
        self.column(&store.accesses.argument);
        self.column(&store.accesses.outcome);
        self.column(&store.accesses.value);
        self.number(store.lists.listed);
        self.column(&store.lists.order);
        self.column(&store.lists.holder);
        self.column(&store.lists.place);
    }
}

pub(crate) fn put_reply(bytes: &mut [u8; REPLY], reply: &Reply) {
    let mut writer = Writer { bytes, put: 0 };
    writer.answer(reply.answer);
    writer.store(&reply.store);
}
