// The lock store: its columns, and the calls that take a store and hand it back with an answer.
#![tactic(auto)]

mod create;
mod finish;
mod formed;
mod open;
mod respond;

ghost use Rattle.std.specs.Prelude.{◌≡◌};
ghost use Rattle.store.specs.Refusal.{reply_of};

use columns::accesses::Accesses;
use columns::lists::Lists;
use columns::objects::Objects;
use columns::tree::Tree;
use refusal::Answer;

// A row of the columns is a transaction's, by its own number; row 0 is the root's and stays zero.
#[derive(Clone, Copy)]
pub struct Store {
    pub objects: Objects,
    pub tree: Tree,
    pub accesses: Accesses,
    pub lists: Lists,
}

#[derive(Clone, Copy)]
pub struct Reply {
    pub store: Store,
    pub answer: Answer,
}

impl Store {
    fn answered(self, answer: Answer) -> Reply
        ensures { result ≡ reply_of self answer }
    {
        Reply {
            store: self,
            answer,
        }
    }
}
