// Opening a store.
ghost use Rattle.std.specs.Prelude.{◌≡◌, ◌≤◌, length};
ghost use Rattle.store.specs.Open.{store_of, opened_store, open_of};
ghost use Rattle.form.specs.Form.{objects_most};

use crate::{Reply, Store};
use columns::accesses::Accesses;
use columns::lists::{Lists, PLACES};
use columns::objects::{OBJECTS, Objects};
use columns::tree::{ROWS, Tree};
use refusal::{Answer, Reason, openable};

fn objects_of(kinds: &[u8], openings: &[i64]) -> Objects
    requires { (length kinds.now ≤ objects_most) × (length openings.now ≡ length kinds.now) }
    ensures { result ≡ (opened_store kinds.now openings.now).objects }
{
    let count = kinds.len();
    let mut kind = [0; OBJECTS];
    kind[..count].copy_from_slice(kinds);
    let mut opening = [0; OBJECTS];
    opening[..count].copy_from_slice(openings);
    Objects {
        count,
        kind,
        opening,
    }
}

impl Store {
    // With these objects and no transactions.
    fn with_objects(objects: Objects) -> Store
        ensures { result ≡ store_of objects.count objects.kind objects.opening }
    {
        Store {
            objects,
            tree: Tree {
                count: 0,
                parent: [0; ROWS],
                state: [0; ROWS],
            },
            accesses: Accesses {
                object: [0; ROWS],
                operation: [0; ROWS],
                argument: [0; ROWS],
                outcome: [0; ROWS],
                value: [0; ROWS],
            },
            lists: Lists {
                listed: 0,
                order: [0; PLACES],
                holder: [0; ROWS],
                place: [0; ROWS],
            },
        }
    }

    // Objects are numbered from 0 in the order of the opening. A refused opening gives the store with no objects and no transactions.
    pub fn open(kinds: &[u8], openings: &[i64]) -> Reply
        ensures { result ≡ open_of kinds.now openings.now }
    {
        if !openable(kinds, openings) {
            let none = Objects {
                count: 0,
                kind: [0; OBJECTS],
                opening: [0; OBJECTS],
            };
            return Store::with_objects(none).answered(Reason::BadOpening.into());
        }
        let objects = objects_of(kinds, openings);
        Store::with_objects(objects).answered(Answer::done(objects.count as u32, 0))
    }
}
