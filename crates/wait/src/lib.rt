// The first access that a response must wait for.
#![tactic(auto)]

ghost use Rattle.std.specs.Prelude.{◌≡◌, ℕ, ◌+◌, ◌<◌, Bool, false, slice_index_or};
ghost use Rattle.below.specs.Below.{found_below};
ghost use Rattle.below.specs.Climb.{Lower};
ghost use Rattle.columns.specs.Column.{at, rows_most};
ghost use Rattle.replay.specs.Access.{record_in};
ghost use Rattle.wait.specs.Wait.{clashes, blocks_outside, blocks};

use columns::accesses::Accesses;
use columns::lists::Lists;
use columns::tree::{ROWS, Tree};
use kinds::{Answered, Kind};
use replay::access::record_at;

// A transaction that asks something of an object of the kind, and the answer that it would get.
#[derive(Clone, Copy)]
pub struct Asking {
    pub transaction: usize,
    pub object: u8,
    pub kind: Kind,
    pub answered: Answered,
}

impl Asking {
    // Whether the answer on record conflicts with this one.
    fn is_clash(&self, recorded: Option<Answered>) -> bool
        ensures { result ≡ clashes self.now.kind self.now.answered recorded }
    {
        match recorded {
            Some(held) => serial::conflicts(self.kind, self.answered, held),
            None => true,
        }
    }

    // Whether access x is on a list for this object, its holder is not marked in `above`, and it conflicts with this answer.
    fn is_blocking(
        &self,
        above: &[bool; ROWS],
        lists: &Lists,
        accesses: &Accesses,
        x: usize,
    ) -> bool
        requires { (x < rows_most) × (at lists.now.holder x < rows_most) }
        ensures { result ≡ blocks_outside (λ h. slice_index_or above.now h false) lists.now.holder lists.now.place accesses.now.object (record_in self.now.kind accesses.now.operation accesses.now.argument accesses.now.outcome accesses.now.value) self.now.kind self.now.object self.now.answered x }
    {
        lists.place_of(x) != 0
            && accesses.object[x] == self.object
            && !above[lists.holder_of(x)]
            && self.is_clash(record_at(accesses, self.kind, x))
    }

    // The lowest access that it must wait for.
    pub fn first_wait(&self, tree: &Tree, lists: &Lists, accesses: &Accesses) -> Option<usize>
        requires { (tree.now.count < rows_most) × (self.now.transaction < tree.now.count + 1) × Lower (tree.now.count + 1) (at tree.now.parent) × ((k : ℕ) → k < tree.now.count + 1 → at lists.now.holder k < tree.now.count + 1) }
        ensures { result ≡ found_below (tree.now.count + 1) (blocks tree.now.parent lists.now.holder lists.now.place accesses.now.object (record_in self.now.kind accesses.now.operation accesses.now.argument accesses.now.outcome accesses.now.value) self.now.kind self.now.object self.now.transaction self.now.answered) }
    {
        let above = tree.marks_above(self.transaction);
        (0..tree.rows()).find(|&x| self.is_blocking(&above, lists, accesses, x))
    }
}
