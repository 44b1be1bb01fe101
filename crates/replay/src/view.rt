// The view of a transaction, replayed.
ghost use Rattle.std.specs.Prelude.{◌≡◌, true, ◌+◌, ◌<◌};
ghost use Rattle.below.specs.Climb.{Lower};
ghost use Rattle.kinds.specs.Kinds.{opened_of, start_of, opens};
ghost use Rattle.columns.specs.Column.{at};
ghost use Rattle.columns.specs.Work.{work, list_in, Sound};
ghost use Rattle.replay.specs.Access.{asked_of};
ghost use Rattle.replay.specs.View.{view_in, after_all, Distinct};

use crate::chain::Chains;
use crate::write::last_written;
use columns::accesses::Accesses;
use columns::lists::Lists;
use columns::tree::Tree;
use kinds::{Kind, State};

// The state of object o after the view of t, from its opening: one pass over the order, and then one over the rows and entries of the view. For a register
// the first pass notes last writes, and the second goes up the rows to the first that has one: the state is as if the register had opened with what that put.
pub fn replayed(
    tree: &Tree,
    lists: &Lists,
    accesses: &Accesses,
    kind: Kind,
    opening: i64,
    o: u8,
    t: usize,
) -> State
    requires { Sound (tree.now.count + 1) lists.now.listed lists.now.order lists.now.holder × Distinct lists.now.listed lists.now.order × (t < tree.now.count + 1) × Lower (tree.now.count + 1) (at tree.now.parent) × (opens (opened_of kind opening) ≡ true) }
    ensures { result ≡ after_all (asked_of kind accesses.now.operation accesses.now.argument) (view_in tree.now.parent (list_in (work lists.now.listed lists.now.order) lists.now.holder accesses.now.object o) t) (start_of (opened_of kind opening)) }
{
    match kind {
        Kind::Register => serial::opened_state(
            kind,
            last_written(tree, lists, accesses, opening, o, t),
        ),
        _ => {
            let start = serial::opened_state(kind, opening);
            Chains::of(lists, accesses, o).climbed(tree, accesses, kind, start, t)
        }
    }
}
