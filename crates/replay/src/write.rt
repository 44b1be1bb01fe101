// The value last written in a register's view, sought from the view's end.
ghost use Rattle.std.specs.Prelude.{◌≡◌, true, ℕ, ◌+◌, ◌<◌};
ghost use Rattle.below.specs.Climb.{Lower};
ghost use Rattle.kinds.specs.declared.Kind.TheVariants.{Register};
ghost use Rattle.kinds.specs.Kinds.{opened_of, start_of, opens};
ghost use Rattle.columns.specs.Column.{at, rows_most};
ghost use Rattle.columns.specs.Work.{work, list_in};
ghost use Rattle.replay.specs.Access.{asked_of};
ghost use Rattle.replay.specs.View.{view_in, after_all};
ghost use Rattle.replay.specs.Chain.{Linkable};
ghost use Rattle.replay.specs.Write.{is_write, last_write, nearest_in, noted};

use crate::access::asked;
use columns::accesses::Accesses;
use columns::lists::Lists;
use columns::tree::{ROWS, Tree};
use kinds::{Kind, Operation, RegisterOperation};

fn is_write(asked: Option<Operation>) -> bool
    ensures { result ≡ is_write asked }
{
    matches!(
        asked,
        Some(Operation::Register(RegisterOperation::Write(_)))
    )
}

// The last write of each holder in the listed work of object o. An `Option` would double the column, which each response fills anew: 0 is none, as no access
// has the root's row. From the last entry to the first, so that the first write met of a holder is its last.
fn last_writes(lists: &Lists, accesses: &Accesses, o: u8) -> [u16; ROWS]
    requires { Linkable lists.now.listed lists.now.order lists.now.holder }
    ensures { (u : ℕ) → u < rows_most → at result u ≡ last_write (asked_of Register accesses.now.operation accesses.now.argument) (list_in (work lists.now.listed lists.now.order) lists.now.holder accesses.now.object o u) }
{
    let mut last = [0; ROWS];
    for i in (0..lists.listed).rev() {
        let x = lists.entry(i);
        if accesses.object[x] == o {
            let h = lists.holder_of(x);
            if last[h] == 0 && is_write(asked(accesses, Kind::Register, x)) {
                last[h] = lists.order[i];
            }
        }
    }
    last
}

// The nearest of the last writes, from t up to the root; 0 is none. The compiler makes a loop of a recursion that answers a number, and of one that answers an
// `Option` a call for each level.
fn nearest_or_zero(tree: &Tree, last: &[u16; ROWS], t: usize) -> usize
    requires { (t < rows_most) × Lower (t + 1) (at tree.now.parent) }
    ensures { result ≡ nearest_in tree.now.parent last.now t }
{
    let own = usize::from(last[t]);
    if own != 0 {
        own
    } else if t == 0 {
        0
    } else {
        nearest_or_zero(tree, last, tree.parent_of(t))
    }
}

// The nearest of the last writes, from t up to the root.
fn nearest(tree: &Tree, last: &[u16; ROWS], t: usize) -> Option<usize>
    requires { (t < rows_most) × Lower (t + 1) (at tree.now.parent) }
    ensures { result ≡ noted (nearest_in tree.now.parent last.now t) }
{
    match nearest_or_zero(tree, last, t) {
        0 => None,
        x => Some(x),
    }
}

// The value that was last written in the view of t on object o, a register; where none was, the opening.
pub(crate) fn last_written(
    tree: &Tree,
    lists: &Lists,
    accesses: &Accesses,
    opening: i64,
    o: u8,
    t: usize,
) -> i64
    requires { Linkable lists.now.listed lists.now.order lists.now.holder × (t < rows_most) × Lower (t + 1) (at tree.now.parent) × (opens (opened_of Register opening) ≡ true) }
    ensures { start_of (opened_of Register result) ≡ after_all (asked_of Register accesses.now.operation accesses.now.argument) (view_in tree.now.parent (list_in (work lists.now.listed lists.now.order) lists.now.holder accesses.now.object o) t) (start_of (opened_of Register opening)) }
{
    let last = last_writes(lists, accesses, o);
    match nearest(tree, &last, t) {
        Some(x) => accesses.argument[x],
        None => opening,
    }
}
