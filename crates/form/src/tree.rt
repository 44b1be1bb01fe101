// The tree: 0 to 1,024 transactions, each parent lower and never an access, each transaction open, committed or aborted.
ghost use Rattle.std.specs.Prelude.{◌≡◌, ◌&&◌, ◌<◌, ◌≤◌, eqb};
ghost use Rattle.below.specs.Below.{all_from};
ghost use Rattle.columns.specs.Column.{at, rows_most};
ghost use Rattle.form.specs.Form.{tree_row, tree_fine};

use crate::rest::zero_from;
use columns::accesses::Accesses;
use columns::tree::{ABORTED, Tree};

pub const COUNT_MOST: usize = 1024;

fn row_fine(tree: &Tree, accesses: &Accesses, k: usize) -> bool
    requires { k < rows_most }
    ensures { result ≡ tree_row tree.now.count tree.now.parent tree.now.state accesses.now.operation k }
{
    let above = tree.parent_of(k);
    if k == 0 || tree.count < k {
        return above == 0 && tree.state[k] == 0;
    }
    above < k && accesses.operation[above] == 0 && tree.state[k] <= ABORTED
}

// Whether the rows from `from` on are zero.
fn unused_from(tree: &Tree, from: usize) -> bool
    requires { from ≤ rows_most }
    ensures { result ≡ all_from from rows_most (λ k. eqb (at tree.now.parent k) 0 && eqb (at tree.now.state k) 0) }
{
    zero_from(&tree.parent, from) & zero_from(&tree.state, from)
}

#[tactic(auto, using(crate::proofs::Split::tree_parts))]
pub fn tree_fine(tree: &Tree, accesses: &Accesses) -> bool
    ensures { result ≡ tree_fine tree.now.count tree.now.parent tree.now.state accesses.now.operation }
{
    tree.count <= COUNT_MOST
        && unused_from(tree, tree.rows())
        && (0..tree.rows()).all(|k| row_fine(tree, accesses, k))
}
