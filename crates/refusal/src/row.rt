// Refusals that several calls share.
ghost use Rattle.std.specs.Prelude.{◌≡◌, ◌<◌};
ghost use Rattle.columns.specs.Column.{rows_most};
ghost use Rattle.refusal.specs.Reason.{code_in};
ghost use Rattle.refusal.specs.Order.{first_code, unknown, inactive, Rooted};

use crate::reason::Reason;
use columns::tree::{OPEN, Tree};

#[tactic(auto, unfolding(crate::specs::Order::first_code))]
pub(crate) fn check_known(tree: &Tree, t: usize) -> Result<(), Reason>
    ensures { code_in result ≡ first_code (unknown tree.now.count t) }
{
    if tree.count < t {
        return Err(Reason::NoTransaction);
    }
    if t == 0 {
        return Err(Reason::IsRoot);
    }
    Ok(())
}

// Finished: it has itself committed or aborted. Orphaned: some transaction above it has aborted.
#[tactic(auto, unfolding(crate::specs::Order::first_code))]
pub(crate) fn check_active(tree: &Tree, t: usize) -> Result<(), Reason>
    requires { (t < rows_most) × Rooted tree.now.parent }
    ensures { code_in result ≡ first_code (inactive tree.now.parent tree.now.state t) }
{
    if tree.state[t] != OPEN {
        return Err(Reason::Finished);
    }
    let above = tree.parent_of(t);
    if tree.has_aborted_above(above) {
        return Err(Reason::Orphaned);
    }
    Ok(())
}
