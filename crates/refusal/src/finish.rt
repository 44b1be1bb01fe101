// Commit and abort.
ghost use Rattle.std.specs.Prelude.{◌≡◌, true, ◌&&◌, not, cond, ◌<◌, ◌≤◌, eqb, pos, None};
ghost use Rattle.columns.specs.Column.{rows_most};
ghost use Rattle.form.specs.Form.{count_most};
ghost use Rattle.refusal.specs.Refusal.{answer_of};
ghost use Rattle.refusal.specs.Reason.{code_in};
ghost use Rattle.refusal.specs.Order.{first_code, Rooted, finish_order};

use crate::Answer;
use crate::reason::Reason;
use crate::row::{check_active, check_known};
use columns::tree::Tree;

// The child of a plain transaction that is still open; an access has none.
pub fn open_child(operation: u8, child: Option<usize>) -> Option<usize>
    ensures { result ≡ cond (eqb operation 0) child None }
{
    if operation == 0 { child } else { None }
}

// 11: the child that is still open.
pub fn child_answer(child: usize) -> Answer
    requires { child < rows_most }
    ensures { result ≡ answer_of 11 child (pos 0) }
{
    Answer {
        code: 11,
        a: child as u32,
        b: 0,
    }
}

// An access not yet responded to.
pub fn is_unanswered(operation: u8, outcome: u8) -> bool
    ensures { result ≡ (not (eqb operation 0) && eqb outcome 0) }
{
    operation != 0 && outcome == 0
}

// The refusals that commit and abort share. `fine` is whether the store is in form.
#[tactic(auto, using(crate::proofs::Order::known_row, crate::proofs::Codes::code_some), unfolding(crate::specs::Order::first_code))]
pub fn check_finish(fine: bool, tree: &Tree, t: usize) -> Result<(), Reason>
    requires { fine ≡ true → (tree.now.count ≤ count_most) × Rooted tree.now.parent }
    ensures { code_in result ≡ first_code (finish_order fine tree.now.count tree.now.parent tree.now.state t) }
{
    if !fine {
        return Err(Reason::Malformed);
    }
    check_known(tree, t)?;
    check_active(tree, t)
}
