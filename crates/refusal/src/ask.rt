// Respond.
ghost use Rattle.std.specs.Prelude.{◌≡◌, true, ◌<◌, ◌≤◌, pos};
ghost use Rattle.columns.specs.Column.{rows_most};
ghost use Rattle.form.specs.Form.{count_most};
ghost use Rattle.refusal.specs.Refusal.{answer_of};
ghost use Rattle.refusal.specs.Reason.{code_in};
ghost use Rattle.refusal.specs.Order.{first_code, Rooted, ask_order};

use crate::Answer;
use crate::reason::Reason;
use crate::row::{check_active, check_known};
use columns::accesses::Accesses;
use columns::tree::Tree;

// Every refusal but the wait. `fine` is whether the store is in form.
#[tactic(auto, using(crate::proofs::Order::known_row, crate::proofs::Codes::code_some), unfolding(crate::specs::Order::first_code))]
pub fn check_ask(fine: bool, tree: &Tree, accesses: &Accesses, t: usize) -> Result<(), Reason>
    requires { fine ≡ true → (tree.now.count ≤ count_most) × Rooted tree.now.parent }
    ensures { code_in result ≡ first_code (ask_order fine tree.now.count tree.now.parent tree.now.state accesses.now.operation accesses.now.outcome t) }
{
    if !fine {
        return Err(Reason::Malformed);
    }
    check_known(tree, t)?;
    if accesses.operation[t] == 0 {
        return Err(Reason::NoAccess);
    }
    check_active(tree, t)?;
    if accesses.outcome[t] != 0 {
        return Err(Reason::Answered);
    }
    Ok(())
}

// 13: the holder and the access.
pub fn wait_answer(holder: usize, access: usize) -> Answer
    requires { (holder < rows_most) × (access < rows_most) }
    ensures { result ≡ answer_of 13 holder (pos access) }
{
    Answer {
        code: 13,
        a: holder as u32,
        b: access as i64,
    }
}
