// Create.
ghost use Rattle.std.specs.Prelude.{◌≡◌, true, ◌≤◌};
ghost use Rattle.form.specs.Form.{objects_most, count_most};
ghost use Rattle.refusal.specs.Reason.{code_in};
ghost use Rattle.refusal.specs.Order.{first_code, Rooted, unasked, create_order};
ghost use Rattle.refusal.specs.declared.Child.TheVariants.{Access};

use crate::reason::Reason;
use crate::row::check_active;
use crate::{Child, Request};
use columns::accesses::Accesses;
use columns::objects::Objects;
use columns::tree::Tree;
use form::COUNT_MOST;

#[tactic(auto, unfolding(crate::specs::Order::first_code))]
fn check_request(objects: &Objects, request: Request) -> Result<(), Reason>
    requires { objects.now.count ≤ objects_most }
    ensures { code_in result ≡ first_code (unasked objects.now.count objects.now.kind (Access request)) }
{
    let object = request.object as usize;
    if objects.count <= object {
        return Err(Reason::NoObject);
    }
    let kind = serial::kind_of(objects.kind[object]);
    serial::decode(kind, request.operation, request.argument).ok_or(Reason::Unfit)?;
    Ok(())
}

// A plain transaction asks nothing of an object.
#[tactic(auto, unfolding(crate::specs::Order::first_code))]
fn check_child(objects: &Objects, child: Child) -> Result<(), Reason>
    requires { objects.now.count ≤ objects_most }
    ensures { code_in result ≡ first_code (unasked objects.now.count objects.now.kind child) }
{
    match child {
        Child::Plain => Ok(()),
        Child::Access(request) => check_request(objects, request),
    }
}

// `fine` is whether the store is in form.
#[tactic(auto, using(crate::proofs::Codes::code_some), unfolding(crate::specs::Order::first_code))]
pub fn check_create(
    fine: bool,
    objects: &Objects,
    tree: &Tree,
    accesses: &Accesses,
    p: usize,
    child: Child,
) -> Result<(), Reason>
    requires { fine ≡ true → (tree.now.count ≤ count_most) × (objects.now.count ≤ objects_most) × Rooted tree.now.parent }
    ensures { code_in result ≡ first_code (create_order fine tree.now.count tree.now.parent tree.now.state accesses.now.operation objects.now.count objects.now.kind p child) }
{
    if !fine {
        return Err(Reason::Malformed);
    }
    if tree.count < p {
        return Err(Reason::NoTransaction);
    }
    if accesses.operation[p] != 0 {
        return Err(Reason::UnderAccess);
    }
    check_active(tree, p)?;
    check_child(objects, child)?;
    if COUNT_MOST <= tree.count {
        return Err(Reason::Full);
    }
    Ok(())
}
