// The accesses: object, operation and argument fit, and an answer has a shape that the operation allows.
ghost use Rattle.std.specs.Prelude.{◌≡◌, ◌<◌, ◌≤◌};
ghost use Rattle.kinds.specs.Kinds.{kind_of, decode_of};
ghost use Rattle.below.specs.Below.{all_from};
ghost use Rattle.columns.specs.Column.{at, at_z, rows_most};
ghost use Rattle.form.specs.Form.{objects_most, fits, blank, access_row, accesses_fine};

use crate::rest::zero_from;
use crate::tree::COUNT_MOST;
use columns::accesses::Accesses;
use columns::objects::Objects;
use columns::tree::Tree;
use serial::{decode, kind_of, recall};

// What a row has of its access.
#[derive(Clone, Copy, Default, PartialEq, Eq)]
struct Access {
    object: u8,
    operation: u8,
    argument: i64,
    outcome: u8,
    value: i64,
}

impl Access {
    fn of_row(accesses: &Accesses, k: usize) -> Access
        requires { k < rows_most }
        ensures { result ≡ record { object = at accesses.now.object k; operation = at accesses.now.operation k; argument = at_z accesses.now.argument k; outcome = at accesses.now.outcome k; value = at_z accesses.now.value k } }
    {
        Access {
            object: accesses.object[k],
            operation: accesses.operation[k],
            argument: accesses.argument[k],
            outcome: accesses.outcome[k],
            value: accesses.value[k],
        }
    }

    // Whether it is zero, as where there is no access.
    fn is_blank(&self) -> bool
        ensures { result ≡ blank self.now.object self.now.operation self.now.argument self.now.outcome self.now.value }
    {
        *self == Access::default()
    }

    // Whether an object of the kind takes the operation, and the operation allows the answer, if there is one.
    fn fits(&self, letter: u8) -> bool
        ensures { result ≡ fits (decode_of (kind_of letter) self.now.operation self.now.argument) self.now.outcome self.now.value }
    {
        let Some(asked) = decode(kind_of(letter), u32::from(self.operation), self.argument) else {
            return false;
        };
        if self.outcome == 0 {
            return self.value == 0;
        }
        recall(asked, u32::from(self.outcome - 1), self.value).is_some()
    }
}

fn row_fine(objects: &Objects, tree: &Tree, accesses: &Accesses, k: usize) -> bool
    requires { (objects.now.count ≤ objects_most) × (k < rows_most) }
    ensures { result ≡ access_row objects.now.count objects.now.kind tree.now.count accesses.now.object accesses.now.operation accesses.now.argument accesses.now.outcome accesses.now.value k }
{
    let access = Access::of_row(accesses, k);
    if k == 0 || tree.count < k || access.operation == 0 {
        return access.is_blank();
    }
    let o = usize::from(access.object);
    o < objects.count && access.fits(objects.kind[o])
}

// Whether the rows from `from` on are zero.
fn blank_from(accesses: &Accesses, from: usize) -> bool
    requires { from ≤ rows_most }
    ensures { result ≡ all_from from rows_most (λ k. blank (at accesses.now.object k) (at accesses.now.operation k) (at_z accesses.now.argument k) (at accesses.now.outcome k) (at_z accesses.now.value k)) }
{
    zero_from(&accesses.object, from)
        & zero_from(&accesses.operation, from)
        & zero_from(&accesses.argument, from)
        & zero_from(&accesses.outcome, from)
        & zero_from(&accesses.value, from)
}

#[tactic(auto, using(crate::proofs::Split::accesses_parts))]
pub fn accesses_fine(objects: &Objects, tree: &Tree, accesses: &Accesses) -> bool
    requires { objects.now.count ≤ objects_most }
    ensures { result ≡ accesses_fine objects.now.count objects.now.kind tree.now.count accesses.now.object accesses.now.operation accesses.now.argument accesses.now.outcome accesses.now.value }
{
    let rows = tree.count.min(COUNT_MOST) + 1;
    blank_from(accesses, rows) && (0..rows).all(|k| row_fine(objects, tree, accesses, k))
}
