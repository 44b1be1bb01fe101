// The objects: 0 to 64, each kind known and each opening in range.
ghost use Rattle.std.specs.Prelude.{◌≡◌, ◌&&◌, ◌≤◌, eqb};
ghost use Rattle.below.specs.Below.{all_from};
ghost use Rattle.columns.specs.Column.{at, at_z};
ghost use Rattle.kinds.specs.Kinds.{kind_of, opened_of, opens};
ghost use Rattle.form.specs.Form.{objects_most, is_zero, objects_fine};

use crate::rest::zero_from;
use columns::objects::{OBJECTS, Objects};
use serial::{kind_of, opened};

// Whether an object of this kind opens with this value.
pub fn opens(letter: u8, opening: i64) -> bool
    ensures { result ≡ opens (opened_of (kind_of letter) opening) }
{
    opened(kind_of(letter), opening).is_some()
}

// Whether the objects from `from` on are zero.
fn unopened_from(objects: &Objects, from: usize) -> bool
    requires { from ≤ objects_most }
    ensures { result ≡ all_from from objects_most (λ o. eqb (at objects.now.kind o) 0 && is_zero (at_z objects.now.opening o)) }
{
    zero_from(&objects.kind, from) & zero_from(&objects.opening, from)
}

#[tactic(auto, using(crate::proofs::Split::objects_parts))]
pub fn objects_fine(objects: &Objects) -> bool
    ensures { result ≡ objects_fine objects.now.count objects.now.kind objects.now.opening }
{
    objects.count <= OBJECTS
        && unopened_from(objects, objects.count)
        && (0..objects.count).all(|o| opens(objects.kind[o], objects.opening[o]))
}
