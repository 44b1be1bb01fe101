// The climb from an access to its holder. It ends where one to the same holder has gone before: in a store that calls have made no row is climbed
// from twice.
ghost use Rattle.std.specs.Prelude.{true, ◌≡◌, ◌<◌};
ghost use Rattle.below.specs.Climb.{Lower};
ghost use Rattle.columns.specs.Column.{at, rows_most};
ghost use Rattle.columns.specs.Tree.{at_or_above};
ghost use Rattle.form.specs.Known.{Known};

use columns::tree::{ROWS, Tree};

// Whether h is x or above it. `above` has for each row one that is at or above it. The rows on the way get h: if h is not above, this is not so any
// more.
pub(crate) fn climbs_to(tree: &Tree, above: &mut [u16; ROWS], x: usize, h: u16) -> bool
    requires { (x < rows_most) × Lower rows_most (at tree.now.parent) × Known tree.now.parent above.old }
    ensures { (result ≡ at_or_above tree.now.parent x h) × (result ≡ true → Known tree.now.parent above.new) }
{
    let top = usize::from(h);
    let mut y = x;
    while above[y] != h {
        if y <= top {
            return y == top;
        }
        above[y] = h;
        y = tree.parent_of(y);
    }
    true
}
