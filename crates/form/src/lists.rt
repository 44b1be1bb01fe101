// The lists: places and order are inverse to each other, and a listed access is answered and held at or above itself.
ghost use Rattle.std.specs.Prelude.{◌≡◌, true, ◌+◌, ◌&&◌, ◌<◌, ◌≤◌, eqb};
ghost use Rattle.below.specs.Below.{all_below, all_from};
ghost use Rattle.below.specs.Climb.{Lower};
ghost use Rattle.columns.specs.Column.{at, rows_most, places_most};
ghost use Rattle.form.specs.Form.{count_most, order_entry, list_row, lists_fine};
ghost use Rattle.form.specs.Known.{Known};

use crate::climb::climbs_to;
use crate::rest::zero_from;
use columns::accesses::Accesses;
use columns::lists::{Lists, PLACES};
use columns::tree::{ROWS, Tree};

fn entry_fine(tree: &Tree, lists: &Lists, i: usize) -> bool
    requires { (tree.now.count ≤ count_most) × (lists.now.listed ≤ places_most) × (i < lists.now.listed) }
    ensures { result ≡ order_entry tree.now.count lists.now.listed lists.now.order lists.now.place i }
{
    let x = lists.entry(i);
    0 < x && x <= tree.count && lists.place_of(x) == i + 1
}

#[tactic(auto, using(crate::proofs::Split::entries_split))]
fn entries_fine(tree: &Tree, lists: &Lists) -> bool
    requires { (tree.now.count ≤ count_most) × (lists.now.listed ≤ places_most) }
    ensures { result ≡ all_below places_most (order_entry tree.now.count lists.now.listed lists.now.order lists.now.place) }
{
    zero_from(&lists.order, lists.listed) && (0..lists.listed).all(|i| entry_fine(tree, lists, i))
}

// `above` is what the climbs of the rows before have found.
fn row_fine(
    tree: &Tree,
    accesses: &Accesses,
    lists: &Lists,
    above: &mut [u16; ROWS],
    k: usize,
) -> bool
    requires { (lists.now.listed ≤ places_most) × (k < rows_most) × Lower rows_most (at tree.now.parent) × Known tree.now.parent above.old }
    ensures { (result ≡ list_row tree.now.parent accesses.now.outcome lists.now.listed lists.now.order lists.now.holder lists.now.place k) × (result ≡ true → Known tree.now.parent above.new) }
{
    let place = lists.place_of(k);
    if place == 0 {
        return lists.holder[k] == 0;
    }
    accesses.outcome[k] != 0
        && place <= lists.listed
        && lists.entry(place - 1) == k
        && climbs_to(tree, above, k, lists.holder[k])
}

fn rows_fine(tree: &Tree, accesses: &Accesses, lists: &Lists) -> bool
    requires { (tree.now.count ≤ count_most) × (lists.now.listed ≤ places_most) × Lower rows_most (at tree.now.parent) }
    ensures { result ≡ all_below (tree.now.count + 1) (list_row tree.now.parent accesses.now.outcome lists.now.listed lists.now.order lists.now.holder lists.now.place) }
{
    // The root is above each.
    let mut above = [0; ROWS];
    for k in 0..tree.rows() {
        if !row_fine(tree, accesses, lists, &mut above, k) {
            return false;
        }
    }
    true
}

// Whether the rows from `from` on are on no list.
fn unlisted_from(lists: &Lists, from: usize) -> bool
    requires { from ≤ rows_most }
    ensures { result ≡ all_from from rows_most (λ k. eqb (at lists.now.place k) 0 && eqb (at lists.now.holder k) 0) }
{
    zero_from(&lists.place, from) & zero_from(&lists.holder, from)
}

#[tactic(auto, using(crate::proofs::Split::lists_parts))]
pub fn lists_fine(tree: &Tree, accesses: &Accesses, lists: &Lists) -> bool
    requires { (tree.now.count ≤ count_most) × Lower rows_most (at tree.now.parent) }
    ensures { result ≡ lists_fine tree.now.count tree.now.parent accesses.now.outcome lists.now.listed lists.now.order lists.now.holder lists.now.place }
{
    lists.listed <= PLACES
        && entries_fine(tree, lists)
        && unlisted_from(lists, tree.rows())
        && rows_fine(tree, accesses, lists)
}
