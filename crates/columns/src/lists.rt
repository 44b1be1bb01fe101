// All listed work in one order, and the transaction on whose list each access is.
ghost use Rattle.std.specs.Prelude.{◌≡◌, ℕ, ◌+◌, ◌<◌, ◌≤◌, true, [], eqb};
ghost use Rattle.below.specs.Climb.{Lower};
ghost use Rattle.columns.specs.Column.{at, rows_most, places_most};
ghost use Rattle.columns.specs.Tree.{at_or_above};
ghost use Rattle.columns.specs.Work.{work_of, held_by, dropped_of, moved_of, Sound};
ghost use Rattle.columns.specs.Listing.{has, pushed, extended, held_in, Room};

use crate::tree::{ROWS, Tree, sole_mark};

pub const PLACES: usize = 1024;

// The first `listed` entries of the order are the listed accesses.
#[derive(Clone, Copy)]
pub struct Lists {
    pub listed: usize,
    pub order: [u16; PLACES],
    pub holder: [u16; ROWS],
    pub place: [u16; ROWS],
}

impl Lists {
    // The entry at k.
    pub fn entry(&self, k: usize) -> usize
        requires { k < places_most }
        ensures { result ≡ at self.now.order k }
    {
        usize::from(self.order[k])
    }

    pub fn holder_of(&self, x: usize) -> usize
        requires { x < rows_most }
        ensures { result ≡ at self.now.holder x }
    {
        usize::from(self.holder[x])
    }

    pub fn place_of(&self, x: usize) -> usize
        requires { x < rows_most }
        ensures { result ≡ at self.now.place x }
    {
        usize::from(self.place[x])
    }

    // Nothing is listed.
    fn unlisted(holder: [u16; ROWS]) -> Lists
        ensures { result ≡ work_of [] holder }
    {
        Lists {
            listed: 0,
            order: [0; PLACES],
            holder,
            place: [0; ROWS],
        }
    }

    // x is listed behind all others.
    fn push(&mut self, x: u16)
        requires { (self.old.listed < places_most) × (x < rows_most) }
        ensures { self.new ≡ pushed self.old x }
    {
        self.order[self.listed] = x;
        self.listed += 1;
        self.place[usize::from(x)] = self.listed as u16;
    }

    // What is listed in `from`, and has a holder whose mark is `mark`, is listed behind all others.
    fn extend(&mut self, from: &Lists, marks: &[bool; ROWS], mark: bool)
        requires { Room self.old from.now marks.now mark }
        ensures { self.new ≡ extended self.old (held_in from.now marks.now mark) }
    {
        for &x in &from.order[..from.listed] {
            if marks[from.holder_of(usize::from(x))] == mark {
                self.push(x);
            }
        }
    }

    // The holders, with h in place of each that is marked, in the first `rows`.
    fn held(&self, rows: usize, marks: &[bool; ROWS], h: u16) -> [u16; ROWS]
        requires { (rows ≤ rows_most) × ((k : ℕ) → k < rows → at self.now.holder k < rows_most) }
        ensures { result ≡ held_by rows (λ x. has marks.now true (at self.now.holder x)) h self.now.holder }
    {
        let mut after = self.holder;
        for k in 0..rows {
            if marks[self.holder_of(k)] {
                after[k] = h;
            }
        }
        after
    }

    // The lists of t, and of each beneath it, are dropped.
    pub fn dropped(&self, tree: &Tree, t: usize) -> Lists
        requires { Sound (tree.now.count + 1) self.now.listed self.now.order self.now.holder × (0 < t) × Lower (tree.now.count + 1) (at tree.now.parent) }
        ensures { result ≡ dropped_of (λ x. at_or_above tree.now.parent (at self.now.holder x) t) (tree.now.count + 1) self.now.listed self.now.order self.now.holder }
    {
        let lost = tree.marks_beneath(t);
        let mut after = Lists::unlisted(self.held(tree.rows(), &lost, 0));
        after.extend(self, &lost, false);
        after
    }

    // The lists of t go to the ends of those of h.
    pub fn moved(&self, rows: usize, t: usize, h: u16) -> Lists
        requires { Sound rows self.now.listed self.now.order self.now.holder }
        ensures { result ≡ moved_of (λ x. eqb (at self.now.holder x) t) h rows self.now.listed self.now.order self.now.holder }
    {
        let own = sole_mark(rows, t);
        let mut after = Lists::unlisted(self.held(rows, &own, h));
        after.extend(self, &own, false);
        after.extend(self, &own, true);
        after
    }
}
