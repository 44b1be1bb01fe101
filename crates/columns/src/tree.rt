// The tree of transactions, indexed by the transaction's number: climbing it, and marking a part of it.
ghost use Rattle.std.specs.Prelude.{◌≡◌, ◌+◌, ◌<◌, ◌≤◌, eqb};
ghost use Rattle.below.specs.Below.{found_below};
ghost use Rattle.below.specs.Climb.{Lower};
ghost use Rattle.columns.specs.Column.{at, rows_most};
ghost use Rattle.columns.specs.Tree.{at_or_above, aborted_up, open_child, marks_of};

// A row for the root and for each of 1,024 transactions.
pub const ROWS: usize = 1025;

// What a transaction's state is. A store is taken whatever bytes it holds, so these are no enum.
pub const OPEN: u8 = 0;

pub const COMMITTED: u8 = 1;

pub const ABORTED: u8 = 2;

// The transactions in use are the first `count` behind the root, 0.
#[derive(Clone, Copy)]
pub struct Tree {
    pub count: usize,
    pub parent: [u16; ROWS],
    pub state: [u8; ROWS],
}

impl Tree {
    // The rows in use.
    pub fn rows(&self) -> usize
        requires { self.now.count < rows_most }
        ensures { result ≡ self.now.count + 1 }
    {
        self.count + 1
    }

    pub fn parent_of(&self, x: usize) -> usize
        requires { x < rows_most }
        ensures { result ≡ at self.now.parent x }
    {
        usize::from(self.parent[x])
    }

    // Whether some transaction at or above x has aborted.
    pub fn has_aborted_above(&self, x: usize) -> bool
        requires { (x < rows_most) × Lower (x + 1) (at self.now.parent) }
        ensures { result ≡ aborted_up self.now.parent self.now.state x }
    {
        let mut y = x;
        // The way up has no end that is known beforehand.
        while self.state[y] != ABORTED {
            if y == 0 {
                return false;
            }
            y = self.parent_of(y);
        }
        true
    }

    // A mark for t and each above it.
    pub fn marks_above(&self, t: usize) -> [bool; ROWS]
        requires { (t < rows_most) × Lower (t + 1) (at self.now.parent) }
        ensures { result ≡ marks_of rows_most (λ h. at_or_above self.now.parent t h) }
    {
        let mut marks = [false; ROWS];
        let mut y = t;
        while y != 0 {
            marks[y] = true;
            y = self.parent_of(y);
        }
        // The root is above each.
        marks[0] = true;
        marks
    }

    // Whether k is a child of t that is open.
    fn is_open_child(&self, t: usize, k: usize) -> bool
        requires { k < rows_most }
        ensures { result ≡ open_child self.now.parent self.now.state t k }
    {
        self.parent_of(k) == t && self.state[k] == OPEN
    }

    // The lowest open child of t in the first `rows`.
    pub fn first_open_child(&self, rows: usize, t: usize) -> Option<usize>
        requires { rows ≤ rows_most }
        ensures { result ≡ found_below rows (open_child self.now.parent self.now.state t) }
    {
        (0..rows).find(|&k| self.is_open_child(t, k))
    }

    // A mark for t and each beneath it. A parent is lower than its child, so its mark is there first.
    pub(crate) fn marks_beneath(&self, t: usize) -> [bool; ROWS]
        requires { (self.now.count < rows_most) × (0 < t) × Lower (self.now.count + 1) (at self.now.parent) }
        ensures { result ≡ marks_of (self.now.count + 1) (λ k. at_or_above self.now.parent k t) }
    {
        let mut marks = [false; ROWS];
        for k in 1..self.rows() {
            let above = self.parent_of(k);
            marks[k] = k == t || marks[above];
        }
        marks
    }
}

// A mark for t alone.
pub(crate) fn sole_mark(rows: usize, t: usize) -> [bool; ROWS]
    requires { rows ≤ rows_most }
    ensures { result ≡ marks_of rows (λ k. eqb k t) }
{
    let mut marks = [false; ROWS];
    for k in 0..rows {
        marks[k] = k == t;
    }
    marks
}
