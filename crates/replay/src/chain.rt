// The listed work of one object, linked by holder, and the state after one holder's part of it, or after a view.
ghost use Rattle.std.specs.Prelude.{◌≡◌, ◌+◌, ◌<◌, length};
ghost use Rattle.below.specs.Climb.{Lower};
ghost use Rattle.kinds.specs.Kinds.{Bounded};
ghost use Rattle.columns.specs.Column.{at, rows_most};
ghost use Rattle.columns.specs.Work.{work, list_in};
ghost use Rattle.replay.specs.Access.{asked_of};
ghost use Rattle.replay.specs.View.{view_in, after_one, after_all};
ghost use Rattle.replay.specs.Chain.{Chain, chain_at, Linked, Linkable, Left};

use crate::access::asked;
use columns::accesses::Accesses;
use columns::lists::Lists;
use columns::tree::{ROWS, Tree};
use kinds::{Kind, State};

// The first entry of each holder, and the next of each entry. An `Option` would double both, which each response fills anew: 0 is none, as no access has the
// root's row.
#[derive(Clone, Copy)]
pub(crate) struct Chains {
    pub head: [u16; ROWS],
    pub next: [u16; ROWS],
}

// The state after the operation of access x.
fn applied(accesses: &Accesses, kind: Kind, x: usize, s: State) -> State
    requires { (x < rows_most) × Bounded s }
    ensures { result ≡ after_one (asked_of kind accesses.now.operation accesses.now.argument x) s }
{
    match asked(accesses, kind, x) {
        Some(o) => serial::step(s, o).state,
        None => s,
    }
}

impl Chains {
    // The listed work of object o, chained. From the last entry to the first, so that each goes before its holder's others.
    pub(crate) fn of(lists: &Lists, accesses: &Accesses, o: u8) -> Chains
        requires { Linkable lists.now.listed lists.now.order lists.now.holder }
        ensures { Linked (list_in (work lists.now.listed lists.now.order) lists.now.holder accesses.now.object o) result.head result.next }
    {
        let mut head = [0; ROWS];
        let mut next = [0; ROWS];
        for i in (0..lists.listed).rev() {
            let x = lists.entry(i);
            if accesses.object[x] == o {
                let h = lists.holder_of(x);
                next[x] = head[h];
                head[h] = lists.order[i];
            }
        }
        Chains { head, next }
    }

    // The state after the chain of u.
    fn walked(&self, accesses: &Accesses, kind: Kind, u: usize, start: State) -> State
        requires { (u < rows_most) × Chain self.now.next (at self.now.head u) (chain_at self.now.head self.now.next u) × Left kind (length (chain_at self.now.head self.now.next u)) start }
        ensures { result ≡ after_all (asked_of kind accesses.now.operation accesses.now.argument) (chain_at self.now.head self.now.next u) start }
    {
        let mut s = start;
        let mut x = usize::from(self.head[u]);
        while x != 0 {
            s = applied(accesses, kind, x, s);
            x = usize::from(self.next[x]);
        }
        s
    }

    // The replayed state of t: its parent's, and then its own chain.
    pub(crate) fn climbed(
        &self,
        tree: &Tree,
        accesses: &Accesses,
        kind: Kind,
        start: State,
        t: usize,
    ) -> State
        requires { (t < rows_most) × Lower (t + 1) (at tree.now.parent) × Linked (chain_at self.now.head self.now.next) self.now.head self.now.next × Left kind (length (view_in tree.now.parent (chain_at self.now.head self.now.next) t)) start }
        ensures { result ≡ after_all (asked_of kind accesses.now.operation accesses.now.argument) (view_in tree.now.parent (chain_at self.now.head self.now.next) t) start }
    {
        let above = if t == 0 {
            start
        } else {
            self.climbed(tree, accesses, kind, start, tree.parent_of(t))
        };
        self.walked(accesses, kind, t, above)
    }
}
