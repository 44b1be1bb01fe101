// Respond.
ghost use Rattle.std.specs.Prelude.{◌≡◌, true, ◌≤◌, Some};
ghost use Rattle.columns.specs.Column.{at};
ghost use Rattle.store.specs.Form.{in_form};
ghost use Rattle.store.specs.Awaited.{awaited};
ghost use Rattle.store.specs.Respond.{asking_of, respond_of};

use crate::{Reply, Store};
use kinds::{Answered, Numbers};
use refusal::{Answer, Reason, check_ask, wait_answer};
use replay::access::asked;
use replay::view::replayed;
use wait::Asking;

impl Store {
    // The asking operation with its result.
    fn asking(&self, t: usize) -> Option<Answered>
        requires { (in_form self.now ≡ true) × (t ≤ self.now.tree.count) × (at self.now.accesses.operation t ≡ 0 → ⊥) }
        ensures { result ≡ asking_of self.now t }
    {
        let o = self.accesses.object[t];
        let object = usize::from(o);
        let kind = serial::kind_of(self.objects.kind[object]);
        let operation = asked(&self.accesses, kind, t)?;
        let opening = self.objects.opening[object];
        let state = replayed(&self.tree, &self.lists, &self.accesses, kind, opening, o, t);
        let outcome = serial::step(state, operation).outcome;
        Some(Answered { operation, outcome })
    }

    // The access to wait for.
    fn awaited(&self, t: usize, answered: Answered) -> Option<usize>
        requires { (in_form self.now ≡ true) × (t ≤ self.now.tree.count) × (at self.now.accesses.operation t ≡ 0 → ⊥) }
        ensures { result ≡ awaited self.now t answered }
    {
        let object = self.accesses.object[t];
        let kind = serial::kind_of(self.objects.kind[usize::from(object)]);
        let asking = Asking {
            transaction: t,
            object,
            kind,
            answered,
        };
        asking.first_wait(&self.tree, &self.lists, &self.accesses)
    }

    #[tactic(auto, using(crate::proofs::Responding::asks, crate::proofs::Responding::place, crate::proofs::Responding::respond_refused))]
    pub fn respond(mut self, t: u32) -> Reply
        ensures { result ≡ respond_of self t }
    {
        let k = t as usize;
        let fine = self.in_form();
        if let Err(reason) = check_ask(fine, &self.tree, &self.accesses, k) {
            return self.answered(reason.into());
        }
        // The form lets no other operation stand in the row than one that fits.
        let Some(asking) = self.asking(k) else {
            return self.answered(Reason::Malformed.into());
        };
        if let Some(access) = self.awaited(k, asking) {
            let holder = self.lists.holder_of(access);
            return self.answered(wait_answer(holder, access));
        }
        let result = Numbers::from(asking.outcome);
        let listed = self.lists.listed;
        self.accesses.outcome[k] = result.a as u8 + 1;
        self.accesses.value[k] = result.b;
        self.lists.order[listed] = k as u16;
        self.lists.listed = listed + 1;
        self.lists.holder[k] = k as u16;
        self.lists.place[k] = (listed + 1) as u16;
        self.answered(Answer::done(result.a, result.b))
    }
}
