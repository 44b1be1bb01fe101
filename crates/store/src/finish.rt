// Commit and abort.
ghost use Rattle.std.specs.Prelude.{◌≡◌, ◌<◌, pos};
ghost use Rattle.columns.specs.Column.{rows_most};
ghost use Rattle.store.specs.Finish.{finished_as, commit_of, abort_of};
ghost use Rattle.refusal.specs.Refusal.{answer_of};
ghost use Rattle.store.specs.Refusal.{reply_of};

use crate::{Reply, Store};
use columns::lists::Lists;
use columns::tree::{ABORTED, COMMITTED};
use refusal::{Answer, Reason, check_finish, child_answer, is_unanswered, open_child};

impl Store {
    // Done: in its new state, with the lists as they are then.
    fn finished(mut self, t: u32, state: u8, lists: Lists) -> Reply
        requires { t < rows_most }
        ensures { result ≡ reply_of (finished_as self t state lists) (answer_of 0 t (pos 0)) }
    {
        self.tree.state[t as usize] = state;
        self.lists = lists;
        self.answered(Answer::done(t, 0))
    }

    #[tactic(auto, using(crate::proofs::Finishing::row, crate::proofs::Finishing::few, crate::proofs::Finishing::dropping, crate::proofs::Finishing::commit_refused, crate::proofs::Finishing::early_small, crate::proofs::Finishing::commit_early, crate::proofs::Finishing::commit_unanswered))]
    pub fn commit(mut self, t: u32) -> Reply
        ensures { result ≡ commit_of self t }
    {
        let k = t as usize;
        let fine = self.in_form();
        if let Err(reason) = check_finish(fine, &self.tree, k) {
            return self.answered(reason.into());
        }
        let rows = self.tree.rows();
        let child = self.tree.first_open_child(rows, k);
        if let Some(child) = open_child(self.accesses.operation[k], child) {
            return self.answered(child_answer(child));
        }
        if is_unanswered(self.accesses.operation[k], self.accesses.outcome[k]) {
            return self.answered(Reason::Unanswered.into());
        }
        let above = self.tree.parent[k];
        let lists = self.lists.moved(rows, k, above);
        self.finished(t, COMMITTED, lists)
    }

    #[tactic(auto, using(crate::proofs::Finishing::row, crate::proofs::Finishing::dropping, crate::proofs::Finishing::abort_refused, crate::proofs::Finishing::abort_done))]
    pub fn abort(mut self, t: u32) -> Reply
        ensures { result ≡ abort_of self t }
    {
        let k = t as usize;
        let fine = self.in_form();
        if let Err(reason) = check_finish(fine, &self.tree, k) {
            return self.answered(reason.into());
        }
        let lists = self.lists.dropped(&self.tree, k);
        self.finished(t, ABORTED, lists)
    }
}
