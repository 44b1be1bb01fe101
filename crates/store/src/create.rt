// Create.
ghost use Rattle.std.specs.Prelude.{◌≡◌};
ghost use Rattle.store.specs.Create.{request_of, create_of};

use crate::{Reply, Store};
use refusal::{Answer, Child, Request, check_create};

// What the new row holds.
fn request_of(child: Child) -> Request
    ensures { result ≡ request_of child }
{
    match child {
        Child::Plain => Request::default(),
        Child::Access(request) => request,
    }
}

impl Store {
    // Numbers run 1, 2, 3 in order of accepted creations.
    #[tactic(auto, using(crate::proofs::Creating::room, crate::proofs::Creating::narrow_request, crate::proofs::Creating::create_refused))]
    pub fn create(mut self, parent: u32, child: Child) -> Reply
        ensures { result ≡ create_of self parent child }
    {
        let fine = self.in_form();
        let p = parent as usize;
        if let Err(reason) = check_create(
            fine,
            &self.objects,
            &self.tree,
            &self.accesses,
            p,
            child,
        ) {
            return self.answered(reason.into());
        }
        let t = self.tree.rows();
        let request = request_of(child);
        self.tree.count = t;
        self.tree.parent[t] = parent as u16;
        self.accesses.object[t] = request.object as u8;
        self.accesses.operation[t] = request.operation as u8;
        self.accesses.argument[t] = request.argument;
        self.answered(Answer::done(t as u32, 0))
    }
}
