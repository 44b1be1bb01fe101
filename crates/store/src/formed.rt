// Whether a store has the form that is asked of it.
ghost use Rattle.std.specs.Prelude.{◌≡◌};
ghost use Rattle.store.specs.Form.{in_form};

use crate::Store;
use form::{accesses_fine, lists_fine, objects_fine, tree_fine};

impl Store {
    // Each test may ask what the one before it has shown.
    #[tactic(auto, using(crate::proofs::Facts::objects_few, crate::proofs::Facts::tree_few, crate::proofs::Facts::tree_low), unfolding(crate::specs::Form::in_form))]
    pub(crate) fn in_form(&self) -> bool
        ensures { result ≡ in_form self.now }
    {
        objects_fine(&self.objects)
            && tree_fine(&self.tree, &self.accesses)
            && accesses_fine(&self.objects, &self.tree, &self.accesses)
            && lists_fine(&self.tree, &self.accesses, &self.lists)
    }
}
