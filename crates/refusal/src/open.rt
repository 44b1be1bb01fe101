// Opening a store.
ghost use Rattle.std.specs.Prelude.{◌≡◌};
ghost use Rattle.refusal.specs.Open.{openable};

use columns::objects::OBJECTS;
use form::opens;

// Whether each kind has an opening value in its range, for some object and at most 64.
pub fn openable(kinds: &[u8], openings: &[i64]) -> bool
    ensures { result ≡ openable kinds.now openings.now }
{
    let objects = kinds.len();
    0 < objects
        && objects <= OBJECTS
        && objects == openings.len()
        && (0..objects).all(|o| opens(kinds[o], openings[o]))
}
