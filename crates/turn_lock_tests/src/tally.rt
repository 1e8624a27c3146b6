ghost use Rattle.std.specs.Prelude.{◌≡◌, [], ◌∷◌, ◌++◌, OnOk, OnErr};

use ruby_base::{NoMemory, Seq};
use std::alloc::Global;
use turn_lock::Kept;

/// Who counted, turn by turn. Each count has its owner, as the lock's histories have.
#[derive(Drop)]
pub struct Tally {
    pub counts: Seq<u64>,
}

impl Kept for Tally {
    type Plan = ();

    ghost plan = { λ _. tt };

    ghost history = { λ t. t.counts };
}

impl Tally {
    pub fn new(alloc: Global) -> Tally
        ensures { result.counts ≡ [] }
    {
        Tally {
            counts: Seq::new(alloc),
        }
    }

    /// One more count. Without memory the tally is as it was.
    pub fn add(&mut self, count: u64) -> Result<(), NoMemory>
        ensures ok { OnOk result (self.new.counts ≡ self.old.counts ++ count ∷ []) }
        ensures err { OnErr result (self.new.counts ≡ self.old.counts) }
    {
        self.counts.push(count)
    }
}
