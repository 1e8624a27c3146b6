ghost use Rattle.std.specs.Prelude.{List};
ghost use Rattle.slicc_ast.specs.declared.tree.item.Tree.{Tree};
ghost use Rattle.body_meaning.specs.Prelude.{IsRoundOf};
ghost use Rattle.protocol_meaning.specs.Locals.{IsServedLocal};
ghost use Rattle.protocol_meaning.specs.Meaning.{scan_of};

use body_meaning::RoundEnd;
use ctl_face::{Local, NoMemory};
use std::alloc::Global;

/// What does the scans of a protocol's controllers, whatever way it knows the protocol. It may serve several protocols, given by
/// their trees: its scans are then those of each of them.
pub trait Protocol {
    ghost serves: { Self → List Tree → Type 0 };

    /// One scan of a controller of this machine, in its local. The controller has fired `fired` transitions in this cycle and may
    /// fire `limit`. What the scan leaves of the local counts only where it has fired, and for whether a transition was stalled. The
    /// machine is one of a protocol that is served, and the local a lawful one of a controller of that machine there.
    fn round<T: Local>(
        &self,
        alloc: Global,
        machine: u16,
        local: &mut T,
        fired: u64,
        limit: u64,
    ) -> Result<RoundEnd, NoMemory>
        requires { IsServedLocal (serves self.now) machine (T.view local.old) }
        ensures { (trees : List Tree) → serves self.now trees
            → IsRoundOf (scan_of trees machine limit fired (T.view local.old)) result
            (T.view local.new) (T.view local.old) };
}
