ghost use Rattle.std.specs.Prelude.{◌≡◌, List};
ghost use Rattle.slicc_ast.specs.declared.tree.item.Tree.{Tree};
ghost use Rattle.body_meaning.specs.Prelude.{IsRoundOf};
ghost use Rattle.protocol_meaning.specs.Prelude.{scan_of, IsServedLocal};
ghost use Rattle.action_gen.specs.Prelude.{Serves, Sound};

use crate::machine::machine_at;
use crate::ports::scan;
use action_gen::Parts;
use acts::{Local, NoMemory};
use body_meaning::RoundEnd;
use protocol_meaning::Protocol;
use std::alloc::Global;
use std::marker::Model;

/// A protocol whose scans are done by action code. A contract sees it as its parts, and it serves the protocols that these serve. It
/// has no tree.
#[derive(Drop)]
pub struct Compiled {
    parts: Parts,
}

impl Model for Compiled {
    ghost use Rattle.action_gen.specs.declared.parts.Parts.{Parts};

    ghost Value = { Parts };

    ghost view = { λ c. c.parts };
}

impl Compiled {
    /// It runs these parts, which are sound. It takes no memory.
    pub fn of(parts: Parts) -> Compiled
        requires { Sound parts }
        ensures { result ≡ parts }
    {
        Compiled { parts }
    }
}

impl Protocol for Compiled {
    ghost use Rattle.action_gen.specs.Prelude.{Serves};

    ghost serves = { λ c trees. Serves c trees };

    fn round<T: Local>(
        &self,
        alloc: Global,
        machine: u16,
        local: &mut T,
        fired: u64,
        limit: u64,
    ) -> Result<RoundEnd, NoMemory>
        requires { IsServedLocal (λ trees. Serves self.now trees) machine (T.view local.old) }
        ensures { (trees : List Tree) → Serves self.now trees
            → IsRoundOf (scan_of trees machine limit fired (T.view local.old)) result
            (T.view local.new) (T.view local.old) }
    {
        match machine_at(&self.parts, machine) {
            None => Ok(RoundEnd::Idle),
            Some(m) => scan(alloc, m, limit, fired, local),
        }
    }
}
