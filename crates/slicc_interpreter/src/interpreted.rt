ghost use Rattle.std.specs.Prelude.{◌≡◌, List, Some, slice_get};
ghost use Rattle.slicc_ast.specs.declared.tree.item.Tree.{Tree};
ghost use Rattle.slicc_plan.specs.Prelude.{machines_of, symbols_of, HasNumbers};
ghost use Rattle.body_meaning.specs.Prelude.{IsRoundOf};
ghost use Rattle.protocol_meaning.specs.Prelude.{scan_of, IsServedLocal};

use crate::kept::kept_machines;
use crate::small::{machine_of, plans_are_small};
use acts::{Local, NoMemory};
use body_meaning::{RoundEnd, Scope};
use protocol_meaning::Protocol;
use ruby_symbols::MachineSymbols;
use scan_walk::scan;
use slicc_ast::tree::Machine;
use slicc_plan::Plan;
use std::alloc::Global;
use std::marker::Model;

/// A protocol whose scans are done by walking through its trees as they are written. A contract sees it as these trees.
#[derive(Drop)]
pub struct Interpreted {
    plan: Plan,
}

impl Model for Interpreted {
    ghost use Rattle.std.specs.Prelude.{List};
    ghost use Rattle.slicc_ast.specs.declared.tree.item.Tree.{Tree};
    ghost use Rattle.std.specs.Coded.{coded_list};
    ghost use Rattle.slicc_ast.specs.contracts.tree.item.Tree as tree;

    ghost Value = { List Tree };

    ghost coded = { coded_list tree.the_row.coded };

    ghost view = { λ p. p.plan };
}

impl Interpreted {
    /// It serves the protocol of this plan. It takes no memory.
    pub fn new(plan: Plan) -> Interpreted
        ensures { result ≡ plan }
    {
        Interpreted { plan }
    }

    /// One scan of a controller of the machine of this number, as `round` has it. Walking asks nothing of the local, and no machine of the
    /// protocol need have this number: without one no port fires.
    pub fn walk<T: Local>(
        &self,
        alloc: Global,
        machine: u16,
        local: &mut T,
        fired: u64,
        limit: u64,
    ) -> Result<RoundEnd, NoMemory>
        ensures { IsRoundOf (scan_of self.now machine limit fired (T.view local.old)) result
            (T.view local.new) (T.view local.old) }
    {
        match machine_of(&self.plan, machine) {
            None => Ok(RoundEnd::Idle),
            Some(m) => match self.plan.machine(machine) {
                None => Ok(RoundEnd::Idle),
                Some(tree) => walk_with(alloc, &self.plan, machine, m, tree, local, fired, limit),
            },
        }
    }
}

impl Protocol for Interpreted {
    ghost serves = { λ p trees. trees ≡ p };

    fn round<T: Local>(
        &self,
        alloc: Global,
        machine: u16,
        local: &mut T,
        fired: u64,
        limit: u64,
    ) -> Result<RoundEnd, NoMemory>
        requires { IsServedLocal (λ trees. trees ≡ self.now) machine (T.view local.old) }
        ensures { (trees : List Tree) → trees ≡ self.now
            → IsRoundOf (scan_of trees machine limit fired (T.view local.old)) result
            (T.view local.new) (T.view local.old) }
    {
        self.walk(alloc, machine, local, fired, limit)
    }
}

// A scan of a controller of a machine that is there.
fn walk_with<T: Local>(
    alloc: Global,
    plan: &Plan,
    machine: u16,
    m: &MachineSymbols,
    tree: &Machine,
    local: &mut T,
    fired: u64,
    limit: u64,
) -> Result<RoundEnd, NoMemory>
    requires symbols { slice_get (symbols_of plan.now).machines machine ≡ Some m.now }
    requires numbers { HasNumbers m.now }
    requires tree { slice_get (machines_of plan.now) machine ≡ Some tree.now }
    ensures { IsRoundOf (scan_of plan.now machine limit fired (T.view local.old)) result
        (T.view local.new) (T.view local.old) }
{
    plans_are_small(plan);
    let symbols = plan.symbols();
    let kept = kept_machines(symbols, m);
    let s = Scope {
        symbols,
        number: machine,
        machine: m,
        kept,
        tree,
    };
    scan(alloc, s, limit, fired, local)
}
