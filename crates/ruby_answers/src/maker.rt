//! What makes of the plan of a protocol that which does its scans.
ghost use Rattle.std.specs.Prelude.{IfOk};

use protocol_meaning::Protocol;
use ruby_base::NoMemory;
use slicc_interpreter::Interpreted;
use slicc_plan::{Plan, copy_plan};
use std::alloc::Global;

/// Makes protocols that do the scans of controllers, each in its own way of knowing a protocol.
pub trait Maker {
    type P: Protocol + Drop;

    /// Makes what serves the protocol of the plan.
    fn make(&self, alloc: Global, plan: &Plan) -> Result<Self::P, NoMemory>
        ensures { IfOk result (λ p. Self.P.serves p plan.now) };
}

/// Makes protocols whose scans are walks through their trees.
#[derive(Drop, Clone, Copy)]
pub struct WalkMaker;

impl Maker for WalkMaker {
    type P = Interpreted;

    fn make(&self, _alloc: Global, plan: &Plan) -> Result<Interpreted, NoMemory> {
        Ok(Interpreted::new(copy_plan(plan)?))
    }
}
