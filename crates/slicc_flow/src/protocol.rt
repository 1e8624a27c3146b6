//! Whether a protocol keeps the rules of flow, and what its transitions need and send.
ghost use Rattle.std.specs.Prelude.{◌≡◌, ◌≤◌, length, IfOk};
ghost use Rattle.slicc_plan.specs.Prelude.{machines_of};
ghost use Rattle.slicc_flow.specs.Prelude.{IsFlow, IsFlowOrBroken, IsPlanFlow};

use crate::judge::{all_bodies, first_found};
use crate::needs::Needs;
use crate::plan_flow::Flow;
use crate::sends::all_sends;
use declared_types::Scopes;
use ruby_base::NoMemory;
use slicc_ast::tree::Tree;
use slicc_plan::{Broken, Plan, Refusal, refused};
use std::alloc::Global;

// What transitions need, or the first rule of flow that is broken.
fn flow_or_broken(alloc: Global, trees: &[Tree]) -> Result<Result<Needs, Broken>, NoMemory>
    requires { length (machines_of trees.now) ≤ 16 }
    ensures { IfOk result (IsFlowOrBroken trees.now) }
{
    let scopes = Scopes::new(alloc, trees)?;
    let machines = all_bodies(alloc, &scopes)?;
    match first_found(alloc, None, &machines)? {
        Some(b) => Ok(Err(b)),
        None => Ok(Ok(Needs::of(machines))),
    }
}

/// What the transitions of a protocol with these trees need, or the first of the rules of flow that it breaks.
pub fn flow_of_trees(alloc: Global, trees: &[Tree]) -> Result<Needs, Refusal>
    requires { length (machines_of trees.now) ≤ 16 }
    ensures { IsFlow trees.now result }
{
    match flow_or_broken(alloc, trees) {
        Ok(Ok(flow)) => Ok(flow),
        Ok(Err(b)) => Err(refused(b)),
        Err(NoMemory) => Err(Refusal::NoMemory),
    }
}

/// What the transitions of a plan need and send, or the first of the rules of flow that it breaks.
pub fn flow(alloc: Global, plan: &Plan) -> Result<Flow, Refusal>
    ensures { IsPlanFlow plan.now result }
{
    match flow_of_trees(alloc, plan.trees()) {
        Err(refusal) => Err(refusal),
        Ok(needs) => match all_sends(alloc, plan) {
            Ok(sends) => Ok(Flow::of(needs, sends)),
            Err(NoMemory) => Err(Refusal::NoMemory),
        },
    }
}
