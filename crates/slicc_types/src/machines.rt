//! What is broken in the machines of a protocol.
ghost use Rattle.std.specs.Prelude.{◌≡◌, IfOk, map};
ghost use Rattle.slicc_plan.specs.Prelude.{HasFewMachines, broken_machines, first_of, machines_of, written_of};

use declared_types::Scopes;
use machine_rules::{machine_parts, networks, next_states, state_functions};
use machine_table::all_written;
use ruby_base::{NoMemory, Seq};
use slicc_flow::flow_broken;
use slicc_plan::{Broken, Written};
use std::alloc::Global;

/// The first rule of machines that a protocol breaks, if it breaks any; and the transitions of its machines as they are written.
#[tactic(auto, using(crate::proofs::Lists::rules_of_lists))]
pub fn broken_machines(
    alloc: Global,
    scopes: &Scopes<'_>,
) -> Result<(Option<Broken>, Seq<Seq<Written>>), NoMemory>
    requires { HasFewMachines scopes.now.trees.now }
    ensures first { IfOk result (λ r. r.0 ≡ first_of (broken_machines scopes.now.trees.now)) }
    ensures written { IfOk result (λ r. r.1 ≡ map written_of (machines_of scopes.now.trees.now)) }
{
    let first = flow_broken(alloc, None, scopes)?;
    let (first, written) = all_written(alloc, first, scopes.trees)?;
    let first = state_functions(alloc, first, scopes)?;
    let first = networks(alloc, first, scopes)?;
    let first = machine_parts(alloc, first, scopes.trees)?;
    let first = next_states(alloc, first, scopes)?;
    Ok((first, written))
}
