//! The rules of flow, over all machines.
ghost use Rattle.std.specs.Prelude.{◌≡◌, ◌≤◌, ◌++◌, length, IfOk, OnOk};
ghost use Rattle.slicc_plan.specs.Prelude.{first_after, machines_of};
ghost use Rattle.slicc_flow.specs.Prelude.{broken_flow, all_bodies, bodies_at, changes_of, circles_of, each_from, large_of};
ghost use Rattle.slicc_flow.specs.Machines.{found_in};

use crate::changes::reading_changes;
use crate::machine::{MachineBodies, machine_bodies};
use crate::reach::circles;
use crate::sizes::large_bodies;
use declared_types::{Scope, Scopes};
use ruby_base::{NoMemory, Seq};
use slicc_plan::Broken;
use std::alloc::Global;

fn add_machine(
    alloc: Global,
    scopes: &Scopes<'_>,
    scope: usize,
    list: &mut Seq<MachineBodies>,
) -> Result<(), NoMemory>
    ensures { OnOk result (list.new ≡ list.old ++ bodies_at scopes.now.trees.now scope) }
{
    match scopes.scope(scope) {
        Scope::Everywhere => Ok(()),
        Scope::Within(m) => list.push(machine_bodies(alloc, scopes, scope, m)?),
    }
}

/// The bodies of all machines.
pub fn all_bodies(alloc: Global, scopes: &Scopes<'_>) -> Result<Seq<MachineBodies>, NoMemory>
    ensures { IfOk result (λ r. r ≡ all_bodies scopes.now.trees.now) }
{
    let mut list = Seq::new(alloc);
    for scope in 0..scopes.len() {
        add_machine(alloc, scopes, scope, &mut list)?;
    }
    Ok(list)
}

fn all_circles(
    alloc: Global,
    first: Option<Broken>,
    machines: &[MachineBodies],
) -> Result<Option<Broken>, NoMemory>
    requires { length machines.now ≤ 16 }
    ensures { IfOk result (λ r. r ≡ first_after first (each_from circles_of 0 machines.now)) }
{
    let mut first = first;
    for (number, b) in machines.iter().enumerate() {
        first = circles(alloc, first, number as u16, &b.functions)?;
    }
    Ok(first)
}

fn all_large(
    alloc: Global,
    first: Option<Broken>,
    machines: &[MachineBodies],
) -> Result<Option<Broken>, NoMemory>
    requires { length machines.now ≤ 16 }
    ensures { IfOk result (λ r. r ≡ first_after first (each_from large_of 0 machines.now)) }
{
    let mut first = first;
    for (number, b) in machines.iter().enumerate() {
        first = large_bodies(
            alloc,
            first,
            number as u16,
            &b.functions,
            &b.actions,
            &b.ports,
        )?;
    }
    Ok(first)
}

fn all_changes(
    alloc: Global,
    first: Option<Broken>,
    machines: &[MachineBodies],
) -> Result<Option<Broken>, NoMemory>
    requires { length machines.now ≤ 16 }
    ensures { IfOk result (λ r. r ≡ first_after first (each_from changes_of 0 machines.now)) }
{
    let mut first = first;
    for (number, b) in machines.iter().enumerate() {
        first = reading_changes(
            alloc,
            first,
            number as u16,
            &b.functions,
            &b.ports,
            &b.asked,
        )?;
    }
    Ok(first)
}

/// The first broken rule after those of flow that these machines break, of which a protocol within its limits has 16 at most.
pub fn first_found(
    alloc: Global,
    first: Option<Broken>,
    machines: &[MachineBodies],
) -> Result<Option<Broken>, NoMemory>
    requires { length machines.now ≤ 16 }
    ensures { IfOk result (λ r. r ≡ first_after first (found_in machines.now)) }
{
    let first = all_circles(alloc, first, machines)?;
    let first = all_large(alloc, first, machines)?;
    all_changes(alloc, first, machines)
}

/// The first broken rule after those of calls in circles, of bodies that are too large and of what only reads.
pub fn flow_broken(
    alloc: Global,
    first: Option<Broken>,
    scopes: &Scopes<'_>,
) -> Result<Option<Broken>, NoMemory>
    requires { length (machines_of scopes.now.trees.now) ≤ 16 }
    ensures { IfOk result (λ r. r ≡ first_after first (broken_flow scopes.now.trees.now)) }
{
    let machines = all_bodies(alloc, scopes)?;
    first_found(alloc, first, &machines)
}
