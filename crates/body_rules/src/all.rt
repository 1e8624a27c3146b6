//! The bodies of all machines, and the names in their transitions and states.
ghost use Rattle.std.specs.Prelude.{◌≡◌, IfOk, flat_map};
ghost use Rattle.slicc_plan.specs.Prelude.{HasFewMachines, broken_bodies, broken_in_machine, machines_of, first_after, first_of, wrong_names};
ghost use Rattle.declared_types.specs.Prelude.{scope_at};
ghost use Rattle.body_rules.specs.Prelude.{broken_within, wrong_names_within};

use crate::declarations::judge_machine;
use crate::machine_in::machine_in;
use crate::missing::{judge_permissions, missing_names};
use crate::ways::missing_returns;
use declared_types::{Scope, Scopes};
use ruby_base::NoMemory;
use slicc_plan::Broken;
use std::alloc::Global;

fn judge_scope(
    alloc: Global,
    first: Option<Broken>,
    scopes: &Scopes<'_>,
    number: usize,
) -> Result<Option<Broken>, NoMemory>
    ensures { IfOk result (λ found. found ≡ first_after first (broken_within scopes.now.trees.now (scope_at scopes.now.trees.now number))) }
{
    match scopes.scope(number) {
        Scope::Everywhere => Ok(first),
        Scope::Within(machine) => judge_machine(alloc, first, machine_in(scopes, number, machine)),
    }
}

// The first that is broken in the bodies of all machines, by the rules of statements.
fn broken_in_machines(alloc: Global, scopes: &Scopes<'_>) -> Result<Option<Broken>, NoMemory>
    ensures { IfOk result (λ found. found ≡ first_of (flat_map (broken_in_machine scopes.now.trees.now) (machines_of scopes.now.trees.now))) }
{
    let mut found = None;
    for number in 0..scopes.len() {
        found = judge_scope(alloc, found, scopes, number)?;
    }
    Ok(found)
}

fn judge_names(
    alloc: Global,
    first: Option<Broken>,
    scopes: &Scopes<'_>,
    number: usize,
) -> Result<Option<Broken>, NoMemory>
    requires { HasFewMachines scopes.now.trees.now }
    ensures { IfOk result (λ found. found ≡ first_after first (wrong_names_within scopes.now.trees.now (scope_at scopes.now.trees.now number))) }
{
    match scopes.scope(number) {
        Scope::Everywhere => Ok(first),
        Scope::Within(m) => {
            let named = missing_names(alloc, first, m)?;
            Ok(judge_permissions(named, scopes, number))
        }
    }
}

// The first broken rule, after the names in transitions and the permissions of states of all machines.
fn wrong_names(
    alloc: Global,
    first: Option<Broken>,
    scopes: &Scopes<'_>,
) -> Result<Option<Broken>, NoMemory>
    requires { HasFewMachines scopes.now.trees.now }
    ensures { IfOk result (λ found. found ≡ first_after first (wrong_names scopes.now.trees.now)) }
{
    let mut found = first;
    for number in 0..scopes.len() {
        found = judge_names(alloc, found, scopes, number)?;
    }
    Ok(found)
}

/// The first rule of bodies that a protocol breaks, if it breaks any.
#[tactic(auto, using(crate::proofs::Lists::lists_in_a_row))]
pub fn broken_bodies(alloc: Global, scopes: &Scopes<'_>) -> Result<Option<Broken>, NoMemory>
    requires { HasFewMachines scopes.now.trees.now }
    ensures { IfOk result (λ first. first ≡ first_of (broken_bodies scopes.now.trees.now)) }
{
    let first = broken_in_machines(alloc, scopes)?;
    let first = wrong_names(alloc, first, scopes)?;
    Ok(missing_returns(first, scopes))
}
