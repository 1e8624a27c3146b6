//! A machine of a protocol, and the rules that each machine keeps or breaks alone.
ghost use Rattle.std.specs.Prelude.{◌≡◌, ◌≤◌, Option, List, ℕ, length, IfOk};
ghost use Rattle.slicc_ast.specs.declared.tree.item.Tree.{Tree};
ghost use Rattle.slicc_ast.specs.declared.tree.machine.Machine.{Machine};
ghost use Rattle.slicc_plan.specs.declared.broken.Broken.{Broken};
ghost use Rattle.slicc_plan.specs.Prelude.{in_each, machines_of, first_after};
ghost use Rattle.declared_types.specs.Prelude.{scope_at};
ghost use Rattle.machine_rules.specs.MachinesIn.{IsMachineIn, found_within};

use declared_types::{Scope, Scopes};
use ruby_base::NoMemory;
use slicc_ast::tree::Machine;
use slicc_plan::Broken;
use std::alloc::Global;

/// A machine of a protocol.
#[derive(Clone, Copy)]
pub struct MachineIn<'b, 'a> {
    pub scopes: &'b Scopes<'a>,
    /// The number of its scope.
    pub scope: usize,
    /// Its own number.
    pub number: u16,
    pub machine: &'a Machine,
}

/// A rule that each machine keeps or breaks, whatever the others are.
pub trait MachineRule {
    ghost found_in: { List Tree → ℕ → Machine → List Broken };

    /// The first broken rule, after a machine.
    fn judge(
        alloc: Global,
        first: Option<Broken>,
        m: MachineIn<'_, '_>,
    ) -> Result<Option<Broken>, NoMemory>
        requires { IsMachineIn m }
        ensures { IfOk result (λ found. found ≡ first_after first (found_in m.entry.scopes.now.trees.now m.entry.number m.entry.machine.now)) };
}

fn first_in_scope<R: MachineRule>(
    alloc: Global,
    first: Option<Broken>,
    scopes: &Scopes<'_>,
    scope: usize,
    number: u16,
) -> Result<Option<Broken>, NoMemory>
    ensures { IfOk result (λ found. found ≡ first_after first (found_within (R.found_in scopes.now.trees.now number) (scope_at scopes.now.trees.now scope))) }
{
    match scopes.scope(scope) {
        Scope::Everywhere => Ok(first),
        Scope::Within(machine) => R::judge(
            alloc,
            first,
            MachineIn {
                scopes,
                scope,
                number,
                machine,
            },
        ),
    }
}

/// The first broken rule, after all machines.
pub fn first_in_machines<R: MachineRule>(
    alloc: Global,
    first: Option<Broken>,
    scopes: &Scopes<'_>,
) -> Result<Option<Broken>, NoMemory>
    requires { length (machines_of scopes.now.trees.now) ≤ 16 }
    ensures { IfOk result (λ found. found ≡ first_after first (in_each (R.found_in scopes.now.trees.now) scopes.now.trees.now)) }
{
    let mut found = first;
    for scope in 1..scopes.len() {
        found = first_in_scope::<R>(alloc, found, scopes, scope, (scope - 1) as u16)?;
    }
    Ok(found)
}
