//! The tables of all scopes.
ghost use Rattle.std.specs.Prelude.{◌≡◌, ◌++◌, [], ◌∷◌, IfOk, OnOk, flat_map, map};
ghost use Rattle.std.specs.List.{list_any};
ghost use Rattle.slicc_plan.specs.Prelude.{global_declarations, machine_in, within};
ghost use Rattle.declared_types.specs.Prelude.{declaration_of, declarations_of, scope_of, AreTables, ScopeTable, is_machine_named, machine_table, summaries};

use crate::lent::{Declared, Scope};
use crate::lists::{global_list, machine_list};
use crate::table::{Table, table_of};
use ruby_base::{NoMemory, Seq};
use slicc_ast::tree::{Machine, Tree};
use std::alloc::Global;

fn add_machine<'a>(
    alloc: Global,
    tables: &mut Seq<Table<'a>>,
    m: &'a Machine,
) -> Result<(), NoMemory>
    ensures { OnOk result (summaries tables.new ≡ summaries tables.old ++ machine_table m.now ∷ []) }
{
    let declarations = machine_list(alloc, m)?;
    let table = table_of(alloc, Scope::Within(m), declarations)?;
    tables.push(table)
}

fn add_declared<'a>(
    alloc: Global,
    tables: &mut Seq<Table<'a>>,
    d: Declared<'a>,
) -> Result<(), NoMemory>
    ensures { OnOk result (summaries tables.new ≡ summaries tables.old ++ map machine_table (machine_in (declaration_of d.entry))) }
{
    match d {
        Declared::Machine(m) => add_machine(alloc, tables, m),
        _ => Ok(()),
    }
}

fn add_machines<'a>(
    alloc: Global,
    tables: &mut Seq<Table<'a>>,
    declarations: &[Declared<'a>],
) -> Result<(), NoMemory>
    ensures { OnOk result (summaries tables.new ≡ summaries tables.old ++ map machine_table (flat_map machine_in (declarations_of declarations.now))) }
{
    for d in declarations {
        add_declared(alloc, tables, *d)?;
    }
    Ok(())
}

/// The tables of all scopes of a protocol.
pub fn all_tables<'a>(alloc: Global, trees: &'a [Tree]) -> Result<Seq<Table<'a>>, NoMemory>
    ensures { IfOk result (λ tables. AreTables trees.now tables) }
{
    let declarations = global_list(alloc, trees)?;
    let mut machines = Seq::new(alloc);
    add_machines(alloc, &mut machines, &declarations)?;
    let protocol = table_of(alloc, Scope::Everywhere, declarations)?;
    machines.insert(0, protocol)?;
    Ok(machines)
}

// Whether this is a machine's scope, and the machine has this name.
fn bears(scope: Scope<'_>, name: &[u8]) -> bool
    ensures { result ≡ is_machine_named name.now (scope_of scope.entry) }
{
    match scope {
        Scope::Everywhere => false,
        Scope::Within(m) => m.name.text.as_slice() == name,
    }
}

/// Whether one of the scopes is that of a machine of this name.
pub fn any_bears(tables: &[Table<'_>], name: &[u8]) -> bool
    ensures { result ≡ list_any (λ (s : ScopeTable). is_machine_named name.now s.scope) (summaries tables.now) }
{
    for t in tables {
        if bears(t.scope, name) {
            return true;
        }
    }
    false
}
