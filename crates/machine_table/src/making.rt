//! The written transitions of a protocol's machines, and the tables that are made of them.
ghost use Rattle.std.specs.Prelude.{◌≡◌, ◌≤◌, ℕ, [], All, length, map, option_and_then, slice_get, IfOk};
ghost use Rattle.slicc_plan.specs.Buffers.{listed};
ghost use Rattle.slicc_plan.specs.Prelude.{HasFewMachines, HasFewParts, in_each_from, machines_of, written_of, first_after, shared_pairs, shared_pairs_in, state_members};
ghost use Rattle.pair_table.specs.Prelude.{IsTableOf, answer_of};
ghost use Rattle.machine_table.specs.Prelude.{answer, rows_of_found, state_count, AreStateCountsOf, AreTablesOf, IsBuilt};

use crate::parts::{event_count, machines, state_count};
use crate::table::{TableFault, Tables};
use crate::written::written_transitions;
use pair_table::{Table, shared_of, table_of};
use ruby_base::{NoMemory, Seq};
use slicc_ast::tree::{Machine, Tree};
use slicc_plan::{Broken, Plan, Written};
use std::alloc::Global;

// The written transitions of the machine of this number.
fn written_in(
    alloc: Global,
    first: Option<Broken>,
    number: u16,
    m: &Machine,
) -> Result<(Option<Broken>, Seq<Written>), NoMemory>
    requires { HasFewParts m.now }
    ensures first { IfOk result (λ r. r.0 ≡ first_after first (shared_pairs_in number m.now)) }
    ensures written { IfOk result (λ r. r.1 ≡ written_of m.now) }
{
    let ws = written_transitions(alloc, m)?;
    let found = shared_of(alloc, first, number, &ws, state_count(m), event_count(m))?;
    Ok((found, ws))
}

fn written_among(
    alloc: Global,
    first: Option<Broken>,
    machines: &[&Machine],
) -> Result<(Option<Broken>, Seq<Seq<Written>>), NoMemory>
    requires few { length machines.now ≤ 16 }
    requires parts { All HasFewParts (map (λ m. m.now) machines.now) }
    ensures first { IfOk result (λ r. r.0 ≡ first_after first (in_each_from 0 shared_pairs_in (map (λ m. m.now) machines.now))) }
    ensures written { IfOk result (λ r. r.1 ≡ map written_of (map (λ m. m.now) machines.now)) }
{
    let mut found = first;
    let mut all = Seq::new(alloc);
    for (place, m) in machines.iter().enumerate() {
        let (next, ws) = written_in(alloc, found, place as u16, m)?;
        found = next;
        all.push(ws)?;
    }
    Ok((found, all))
}

/// The written transitions of a protocol, machine by machine, and of those that share a pair with an earlier one of their machine,
/// and of what was found before, the one that is told.
pub fn all_written(
    alloc: Global,
    first: Option<Broken>,
    trees: &[Tree],
) -> Result<(Option<Broken>, Seq<Seq<Written>>), NoMemory>
    requires { HasFewMachines trees.now }
    ensures first { IfOk result (λ r. r.0 ≡ first_after first (shared_pairs trees.now)) }
    ensures written { IfOk result (λ r. r.1 ≡ map written_of (machines_of trees.now)) }
{
    let machines = machines(alloc, trees)?;
    written_among(alloc, first, &machines)
}

fn machine_table(alloc: Global, m: &Machine) -> Result<Table, NoMemory>
    requires few { HasFewParts m.now }
    requires alone { (number : ℕ) × (shared_pairs_in number m.now ≡ []) }
    ensures { IfOk result (IsTableOf (written_of m.now)) }
{
    let ws = written_transitions(alloc, m)?;
    table_of(alloc, &ws, state_count(m), event_count(m))
}

fn tables_among(alloc: Global, machines: &[&Machine]) -> Result<Seq<Table>, NoMemory>
    requires parts { All HasFewParts (map (λ m. m.now) machines.now) }
    requires alone { in_each_from 0 shared_pairs_in (map (λ m. m.now) machines.now) ≡ [] }
    ensures { IfOk result (λ t. (n s e : ℕ) → rows_of_found (slice_get (map (λ m. m.now) machines.now) n) s e ≡ listed (option_and_then (answer_of s e) (slice_get t n))) }
{
    let mut tables = Seq::new(alloc);
    for m in machines {
        tables.push(machine_table(alloc, m)?)?;
    }
    Ok(tables)
}

// How many states each machine has.
fn state_counts(alloc: Global, machines: &[&Machine]) -> Result<Seq<usize>, NoMemory>
    ensures { IfOk result (λ counts. counts ≡ map (λ m. length (state_members m.now)) machines.now) }
{
    let mut counts = Seq::new(alloc);
    for m in machines {
        counts.push(state_count(m))?;
    }
    Ok(counts)
}

/// The tables of a protocol's machines, in none of which a pair has two transitions.
pub fn tables_of(alloc: Global, trees: &[Tree]) -> Result<Tables, NoMemory>
    requires few { HasFewMachines trees.now }
    requires alone { shared_pairs trees.now ≡ [] }
    ensures rows { IfOk result (λ t. AreTablesOf trees.now (answer t)) }
    ensures counts { IfOk result (λ t. AreStateCountsOf trees.now (state_count t)) }
{
    let machines = machines(alloc, trees)?;
    let tables = tables_among(alloc, &machines)?;
    let counts = state_counts(alloc, &machines)?;
    Ok(Tables {
        machines: tables,
        counts,
    })
}

/// The tables of the machines of a protocol with these trees. `Duplicate` comes exactly where a state and an event of a machine have
/// two written transitions, with the first such second one, in the order of machines and of the text, and the earliest that has a
/// pair with it.
pub fn build_of_trees(alloc: Global, trees: &[Tree]) -> Result<Tables, TableFault>
    requires { HasFewMachines trees.now }
    ensures { IsBuilt trees.now result }
{
    let (found, _) = all_written(alloc, None, trees)?;
    match found {
        None => Ok(tables_of(alloc, trees)?),
        Some(b) => Err(TableFault::Duplicate {
            first: b.other.unwrap_or(b.place),
            second: b.place,
        }),
    }
}

/// The tables of a plan's machines. `Duplicate` comes never, since a plan keeps all rules.
pub fn build(alloc: Global, plan: &Plan) -> Result<Tables, TableFault>
    ensures { IsBuilt plan.now result }
{
    Ok(tables_of(alloc, plan.trees())?)
}
