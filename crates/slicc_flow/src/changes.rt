//! What only reads and changes something.
ghost use Rattle.std.specs.Prelude.{◌≡◌, ◌<◌, ℕ, [], cond, length, flat_map, false, IfOk};
ghost use Rattle.std.specs.List.{slice_index_or};
ghost use Rattle.slicc_plan.specs.Prelude.{is_reached, first_after, changes_among, changes_at, reached_changes, reading_calls};

use crate::reach::reached;
use ruby_base::{NoMemory, Seq};
use slicc_plan::{Body, Broken, Rule, earlier_broken};
use std::alloc::Global;

fn changes_of(first: Option<Broken>, machine: u16, b: &Body) -> Option<Broken>
    ensures { result ≡ first_after first (changes_at machine b.now) }
{
    let mut first = first;
    for place in b.changes.as_slice() {
        let broken = Broken {
            rule: Rule::Changes,
            machine,
            place: *place,
            other: None,
        };
        first = earlier_broken(first, broken);
    }
    first
}

fn changes_if(is_reader: bool, first: Option<Broken>, machine: u16, b: &Body) -> Option<Broken>
    ensures { result ≡ first_after first (cond is_reader (changes_at machine b.now) []) }
{
    if is_reader {
        changes_of(first, machine, b)
    } else {
        first
    }
}

fn port_changes(first: Option<Broken>, machine: u16, ports: &[Body]) -> Option<Broken>
    ensures { result ≡ first_after first (flat_map (changes_at machine) ports.now) }
{
    let mut first = first;
    for b in ports {
        first = changes_of(first, machine, b);
    }
    first
}

fn seen_changes(
    first: Option<Broken>,
    machine: u16,
    functions: &[Body],
    seen: &[bool],
    calls: &[u32],
) -> Option<Broken>
    requires size { length seen.now ≡ length functions.now }
    requires seen { (k : ℕ) → k < length functions.now
        → slice_index_or seen.now k false ≡ is_reached functions.now k calls.now }
    ensures { result ≡ first_after first (reached_changes machine functions.now calls.now 0 functions.now) }
{
    let mut first = first;
    for (number, b) in functions.iter().enumerate() {
        first = changes_if(seen[number], first, machine, b);
    }
    first
}

fn calls_of_readers(alloc: Global, ports: &[Body], asked: &[u32]) -> Result<Seq<u32>, NoMemory>
    ensures { IfOk result (λ r. r ≡ reading_calls ports.now asked.now) }
{
    let mut calls = Seq::copied(alloc, asked)?;
    for b in ports {
        calls.append(b.calls.as_slice())?;
    }
    Ok(calls)
}

/// The first broken rule after those that what only reads breaks by changing something: the ports of a machine, its functions
/// that are `asked` and the functions that they call.
pub fn reading_changes(
    alloc: Global,
    first: Option<Broken>,
    machine: u16,
    functions: &[Body],
    ports: &[Body],
    asked: &[u32],
) -> Result<Option<Broken>, NoMemory>
    ensures { IfOk result (λ r. r ≡ first_after first (changes_among machine functions.now ports.now asked.now)) }
{
    let calls = calls_of_readers(alloc, ports, asked)?;
    let seen = reached(alloc, functions, &calls)?;
    let first = port_changes(first, machine, ports);
    Ok(seen_changes(first, machine, functions, &seen, &calls))
}
