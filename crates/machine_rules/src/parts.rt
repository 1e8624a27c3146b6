//! Machines, states and events that a protocol should have.
ghost use Rattle.std.specs.Prelude.{◌≡◌, ◌≤◌, ◌++◌, length, map, IfOk};
ghost use Rattle.slicc_plan.specs.Prelude.{machines_of, missing_machine, missing_parts, missing_parts_in, in_each_from, first_after};

use declaration_rules::earlier_at;
use machine_table::{event_count, machines, state_count};
use ruby_base::NoMemory;
use slicc_ast::tree::{Machine, Tree};
use slicc_plan::{Broken, Rule, Span, earlier_broken};
use std::alloc::Global;

// The first file of a protocol that has no machine.
#[tactic(auto, using(crate::proofs::Empty::empty_of))]
fn missing_machine(first: Option<Broken>, trees: &[Tree], machines: &[&Machine]) -> Option<Broken>
    requires { map (λ m. m.now) machines.now ≡ machines_of trees.now }
    ensures { result ≡ first_after first (missing_machine trees.now) }
{
    if let [_, ..] = machines {
        return first;
    }
    match trees {
        [] => first,
        [t, ..] => earlier_broken(
            first,
            Broken {
                rule: Rule::NoMachine,
                machine: 0,
                place: Span {
                    file: t.span.file,
                    start: t.span.end,
                    end: t.span.end,
                },
                other: None,
            },
        ),
    }
}

// A machine of this number without a state or an event.
#[tactic(auto, using(crate::proofs::Empty::empty_as))]
fn missing_in(first: Option<Broken>, number: u16, m: &Machine) -> Option<Broken>
    ensures { result ≡ first_after first (missing_parts_in number m.now) }
{
    if state_count(m) == 0 || event_count(m) == 0 {
        return earlier_at(first, Rule::NoStates, number, m.span);
    }
    first
}

fn missing_in_each(first: Option<Broken>, machines: &[&Machine]) -> Option<Broken>
    requires { length machines.now ≤ 16 }
    ensures { result ≡ first_after first (in_each_from 0 missing_parts_in (map (λ m. m.now) machines.now)) }
{
    let mut found = first;
    for (place, m) in machines.iter().enumerate() {
        found = missing_in(found, place as u16, m);
    }
    found
}

/// Of a protocol without a machine, of the machines without a state or an event, and of what was found before, the one that is
/// told.
pub fn machine_parts(
    alloc: Global,
    first: Option<Broken>,
    trees: &[Tree],
) -> Result<Option<Broken>, NoMemory>
    requires { length (machines_of trees.now) ≤ 16 }
    ensures { IfOk result (λ found. found ≡ first_after first (missing_machine trees.now ++ missing_parts trees.now)) }
{
    let machines = machines(alloc, trees)?;
    let found = missing_machine(first, trees, &machines);
    Ok(missing_in_each(found, &machines))
}
