//! The states and the events of a machine.
ghost use Rattle.std.specs.Prelude.{◌≡◌, find, flat_map, length, ◌++◌, map, IfOk, OnOk};
ghost use Rattle.std.specs.Option.{option_copied, option_map};
ghost use Rattle.slicc_plan.specs.Declarations.{enumeration};
ghost use Rattle.slicc_plan.specs.Prelude.{machine_declarations, named_declarations, states, event_members, is_events, is_states, state_members, machines_of};
ghost use Rattle.machine_table.specs.Prelude.{machines_in};

use ruby_base::{NoMemory, Seq};
use slicc_ast::tree::{Decl, Enumeration, Item, Machine, States, Tree};
use std::alloc::Global;

fn first_states(ds: &[Decl]) -> Option<&States>
    ensures { option_map states (option_copied result) ≡ find is_states (flat_map named_declarations ds.now) }
{
    let mut rest = ds;
    while let [d, others @ ..] = rest {
        if let Decl::States(s) = d {
            return Some(s);
        }
        rest = others;
    }
    None
}

fn is_of_events(e: &Enumeration) -> bool
    ensures { result ≡ is_events (enumeration e.now) }
{
    e.name.text.as_slice() == b"Event".as_slice()
}

fn first_events(ds: &[Decl]) -> Option<&Enumeration>
    ensures { option_map enumeration (option_copied result) ≡ find is_events (flat_map named_declarations ds.now) }
{
    let mut rest = ds;
    while let [d, others @ ..] = rest {
        if let Decl::Enumeration(e) = d {
            if is_of_events(e) {
                return Some(e);
            }
        }
        rest = others;
    }
    None
}

/// The first state declaration of a machine.
#[tactic(auto, using(crate::proofs::Behind::states_behind))]
pub fn states(m: &Machine) -> Option<&States>
    ensures { option_map states (option_copied result) ≡ find is_states (machine_declarations m.now) }
{
    first_states(m.declarations.as_slice())
}

/// The enumeration of a machine's events.
#[tactic(auto, using(crate::proofs::Behind::events_behind))]
pub fn events(m: &Machine) -> Option<&Enumeration>
    ensures { option_map enumeration (option_copied result) ≡ find is_events (machine_declarations m.now) }
{
    first_events(m.declarations.as_slice())
}

/// How many states a machine has.
pub fn state_count(m: &Machine) -> usize
    ensures { result ≡ length (state_members m.now) }
{
    match states(m) {
        None => 0,
        Some(s) => s.members.len(),
    }
}

/// How many events a machine has.
pub fn event_count(m: &Machine) -> usize
    ensures { result ≡ length (event_members m.now) }
{
    match events(m) {
        None => 0,
        Some(e) => e.members.len(),
    }
}

// Adds the machines of one file.
fn add_machines<'a>(found: &mut Seq<&'a Machine>, t: &'a Tree) -> Result<(), NoMemory>
    ensures { OnOk result (map (λ m. m.now) found.new ≡ map (λ m. m.now) found.old ++ machines_in t.now) }
{
    for item in t.items.as_slice() {
        if let Item::Machine(m) = item {
            found.push(m)?;
        }
    }
    Ok(())
}

/// The machines of a protocol, in the order of reading and of the text.
pub fn machines<'a>(alloc: Global, trees: &'a [Tree]) -> Result<Seq<&'a Machine>, NoMemory>
    ensures { IfOk result (λ found. map (λ m. m.now) found ≡ machines_of trees.now) }
{
    let mut found = Seq::new(alloc);
    for t in trees {
        add_machines(&mut found, t)?;
    }
    Ok(found)
}
