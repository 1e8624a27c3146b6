//! The numbers of a machine's states, events and actions by their names.
ghost use Rattle.std.specs.Prelude.{◌≡◌, ◌≤◌, Some, length, map, IfOk};
ghost use Rattle.slicc_plan.specs.Prelude.{HasFewParts, Declaration, name_of, state, symbol, event_members, state_members, actions_of};
ghost use Rattle.machine_table.specs.Found.{AreNumbersOf};

use crate::by_name::Numbers;
use crate::parts::{events, states};
use ruby_base::NoMemory;
use slicc_ast::tree::{Decl, Machine, Name, State, Symbol};
use std::alloc::Global;

/// A member of an enumeration or of a state declaration.
pub trait Member {
    ghost declared: { Self → Declaration };

    fn name(&self) -> &Name
        ensures { name_of (declared self.now) ≡ Some result.now };
}

impl Member for State {
    ghost declared = { state };

    fn name(&self) -> &Name {
        &self.name
    }
}

impl Member for Symbol {
    ghost declared = { symbol };

    fn name(&self) -> &Name {
        &self.name
    }
}

fn member_numbers<T: Member>(alloc: Global, members: &[T]) -> Result<Numbers, NoMemory>
    requires { length members.now ≤ 256 }
    ensures { IfOk result (AreNumbersOf (map T.declared members.now)) }
{
    let mut numbers = Numbers::new(alloc);
    for (number, member) in members.iter().enumerate() {
        numbers.add(member.name().text.as_slice(), number as u16)?;
    }
    Ok(numbers)
}

// The numbers of a machine's states.
fn state_numbers(alloc: Global, m: &Machine) -> Result<Numbers, NoMemory>
    requires { length (state_members m.now) ≤ 256 }
    ensures { IfOk result (AreNumbersOf (state_members m.now)) }
{
    match states(m) {
        None => Ok(Numbers::new(alloc)),
        Some(s) => member_numbers(alloc, &s.members),
    }
}

// The numbers of a machine's events.
fn event_numbers(alloc: Global, m: &Machine) -> Result<Numbers, NoMemory>
    requires { length (event_members m.now) ≤ 256 }
    ensures { IfOk result (AreNumbersOf (event_members m.now)) }
{
    match events(m) {
        None => Ok(Numbers::new(alloc)),
        Some(e) => member_numbers(alloc, &e.members),
    }
}

// The numbers of a machine's actions.
fn action_numbers(alloc: Global, m: &Machine) -> Result<Numbers, NoMemory>
    requires { length (actions_of m.now) ≤ 256 }
    ensures { IfOk result (AreNumbersOf (actions_of m.now)) }
{
    let mut numbers = Numbers::new(alloc);
    let mut number: usize = 0;
    let ds = m.declarations.as_slice();
    for d in ds {
        let Decl::Action(a) = d else {
            continue;
        };
        numbers.add(a.name.text.as_slice(), number as u16)?;
        number += 1;
    }
    Ok(numbers)
}

/// The numbers of a machine's states, events and actions.
#[derive(Drop)]
pub struct PartNumbers {
    pub states: Numbers,
    pub events: Numbers,
    pub actions: Numbers,
}

/// Those of this machine.
pub fn part_numbers(alloc: Global, m: &Machine) -> Result<PartNumbers, NoMemory>
    requires { HasFewParts m.now }
    ensures states { IfOk result (λ n. AreNumbersOf (state_members m.now) n.states) }
    ensures events { IfOk result (λ n. AreNumbersOf (event_members m.now) n.events) }
    ensures actions { IfOk result (λ n. AreNumbersOf (actions_of m.now) n.actions) }
{
    let states = state_numbers(alloc, m)?;
    let events = event_numbers(alloc, m)?;
    let actions = action_numbers(alloc, m)?;
    Ok(PartNumbers {
        states,
        events,
        actions,
    })
}
