//! The written transitions of a machine, their names as numbers.
ghost use Rattle.std.specs.Prelude.{◌≡◌, ◌<◌, ◌^◌, ◌++◌, filter_map, length, map, IfOk, OnOk};
ghost use Rattle.slicc_plan.specs.Buffers.{listed};
ghost use Rattle.slicc_plan.specs.Machines.{names_in};
ghost use Rattle.slicc_plan.specs.Prelude.{HasFewParts, each_once, includes, transitions_of, with_number, written_of};
ghost use Rattle.machine_table.specs.Prelude.{found_by, found_name, found_next, written_with};

use crate::by_name::Numbers;
use crate::numbers::{PartNumbers, part_numbers};
use ruby_base::{NoMemory, Seq};
use slicc_ast::tree::{Decl, Machine, Name, Names, NextState, Transition};
use slicc_plan::{Next, Written};
use std::alloc::Global;

// Adds the number of a name, where it has one.
fn add_number(found: &mut Seq<u16>, name: &Name, numbers: &Numbers) -> Result<(), NoMemory>
    ensures { OnOk result (found.new ≡ found.old ++ listed (found_name (found_by numbers.now) name.now)) }
{
    match numbers.find(name.text.as_slice()) {
        None => Ok(()),
        Some(number) => found.push(number),
    }
}

// The numbers of names, in their order.
fn numbers_of(alloc: Global, names: &[Name], numbers: &Numbers) -> Result<Seq<u16>, NoMemory>
    ensures { IfOk result (λ found. found ≡ filter_map (found_name (found_by numbers.now)) names.now) }
{
    let mut found = Seq::new(alloc);
    for name in names {
        add_number(&mut found, name, numbers)?;
    }
    Ok(found)
}

fn numbers_in(alloc: Global, names: &Names, numbers: &Numbers) -> Result<Seq<u16>, NoMemory>
    ensures { IfOk result (λ found. found ≡ filter_map (found_name (found_by numbers.now)) (names_in names.now)) }
{
    match names {
        Names::One(name) => {
            let mut found = Seq::new(alloc);
            add_number(&mut found, name, numbers)?;
            Ok(found)
        }
        Names::Several(names, _) => numbers_of(alloc, names, numbers),
    }
}

fn is_among(numbers: &[u16], number: u16) -> bool
    ensures { result ≡ includes numbers.now number }
{
    numbers.iter().any(|k| *k == number)
}

fn add_once(kept: &mut Seq<u16>, number: u16) -> Result<(), NoMemory>
    ensures { OnOk result (kept.new ≡ with_number kept.old number) }
{
    let is_there = is_among(kept.as_slice(), number);
    if is_there {
        return Ok(());
    }
    kept.push(number)
}

// Each of the numbers once. A machine has few, and a transition may repeat their names at will.
fn once(alloc: Global, numbers: &[u16]) -> Result<Seq<u16>, NoMemory>
    ensures { IfOk result (λ kept. kept ≡ each_once numbers.now) }
{
    let mut kept = Seq::new(alloc);
    for number in numbers {
        add_once(&mut kept, *number)?;
    }
    Ok(kept)
}

fn numbers_once(alloc: Global, names: &Names, numbers: &Numbers) -> Result<Seq<u16>, NoMemory>
    ensures { IfOk result (λ kept. kept ≡ each_once (filter_map (found_name (found_by numbers.now)) (names_in names.now))) }
{
    let all = numbers_in(alloc, names, numbers)?;
    once(alloc, &all)
}

fn next_number(next: &Option<NextState>, numbers: &Numbers) -> Option<Next>
    ensures { result ≡ found_next (found_by numbers.now) next.now }
{
    match next {
        None => None,
        Some(NextState::Named(name)) => match numbers.find(name.text.as_slice()) {
            None => None,
            Some(number) => Some(Next::To(number)),
        },
        Some(NextState::Asked(_)) => Some(Next::Asked),
    }
}

fn written(alloc: Global, t: &Transition, parts: &PartNumbers) -> Result<Written, NoMemory>
    ensures { IfOk result (λ w. w ≡ written_with parts.now t.now) }
{
    let states = numbers_once(alloc, &t.states, &parts.states)?;
    let events = numbers_once(alloc, &t.events, &parts.events)?;
    let actions = numbers_of(alloc, &t.actions, &parts.actions)?;
    Ok(Written {
        states,
        events,
        next: next_number(&t.next, &parts.states),
        actions,
        span: t.span,
    })
}

fn written_by_parts(
    alloc: Global,
    m: &Machine,
    parts: &PartNumbers,
) -> Result<Seq<Written>, NoMemory>
    ensures { IfOk result (λ ws. ws ≡ map (written_with parts.now) (transitions_of m.now)) }
{
    let mut ws = Seq::new(alloc);
    let declarations = m.declarations.as_slice();
    for d in declarations {
        if let Decl::Transition(t) = d {
            ws.push(written(alloc, t, parts)?)?;
        }
    }
    Ok(ws)
}

/// The written transitions of a machine, in the order of the text. No rule says how many there may be, but memory holds no more
/// than numbers of 32 bits do.
pub fn written_transitions(alloc: Global, m: &Machine) -> Result<Seq<Written>, NoMemory>
    requires { HasFewParts m.now }
    ensures written { IfOk result (λ ws. ws ≡ written_of m.now) }
    ensures few { IfOk result (λ ws. length ws < 2 ^ 32) }
{
    let parts = part_numbers(alloc, m)?;
    let ws = written_by_parts(alloc, m, &parts)?;
    if ws.len() > u32::MAX as usize {
        return Err(NoMemory);
    }
    Ok(ws)
}
