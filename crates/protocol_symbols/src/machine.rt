//! A machine of a protocol as symbols.
ghost use Rattle.std.specs.Prelude.{◌≡◌, ℕ, IfOk, List, OnOk, Some, map, slice_get};
ghost use Rattle.slicc_ast.specs.declared.tree.item.Tree.{Tree};
ghost use Rattle.slicc_ast.specs.declared.tree.machine.Machine.{Machine};
ghost use Rattle.slicc_plan.specs.Prelude.{machine_declarations, machines_of, all_ports, machine_symbols, sequencer_name, written_of};
ghost use Rattle.declared_types.specs.Prelude.{declarations_of};
ghost use Rattle.machine_table.specs.Prelude.{port_seen};
ghost use Rattle.type_numbers.specs.Prelude.{AreNumbered, trees_of};
ghost use Rattle.protocol_symbols.specs.Parts.{AddBodies, AddObjects, AddRest, AreNumbers, no_bodies, no_objects, no_rest};

use crate::bodies::{Bodies, add_bodies};
use crate::lines::{line_number, line_structure};
use crate::objects::{Objects, add_objects};
use crate::states::{add_permissions, add_transitions, events_number, states_number};
use crate::tables::sequencer;
use declared_types::{Declared, LineSort, machine_list};
use machine_table::{PortOn, events, states};
use ruby_base::{NoMemory, Seq, Text};
use ruby_symbols::{MachineSymbols, TransitionSymbol, action_among, function_among};
use slicc_ast::tree::Machine;
use slicc_plan::Written;
use std::alloc::Global;
use type_numbers::TypeNumbers;

// The numbers of a machine's types.
#[derive(Clone, Copy)]
struct Numbers {
    states: u16,
    events: u16,
    entry: Option<u16>,
    directory: Option<u16>,
    tbe: Option<u16>,
}

// Its name, the permissions of its states, and its transitions.
#[derive(Drop)]
struct Rest {
    name: Text,
    permissions: Seq<u16>,
    transitions: Seq<TransitionSymbol>,
}

impl Rest {
    fn new(alloc: Global) -> Rest
        ensures { result ≡ no_rest }
    {
        Rest {
            name: Seq::new(alloc),
            permissions: Seq::new(alloc),
            transitions: Seq::new(alloc),
        }
    }
}

fn numbers_of<'a>(types: &TypeNumbers<'a>, m: &'a Machine, declarations: &[Declared<'a>]) -> Numbers
    requires types { AreNumbered types.now }
    requires declarations { declarations_of declarations.now ≡ machine_declarations m.now }
    ensures { AreNumbers (trees_of types.now) m.now result }
{
    let entry = line_structure(m, declarations, LineSort::Entry);
    let directory = line_structure(m, declarations, LineSort::Directory);
    let tbe = line_structure(m, declarations, LineSort::Tbe);
    Numbers {
        states: states_number(types, m, states(m)),
        events: events_number(types, m, events(m)),
        entry: line_number(types, m, entry),
        directory: line_number(types, m, directory),
        tbe: line_number(types, m, tbe),
    }
}

fn sequencer_name<'a>(
    alloc: Global,
    types: &TypeNumbers<'a>,
    m: &'a Machine,
    declarations: &[Declared<'a>],
) -> Result<Option<Text>, NoMemory>
    requires { declarations_of declarations.now ≡ machine_declarations m.now }
    ensures { IfOk result (λ name. name ≡ sequencer_name (trees_of types.now) m.now) }
{
    match sequencer(types, m, declarations) {
        None => Ok(None),
        Some(name) => Ok(Some(Text::copied(alloc, name)?)),
    }
}

fn add_rest(rest: &mut Rest, m: &Machine, written: Seq<Written>) -> Result<(), NoMemory>
    requires { written ≡ written_of m.now }
    ensures { OnOk result (AddRest m.now rest.old rest.new) }
{
    rest.name.append(&m.name.text)?;
    add_permissions(&mut rest.permissions, states(m))?;
    add_transitions(&mut rest.transitions, written)?;
    Ok(())
}

// Adds what the machine of this number has.
fn add_parts<'a>(
    alloc: Global,
    objects: &mut Objects,
    bodies: &mut Bodies,
    rest: &mut Rest,
    types: &TypeNumbers<'a>,
    ports: &[PortOn<'a>],
    number: u16,
    m: &'a Machine,
    declarations: &[Declared<'a>],
    written: Seq<Written>,
) -> Result<(), NoMemory>
    requires types { AreNumbered types.now }
    requires ports { map port_seen ports.now ≡ all_ports (trees_of types.now) }
    requires machine { slice_get (machines_of (trees_of types.now)) number ≡ Some m.now }
    requires declarations { declarations_of declarations.now ≡ machine_declarations m.now }
    requires written { written ≡ written_of m.now }
    ensures objects { OnOk result (AddObjects (trees_of types.now) number m.now (machine_declarations m.now) objects.old objects.new) }
    ensures bodies { OnOk result (AddBodies (trees_of types.now) m.now objects.new.buffers m.now.declarations bodies.old bodies.new) }
    ensures rest { OnOk result (AddRest m.now rest.old rest.new) }
{
    add_objects(alloc, objects, types, ports, number, m, declarations)?;
    let buffers = objects.buffers.as_slice();
    let inside = m.declarations.as_slice();
    add_bodies(alloc, bodies, types, m, declarations, buffers, inside)?;
    add_rest(rest, m, written)?;
    Ok(())
}

fn together(
    numbers: Numbers,
    sequencer: Option<Text>,
    objects: Objects,
    bodies: Bodies,
    rest: Rest,
) -> MachineSymbols
    ensures { (trees : List Tree) (number : ℕ) (m : Machine) → AreNumbers trees m numbers
        → sequencer ≡ sequencer_name trees m → AddObjects trees number m (machine_declarations m) no_objects objects
        → AddBodies trees m objects.buffers m.declarations no_bodies bodies → AddRest m no_rest rest
        → result ≡ machine_symbols trees number m }
{
    let get_state = function_among(&bodies.functions, b"getState");
    let set_state = function_among(&bodies.functions, b"setState");
    let set_permission = function_among(&bodies.functions, b"setAccessPermission");
    let get_next_state = function_among(&bodies.functions, b"getNextState");
    let stall = action_among(&bodies.actions, b"z_stall");
    MachineSymbols {
        name: rest.name,
        states: numbers.states,
        permissions: rest.permissions,
        events: numbers.events,
        tables: objects.tables,
        values: objects.values,
        references: objects.references,
        buffers: objects.buffers,
        sequencer,
        in_ports: bodies.in_ports,
        out_ports: bodies.out_ports,
        functions: bodies.functions,
        actions: bodies.actions,
        transitions: rest.transitions,
        entry: numbers.entry,
        directory: numbers.directory,
        tbe: numbers.tbe,
        get_state,
        set_state,
        set_permission,
        get_next_state,
        stall,
    }
}

fn machine_with<'a>(
    alloc: Global,
    types: &TypeNumbers<'a>,
    ports: &[PortOn<'a>],
    number: u16,
    m: &'a Machine,
    declarations: &[Declared<'a>],
    written: Seq<Written>,
) -> Result<MachineSymbols, NoMemory>
    requires types { AreNumbered types.now }
    requires ports { map port_seen ports.now ≡ all_ports (trees_of types.now) }
    requires machine { slice_get (machines_of (trees_of types.now)) number ≡ Some m.now }
    requires declarations { declarations_of declarations.now ≡ machine_declarations m.now }
    requires written { written ≡ written_of m.now }
    ensures { IfOk result (λ s. s ≡ machine_symbols (trees_of types.now) number m.now) }
{
    let numbers = numbers_of(types, m, declarations);
    let sequencer = sequencer_name(alloc, types, m, declarations)?;
    let mut objects = Objects::new(alloc);
    let mut bodies = Bodies::new(alloc);
    let mut rest = Rest::new(alloc);
    add_parts(
        alloc,
        &mut objects,
        &mut bodies,
        &mut rest,
        types,
        ports,
        number,
        m,
        declarations,
        written,
    )?;
    Ok(together(numbers, sequencer, objects, bodies, rest))
}

/// The machine of this number as symbols, where these are the ports of all machines and these its transitions.
pub fn machine_symbols<'a>(
    alloc: Global,
    types: &TypeNumbers<'a>,
    ports: &[PortOn<'a>],
    number: u16,
    m: &'a Machine,
    written: Seq<Written>,
) -> Result<MachineSymbols, NoMemory>
    requires types { AreNumbered types.now }
    requires ports { map port_seen ports.now ≡ all_ports (trees_of types.now) }
    requires machine { slice_get (machines_of (trees_of types.now)) number ≡ Some m.now }
    requires written { written ≡ written_of m.now }
    ensures { IfOk result (λ s. s ≡ machine_symbols (trees_of types.now) number m.now) }
{
    let declarations = machine_list(alloc, m)?;
    machine_with(alloc, types, ports, number, m, &declarations, written)
}
