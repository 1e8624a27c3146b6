//! A whole protocol as symbols.
ghost use Rattle.std.specs.Prelude.{◌≡◌, ◌++◌, IfOk, OnOk, map};
ghost use Rattle.slicc_plan.specs.Prelude.{IsAccepted, machines_of, all_ports, machines_from, symbols_of, written_of};
ghost use Rattle.machine_table.specs.Prelude.{port_seen};
ghost use Rattle.type_numbers.specs.Prelude.{AreNumbered, trees_of};

use crate::machine::machine_symbols;
use crate::types::{add_all_enumerations, add_all_structures};
use declared_types::Scopes;
use machine_table::{PortOn, all_ports};
use ruby_base::{NoMemory, Seq};
use ruby_symbols::{MachineSymbols, Symbols};
use slicc_ast::tree::Machine;
use slicc_plan::Written;
use std::alloc::Global;
use type_numbers::{TypeNumbers, number_types};

fn add_machines<'a>(
    alloc: Global,
    list: &mut Seq<MachineSymbols>,
    types: &TypeNumbers<'a>,
    ports: &[PortOn<'a>],
    machines: &[&'a Machine],
    written: Seq<Seq<Written>>,
) -> Result<(), NoMemory>
    requires types { AreNumbered types.now }
    requires ports { map port_seen ports.now ≡ all_ports (trees_of types.now) }
    requires machines { map (λ m. m.now) machines.now ≡ machines_of (trees_of types.now) }
    requires written { written ≡ map written_of (machines_of (trees_of types.now)) }
    ensures { OnOk result (list.new ≡ list.old ++ machines_from (trees_of types.now) 0 (map (λ m. m.now) machines.now)) }
{
    let mut left = written;
    for (number, m) in machines.iter().enumerate() {
        let own = left.remove(0);
        list.push(machine_symbols(alloc, types, ports, number as u16, m, own)?)?;
    }
    Ok(())
}

fn add_all_machines<'a>(
    alloc: Global,
    list: &mut Seq<MachineSymbols>,
    types: &TypeNumbers<'a>,
    written: Seq<Seq<Written>>,
) -> Result<(), NoMemory>
    requires types { AreNumbered types.now }
    requires written { written ≡ map written_of (machines_of (trees_of types.now)) }
    ensures { OnOk result (list.new ≡ list.old ++ machines_from (trees_of types.now) 0 (machines_of (trees_of types.now))) }
{
    let ports = all_ports(alloc, &types.scopes)?;
    add_machines(alloc, list, types, &ports, &types.machines, written)
}

fn symbols_with(
    alloc: Global,
    types: &TypeNumbers<'_>,
    written: Seq<Seq<Written>>,
) -> Result<Symbols, NoMemory>
    requires types { AreNumbered types.now }
    requires written { written ≡ map written_of (machines_of (trees_of types.now)) }
    ensures { IfOk result (λ s. s ≡ symbols_of (trees_of types.now)) }
{
    let mut symbols = Symbols {
        enumerations: Seq::new(alloc),
        structures: Seq::new(alloc),
        machines: Seq::new(alloc),
    };
    add_all_enumerations(alloc, &mut symbols.enumerations, types)?;
    add_all_structures(alloc, &mut symbols.structures, types)?;
    add_all_machines(alloc, &mut symbols.machines, types, written)?;
    Ok(symbols)
}

/// The symbols of the protocol of these scopes, which is accepted and whose machines have these transitions.
pub fn protocol_symbols(
    alloc: Global,
    scopes: Scopes<'_>,
    written: Seq<Seq<Written>>,
) -> Result<Symbols, NoMemory>
    requires accepted { IsAccepted scopes.trees.now }
    requires written { written ≡ map written_of (machines_of scopes.trees.now) }
    ensures { IfOk result (λ s. s ≡ symbols_of scopes.entry.trees.now) }
{
    let types = number_types(alloc, scopes)?;
    symbols_with(alloc, &types, written)
}
