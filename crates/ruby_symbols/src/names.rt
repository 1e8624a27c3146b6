//! What a name stands for.
ghost use Rattle.std.specs.Prelude.{◌≡◌, ◌&&◌, position};
ghost use Rattle.std.specs.List.{list_any};
ghost use Rattle.std.specs.Str.{bytes_eq};
ghost use Rattle.ruby_symbols.specs.declared.machine.ActionSymbol.{ActionSymbol};
ghost use Rattle.ruby_symbols.specs.declared.machine.BufferSymbol.{BufferSymbol};
ghost use Rattle.ruby_symbols.specs.declared.machine.FunctionSymbol.{FunctionSymbol};
ghost use Rattle.ruby_symbols.specs.declared.machine.MachineSymbols.{MachineSymbols};
ghost use Rattle.ruby_symbols.specs.declared.machine.PortSymbol.{PortSymbol};
ghost use Rattle.ruby_symbols.specs.declared.machine.TableSymbol.{TableSymbol};
ghost use Rattle.ruby_symbols.specs.Names.{action_among, action_named, buffer_among, buffer_named, carries_requests, function_among, function_named, has_port_on, is_mandatory, is_on, machine_named, mandatory, port_named, port_or_sequencer, sequencer_named, stands_for, table_named, takes_requests};

use crate::machine::{
    ActionSymbol, BufferSymbol, FunctionSymbol, MachineSymbols, PortSymbol, TableSymbol,
};
use crate::numbers::{is_number, short_number};
use crate::symbols::Symbols;
use crate::types::{field_named, request};
use ruby_base::Text;
use ruby_value::BufferPlace;

/// What a name of a value, a receiver or a port stands for in a machine: one of its lists, and the number there.
#[derive(Clone, Copy)]
pub enum Named {
    Table(u16),
    Value(u16),
    Reference(u16),
    Buffer(u16),
    InPort(u16),
    OutPort(u16),
    Sequencer,
}

fn table_place(tables: &[TableSymbol], name: &[u8]) -> Option<usize>
    ensures { result ≡ position (λ (t : TableSymbol). bytes_eq t.name name.now) tables.now }
{
    tables.iter().position(|t| t.name.as_slice() == name)
}

fn table_named(m: &MachineSymbols, name: &[u8]) -> Option<u16>
    ensures { result ≡ table_named m.now name.now }
{
    short_number(table_place(&m.tables, name))
}

fn buffer_place(buffers: &[BufferSymbol], name: &[u8]) -> Option<usize>
    ensures { result ≡ position (λ (b : BufferSymbol). bytes_eq b.name name.now) buffers.now }
{
    buffers.iter().position(|b| b.name.as_slice() == name)
}

/// The number of the first of these buffers of this name.
pub fn buffer_among(buffers: &[BufferSymbol], name: &[u8]) -> Option<u16>
    ensures { result ≡ buffer_among buffers.now name.now }
{
    short_number(buffer_place(buffers, name))
}

/// The number of a machine's buffer of this name.
pub fn buffer_named(m: &MachineSymbols, name: &[u8]) -> Option<u16>
    ensures { result ≡ buffer_named m.now name.now }
{
    buffer_among(&m.buffers, name)
}

fn port_place(ports: &[PortSymbol], name: &[u8]) -> Option<usize>
    ensures { result ≡ position (λ (p : PortSymbol). bytes_eq p.name name.now) ports.now }
{
    ports.iter().position(|p| p.name.as_slice() == name)
}

fn port_named(ports: &[PortSymbol], name: &[u8]) -> Option<u16>
    ensures { result ≡ port_named ports.now name.now }
{
    short_number(port_place(ports, name))
}

fn sequencer_named(sequencer: &Option<Text>, name: &[u8]) -> Option<Named>
    ensures { result ≡ sequencer_named sequencer.now name.now }
{
    match sequencer {
        None => None,
        Some(own) => {
            if own.as_slice() == name {
                Some(Named::Sequencer)
            } else {
                None
            }
        }
    }
}

fn port_or_sequencer(m: &MachineSymbols, name: &[u8]) -> Option<Named>
    ensures { result ≡ port_or_sequencer m.now name.now }
{
    if let Some(number) = port_named(&m.in_ports, name) {
        return Some(Named::InPort(number));
    }
    if let Some(number) = port_named(&m.out_ports, name) {
        return Some(Named::OutPort(number));
    }
    sequencer_named(&m.sequencer, name)
}

/// What the name of a value, a receiver or a port stands for in a machine, where it is declared there.
pub fn stands_for(m: &MachineSymbols, name: &[u8]) -> Option<Named>
    ensures { result ≡ stands_for m.now name.now }
{
    if let Some(number) = table_named(m, name) {
        return Some(Named::Table(number));
    }
    if let Some(number) = field_named(&m.values, name) {
        return Some(Named::Value(number));
    }
    if let Some(number) = field_named(&m.references, name) {
        return Some(Named::Reference(number));
    }
    if let Some(number) = buffer_named(m, name) {
        return Some(Named::Buffer(number));
    }
    port_or_sequencer(m, name)
}

fn function_place(functions: &[FunctionSymbol], name: &[u8]) -> Option<usize>
    ensures { result ≡ position (λ (f : FunctionSymbol). bytes_eq f.name name.now) functions.now }
{
    functions.iter().position(|f| f.name.as_slice() == name)
}

/// The number of the first of these functions of this name.
pub fn function_among(functions: &[FunctionSymbol], name: &[u8]) -> Option<u16>
    ensures { result ≡ function_among functions.now name.now }
{
    short_number(function_place(functions, name))
}

/// The number of a machine's function of this name, which has a body.
pub fn function_named(m: &MachineSymbols, name: &[u8]) -> Option<u16>
    ensures { result ≡ function_named m.now name.now }
{
    function_among(&m.functions, name)
}

fn action_place(actions: &[ActionSymbol], name: &[u8]) -> Option<usize>
    ensures { result ≡ position (λ (a : ActionSymbol). bytes_eq a.name name.now) actions.now }
{
    actions.iter().position(|a| a.name.as_slice() == name)
}

/// The number of the first of these actions of this name.
pub fn action_among(actions: &[ActionSymbol], name: &[u8]) -> Option<u16>
    ensures { result ≡ action_among actions.now name.now }
{
    short_number(action_place(actions, name))
}

/// The number of a machine's action of this name.
pub fn action_named(m: &MachineSymbols, name: &[u8]) -> Option<u16>
    ensures { result ≡ action_named m.now name.now }
{
    action_among(&m.actions, name)
}

fn machine_place(machines: &[MachineSymbols], name: &[u8]) -> Option<usize>
    ensures { result ≡ position (λ (m : MachineSymbols). bytes_eq m.name name.now) machines.now }
{
    machines.iter().position(|m| m.name.as_slice() == name)
}

/// The number of a protocol's machine of this name.
pub fn machine_named(symbols: &Symbols, name: &[u8]) -> Option<u16>
    ensures { result ≡ machine_named symbols.now name.now }
{
    short_number(machine_place(&symbols.machines, name))
}

fn is_mandatory(b: &BufferSymbol) -> bool
    ensures { result ≡ is_mandatory b.now }
{
    matches!(b.place, BufferPlace::Local) && b.name.as_slice() == b"mandatoryQueue".as_slice()
}

fn mandatory_place(buffers: &[BufferSymbol]) -> Option<usize>
    ensures { result ≡ position is_mandatory buffers.now }
{
    buffers.iter().position(|b| is_mandatory(b))
}

/// The number of the machine's own buffer `mandatoryQueue`, through which a driver asks: not of one that is on a network.
pub fn mandatory(m: &MachineSymbols) -> Option<u16>
    ensures { result ≡ mandatory m.now }
{
    short_number(mandatory_place(&m.buffers))
}

fn carries_requests(symbols: &Symbols, b: &BufferSymbol) -> bool
    ensures { result ≡ carries_requests symbols.now b.now }
{
    is_number(request(symbols), b.message)
}

fn is_any_on(ports: &[PortSymbol], buffer: u16) -> bool
    ensures { result ≡ list_any (is_on buffer) ports.now }
{
    ports.iter().any(|p| p.buffer == buffer)
}

fn has_port_on(m: &MachineSymbols, buffer: Option<u16>) -> bool
    ensures { result ≡ has_port_on m.now buffer }
{
    match buffer {
        None => false,
        Some(number) => is_any_on(&m.in_ports, number) || is_any_on(&m.out_ports, number),
    }
}

fn request_queue(symbols: &Symbols, buffers: &[BufferSymbol]) -> Option<usize>
    ensures { result ≡ position (λ (b : BufferSymbol). is_mandatory b && carries_requests symbols.now b) buffers.now }
{
    buffers
        .iter()
        .position(|b| is_mandatory(b) && carries_requests(symbols, b))
}

/// Whether a port of type `RubyRequest` is on the machine's own buffer `mandatoryQueue`.
pub fn takes_requests(symbols: &Symbols, m: &MachineSymbols) -> bool
    ensures { result ≡ takes_requests symbols.now m.now }
{
    has_port_on(m, short_number(request_queue(symbols, &m.buffers)))
}
