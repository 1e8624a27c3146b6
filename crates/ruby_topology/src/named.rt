//! What a name in a line stands for in a machine, where it is what the line is for.
ghost use Rattle.std.specs.Prelude.{◌≡◌, Some};
ghost use Rattle.ctl_face.specs.Prelude.{receives};
ghost use Rattle.ruby_topology.specs.Lines.{buffer_in, cache_named, in_machine, number_named, receiving_named, sort_at, table_in, tbes_named, value_in};

use ruby_symbols::{MachineSymbols, Named, Symbols, TableSort, stands_for};
use ruby_value::{BufferPlace, Kind};

fn sort_at(m: &MachineSymbols, table: u16) -> Option<TableSort>
    ensures { result ≡ sort_at m.now table }
{
    let found = m.tables.get(usize::from(table))?;
    Some(found.sort)
}

fn table_in(named: Option<Named>) -> Option<u16>
    ensures { result ≡ table_in named }
{
    match named {
        Some(Named::Table(table)) => Some(table),
        _ => None,
    }
}

fn value_in(named: Option<Named>) -> Option<u16>
    ensures { result ≡ value_in named }
{
    match named {
        Some(Named::Value(value)) => Some(value),
        _ => None,
    }
}

fn buffer_in(named: Option<Named>) -> Option<u16>
    ensures { result ≡ buffer_in named }
{
    match named {
        Some(Named::Buffer(buffer)) => Some(buffer),
        _ => None,
    }
}

/// The cache of this name of a machine.
pub fn cache_named(symbols: &Symbols, machine: u16, name: &[u8]) -> Option<u16>
    ensures { result ≡ in_machine symbols.now machine (λ m. cache_named m name.now) }
{
    let m = symbols.machines.get(usize::from(machine))?;
    let table = table_in(stands_for(m, name))?;
    match sort_at(m, table) {
        Some(TableSort::Cache) => Some(table),
        _ => None,
    }
}

/// The TBE table of this name of a machine.
pub fn tbes_named(symbols: &Symbols, machine: u16, name: &[u8]) -> Option<u16>
    ensures { result ≡ in_machine symbols.now machine (λ m. tbes_named m name.now) }
{
    let m = symbols.machines.get(usize::from(machine))?;
    let table = table_in(stands_for(m, name))?;
    match sort_at(m, table) {
        Some(TableSort::Tbe { .. }) => Some(table),
        _ => None,
    }
}

/// The parameter or object of this name of a machine, whose values are numbers.
pub fn number_named(symbols: &Symbols, machine: u16, name: &[u8]) -> Option<u16>
    ensures { result ≡ in_machine symbols.now machine (λ m. number_named m name.now) }
{
    let m = symbols.machines.get(usize::from(machine))?;
    let value = value_in(stands_for(m, name))?;
    let field = m.values.get(usize::from(value))?;
    match field.kind {
        Kind::Int => Some(value),
        _ => None,
    }
}

fn takes_messages(place: BufferPlace) -> bool
    ensures { result ≡ receives (Some place) }
{
    match place {
        BufferPlace::Local => true,
        BufferPlace::To { .. } => false,
        BufferPlace::From { .. } => true,
    }
}

/// The buffer of this name of a machine, where messages are taken from it.
pub fn receiving_named(symbols: &Symbols, machine: u16, name: &[u8]) -> Option<u16>
    ensures { result ≡ in_machine symbols.now machine (λ m. receiving_named m name.now) }
{
    let m = symbols.machines.get(usize::from(machine))?;
    let buffer = buffer_in(stands_for(m, name))?;
    let symbol = m.buffers.get(usize::from(buffer))?;
    if takes_messages(symbol.place) {
        Some(buffer)
    } else {
        None
    }
}
