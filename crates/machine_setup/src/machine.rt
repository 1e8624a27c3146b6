//! What a machine of a protocol is to its controllers: its tables of lines with their sizes, and the table of its values.
ghost use Rattle.std.specs.Prelude.{◌≡◌, ◌++◌, [], ◌∷◌, IfOk, slice_get, ◌+◌, ◌≤◌, OnOk, length, ◌==◌, ℕ, find};
ghost use Rattle.slicc_plan.specs.Prelude.{setup_of, cache_size, table_size, tbe_size};
ghost use Rattle.machine_setup.specs.Prelude.{default_of, default_state_by, setup_by, tables_by, values_by, kinds_of_ranges, values_of_ranges, line_of, table_by};

use crate::fields::{buffers, fields_at, first_values, kinds_of, opening_values};
use ruby_base::{NoMemory, Seq};
use ruby_symbols::{MachineSymbols, Symbols, TableSort, TableSymbol};
use ruby_value::{Fields, Kind, MachineSetup, Sizes, TableSetup, TableSize, Value};
use slicc_plan::{Plan, machines_are_few, types_have_numbers};
use std::alloc::Global;

// The default member of the enumeration of this number.
fn default_of(symbols: &Symbols, number: u16) -> u16
    ensures { result ≡ default_of (slice_get symbols.now.enumerations number) }
{
    match symbols.enumerations.get(number as usize) {
        None => 0,
        Some(e) => e.default,
    }
}

// The state of a line that was never set, where the machine doesn't say itself how states are read.
fn default_state(symbols: &Symbols, own: &MachineSymbols) -> Option<u16>
    ensures { result ≡ default_state_by symbols.now own.now }
{
    match own.get_state {
        None => Some(default_of(symbols, own.states)),
        Some(_) => None,
    }
}

fn all_tables(
    alloc: Global,
    symbols: &Symbols,
    number: u16,
    own: &MachineSymbols,
    sizes: &Sizes,
) -> Result<Seq<TableSetup>, NoMemory>
    requires { length symbols.now.structures + number ≤ 65535 }
    ensures { IfOk result (λ tables. tables ≡ tables_by symbols.now own.now sizes.now 0 own.now.tables ++ values_by symbols.now number own.now sizes.now ∷ []) }
{
    let mut tables = line_tables(alloc, symbols, own, sizes)?;
    tables.push(parameter_table(alloc, symbols, number, own, sizes)?)?;
    Ok(tables)
}

fn setup_by(
    alloc: Global,
    symbols: &Symbols,
    number: u16,
    own: &MachineSymbols,
    sizes: &Sizes,
) -> Result<MachineSetup, NoMemory>
    requires { length symbols.now.structures + number ≤ 65535 }
    ensures { IfOk result (λ setup. setup ≡ setup_by symbols.now number own.now sizes.now) }
{
    Ok(MachineSetup {
        tables: all_tables(alloc, symbols, number, own, sizes)?,
        buffers: buffers(alloc, symbols, &own.buffers)?,
        default_state: default_state(symbols, own),
        has_sequencer: own.sequencer.is_some(),
    })
}

/// What the machine of this number is to its controllers, with the sizes that a topology sets; `None` where the protocol has
/// fewer machines. Numbers of machines count from 0 in the order of reading and of the text.
pub fn setup(
    alloc: Global,
    plan: &Plan,
    machine: u16,
    sizes: &Sizes,
) -> Result<Option<MachineSetup>, NoMemory>
    ensures { IfOk result (λ setup. setup ≡ setup_of plan.now machine sizes.now) }
{
    let _accepted = plan.trees();
    machines_are_few();
    types_have_numbers();
    let symbols = plan.symbols();
    match symbols.machines.get(machine as usize) {
        None => Ok(None),
        Some(own) => Ok(Some(setup_by(alloc, symbols, machine, own, sizes)?)),
    }
}

// The ranges after the values, each by two numbers.
fn add_ranges(
    kinds: &mut Seq<Kind>,
    values: &mut Seq<Value>,
    ranges: &[(u32, u32)],
) -> Result<(), NoMemory>
    ensures kinds { OnOk result (kinds.new ≡ kinds.old ++ kinds_of_ranges ranges.now) }
    ensures values { OnOk result (values.new ≡ values.old ++ values_of_ranges ranges.now) }
{
    for r in ranges {
        values.push(Value::Int(r.0 as i64))?;
        values.push(Value::Int(r.1 as i64))?;
        kinds.push(Kind::Int)?;
        kinds.push(Kind::Int)?;
    }
    Ok(())
}

// The number of what the values of the machine of this number are kept in.
fn structure_of(symbols: &Symbols, machine: u16) -> u16
    requires { length symbols.now.structures + machine ≤ 65535 }
    ensures { result ≡ length symbols.now.structures + machine }
{
    symbols.structures.len() as u16 + machine
}

/// The table of the values of the machine of this number.
pub fn parameter_table(
    alloc: Global,
    symbols: &Symbols,
    number: u16,
    own: &MachineSymbols,
    sizes: &Sizes,
) -> Result<TableSetup, NoMemory>
    requires { length symbols.now.structures + number ≤ 65535 }
    ensures { IfOk result (λ table. table ≡ values_by symbols.now number own.now sizes.now) }
{
    let structure = structure_of(symbols, number);
    let mut kinds = kinds_of(alloc, &own.values)?;
    let mut values = opening_values(alloc, sizes, &own.values)?;
    add_ranges(&mut kinds, &mut values, &sizes.machines)?;
    Ok(TableSetup {
        size: TableSize::Parameters,
        structure,
        kinds,
        initial: Fields::of(values.into_vec()),
    })
}

fn line_of(own: &MachineSymbols, sort: TableSort) -> Option<u16>
    ensures { result ≡ line_of own.now sort }
{
    match sort {
        TableSort::Cache => own.entry,
        TableSort::Directory => own.directory,
        TableSort::Tbe { .. } => own.tbe,
    }
}

fn table(
    alloc: Global,
    symbols: &Symbols,
    own: &MachineSymbols,
    sizes: &Sizes,
    number: usize,
    t: &TableSymbol,
) -> Result<TableSetup, NoMemory>
    ensures { IfOk result (λ setup. setup ≡ table_by symbols.now own.now sizes.now number t.now) }
{
    let fields = fields_at(symbols, line_of(own, t.sort));
    Ok(TableSetup {
        size: table_size(sizes, number, t.sort),
        structure: t.structure,
        kinds: kinds_of(alloc, fields)?,
        initial: first_values(alloc, fields)?,
    })
}

/// The tables of lines of a machine, by their numbers.
pub fn line_tables(
    alloc: Global,
    symbols: &Symbols,
    own: &MachineSymbols,
    sizes: &Sizes,
) -> Result<Seq<TableSetup>, NoMemory>
    ensures { IfOk result (λ tables. tables ≡ tables_by symbols.now own.now sizes.now 0 own.now.tables) }
{
    let mut tables = Seq::new(alloc);
    let written = own.tables.as_slice();
    for (number, t) in written.iter().enumerate() {
        tables.push(table(alloc, symbols, own, sizes, number, t)?)?;
    }
    Ok(tables)
}

// The sets and ways that a topology sets for the cache of this number, where it does.
fn set_cache(sizes: &Sizes, number: usize) -> Option<(u16, u32, u32)>
    ensures { result ≡ find (λ (c : ℕ × ℕ × ℕ). c.0 == number) sizes.now.caches }
{
    sizes
        .caches
        .iter()
        .copied()
        .find(|c| c.0 as usize == number)
}

fn cache_size(set: Option<(u16, u32, u32)>) -> TableSize
    ensures { result ≡ cache_size set }
{
    match set {
        None => TableSize::Cache { sets: 64, ways: 4 },
        Some((_, sets, ways)) => TableSize::Cache { sets, ways },
    }
}

// The entries that a topology sets for the TBE table of this number, where it does.
fn set_tbes(sizes: &Sizes, number: usize) -> Option<(u16, u32)>
    ensures { result ≡ find (λ (t : ℕ × ℕ). t.0 == number) sizes.now.tbes }
{
    sizes.tbes.iter().copied().find(|t| t.0 as usize == number)
}

fn tbe_size(written: u32, set: Option<(u16, u32)>) -> TableSize
    ensures { result ≡ tbe_size written set }
{
    match set {
        None => TableSize::Tbe { entries: written },
        Some((_, entries)) => TableSize::Tbe { entries },
    }
}

/// The size of the table of this number, which is of this sort.
pub fn table_size(sizes: &Sizes, number: usize, sort: TableSort) -> TableSize
    ensures { result ≡ table_size sizes.now number sort }
{
    match sort {
        TableSort::Cache => cache_size(set_cache(sizes, number)),
        TableSort::Directory => TableSize::Directory,
        TableSort::Tbe { entries } => tbe_size(entries, set_tbes(sizes, number)),
    }
}
