//! The fields of structures, with their kinds and first values, the values of a machine as a run begins, and its buffers.
ghost use Rattle.std.specs.Prelude.{◌≡◌, IfOk, map, ◌==◌, ℕ, ℤ, find};
ghost use Rattle.machine_setup.specs.Prelude.{fields_at, first_values, kinds_of, buffer_by};
ghost use Rattle.slicc_plan.specs.Prelude.{opening_value, set_value, values_from};

use ruby_base::{NoMemory, Seq};
use ruby_symbols::{BufferSymbol, FieldSymbol, Symbols};
use ruby_value::{BufferSetup, Fields, Kind, Sizes, Value};
use std::alloc::Global;

/// The fields of the structure of this number; none where there is no such structure.
pub fn fields_at(symbols: &Symbols, number: Option<u16>) -> &[FieldSymbol]
    ensures { result.now ≡ fields_at symbols.now number }
{
    let Some(number) = number else {
        return &[];
    };
    match symbols.structures.get(number as usize) {
        None => &[],
        Some(s) => &s.fields,
    }
}

/// The kinds of fields, in their order.
pub fn kinds_of(alloc: Global, fields: &[FieldSymbol]) -> Result<Seq<Kind>, NoMemory>
    ensures { IfOk result (λ kinds. kinds ≡ kinds_of fields.now) }
{
    let mut kinds = Seq::new(alloc);
    for f in fields {
        kinds.push(f.kind)?;
    }
    Ok(kinds)
}

/// The values that fields have before anything is written to them.
pub fn first_values(alloc: Global, fields: &[FieldSymbol]) -> Result<Fields, NoMemory>
    ensures { IfOk result (λ values. values ≡ first_values fields.now) }
{
    let mut values = Vec::new(alloc);
    for f in fields {
        values.push(f.initial.clone()?)?;
    }
    Ok(Fields::of(values))
}

fn buffer(alloc: Global, symbols: &Symbols, b: &BufferSymbol) -> Result<BufferSetup, NoMemory>
    ensures { IfOk result (λ setup. setup ≡ buffer_by symbols.now b.now) }
{
    Ok(BufferSetup {
        place: b.place,
        ordered: b.ordered,
        kinds: kinds_of(alloc, fields_at(symbols, b.message))?,
    })
}

/// What these buffers are to controllers, in their order.
pub fn buffers(
    alloc: Global,
    symbols: &Symbols,
    written: &[BufferSymbol],
) -> Result<Seq<BufferSetup>, NoMemory>
    ensures { IfOk result (λ setups. setups ≡ map (buffer_by symbols.now) written.now) }
{
    let mut setups = Seq::new(alloc);
    for b in written {
        setups.push(buffer(alloc, symbols, b)?)?;
    }
    Ok(setups)
}

// The number that a topology sets, where it sets one.
fn set_number(sizes: &Sizes, number: usize) -> Option<(u16, i64)>
    ensures { result ≡ find (λ (s : ℕ × ℤ). s.0 == number) sizes.now.parameters }
{
    sizes
        .parameters
        .iter()
        .copied()
        .find(|s| s.0 as usize == number)
}

fn set_value(k: Kind, v: Value, set: Option<(u16, i64)>) -> Value
    ensures { result ≡ set_value k v set }
{
    match k {
        Kind::Int => match set {
            None => v,
            Some((_, n)) => Value::Int(n),
        },
        Kind::Bool
        | Kind::Enum(..)
        | Kind::Addr
        | Kind::Machine
        | Kind::Dest
        | Kind::Block
        | Kind::Entry(_)
        | Kind::Tbe(_) => v,
    }
}

fn opening_value(sizes: &Sizes, number: usize, v: &FieldSymbol) -> Result<Value, NoMemory>
    ensures { IfOk result (λ r. r ≡ opening_value sizes.now number v.now) }
{
    let initial = v.initial.clone()?;
    Ok(set_value(v.kind, initial, set_number(sizes, number)))
}

/// The values of a machine as a run begins, which are numbered from 0.
pub fn opening_values(
    alloc: Global,
    sizes: &Sizes,
    fields: &[FieldSymbol],
) -> Result<Seq<Value>, NoMemory>
    ensures { IfOk result (λ values. values ≡ values_from sizes.now 0 fields.now) }
{
    let mut values = Seq::new(alloc);
    for (number, v) in fields.iter().enumerate() {
        let value = opening_value(sizes, number, v)?;
        values.push(value)?;
    }
    Ok(values)
}
