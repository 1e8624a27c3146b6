//! The kinds of the values that a type has.
ghost use Rattle.std.specs.Prelude.{◌≡◌};
ghost use Rattle.ruby_symbols.specs.Prelude.{kind_named, kind_of_enumeration, kind_of_own, kind_of_reference, simple_kind};

use crate::machine::MachineSymbols;
use crate::numbers::is_number;
use crate::symbols::Symbols;
use crate::types::{enumeration_of, structure_of};
use ruby_value::Kind;

fn simple_kind(name: &[u8]) -> Option<Kind>
    ensures { result ≡ simple_kind name.now }
{
    if name == b"int".as_slice() || name == b"Cycles".as_slice() || name == b"Tick".as_slice() {
        return Some(Kind::Int);
    }
    if name == b"bool".as_slice() {
        return Some(Kind::Bool);
    }
    if name == b"Addr".as_slice() {
        return Some(Kind::Addr);
    }
    if name == b"MachineID".as_slice() {
        return Some(Kind::Machine);
    }
    if name == b"NetDest".as_slice() {
        return Some(Kind::Dest);
    }
    if name == b"DataBlock".as_slice() {
        return Some(Kind::Block);
    }
    None
}

/// The kind of references to lines of a structure in a machine, where it has such lines.
pub fn kind_of_reference(m: &MachineSymbols, structure: u16) -> Option<Kind>
    ensures { result ≡ kind_of_reference m.now structure }
{
    if is_number(m.tbe, Some(structure)) {
        return Some(Kind::Tbe(structure));
    }
    if is_number(m.entry, Some(structure)) || is_number(m.directory, Some(structure)) {
        return Some(Kind::Entry(structure));
    }
    None
}

/// The kind of the members of an enumeration, where there is one of this number.
pub fn kind_of_enumeration(symbols: &Symbols, number: u16) -> Option<Kind>
    ensures { result ≡ kind_of_enumeration symbols.now number }
{
    match symbols.enumerations.get(number as usize) {
        None => None,
        Some(e) => Some(Kind::Enum(number, e.default)),
    }
}

fn kind_of_own(
    symbols: &Symbols,
    m: &MachineSymbols,
    owner: Option<u16>,
    name: &[u8],
) -> Option<Kind>
    ensures { result ≡ kind_of_own symbols.now m.now owner name.now }
{
    let members = match enumeration_of(symbols, owner, name) {
        None => None,
        Some(number) => kind_of_enumeration(symbols, number),
    };
    if members.is_some() {
        return members;
    }
    match structure_of(symbols, owner, name) {
        None => None,
        Some(number) => kind_of_reference(m, number),
    }
}

/// The kind of the values of the type that this name stands for in the machine, which is that of this number.
pub fn kind_named(symbols: &Symbols, number: u16, m: &MachineSymbols, name: &[u8]) -> Option<Kind>
    ensures { result ≡ kind_named symbols.now number m.now name.now }
{
    let own = kind_of_own(symbols, m, Some(number), name);
    if own.is_some() {
        return own;
    }
    let simple = simple_kind(name);
    if simple.is_some() {
        return simple;
    }
    kind_of_own(symbols, m, None, name)
}
