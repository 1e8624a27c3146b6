//! Types, and what their names stand for.
ghost use Rattle.std.specs.Prelude.{◌≡◌, ◌&&◌, position};
ghost use Rattle.std.specs.Str.{bytes_eq};
ghost use Rattle.ruby_symbols.specs.declared.types.EnumerationSymbol.{EnumerationSymbol};
ghost use Rattle.ruby_symbols.specs.declared.types.FieldSymbol.{FieldSymbol};
ghost use Rattle.ruby_symbols.specs.declared.types.StructureSymbol.{StructureSymbol};
ghost use Rattle.ruby_symbols.specs.Types.{enumeration_named, enumeration_of, field_named, is_owner, member_named, request, structure_named, structure_of};

use crate::numbers::short_number;
use crate::symbols::Symbols;
use ruby_base::{Seq, Text};
use ruby_value::{Kind, Value};

/// An enumeration or a state declaration.
pub struct EnumerationSymbol {
    pub name: Text,
    /// The number of the machine that declares it, or `None` where it is declared right in the protocol or built in.
    pub machine: Option<u16>,
    /// The names of its members.
    pub members: Seq<Text>,
    /// The number of the member that a new value is.
    pub default: u16,
}

impl Drop for EnumerationSymbol {
    fn drop(self) {
        let EnumerationSymbol {
            name: _,
            machine: _,
            members: _,
            default: _,
        } = self;
    }
}

/// A field of a structure, a parameter or an object: its name, and what values it has.
pub struct FieldSymbol {
    pub name: Text,
    pub kind: Kind,
    /// The value that it has before anything is written to it.
    pub initial: Value,
}

impl Drop for FieldSymbol {
    fn drop(self) {
        let FieldSymbol {
            name: _,
            kind: _,
            initial: _,
        } = self;
    }
}

/// A structure: the fields of a message, or of a table's lines.
pub struct StructureSymbol {
    pub name: Text,
    /// The number of the machine that declares it, or `None` where it is declared right in the protocol or built in.
    pub machine: Option<u16>,
    pub fields: Seq<FieldSymbol>,
}

impl Drop for StructureSymbol {
    fn drop(self) {
        let StructureSymbol {
            name: _,
            machine: _,
            fields: _,
        } = self;
    }
}

fn is_owner(machine: Option<u16>, owner: Option<u16>) -> bool
    ensures { result ≡ is_owner machine owner }
{
    match (machine, owner) {
        (None, None) => true,
        (Some(m), Some(n)) => m == n,
        _ => false,
    }
}

fn enumeration_place(
    enumerations: &[EnumerationSymbol],
    owner: Option<u16>,
    name: &[u8],
) -> Option<usize>
    ensures { result ≡ position (λ (e : EnumerationSymbol). is_owner e.machine owner && bytes_eq e.name name.now) enumerations.now }
{
    enumerations.iter().position(|e| is_owner(e.machine, owner) && e.name.as_slice() == name)
}

fn structure_place(structures: &[StructureSymbol], owner: Option<u16>, name: &[u8]) -> Option<usize>
    ensures { result ≡ position (λ (s : StructureSymbol). is_owner s.machine owner && bytes_eq s.name name.now) structures.now }
{
    structures.iter().position(|s| is_owner(s.machine, owner) && s.name.as_slice() == name)
}

/// The number of the enumeration of this name that the machine of this number declares, or, of no machine, that is declared
/// right in the protocol or built in.
pub fn enumeration_of(symbols: &Symbols, owner: Option<u16>, name: &[u8]) -> Option<u16>
    ensures { result ≡ enumeration_of symbols.now owner name.now }
{
    short_number(enumeration_place(&symbols.enumerations, owner, name))
}

/// The same for structures.
pub fn structure_of(symbols: &Symbols, owner: Option<u16>, name: &[u8]) -> Option<u16>
    ensures { result ≡ structure_of symbols.now owner name.now }
{
    short_number(structure_place(&symbols.structures, owner, name))
}

/// The number of the enumeration that a name stands for in the machine of this number.
pub fn enumeration_named(symbols: &Symbols, machine: u16, name: &[u8]) -> Option<u16>
    ensures { result ≡ enumeration_named symbols.now machine name.now }
{
    match enumeration_of(symbols, Some(machine), name) {
        Some(number) => Some(number),
        None => enumeration_of(symbols, None, name),
    }
}

/// The number of the structure that a name stands for in the machine of this number.
pub fn structure_named(symbols: &Symbols, machine: u16, name: &[u8]) -> Option<u16>
    ensures { result ≡ structure_named symbols.now machine name.now }
{
    match structure_of(symbols, Some(machine), name) {
        Some(number) => Some(number),
        None => structure_of(symbols, None, name),
    }
}

/// The number of `RubyRequest`.
pub fn request(symbols: &Symbols) -> Option<u16>
    ensures { result ≡ request symbols.now }
{
    structure_of(symbols, None, b"RubyRequest")
}

fn member_place(members: &[Text], name: &[u8]) -> Option<usize>
    ensures { result ≡ position (λ member. bytes_eq member name.now) members.now }
{
    members.iter().position(|member| member.as_slice() == name)
}

/// The number of an enumeration's member of this name.
pub fn member_named(e: &EnumerationSymbol, name: &[u8]) -> Option<u16>
    ensures { result ≡ member_named e.now name.now }
{
    short_number(member_place(&e.members, name))
}

fn field_place(fields: &[FieldSymbol], name: &[u8]) -> Option<usize>
    ensures { result ≡ position (λ (f : FieldSymbol). bytes_eq f.name name.now) fields.now }
{
    fields.iter().position(|f| f.name.as_slice() == name)
}

/// The number of the field of this name, of a structure's fields or of a machine's values or references.
pub fn field_named(fields: &[FieldSymbol], name: &[u8]) -> Option<u16>
    ensures { result ≡ field_named fields.now name.now }
{
    short_number(field_place(fields, name))
}
