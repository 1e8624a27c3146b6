// What a body has of its own: names are looked up and bound; and what names stand for that no body has of its own.
ghost use Rattle.std.specs.Prelude.{◌≡◌, IfOk, OnOk};
ghost use Rattle.std.specs.Option.{option_copied};
ghost use Rattle.body_meaning.specs.Prelude.{thing_in, about_named, bind, thing_about, thing_bound, with_entry, with_tbe, reading, line_field, member_at, member_value, message_of, port_at, port_named, structure_field};

use crate::{About, Bound, Frame, Scope, Thing};
use acts::{NoMemory, Ref, Value};
use ruby_base::Text;
use ruby_symbols::{
    MachineSymbols, Named, PortSymbol, Symbols, enumeration_named, field_named, member_named,
    stands_for,
};
use std::alloc::Global;

/// What the innermost of these names of this text is.
pub fn thing_bound<'a>(names: &'a [Bound], name: &[u8]) -> Option<&'a Thing>
    ensures { option_copied result ≡ thing_bound name.now names.now }
{
    match names.iter().find(|b| b.name.as_slice() == name) {
        Some(b) => Some(&b.thing),
        None => None,
    }
}

fn about_named(m: &MachineSymbols, about: About, name: &[u8]) -> Option<Thing>
    ensures { result ≡ about_named m.now about name.now }
{
    if name == b"address".as_slice() {
        return Some(Thing::Value(Value::Addr(about.address)));
    }
    if name == b"cache_entry".as_slice() {
        if m.entry.is_some() {
            return Some(Thing::Value(Value::Entry(about.entry)));
        }
        return None;
    }
    if name == b"tbe".as_slice() {
        if m.tbe.is_some() {
            return Some(Thing::Value(Value::Entry(about.tbe)));
        }
        return None;
    }
    None
}

fn thing_about(m: &MachineSymbols, about: Option<About>, name: &[u8]) -> Option<Thing>
    ensures { result ≡ thing_about m.now about name.now }
{
    match about {
        Some(about) => about_named(m, about, name),
        None => None,
    }
}

fn copy_of(thing: &Thing) -> Result<Thing, NoMemory>
    ensures { IfOk result (λ copy. copy ≡ thing.now) }
{
    Ok(thing.clone()?)
}

/// What a name is in a body, where the body has it of its own.
pub fn thing_in(s: Scope<'_>, frame: &Frame, name: &[u8]) -> Result<Option<Thing>, NoMemory>
    ensures { IfOk result (λ t. t ≡ thing_in (reading s.entry) frame.now name.now) }
{
    match thing_bound(&frame.names, name) {
        Some(thing) => Ok(Some(copy_of(thing)?)),
        None => Ok(thing_about(s.machine, frame.about, name)),
    }
}

fn made(alloc: Global, name: &[u8], thing: Thing) -> Result<Bound, NoMemory>
    ensures { IfOk result (λ b. (b.name ≡ name.now) × (b.thing ≡ thing)) }
{
    Ok(Bound {
        name: Text::copied(alloc, name)?,
        thing,
    })
}

/// Binds a name, which hides others of its text.
pub fn bind(alloc: Global, frame: &mut Frame, name: &[u8], thing: Thing) -> Result<(), NoMemory>
    ensures { OnOk result (frame.new ≡ bind name.now thing frame.old) }
{
    let bound = made(alloc, name, thing)?;
    frame.names.insert(0, bound)?;
    Ok(())
}

/// What a transition is about with another entry.
pub fn with_entry(r: Option<Ref>, about: Option<About>) -> Option<About>
    ensures { result ≡ with_entry r about }
{
    match about {
        Some(a) => Some(About {
            address: a.address,
            entry: r,
            tbe: a.tbe,
        }),
        None => None,
    }
}

/// What a transition is about with another TBE.
pub fn with_tbe(r: Option<Ref>, about: Option<About>) -> Option<About>
    ensures { result ≡ with_tbe r about }
{
    match about {
        Some(a) => Some(About {
            address: a.address,
            entry: a.entry,
            tbe: r,
        }),
        None => None,
    }
}

/// The buffer that the port of this number is on.
pub fn port_at(ports: &[PortSymbol], number: u16) -> Option<u16>
    ensures { result ≡ port_at ports.now number }
{
    match ports.get(usize::from(number)) {
        Some(p) => Some(p.buffer),
        None => None,
    }
}

/// The buffer that the port of this name is on.
pub fn port_named(m: &MachineSymbols, name: &[u8]) -> Option<u16>
    ensures { result ≡ port_named m.now name.now }
{
    match stands_for(m, name) {
        Some(Named::InPort(number)) => port_at(&m.in_ports, number),
        Some(Named::OutPort(number)) => port_at(&m.out_ports, number),
        _ => None,
    }
}

/// The number of the structure of a buffer's messages.
pub fn message_of(m: &MachineSymbols, buffer: u16) -> Option<u16>
    ensures { result ≡ message_of m.now buffer }
{
    match m.buffers.get(usize::from(buffer)) {
        Some(b) => b.message,
        None => None,
    }
}

fn member_at(symbols: &Symbols, member: &[u8], number: u16) -> Option<Value>
    ensures { result ≡ member_at symbols.now member.now number }
{
    match symbols.enumerations.get(usize::from(number)) {
        Some(e) => match member_named(e, member) {
            Some(k) => Some(Value::Enum(number, k)),
            None => None,
        },
        None => None,
    }
}

/// The member of an enumeration, by the names of both.
pub fn member_value(s: Scope<'_>, owner: &[u8], member: &[u8]) -> Option<Value>
    ensures { result ≡ member_value (reading s.entry) owner.now member.now }
{
    match enumeration_named(s.symbols, s.number, owner) {
        Some(number) => member_at(s.symbols, member, number),
        None => None,
    }
}

/// The number of a field of a structure.
pub fn structure_field(symbols: &Symbols, structure: u16, name: &[u8]) -> Option<u16>
    ensures { result ≡ structure_field symbols.now structure name.now }
{
    match symbols.structures.get(usize::from(structure)) {
        Some(t) => field_named(&t.fields, name),
        None => None,
    }
}

/// The number of a field of the lines of a table.
pub fn line_field(s: Scope<'_>, table: u16, name: &[u8]) -> Option<u16>
    ensures { result ≡ line_field (reading s.entry) table name.now }
{
    match s.machine.tables.get(usize::from(table)) {
        Some(t) => structure_field(s.symbols, t.structure, name),
        None => None,
    }
}
