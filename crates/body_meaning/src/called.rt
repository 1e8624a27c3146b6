// Calls, as far as they need no controller.
ghost use Rattle.std.specs.Prelude.{◌≡◌, IfOk, find, slice_get, unwrap_or};
ghost use Rattle.std.specs.Option.{option_copied, option_map};
ghost use Rattle.ruby_value.specs.declared.value.Value.TheVariants as value;
ghost use Rattle.body_meaning.specs.Calls.{as_member, called_on, indexed_on, is_permission_call, member_among, numbered, on_table, permission_of, reference_at, trigger_of, value_call, with_receiver};
ghost use Rattle.body_meaning.specs.Things.{thing_of, value_in};
ghost use Rattle.body_meaning.specs.Reading.{reading};
ghost use Rattle.built_in_acts.specs.Prelude.{address_of_line, argument, line_named};

use crate::call_numbers::{
    block_call, entry_call, index_call, port_call, sequencer_call, set_call, table_call,
};
use crate::{Numbered, Scope, Thing, Trigger};
use acts::{NoMemory, Ref, Value};
use built_in_acts::{address_of_line, line_named, member, reference};
use ruby_base::{Seq, Text};
use ruby_symbols::{EnumerationSymbol, MachineSymbols};
use std::alloc::Global;

/// The value that a thing is; another thing counts as false.
pub fn value_in(t: Thing) -> Value
    ensures { result ≡ value_in t }
{
    match t {
        Thing::Value(v) => v,
        _ => Value::Bool(false),
    }
}

/// What a call gives that answers this.
pub fn thing_of(v: Option<Value>) -> Thing
    ensures { result ≡ thing_of v }
{
    match v {
        Some(v) => Thing::Value(v),
        None => Thing::Nothing,
    }
}

fn numbered(on: u16, number: Option<u16>) -> Option<Numbered>
    ensures { result ≡ numbered on number }
{
    match number {
        Some(number) => Some(Numbered { number, on }),
        None => None,
    }
}

/// The number of the call of this name on a value.
pub fn value_call(v: &Value, name: &[u8]) -> Option<u16>
    ensures { result ≡ value_call v.now name.now }
{
    match v {
        Value::Dest(_) => set_call(name),
        Value::Block(_) => block_call(name),
        Value::Entry(_) | Value::Tbe(_) => entry_call(name),
        _ => None,
    }
}

fn on_table(m: &MachineSymbols, name: &[u8], table: u16) -> Option<Numbered>
    ensures { result ≡ on_table name.now table (slice_get m.now.tables table) }
{
    match m.tables.get(usize::from(table)) {
        Some(t) => numbered(table, table_call(t.sort, name)),
        None => None,
    }
}

/// The built-in call of this name on a receiver, written with this many arguments.
pub fn called_on(
    m: &MachineSymbols,
    receiver: &Thing,
    name: &[u8],
    count: usize,
) -> Option<Numbered>
    ensures { result ≡ called_on m.now receiver.now name.now count }
{
    match receiver {
        Thing::Port(buffer) => numbered(*buffer, port_call(name, count)),
        Thing::Table(table) => on_table(m, name, *table),
        Thing::Sequencer => numbered(0, sequencer_call(name, count)),
        Thing::Value(v) => numbered(0, value_call(v, name)),
        _ => None,
    }
}

/// The index of a table by an address.
pub fn indexed_on(m: &MachineSymbols, receiver: &Thing) -> Option<Numbered>
    ensures { result ≡ indexed_on m.now receiver.now }
{
    let Thing::Table(table) = receiver else {
        return None;
    };
    match m.tables.get(usize::from(*table)) {
        Some(t) => Some(Numbered {
            number: index_call(t.sort),
            on: *table,
        }),
        None => None,
    }
}

/// The arguments, with a receiver that is a value as the first.
pub fn with_receiver(receiver: Thing, mut arguments: Seq<Value>) -> Result<Seq<Value>, NoMemory>
    ensures { IfOk result (λ all. all ≡ with_receiver receiver arguments) }
{
    if let Thing::Value(v) = receiver {
        arguments.insert(0, v)?;
    }
    Ok(arguments)
}

fn member_among(k: u16, e: Option<&EnumerationSymbol>) -> u16
    ensures { result ≡ member_among k (option_copied e.entry) }
{
    match e {
        Some(e) if usize::from(k) < e.members.len() => k,
        _ => 0,
    }
}

/// The number of the member of an enumeration that a value is, and 0 if it is none.
pub fn as_member(s: Scope<'_>, enumeration: u16, v: &Value) -> u16
    ensures { result ≡ as_member (reading s.entry) enumeration v.now }
{
    match v {
        Value::Enum(number, k) => {
            if *number == enumeration {
                member_among(*k, s.symbols.enumerations.get(usize::from(*number)))
            } else {
                0
            }
        }
        _ => 0,
    }
}

fn event_at(s: Scope<'_>, arguments: &[Value]) -> u16
    ensures { result ≡ as_member (reading s.entry) (reading s.entry).machine.events (argument arguments.now 0) }
{
    match arguments.get(0) {
        Some(v) => as_member(s, s.machine.events, v),
        None => 0,
    }
}

fn line_address_at(arguments: &[Value], i: usize) -> u64
    ensures { result ≡ address_of_line (line_named (argument arguments.now i)) }
{
    match arguments.get(i) {
        Some(v) => address_of_line(line_named(v)),
        None => 0,
    }
}

/// The reference that the argument at a place is, where there is to be one.
pub fn reference_at(is_there: bool, arguments: &[Value], i: usize) -> Option<Ref>
    ensures { result ≡ reference_at is_there arguments.now i }
{
    if !is_there {
        return None;
    }
    match arguments.get(i) {
        Some(v) => reference(v),
        None => None,
    }
}

/// What a `trigger` with these arguments asks for.
pub fn trigger_of(s: Scope<'_>, arguments: &[Value]) -> Trigger
    ensures { result ≡ trigger_of (reading s.entry) arguments.now }
{
    let has_entry = s.machine.entry.is_some();
    let tbe_at = if has_entry { 3 } else { 2 };
    Trigger {
        event: event_at(s, arguments),
        address: line_address_at(arguments, 1),
        entry: reference_at(has_entry, arguments, 2),
        tbe: reference_at(s.machine.tbe.is_some(), arguments, tbe_at),
    }
}

fn permission_of(m: &MachineSymbols, state: u16) -> Value
    ensures { result ≡ value.Enum 1 (unwrap_or (slice_get m.now.permissions state) 2) }
{
    match m.permissions.get(usize::from(state)) {
        Some(p) => Value::Enum(1, *p),
        None => Value::Enum(1, 2),
    }
}

fn permission_at(m: &MachineSymbols, arguments: &[Value]) -> Value
    ensures { result ≡ permission_of m.now (argument arguments.now 0) }
{
    match arguments.get(0) {
        Some(state) => permission_of(m, member(state)),
        None => permission_of(m, 0),
    }
}

fn is_permission_call(alloc: Global, name: &[u8], m: &MachineSymbols) -> Result<bool, NoMemory>
    ensures { IfOk result (λ is_it. is_it ≡ is_permission_call name.now m.now) }
{
    let mut call = Text::copied(alloc, m.name.as_slice())?;
    call.append(b"_State_to_permission")?;
    Ok(call.as_slice() == name)
}

/// The access permission of the state that is the first argument, where the call of this name is that from the states of one of these machines.
pub fn permission_called(
    alloc: Global,
    machines: &[MachineSymbols],
    name: &[u8],
    arguments: &[Value],
) -> Result<Option<Value>, NoMemory>
    ensures { IfOk result (λ v. v ≡ option_map (λ m. permission_of m (argument arguments.now 0))
        (find (is_permission_call name.now) machines.now)) }
{
    let [m, others @ ..] = machines else {
        return Ok(None);
    };
    if is_permission_call(alloc, name, m)? {
        return Ok(Some(permission_at(m, arguments)));
    }
    permission_called(alloc, others, name, arguments)
}
