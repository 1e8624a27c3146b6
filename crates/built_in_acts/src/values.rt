// What a value is where a sort is wanted.
ghost use Rattle.std.specs.Prelude.{◌≡◌, ◌<◌, ◌^◌};
ghost use Rattle.built_in_acts.specs.Prelude.{address, address_of_line, argument, block, controller, line_named, member, number, reference, truth};

use acts::{Block, Ref, Value};
use ruby_value::line_of;

/// Whether it is true; false where it is no truth value.
pub fn truth(v: &Value) -> bool
    ensures { result ≡ truth v.now }
{
    match v {
        Value::Bool(b) => *b,
        _ => false,
    }
}

/// The number; 0 where it is none.
pub fn number(v: &Value) -> i64
    ensures { result ≡ number v.now }
{
    match v {
        Value::Int(n) => *n,
        _ => 0,
    }
}

/// The byte address; 0 where it is none.
pub fn address(v: &Value) -> u64
    ensures { result ≡ address v.now }
{
    match v {
        Value::Addr(a) => *a,
        _ => 0,
    }
}

/// The line of the address.
pub fn line_named(v: &Value) -> u64
    ensures line { result ≡ line_named v.now }
    ensures limit { result < 2 ^ 58 }
{
    line_of(address(v))
}

/// The address of a line.
pub fn address_of_line(line: u64) -> u64
    ensures { result ≡ address_of_line line }
{
    line % (1 << 58) * 64
}

/// The controller's number; 0 where it is none.
pub fn controller(v: &Value) -> u32
    ensures { result ≡ controller v.now }
{
    match v {
        Value::Machine(number) => *number,
        _ => 0,
    }
}

/// The block; zeros where it is none.
pub fn block(v: &Value) -> Block
    ensures { result ≡ block v.now }
{
    match v {
        Value::Block(b) => *b,
        _ => Block { bytes: [0; 64] },
    }
}

/// The number of the member of its enumeration; 0 where it is none.
pub fn member(v: &Value) -> u16
    ensures { result ≡ member v.now }
{
    match v {
        Value::Enum(_, m) => *m,
        _ => 0,
    }
}

/// The line that it is a reference to, if it is one.
pub fn reference(v: &Value) -> Option<Ref>
    ensures { result ≡ reference v.now }
{
    match v {
        Value::Entry(r) | Value::Tbe(r) => *r,
        _ => None,
    }
}

// The same of an argument; where it isn't there, it counts as false.
pub(crate) fn number_at(arguments: &[Value], i: usize) -> i64
    ensures { result ≡ number (argument arguments.now i) }
{
    match arguments.get(i) {
        Some(v) => number(v),
        None => 0,
    }
}

pub(crate) fn line_at(arguments: &[Value], i: usize) -> u64
    ensures line { result ≡ line_named (argument arguments.now i) }
    ensures limit { result < 2 ^ 58 }
{
    match arguments.get(i) {
        Some(v) => line_named(v),
        None => 0,
    }
}

pub(crate) fn controller_at(arguments: &[Value], i: usize) -> u32
    ensures { result ≡ controller (argument arguments.now i) }
{
    match arguments.get(i) {
        Some(v) => controller(v),
        None => 0,
    }
}

pub(crate) fn member_at(arguments: &[Value], i: usize) -> u16
    ensures { result ≡ member (argument arguments.now i) }
{
    match arguments.get(i) {
        Some(v) => member(v),
        None => 0,
    }
}

pub(crate) fn block_at(arguments: &[Value], i: usize) -> Block
    ensures { result ≡ block (argument arguments.now i) }
{
    match arguments.get(i) {
        Some(v) => block(v),
        None => Block { bytes: [0; 64] },
    }
}
