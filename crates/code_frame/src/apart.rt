//! The values that are kept apart, each at the place of its slot. What is not there counts as false.
ghost use Rattle.std.specs.Prelude.{◌≡◌, ◌≢◌, ◌<◌, ℕ, length, IfOk, OnOk};
ghost use Rattle.code_frame.specs.Slots.{IsMoved, IsPut, SameElsewhere, big, value_at, value_in};

use crate::slot::{Slot, Sort, value_of};
use ruby_base::NoMemory;
use ruby_value::{Block, Value};
use std::mem;

// A set of controllers or a block, as which anything else counts as zeros.
fn big(v: Value) -> Value
    ensures { result ≡ big v }
{
    match v {
        Value::Dest(members) => Value::Dest(members),
        Value::Block(block) => Value::Block(block),
        _ => Value::Block(Block { bytes: [0; 64] }),
    }
}

// Sees to it that there is something at a place.
fn pad(apart: &mut Vec<Value>, at: usize) -> Result<(), NoMemory>
    ensures there { OnOk result (at < length apart.new.items) }
    ensures same { OnOk result
        ((k : ℕ) → value_at apart.new.items k ≡ value_at apart.old.items k) }
{
    while apart.len() <= at {
        apart.push(Value::Bool(false))?;
    }
    Ok(())
}

/// Puts a value at a place.
pub(crate) fn put_apart(apart: &mut Vec<Value>, at: usize, v: Value) -> Result<(), NoMemory>
    ensures { OnOk result (IsPut apart.old.items at v apart.new.items) }
{
    pad(apart, at)?;
    apart[at] = v;
    Ok(())
}

// Takes what is at a place.
fn take_apart(apart: &mut Vec<Value>, at: usize) -> Value
    ensures value { result ≡ value_at apart.old.items at }
    ensures elsewhere { SameElsewhere apart.old.items at apart.new.items }
{
    if at < apart.len() {
        mem::replace(&mut apart[at], Value::Bool(false))
    } else {
        Value::Bool(false)
    }
}

/// Takes the value of a slot at a place.
pub(crate) fn take_value(apart: &mut Vec<Value>, at: usize, s: Slot) -> Value
    ensures value { result ≡ value_in s (value_at apart.old.items at) }
    ensures elsewhere { SameElsewhere apart.old.items at apart.new.items }
{
    match s.sort {
        Sort::Apart => big(take_apart(apart, at)),
        _ => value_of(s),
    }
}

/// A value of its own that is kept at a place.
pub(crate) fn copy_apart(apart: &[Value], at: usize) -> Result<Value, NoMemory>
    ensures { IfOk result (λ v. v ≡ big (value_at apart.now at)) }
{
    match apart.get(at) {
        Some(Value::Dest(members)) => Ok(Value::Dest(members.clone()?)),
        Some(Value::Block(block)) => Ok(Value::Block(*block)),
        _ => Ok(Value::Block(Block { bytes: [0; 64] })),
    }
}

/// Moves what a slot has apart from one place to another.
pub(crate) fn move_apart(
    apart: &mut Vec<Value>,
    s: Slot,
    from: usize,
    to: usize,
) -> Result<(), NoMemory>
    requires { from ≢ to }
    ensures { OnOk result (IsMoved s apart.old.items from to apart.new.items) }
{
    if let Sort::Apart = s.sort {
        let v = take_apart(apart, from);
        put_apart(apart, to, v)?;
    }
    Ok(())
}
