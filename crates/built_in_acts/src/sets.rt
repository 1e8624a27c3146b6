// Sets of controllers among arguments, and the calls on them.
ghost use Rattle.std.specs.Prelude.{◌≡◌, ◌==◌, IfOk, OnOk, length};
ghost use Rattle.std.specs.List.{fold, list_any};
ghost use Rattle.ruby_value.specs.Prelude.{with_member, without_member};
ghost use Rattle.built_in_acts.specs.Prelude.{of_set, argument, controllers};

use crate::call::SetCall;
use crate::values::controller_at;
use acts::{NoMemory, Value};
use ruby_value::NetDest;
use std::alloc::Global;

/// The controllers of an argument; none where it is no set of them.
pub(crate) fn controllers_at(
    alloc: Global,
    arguments: &[Value],
    i: usize,
) -> Result<NetDest, NoMemory>
    ensures { IfOk result (λ members. members ≡ controllers (argument arguments.now i)) }
{
    match arguments.get(i) {
        Some(Value::Dest(members)) => Ok(members.clone()?),
        _ => Ok(NetDest::new(alloc)),
    }
}

// How many controllers the first argument has.
fn count_of_first(arguments: &[Value]) -> u64
    ensures { result ≡ length (controllers (argument arguments.now 0)) }
{
    match arguments.get(0) {
        Some(Value::Dest(members)) => members.count(),
        _ => 0,
    }
}

fn has(members: &NetDest, controller: u32) -> bool
    ensures { result ≡ list_any (λ m. controller == m) members.now }
{
    members.contains(controller)
}

// Whether the first argument has a controller.
fn is_in_first(arguments: &[Value], controller: u32) -> bool
    ensures { result ≡ list_any (λ m. controller == m) (controllers (argument arguments.now 0)) }
{
    match arguments.get(0) {
        Some(Value::Dest(members)) => has(members, controller),
        _ => false,
    }
}

// Puts each of the others in.
fn add_all(members: &mut NetDest, mut others: NetDest) -> Result<(), NoMemory>
    ensures { OnOk result (members.new ≡ fold with_member members.old others) }
{
    let _count = others.count();
    while let Some(m) = others.least_from(0) {
        members.add(m)?;
        others.remove(m);
    }
    Ok(())
}

// Takes each of the others out.
fn remove_all(members: &mut NetDest, mut others: NetDest)
    ensures { members.new ≡ fold without_member members.old others }
{
    let _count = others.count();
    while let Some(m) = others.least_from(0) {
        members.remove(m);
        others.remove(m);
    }
}

/// What a call on a set answers: what is asked of it, or the changed set.
pub fn of_set(alloc: Global, call: SetCall, arguments: &[Value]) -> Result<Value, NoMemory>
    ensures { IfOk result (λ v. v ≡ of_set call (controllers (argument arguments.now 0)) (argument arguments.now 1)) }
{
    match call {
        SetCall::Add => {
            let mut members = controllers_at(alloc, arguments, 0)?;
            members.add(controller_at(arguments, 1))?;
            Ok(Value::Dest(members))
        }
        SetCall::Remove => {
            let mut members = controllers_at(alloc, arguments, 0)?;
            members.remove(controller_at(arguments, 1));
            Ok(Value::Dest(members))
        }
        SetCall::ClearSet => Ok(Value::Dest(NetDest::new(alloc))),
        SetCall::Count => {
            let count = count_of_first(arguments);
            if count > i64::MAX as u64 {
                // Memory doesn't hold so many.
                return Err(NoMemory);
            }
            Ok(Value::Int(count as i64))
        }
        SetCall::Contains => {
            let is_in = is_in_first(arguments, controller_at(arguments, 1));
            Ok(Value::Bool(is_in))
        }
        SetCall::IsEmpty => Ok(Value::Bool(count_of_first(arguments) == 0)),
        SetCall::AddAll => {
            let mut members = controllers_at(alloc, arguments, 0)?;
            add_all(&mut members, controllers_at(alloc, arguments, 1)?)?;
            Ok(Value::Dest(members))
        }
        SetCall::RemoveAll => {
            let mut members = controllers_at(alloc, arguments, 0)?;
            remove_all(&mut members, controllers_at(alloc, arguments, 1)?);
            Ok(Value::Dest(members))
        }
    }
}
