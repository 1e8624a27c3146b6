// What each built-in call does: its arguments are read, its acts are done, and its value is made.
ghost use Rattle.std.specs.Prelude.{◌≡◌, Some, Ok, pos};
ghost use Rattle.ruby_value.specs.declared.value.Value.TheVariants as value;
ghost use Rattle.acts.specs.Prelude.{Now, act, DoesAs, itself};
ghost use Rattle.built_in_acts.specs.Prelude.{built_in, line_used, of_values, on_controller, on_machines, on_messages, on_table, told, used, argument};

use crate::call::{Call, ControllerCall, MachineCall, MessageCall, TableCall, ValueCall, call_at};
use crate::machines::{KeptMachines, add_range, home_in, place_of, range_at};
use crate::sets::{controllers_at, of_set};
use crate::values::{
    address_of_line, block_at, controller_at, line_at, member_at, number_at, reference,
};
use acts::{
    Block, BodyFault, Local, Trouble, Value, allocate, avail, deallocate, lookup, me, now, pop,
    probe, read_back, ready, recycle, set_state, stall, touch, wake, wake_all, write_back,
};
use std::alloc::Global;

/// Does a call on messages, on a buffer, with these arguments, and answers its value, if it has one.
pub fn on_messages<T: Local>(
    local: &mut T,
    call: MessageCall,
    on: u16,
    arguments: &[Value],
) -> Result<Option<Value>, Trouble>
    ensures { DoesAs itself (on_messages call on arguments.now) result (T.view local.old)
        (T.view local.new) }
{
    match call {
        MessageCall::IsReady => return Ok(Some(Value::Bool(ready(local, on)?))),
        MessageCall::Dequeue => pop(local, on)?,
        MessageCall::Recycle => recycle(local, on, 10)?,
        MessageCall::RecycleFor => recycle(local, on, number_at(arguments, 1))?,
        MessageCall::Stall => stall(local, on, line_at(arguments, 0))?,
        MessageCall::Wake => wake(local, line_at(arguments, 0))?,
        MessageCall::WakeAll => wake_all(local)?,
    }
    Ok(None)
}

// The line that the first argument names, by its address or by a reference.
fn line_used_at(arguments: &[Value]) -> Option<u64>
    ensures { result ≡ line_used (argument arguments.now 0) }
{
    match arguments.get(0) {
        Some(Value::Addr(_)) => Some(line_at(arguments, 0)),
        Some(v) => match reference(v) {
            Some(r) => Some(r.line),
            None => None,
        },
        None => None,
    }
}

#[tactic(auto, using(acts::proofs::Walk::walk_steps), unfolding(crate::specs::BuiltIn::used))]
fn use_line<T: Local>(local: &mut T, table: u16, arguments: &[Value]) -> Result<(), Trouble>
    ensures { DoesAs itself (used table (argument arguments.now 0)) result (T.view local.old)
        (T.view local.new) }
{
    let Some(line) = line_used_at(arguments) else {
        return Err(Trouble::from(BodyFault::Reference));
    };
    touch(local, table, line)
}

/// Does a call on a table, with these arguments, and answers its value, if it has one.
pub fn on_table<T: Local>(
    local: &mut T,
    call: TableCall,
    on: u16,
    arguments: &[Value],
) -> Result<Option<Value>, Trouble>
    ensures { DoesAs itself (on_table call on arguments.now) result (T.view local.old)
        (T.view local.new) }
{
    let line = line_at(arguments, 0);
    match call {
        TableCall::Lookup => Ok(Some(Value::Entry(lookup(local, on, line)?))),
        TableCall::IsPresent => Ok(Some(Value::Bool(lookup(local, on, line)?.is_some()))),
        TableCall::HasPlace => Ok(Some(Value::Bool(avail(local, on, line)?))),
        TableCall::Replaced => Ok(Some(Value::Addr(address_of_line(probe(local, on, line)?)))),
        TableCall::Allocate => {
            let r = allocate(local, on, line)?;
            Ok(Some(Value::Entry(Some(r))))
        }
        TableCall::AllocateTbe => {
            allocate(local, on, line)?;
            Ok(None)
        }
        TableCall::Deallocate => {
            deallocate(local, on, line)?;
            Ok(None)
        }
        TableCall::Use => {
            use_line(local, on, arguments)?;
            Ok(None)
        }
    }
}

// The cycle, as a number.
fn cycle<T: Local>(local: &T) -> i64
    ensures { DoesAs itself (told (λ n. value.Int (pos n)) (act Now)) (Ok (Some (value.Int result)))
        (T.view local.now) (T.view local.now) }
{
    now(local) as i64
}

/// Does a call on a line's request or state, or on the controller itself, with these arguments, and answers its value, if it has one.
pub fn on_controller<T: Local>(
    local: &mut T,
    call: ControllerCall,
    arguments: &[Value],
) -> Result<Option<Value>, Trouble>
    ensures { DoesAs itself (on_controller call arguments.now) result (T.view local.old)
        (T.view local.new) }
{
    match call {
        ControllerCall::ReadCallback => {
            read_back(local, line_at(arguments, 0), &block_at(arguments, 1))?;
            Ok(None)
        }
        ControllerCall::WriteCallback => {
            let block = write_back(local, line_at(arguments, 0), block_at(arguments, 1))?;
            Ok(Some(Value::Block(block)))
        }
        ControllerCall::SetState => {
            set_state(local, line_at(arguments, 0), member_at(arguments, 1))?;
            Ok(None)
        }
        ControllerCall::Cycle => Ok(Some(Value::Int(cycle(local)))),
        ControllerCall::Me => Ok(Some(Value::Machine(me(local)))),
    }
}

/// What a call answers that needs no more than its arguments.
pub fn of_values(call: ValueCall, arguments: &[Value]) -> Option<Value>
    ensures { result ≡ of_values call arguments.now }
{
    match call {
        ValueCall::HasLine => Some(Value::Bool(true)),
        ValueCall::ClearBlock => Some(Value::Block(Block { bytes: [0; 64] })),
        ValueCall::Number => Some(Value::Int(number_at(arguments, 0))),
        ValueCall::LineAddress => Some(Value::Addr(address_of_line(line_at(arguments, 0)))),
        ValueCall::Nothing => None,
    }
}

/// Does a call on the numbers of machines' controllers, with these arguments, and answers its value.
pub fn on_machines<T: Local>(
    alloc: Global,
    local: &T,
    kept: KeptMachines,
    call: MachineCall,
    arguments: &[Value],
) -> Result<Option<Value>, Trouble>
    ensures { DoesAs itself (on_machines kept call arguments.now) result (T.view local.now)
        (T.view local.now) }
{
    match call {
        MachineCall::Broadcast => {
            let range = range_at(local, kept, member_at(arguments, 1))?;
            let mut members = controllers_at(alloc, arguments, 0)?;
            add_range(&mut members, range)?;
            Ok(Some(Value::Dest(members)))
        }
        MachineCall::Home => {
            let range = range_at(local, kept, member_at(arguments, 1))?;
            Ok(Some(Value::Machine(home_in(line_at(arguments, 0), range))))
        }
        MachineCall::Index => {
            let placed = place_of(local, kept, controller_at(arguments, 0))?;
            Ok(Some(Value::Int(i64::from(placed.index))))
        }
        MachineCall::MachineOf => {
            let placed = place_of(local, kept, controller_at(arguments, 0))?;
            Ok(Some(Value::Enum(0, placed.machine)))
        }
    }
}

/// Does the built-in call of this number, in action code's numbering, on the table or buffer of a number where it has one, with
/// these arguments, of which a receiver that is a value is the first. It answers the call's value, if it has one; that of a call
/// that changes a set of controllers or a block is the changed one. A number without a call, and one whose work other
/// instructions do, is the fault `Reference`.
#[tactic(auto, using(acts::proofs::Walk::walk_steps), unfolding(crate::specs::BuiltIn::built_in))]
pub fn built_in<T: Local>(
    alloc: Global,
    local: &mut T,
    kept: KeptMachines,
    n: u16,
    on: u16,
    arguments: &[Value],
) -> Result<Option<Value>, Trouble>
    ensures { DoesAs itself (built_in kept n on arguments.now) result (T.view local.old)
        (T.view local.new) }
{
    match call_at(n) {
        Call::Message(call) => on_messages(local, call, on, arguments),
        Call::Table(call) => on_table(local, call, on, arguments),
        Call::Controller(call) => on_controller(local, call, arguments),
        Call::Machines(call) => on_machines(alloc, local, kept, call, arguments),
        Call::Set(call) => Ok(Some(of_set(alloc, call, arguments)?)),
        Call::Value(call) => Ok(of_values(call, arguments)),
        Call::NotServed => Err(Trouble::from(BodyFault::Reference)),
    }
}
