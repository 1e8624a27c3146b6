// The state of a line, which the machine's own functions read and set, or else the built-in map does.
ghost use Rattle.std.specs.Prelude.{◌≡◌, IfOk};
ghost use Rattle.acts.specs.Prelude.{DoesAs, itself};
ghost use Rattle.body_meaning.specs.Prelude.{arguments_for, permission_set, next_asked, next_state, state_answered, state_argument, state_by, state_set, reading};
ghost use Rattle.statement_walk.specs.Prelude.{HasFew};

use crate::functions::called;
use acts::{BodyFault, Local, NoMemory, Trouble, Value, set_state, state};
use body_meaning::{About, Scope, as_member, value_in};
use ruby_base::Seq;
use ruby_symbols::{
    MachineSymbols, Next, StateArgument, get_state_arguments, set_permission_arguments,
    set_state_arguments,
};
use std::alloc::Global;

fn state_argument(m: &MachineSymbols, a: About, state: u16, argument: StateArgument) -> Value
    ensures { result ≡ state_argument m.now a state argument }
{
    match argument {
        StateArgument::Tbe => Value::Entry(a.tbe),
        StateArgument::Entry => Value::Entry(a.entry),
        StateArgument::Address => Value::Addr(a.address),
        StateArgument::State => Value::Enum(m.states, state),
    }
}

fn arguments_for(
    alloc: Global,
    m: &MachineSymbols,
    a: About,
    state: u16,
    arguments: &[StateArgument],
) -> Result<Seq<Value>, NoMemory>
    ensures { IfOk result (λ values. values ≡ arguments_for m.now a state arguments.now) }
{
    let mut values = Seq::new(alloc);
    for argument in arguments {
        values.push(state_argument(m, a, state, *argument))?;
    }
    Ok(values)
}

// What a function of the machine that gives a state answers to these arguments.
fn state_answered<T: Local>(
    alloc: Global,
    s: Scope<'_>,
    function: u16,
    arguments: Seq<Value>,
    local: &mut T,
) -> Result<u16, Trouble>
    requires few { HasFew s.machine.now }
    ensures { DoesAs itself (state_answered (reading s.entry) function arguments) result
        (T.view local.old) (T.view local.new) }
{
    let t = called(alloc, s, function, arguments, local)?;
    Ok(as_member(s, s.machine.states, &value_in(t)))
}

/// The number of the state of the line that a transition is about, by `getState`, if the machine has it.
pub fn state_by<T: Local>(
    alloc: Global,
    s: Scope<'_>,
    a: About,
    function: Option<u16>,
    local: &mut T,
) -> Result<u16, Trouble>
    requires few { HasFew s.machine.now }
    ensures { DoesAs itself (state_by (reading s.entry) a function) result (T.view local.old)
        (T.view local.new) }
{
    let Some(function) = function else {
        return state(local, a.address / 64);
    };
    let list = get_state_arguments(alloc, s.machine)?;
    let arguments = arguments_for(alloc, s.machine, a, 0, &list)?;
    state_answered(alloc, s, function, arguments, local)
}

fn next_asked<T: Local>(
    alloc: Global,
    s: Scope<'_>,
    address: u64,
    function: Option<u16>,
    local: &mut T,
) -> Result<u16, Trouble>
    requires few { HasFew s.machine.now }
    ensures { DoesAs itself (next_asked (reading s.entry) address function) result
        (T.view local.old) (T.view local.new) }
{
    let Some(function) = function else {
        return Err(Trouble::from(BodyFault::Reference));
    };
    let mut arguments = Seq::new(alloc);
    arguments.push(Value::Addr(address))?;
    state_answered(alloc, s, function, arguments, local)
}

/// The number of the state that a transition enters, by what it names: its own state, or for `*` what `getNextState` answers on this
/// address.
pub fn next_state<T: Local>(
    alloc: Global,
    s: Scope<'_>,
    address: u64,
    state: u16,
    next: Option<Next>,
    local: &mut T,
) -> Result<u16, Trouble>
    requires few { HasFew s.machine.now }
    ensures { DoesAs itself (next_state (reading s.entry) address state next) result
        (T.view local.old) (T.view local.new) }
{
    match next {
        None => Ok(state),
        Some(Next::To(next)) => Ok(next),
        Some(Next::Asked) => { next_asked(alloc, s, address, s.machine.get_next_state, local) }
    }
}

/// Sets the state of the line that a transition is about, by `setState`, if the machine has it.
pub fn state_set<T: Local>(
    alloc: Global,
    s: Scope<'_>,
    a: About,
    next: u16,
    function: Option<u16>,
    local: &mut T,
) -> Result<(), Trouble>
    requires few { HasFew s.machine.now }
    ensures { DoesAs itself (state_set (reading s.entry) a next function) result (T.view local.old)
        (T.view local.new) }
{
    let Some(function) = function else {
        return set_state(local, a.address / 64, next);
    };
    let list = set_state_arguments(alloc, s.machine)?;
    let arguments = arguments_for(alloc, s.machine, a, next, &list)?;
    called(alloc, s, function, arguments, local)?;
    Ok(())
}

/// Sets the access permission of the line that a transition is about, where the machine has `setAccessPermission`.
pub fn permission_set<T: Local>(
    alloc: Global,
    s: Scope<'_>,
    a: About,
    next: u16,
    function: Option<u16>,
    local: &mut T,
) -> Result<(), Trouble>
    requires few { HasFew s.machine.now }
    ensures { DoesAs itself (permission_set (reading s.entry) a next function) result (T.view local.old)
        (T.view local.new) }
{
    let Some(function) = function else {
        return Ok(());
    };
    let list = set_permission_arguments(alloc, s.machine)?;
    let arguments = arguments_for(alloc, s.machine, a, next, &list)?;
    called(alloc, s, function, arguments, local)?;
    Ok(())
}
