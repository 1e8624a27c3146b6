// A written transition: the state that it enters, and its body.
ghost use Rattle.std.specs.Prelude.{◌≡◌, ◌∷◌, [], IfOk, Some};
ghost use Rattle.ruby_value.specs.declared.value.Value.TheVariants as value;
ghost use Rattle.acts.specs.Prelude.{itself};
ghost use Rattle.machine_table.specs.Prelude.{answer};
ghost use Rattle.scan_steps.specs.Prelude.{TriesAs};
ghost use Rattle.compiled_protocol.specs.Prelude.{MayTry, last_state, machine_code, row_fired, row_goes_on, row_tried, state_asked, state_entered};

use crate::bodies::{body_run, state_answered, transition_values};
use crate::machine::CompiledMachine;
use crate::room::room_lacks;
use acts::{Fault, Local, NoMemory, Value};
use body_meaning::{Tried, Trigger};
use ruby_base::Seq;
use ruby_symbols::Next;
use run_journal::{FireNote, StopAt};
use scan_steps::{Halt, is_stall_among, known, told, waiting};
use slicc_plan::Row;
use std::alloc::Global;

fn address_alone(alloc: Global, t: Trigger) -> Result<Seq<Value>, NoMemory>
    ensures { IfOk result (λ values. values ≡ value.Addr t.address ∷ []) }
{
    let mut values = Seq::new(alloc);
    values.push(Value::Addr(t.address))?;
    Ok(values)
}

// The state that `*` enters.
fn state_asked<T: Local>(
    alloc: Global,
    m: CompiledMachine<'_>,
    t: Trigger,
    state: u16,
    local: &mut T,
) -> Result<u16, Halt>
    requires may { MayTry (machine_code m) (T.view local.old).machine t }
    ensures { TriesAs itself (state_asked (machine_code m.entry) t state (machine_code m.entry).head.asks)
        result (T.view local.old) (T.view local.new) }
{
    match m.head.asks {
        None => Err(Halt::Stop(StopAt {
            address: Some(t.address),
            state: Some(state),
            event: Some(t.event),
            fault: Fault::Reference,
        })),
        Some(body) => {
            let arguments = address_alone(alloc, t)?;
            state_answered(alloc, m, known(t, Some(state)), body, arguments, local)
        }
    }
}

// The state that a transition enters.
fn state_entered<T: Local>(
    alloc: Global,
    m: CompiledMachine<'_>,
    t: Trigger,
    state: u16,
    next: Next,
    local: &mut T,
) -> Result<u16, Halt>
    requires may { MayTry (machine_code m) (T.view local.old).machine t }
    ensures { TriesAs itself (state_entered (machine_code m.entry) t state next) result
        (T.view local.old) (T.view local.new) }
{
    match next {
        Next::To(written) => Ok(written),
        Next::Asked => state_asked(alloc, m, t, state, local),
    }
}

fn last_state(next: Next, state: u16, entered: u16) -> u16
    ensures { result ≡ last_state next state entered }
{
    match next {
        Next::To(_) => state,
        Next::Asked => entered,
    }
}

// Runs the transition's body, which enters this state.
fn row_fired<T: Local>(
    alloc: Global,
    m: CompiledMachine<'_>,
    t: Trigger,
    state: u16,
    next: u16,
    row: &Row,
    local: &mut T,
) -> Result<Tried, Halt>
    requires may { MayTry (machine_code m) (T.view local.old).machine t }
    requires row { answer (machine_code m).parts.tables (machine_code m).number state t.event ≡ Some row.now }
    ensures { TriesAs itself (row_fired (machine_code m.entry) t state next row.now) result
        (T.view local.old) (T.view local.new) }
{
    let body = m.head.first + row.transition;
    let arguments = transition_values(alloc, t, m.states, last_state(row.next, state, next))?;
    body_run(alloc, m, known(t, Some(state)), body, arguments, local)?;
    Ok(Tried::Fires(FireNote {
        address: t.address,
        state,
        event: t.event,
        next,
    }))
}

// A written transition for this state, where there is room for it and it doesn't stall.
fn row_goes_on<T: Local>(
    alloc: Global,
    m: CompiledMachine<'_>,
    t: Trigger,
    state: u16,
    row: &Row,
    local: &mut T,
) -> Result<Tried, Halt>
    requires may { MayTry (machine_code m) (T.view local.old).machine t }
    requires row { answer (machine_code m).parts.tables (machine_code m).number state t.event ≡ Some row.now }
    ensures { TriesAs itself (row_goes_on (machine_code m.entry) t state row.now) result
        (T.view local.old) (T.view local.new) }
{
    let next = state_entered(alloc, m, t, state, row.next, local)?;
    row_fired(alloc, m, t, state, next, row, local)
}

// A written transition for this state.
pub(crate) fn row_tried<T: Local>(
    alloc: Global,
    m: CompiledMachine<'_>,
    t: Trigger,
    state: u16,
    row: &Row,
    local: &mut T,
) -> Result<Tried, Halt>
    requires may { MayTry (machine_code m) (T.view local.old).machine t }
    requires row { answer (machine_code m).parts.tables (machine_code m).number state t.event ≡ Some row.now }
    ensures { TriesAs itself (row_tried (machine_code m.entry) t state row.now) result
        (T.view local.old) (T.view local.new) }
{
    let k = known(t, Some(state));
    let short = told(k, room_lacks(m, row, local))?;
    if short {
        return told(k, waiting(local));
    }
    let stalls = is_stall_among(&row.actions, m.head.stall);
    if stalls {
        return told(k, waiting(local));
    }
    row_goes_on(alloc, m, t, state, row, local)
}
