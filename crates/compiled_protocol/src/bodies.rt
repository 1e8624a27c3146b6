// Runs of bodies in a scan.
ghost use Rattle.std.specs.Prelude.{◌≡◌, ◌∷◌, ◌++◌, [], IfOk};
ghost use Rattle.ruby_value.specs.declared.value.Value.TheVariants as value;
ghost use Rattle.acts.specs.Prelude.{itself};
ghost use Rattle.body_meaning.specs.Prelude.{about};
ghost use Rattle.action_gen.specs.Prelude.{about_values};
ghost use Rattle.scan_steps.specs.Prelude.{TriesAs};
ghost use Rattle.compiled_protocol.specs.Prelude.{MayCall, body_run, machine_code, member_in, state_answered, state_in};
ghost use Rattle.compiled_protocol.specs.Ended.{ended};

use crate::machine::CompiledMachine;
use action_vm::{CodeEnd, run_code};
use acts::{Local, NoMemory, Value};
use body_meaning::{Known, Trigger};
use ruby_base::Seq;
use run_journal::StopAt;
use scan_steps::Halt;
use std::alloc::Global;

// What a run answers, where this is known of the transition.
fn ended(k: Known, answer: Result<CodeEnd, NoMemory>) -> Result<CodeEnd, Halt>
    ensures { result ≡ ended k answer }
{
    match answer {
        Ok(CodeEnd::Stop(fault)) => Err(Halt::Stop(StopAt {
            address: k.address,
            state: k.state,
            event: k.event,
            fault,
        })),
        Ok(end) => Ok(end),
        Err(NoMemory) => Err(Halt::NoMemory),
    }
}

// Runs the body of this number.
pub(crate) fn body_run<T: Local>(
    alloc: Global,
    m: CompiledMachine<'_>,
    k: Known,
    body: u32,
    arguments: Seq<Value>,
    local: &mut T,
) -> Result<CodeEnd, Halt>
    requires { MayCall (machine_code m).parts.program (T.view local.old).machine body arguments }
    ensures { TriesAs itself (body_run (machine_code m.entry) k body arguments) result
        (T.view local.old) (T.view local.new) }
{
    ended(k, run_code(alloc, &m.parts.program, body, local, arguments))
}

fn member_in(states: u16, count: usize, v: &Value) -> u16
    ensures { result ≡ member_in states count v.now }
{
    match v {
        Value::Enum(number, k) => {
            if *number == states && usize::from(*k) < count {
                *k
            } else {
                0
            }
        }
        _ => 0,
    }
}

// The state that a body answered.
fn state_in(states: u16, count: usize, end: &CodeEnd) -> u16
    ensures { result ≡ state_in states count end.now }
{
    match end {
        CodeEnd::Value(v) => member_in(states, count, v),
        _ => 0,
    }
}

// The state that the body of this number answers.
pub(crate) fn state_answered<T: Local>(
    alloc: Global,
    m: CompiledMachine<'_>,
    k: Known,
    body: u32,
    arguments: Seq<Value>,
    local: &mut T,
) -> Result<u16, Halt>
    requires { MayCall (machine_code m).parts.program (T.view local.old).machine body arguments }
    ensures { TriesAs itself (state_answered (machine_code m.entry) k body arguments) result
        (T.view local.old) (T.view local.new) }
{
    let end = body_run(alloc, m, k, body, arguments, local)?;
    Ok(state_in(m.states, m.parts.tables.states(m.number), &end))
}

// The arguments that say what was triggered.
pub(crate) fn about_values(alloc: Global, t: Trigger) -> Result<Seq<Value>, NoMemory>
    ensures { IfOk result (λ values. values ≡ about_values (about t)) }
{
    let mut values = Seq::new(alloc);
    values.push(Value::Addr(t.address))?;
    values.push(Value::Entry(t.entry))?;
    values.push(Value::Entry(t.tbe))?;
    Ok(values)
}

// And those of a transition's body.
pub(crate) fn transition_values(
    alloc: Global,
    t: Trigger,
    states: u16,
    last: u16,
) -> Result<Seq<Value>, NoMemory>
    ensures { IfOk result (λ values. values ≡ about_values (about t) ++ value.Enum states last ∷ []) }
{
    let mut values = about_values(alloc, t)?;
    values.push(Value::Enum(states, last))?;
    Ok(values)
}
