//! Bodies, from their arguments to their ends.
ghost use Rattle.std.specs.Prelude.{◌≡◌, ◌<◌, ◌≤◌, ◌++◌, ℕ, Some, drop, length, reverse, slice_get, IfOk, OnOk};
ghost use Rattle.acts.specs.Prelude.{DoesAs};
ghost use Rattle.built_in_acts.specs.Prelude.{argument};
ghost use Rattle.action_code.specs.Prelude.{Fits};
ghost use Rattle.code_frame.specs.Prelude.{IsMark, Window};
ghost use Rattle.code_meaning.specs.Prelude.{argument_count, arguments_on, run_body};
ghost use Rattle.action_vm.specs.Frames.{HasPlaces, HasResult, HasResultAfter, called_next, end_of, held_of, left_by, own, step_of};
ghost use Rattle.action_vm.specs.Outcome.{EndsAs, EndsOfKind, IsCallOf, IsCallOn, code_answer};
ghost use Rattle.action_vm.specs.Places.{IsAt, code_at, place_after};

use crate::frame::{Ended, Messages, Next};
use crate::stack::Stack;
use crate::turning::turn;
use action_code::{Code, Instr, Program, Verified};
use acts::{Local, NoMemory, Trouble, Value};
use code_frame::{Frame, Mark};
use code_meaning::CodeEnd;
use ruby_value::Seq;
use std::alloc::Global;

// Where the run that called goes on.
fn called(end: Ended) -> Next
    ensures { result ≡ called_next end }
{
    match end {
        Ended::Value | Ended::Nothing => Next::On,
        other => Next::Over(other),
    }
}

// Does the instruction at a place of a body.
#[cycle(running)]
fn step<T: Local>(
    alloc: Global,
    p: &Program,
    body: u32,
    c: &Code,
    at: usize,
    frame: &mut Frame,
    messages: &mut Messages,
    local: &mut T,
) -> Result<Next, Trouble>
    requires fits { Fits p.now }
    requires body { slice_get p.now.bodies body ≡ Some c.now }
    requires at { IsAt p.now body c.now at (own frame.old messages.old) (T.view local.old) }
    ensures does { DoesAs (step_of (T.view local.old) (own frame.new messages.new))
        (code_at p.now body c.now at (held_of (T.view local.old)
        (own frame.old messages.old))) result
        (T.view local.old) (T.view local.new) }
    ensures places { OnOk result (HasPlaces (T.view local.old) messages.new.inner) }
    ensures under { OnOk result (frame.new.under ≡ frame.old.under) }
    ensures value { IfOk result (λ n. HasResultAfter n frame.new.stack) }
{
    let i = &c.instructions[at];
    if let Instr::Call(n) = i {
        let end = run(alloc, p, *n, frame, local)?;
        return Ok(called(end));
    }
    turn(alloc, p, c, i, frame, messages, local)
}

// The place at which a run goes on, or its end.
fn place_after(c: &Code, at: usize, next: Next) -> Result<usize, Ended>
    requires { at < length c.now.instructions }
    ensures { result ≡ place_after at next }
{
    let _count = c.instructions.len();
    match next {
        Next::On => Ok(at + 1),
        Next::To(to) => Ok(to as usize),
        Next::Over(end) => Err(end),
    }
}

// Comes back to the body that called, with the result on top, if there is one.
fn finish(frame: &mut Frame, mark: Mark, end: Ended) -> Result<Ended, NoMemory>
    requires mark { (mark.base ≤ mark.floor) × (mark.floor ≤ length frame.old.under) }
    requires value { HasResult end frame.old.stack }
    ensures end { IfOk result (λ e. e ≡ end) }
    ensures frame { (w : Window) (n : ℕ) → IsMark mark w
        → frame.old.under ≡ w.under ++ w.locals ++ reverse (drop n w.stack)
        → OnOk result (frame.new ≡ left_by end (argument frame.old.stack 0) n w) }
{
    match end {
        Ended::Value => {
            let v = frame.pop();
            frame.leave(mark);
            frame.push(v)?;
            Ok(Ended::Value)
        }
        other => {
            frame.leave(mark);
            Ok(other)
        }
    }
}

/// Runs the body of this number, whose arguments are on top of the stack. Its result is in their place then, if it has one.
#[cycle(running)]
fn run<T: Local>(
    alloc: Global,
    p: &Program,
    body: u32,
    frame: &mut Frame,
    local: &mut T,
) -> Result<Ended, Trouble>
    requires fits { Fits p.now }
    requires call { IsCallOn p.now (slice_get p.now.bodies body) frame.old.stack
        (T.view local.old) }
    ensures does { let count = argument_count (slice_get p.now.bodies body) in
        DoesAs (λ e. end_of e frame.new.stack)
        (run_body p.now body (arguments_on count frame.old.stack)) result
        (T.view local.old) (T.view local.new) }
    ensures frame { let count = argument_count (slice_get p.now.bodies body) in
        IfOk result (λ e. frame.new ≡ left_by e (argument frame.new.stack 0) count frame.old) }
{
    let c = &p.bodies[body as usize];
    let mark = frame.enter(alloc, c.arguments.len(), c.locals.as_slice())?;
    let mut messages = Messages {
        inner: Stack::new(alloc),
        made: Stack::new(alloc),
    };
    let mut at: usize = 0;
    'walk: loop {
        match step(alloc, p, body, c, at, frame, &mut messages, local) {
            Err(trouble) => return Err(trouble),
            Ok(next) => match place_after(c, at, next) {
                Err(end) => return Ok(finish(frame, mark, end)?),
                Ok(to) => at = to,
            },
        }
    }
}

// How a body ended, with its result, if it has one, taken off the stack.
fn taken(frame: &mut Frame, end: Ended) -> CodeEnd
    requires { HasResult end frame.old.stack }
    ensures { result ≡ end_of end frame.old.stack }
{
    match end {
        Ended::Value => CodeEnd::Value(frame.pop()),
        Ended::Nothing => CodeEnd::Nothing,
        Ended::Trigger {
            event,
            address,
            entry,
            tbe,
        } => CodeEnd::Trigger {
            event,
            address,
            entry,
            tbe,
        },
        Ended::Stop(fault) => CodeEnd::Stop(fault),
    }
}

// The answer of a call whose run answered this.
fn answered(frame: &mut Frame, answer: Result<Ended, Trouble>) -> Result<CodeEnd, NoMemory>
    requires { IfOk answer (λ e. HasResult e frame.old.stack) }
    ensures { result ≡ code_answer answer frame.old.stack }
{
    match answer {
        Ok(end) => Ok(taken(frame, end)),
        Err(Trouble::Fault(fault)) => Ok(CodeEnd::Stop(fault)),
        Err(Trouble::NoMemory) => Err(NoMemory),
    }
}

/// Runs the body of this number of verified code, in a local of its machine, with these arguments: it answers how the body ends, which is
/// as it is declared to, where it doesn't ask for an event. A fault at which it stops is an end too, after which the caller drops the
/// local, as after want of memory.
pub fn run_code<T: Local>(
    alloc: Global,
    code: &Verified,
    body: u32,
    local: &mut T,
    arguments: Seq<Value>,
) -> Result<CodeEnd, NoMemory>
    requires { IsCallOf code.now (slice_get code.now.bodies body) arguments (T.view local.old) }
    ensures does { EndsAs (run_body code.now body arguments) result (T.view local.old)
        (T.view local.new) }
    ensures kind { EndsOfKind code.now (slice_get code.now.bodies body) result }
{
    let mut frame = Frame::new(alloc);
    frame.push_all(arguments.into_vec())?;
    let answer = run(alloc, code.program(), body, &mut frame, local);
    answered(&mut frame, answer)
}
