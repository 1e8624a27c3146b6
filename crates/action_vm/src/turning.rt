//! One instruction.
ghost use Rattle.std.specs.Prelude.{◌≡◌, IfOk, OnOk};
ghost use Rattle.acts.specs.Prelude.{DoesAs};
ghost use Rattle.code_meaning.specs.Prelude.{Bodies, code_step};
ghost use Rattle.action_vm.specs.Frames.{HasPlaces, HasResultAfter, IsNoCall, Needs, held_of, on_of, on_of_memory, own, step_of};

use crate::frame::{Messages, Next};
use crate::operating::{operate, ret, stop, trigger};
use crate::plain::{add, eq, le, load, lt, mul, neg, not, push, store, sub, unless};
use crate::reading::{get, infield, new, outfield, peek, send_out, set_field, setout};
use action_code::{Code, Instr, Program};
use acts::{Local, NoMemory, Trouble};
use code_frame::Frame;
use std::alloc::Global;

// The run goes on after this.
fn on(done: Result<(), Trouble>) -> Result<Next, Trouble>
    ensures { result ≡ on_of done }
{
    match done {
        Ok(()) => Ok(Next::On),
        Err(trouble) => Err(trouble),
    }
}

fn on_with_memory(done: Result<(), NoMemory>) -> Result<Next, Trouble>
    ensures { result ≡ on_of_memory done }
{
    match done {
        Ok(()) => Ok(Next::On),
        Err(NoMemory) => Err(Trouble::NoMemory),
    }
}

/// Does an instruction that isn't a call.
pub(crate) fn turn<T: Local>(
    alloc: Global,
    p: &Program,
    c: &Code,
    i: &Instr,
    frame: &mut Frame,
    messages: &mut Messages,
    local: &mut T,
) -> Result<Next, Trouble>
    requires call { IsNoCall i.now }
    requires needs { Needs (T.view local.old) c.now i.now (own frame.old messages.old) }
    requires places { HasPlaces (T.view local.old) messages.old.inner }
    ensures does { (calls : Bodies) → DoesAs (step_of (T.view local.old)
        (own frame.new messages.new))
        (code_step p.now c.now calls i.now (held_of (T.view local.old)
        (own frame.old messages.old)))
        result (T.view local.old) (T.view local.new) }
    ensures places { OnOk result (HasPlaces (T.view local.old) messages.new.inner) }
    ensures under { OnOk result (frame.new.under ≡ frame.old.under) }
    ensures value { IfOk result (λ n. HasResultAfter n frame.new.stack) }
{
    match i {
        Instr::Push(v, _) => on(push(frame, v)),
        Instr::Load(n) => on(load(frame, *n)),
        Instr::Store(n) => on_with_memory(store(frame, *n)),
        Instr::Add => on(add(frame)),
        Instr::Sub => on(sub(frame)),
        Instr::Mul => on(mul(frame)),
        Instr::Neg => on(neg(frame)),
        Instr::Not => on(not(frame)),
        Instr::Lt => on(lt(frame)),
        Instr::Le => on(le(frame)),
        Instr::Eq => on(eq(frame)),
        Instr::Jump(to) => Ok(Next::To(*to)),
        Instr::Unless(to) => Ok(unless(frame, *to)),
        Instr::Get(f) => on(get(local, frame, *f)),
        Instr::Set(f) => on(set_field(local, frame, *f)),
        Instr::Peek(buffer) => on(peek(local, &mut messages.inner, *buffer)),
        Instr::Infield(f) => on(infield(local, &messages.inner, frame, *f)),
        Instr::Unpeek => {
            let _closed = messages.inner.pop();
            Ok(Next::On)
        }
        Instr::New(structure) => on_with_memory(new(alloc, p, &mut messages.made, *structure)),
        Instr::Outfield(f) => on(outfield(&messages.made, frame, *f)),
        Instr::Setout(f) => on_with_memory(setout(&mut messages.made, frame, *f)),
        Instr::Send(buffer) => on(send_out(local, &mut messages.made, frame, *buffer)),
        Instr::Op(n, t) => on(operate(alloc, p, c, *n, *t, frame, local)),
        Instr::Call(_) => unreachable!(),
        Instr::Trigger(event) => Ok(Next::Over(trigger(frame, *event))),
        Instr::Stop(fault) => stop(alloc, fault),
        Instr::Ret => Ok(Next::Over(ret(c.result))),
    }
}
