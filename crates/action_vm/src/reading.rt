//! The instructions on lines and on open messages.
ghost use Rattle.std.specs.Prelude.{◌≡◌, ◌<◌, ◌∷◌, ℕ, List, drop, length, slice_get, map, slice_set, IfOk, OnOk};
ghost use Rattle.std.specs.Option.{option_copied};
ghost use Rattle.ruby_value.specs.declared.value.Value.{Value};
ghost use Rattle.ruby_value.specs.Prelude.{default_value};
ghost use Rattle.ctl_face.specs.Prelude.{LocalView};
ghost use Rattle.acts.specs.Act.{Front, Send};
ghost use Rattle.acts.specs.Prelude.{DoesAs, act, itself};
ghost use Rattle.built_in_acts.specs.Prelude.{argument, number};
ghost use Rattle.code_meaning.specs.Prelude.{fetched, innermost, kinds_of, opened, read_of, written};
ghost use Rattle.action_vm.specs.Frames.{HasPlaces, fields_at};
ghost use Rattle.action_vm.specs.Served.{CanGet, CanSend, CanSet, IsServed};
ghost use Rattle.code_frame.specs.Prelude.{Any, IsInt, IsReference, Over, Rest, SameRest};

use crate::served::{field, front_at, send, set};
use crate::stack::Stack;
use action_code::Program;
use acts::{BodyFault, Fields, Local, MessageAt, NoMemory, Trouble, Value};
use code_frame::Frame;
use std::alloc::Global;

/// A field of the line that the reference on top names, in its place. Only the field is cloned.
pub(crate) fn get<T: Local>(local: &T, frame: &mut Frame, f: u16) -> Result<(), Trouble>
    requires reference { Over IsReference Rest frame.old.stack }
    requires served { CanGet (T.view local.now) f frame.old.stack }
    ensures does { DoesAs (λ _. frame.new.stack) (fetched f frame.old.stack) result
        (T.view local.now)
        (T.view local.now) }
    ensures rest { OnOk result (SameRest frame.old frame.new) }
{
    match frame.pop_reference() {
        None => Err(Trouble::from(BodyFault::Reference)),
        Some(r) => {
            let v = field(local, &r, f)?;
            frame.push_copied(v)?;
            Ok(())
        }
    }
}

pub(crate) fn set_field<T: Local>(local: &mut T, frame: &mut Frame, f: u16) -> Result<(), Trouble>
    requires reference { Over Any (Over IsReference Rest) frame.old.stack }
    requires served { CanSet (T.view local.old) f frame.old.stack }
    ensures does { DoesAs (λ _. frame.new.stack) (written f frame.old.stack) result
        (T.view local.old)
        (T.view local.new) }
    ensures rest { OnOk result (SameRest frame.old frame.new) }
{
    let v = frame.pop();
    match frame.pop_reference() {
        None => Err(Trouble::from(BodyFault::Reference)),
        Some(r) => set(local, &r, f, v),
    }
}

/// Opens the front of a buffer.
pub(crate) fn peek<T: Local>(
    local: &T,
    inner: &mut Stack<MessageAt>,
    buffer: u16,
) -> Result<(), Trouble>
    requires { IsServed (T.view local.now) (Front buffer) }
    ensures does { DoesAs (λ _. fields_at (T.view local.now) inner.new)
        (opened buffer (fields_at (T.view local.now) inner.old)) result (T.view local.now)
        (T.view local.now) }
    ensures places { IfOk result (λ _. HasPlaces (T.view local.now) inner.old
        → HasPlaces (T.view local.now) inner.new) }
{
    let at = front_at(local, buffer)?;
    inner.push(at)?;
    Ok(())
}

// A field on top, if it is there.
fn push_field(frame: &mut Frame, v: Option<&Value>) -> Result<(), Trouble>
    ensures does { (fields : List Value) (f : ℕ)
        (l : LocalView) → option_copied v.entry ≡ slice_get fields f
        → DoesAs (λ _. frame.new.stack) (read_of fields f frame.old.stack) result l l }
    ensures rest { OnOk result (SameRest frame.old frame.new) }
{
    match v {
        None => Err(Trouble::from(BodyFault::Reference)),
        Some(v) => {
            frame.push_copied(v)?;
            Ok(())
        }
    }
}

/// A field of the innermost message that is looked at, on top. Only the field is cloned.
pub(crate) fn infield<T: Local>(
    local: &T,
    inner: &Stack<MessageAt>,
    frame: &mut Frame,
    f: u16,
) -> Result<(), Trouble>
    requires some { 0 < length inner.now }
    requires places { HasPlaces (T.view local.now) inner.now }
    ensures does { DoesAs (λ _. frame.new.stack)
        (read_of (innermost (fields_at (T.view local.now) inner.now)) f frame.old.stack) result
        (T.view local.now) (T.view local.now) }
    ensures rest { OnOk result (SameRest frame.old frame.new) }
{
    let at = match inner.top() {
        Some(at) => *at,
        None => unreachable!(),
    };
    push_field(frame, local.message(at).fields.get(f))
}

/// Opens a message of a structure.
pub(crate) fn new(
    alloc: Global,
    p: &Program,
    made: &mut Stack<Fields>,
    structure: u16,
) -> Result<(), NoMemory>
    ensures { OnOk result (made.new ≡ map default_value (kinds_of p.now structure) ∷ made.old) }
{
    let fields = match p.structures.get(usize::from(structure)) {
        Some(kinds) => Fields::of_kinds(alloc, kinds.as_slice())?,
        None => Fields::of(Vec::new(alloc)),
    };
    made.push(fields)?;
    Ok(())
}

/// A field of the innermost message that is made, on top.
pub(crate) fn outfield(made: &Stack<Fields>, frame: &mut Frame, f: u16) -> Result<(), Trouble>
    requires { 0 < length made.now }
    ensures does { (l : LocalView) → DoesAs (λ _. frame.new.stack) (read_of
        (innermost made.now) f frame.old.stack)
        result l l }
    ensures rest { OnOk result (SameRest frame.old frame.new) }
{
    let fields = match made.top() {
        Some(fields) => fields,
        None => unreachable!(),
    };
    push_field(frame, fields.get(f))
}

/// Writes a field of the innermost message that is made, from the top of the stack.
pub(crate) fn setout(made: &mut Stack<Fields>, frame: &mut Frame, f: u16) -> Result<(), NoMemory>
    requires value { Over Any Rest frame.old.stack }
    requires message { 0 < length made.old }
    ensures stack { OnOk result (frame.new.stack ≡ drop 1 frame.old.stack) }
    ensures rest { OnOk result (SameRest frame.old frame.new) }
    ensures made { OnOk result (made.new ≡ slice_set (innermost made.old) f
        (argument frame.old.stack 0) ∷ drop 1 made.old) }
{
    let v = frame.pop();
    let mut fields = match made.pop() {
        Some(fields) => fields,
        None => unreachable!(),
    };
    fields.write(f, v);
    made.push(fields)?;
    Ok(())
}

/// Sends the innermost message that is made, after the latency on top of the stack.
pub(crate) fn send_out<T: Local>(
    local: &mut T,
    made: &mut Stack<Fields>,
    frame: &mut Frame,
    buffer: u16,
) -> Result<(), Trouble>
    requires latency { Over IsInt Rest frame.old.stack }
    requires message { 0 < length made.old }
    requires served { CanSend (T.view local.old) buffer (innermost made.old) frame.old.stack }
    ensures does { DoesAs itself (act (Send buffer (number (argument frame.old.stack 0))
        (innermost made.old)))
        result (T.view local.old) (T.view local.new) }
    ensures stack { OnOk result (frame.new.stack ≡ drop 1 frame.old.stack) }
    ensures rest { OnOk result (SameRest frame.old frame.new) }
    ensures made { OnOk result (made.new ≡ drop 1 made.old) }
{
    let latency = frame.pop_int();
    let fields = match made.pop() {
        Some(fields) => fields,
        None => unreachable!(),
    };
    send(local, buffer, latency, fields)
}
