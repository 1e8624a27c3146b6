//! The instructions that change the stack and the locals alone, and need no controller.
ghost use Rattle.std.specs.Prelude.{◌≡◌, ◌<◌, ◌∷◌, drop, length, slice_set, if◌then◌else◌, OnOk};
ghost use Rattle.action_vm.specs.declared.frame.Next.TheVariants as next;
ghost use Rattle.ruby_value.specs.declared.value.Value.TheVariants as value;
ghost use Rattle.ctl_face.specs.Prelude.{LocalView};
ghost use Rattle.acts.specs.Prelude.{DoesAs, ends, given};
ghost use Rattle.built_in_acts.specs.Prelude.{are_equal, argument, difference, is_at_most, is_less, negation, product, sum, truth};
ghost use Rattle.code_meaning.specs.Prelude.{multiplied, negated, of_one_sort, opposite, subtracted, summed, tested, with_number};
ghost use Rattle.code_frame.specs.Prelude.{Any, IsBool, IsInt, Over, Rest, SameRest, stored};

use crate::frame::Next;
use acts::{BodyFault, NoMemory, Trouble, Value};
use built_in_acts::are_equal;
use code_frame::Frame;

/// A value of its own on top. A reference has the one sort that references have there.
pub(crate) fn push(frame: &mut Frame, v: &Value) -> Result<(), Trouble>
    ensures does { (l : LocalView) → DoesAs (λ _. frame.new.stack) (ends
        (of_one_sort v.now ∷ frame.old.stack)) result l l }
    ensures rest { OnOk result (SameRest frame.old frame.new) }
{
    match v {
        Value::Tbe(r) => frame.push(Value::Entry(*r))?,
        other => frame.push_copied(other)?,
    }
    Ok(())
}

fn sum(a: i64, b: i64) -> Result<i64, BodyFault>
    ensures { result ≡ sum (value.Int a) (value.Int b) }
{
    match ruby_value::add(a, b) {
        Some(n) => Ok(n),
        None => Err(BodyFault::Overflow),
    }
}

fn difference(a: i64, b: i64) -> Result<i64, BodyFault>
    ensures { result ≡ difference (value.Int a) (value.Int b) }
{
    match ruby_value::sub(a, b) {
        Some(n) => Ok(n),
        None => Err(BodyFault::Overflow),
    }
}

fn product(a: i64, b: i64) -> Result<i64, BodyFault>
    ensures { result ≡ product (value.Int a) (value.Int b) }
{
    match ruby_value::mul(a, b) {
        Some(n) => Ok(n),
        None => Err(BodyFault::Overflow),
    }
}

fn negation(a: i64) -> Result<i64, BodyFault>
    ensures { result ≡ negation (value.Int a) }
{
    match ruby_value::sub(0, a) {
        Some(n) => Ok(n),
        None => Err(BodyFault::Overflow),
    }
}

// A number on top, or the fault in its place.
#[tactic(auto, using(acts::proofs::Walk::walk_steps, crate::proofs::Arms::put_steps))]
fn put(frame: &mut Frame, r: Result<i64, BodyFault>) -> Result<(), Trouble>
    ensures does { (l : LocalView) → DoesAs (λ _. frame.new.stack) (given
        (with_number 0 frame.old.stack r)) result l l }
    ensures rest { OnOk result (SameRest frame.old frame.new) }
{
    match r {
        Ok(n) => {
            frame.push_int(n)?;
            Ok(())
        }
        Err(own) => Err(Trouble::from(own)),
    }
}

pub(crate) fn add(frame: &mut Frame) -> Result<(), Trouble>
    requires { Over IsInt (Over IsInt Rest) frame.old.stack }
    ensures does { (l : LocalView) → DoesAs (λ _. frame.new.stack) (given
        (summed frame.old.stack)) result l l }
    ensures rest { OnOk result (SameRest frame.old frame.new) }
{
    let b = frame.pop_int();
    let a = frame.pop_int();
    put(frame, sum(a, b))
}

pub(crate) fn sub(frame: &mut Frame) -> Result<(), Trouble>
    requires { Over IsInt (Over IsInt Rest) frame.old.stack }
    ensures does { (l : LocalView) → DoesAs (λ _. frame.new.stack) (given
        (subtracted frame.old.stack)) result l l }
    ensures rest { OnOk result (SameRest frame.old frame.new) }
{
    let b = frame.pop_int();
    let a = frame.pop_int();
    put(frame, difference(a, b))
}

pub(crate) fn mul(frame: &mut Frame) -> Result<(), Trouble>
    requires { Over IsInt (Over IsInt Rest) frame.old.stack }
    ensures does { (l : LocalView) → DoesAs (λ _. frame.new.stack) (given
        (multiplied frame.old.stack)) result l l }
    ensures rest { OnOk result (SameRest frame.old frame.new) }
{
    let b = frame.pop_int();
    let a = frame.pop_int();
    put(frame, product(a, b))
}

pub(crate) fn neg(frame: &mut Frame) -> Result<(), Trouble>
    requires { Over IsInt Rest frame.old.stack }
    ensures does { (l : LocalView) → DoesAs (λ _. frame.new.stack) (given
        (negated frame.old.stack)) result l l }
    ensures rest { OnOk result (SameRest frame.old frame.new) }
{
    let a = frame.pop_int();
    put(frame, negation(a))
}

pub(crate) fn lt(frame: &mut Frame) -> Result<(), Trouble>
    requires { Over IsInt (Over IsInt Rest) frame.old.stack }
    ensures does { (l : LocalView) → DoesAs (λ _. frame.new.stack)
        (ends (tested 2 (is_less (argument frame.old.stack 1)
        (argument frame.old.stack 0)) frame.old.stack)) result l l }
    ensures rest { OnOk result (SameRest frame.old frame.new) }
{
    let b = frame.pop_int();
    let a = frame.pop_int();
    frame.push_bool(a < b)?;
    Ok(())
}

pub(crate) fn le(frame: &mut Frame) -> Result<(), Trouble>
    requires { Over IsInt (Over IsInt Rest) frame.old.stack }
    ensures does { (l : LocalView) → DoesAs (λ _. frame.new.stack)
        (ends (tested 2 (is_at_most (argument frame.old.stack 1)
        (argument frame.old.stack 0)) frame.old.stack)) result l l }
    ensures rest { OnOk result (SameRest frame.old frame.new) }
{
    let b = frame.pop_int();
    let a = frame.pop_int();
    frame.push_bool(a <= b)?;
    Ok(())
}

pub(crate) fn eq(frame: &mut Frame) -> Result<(), Trouble>
    requires { Over Any (Over Any Rest) frame.old.stack }
    ensures does { (l : LocalView) → DoesAs (λ _. frame.new.stack)
        (ends (tested 2 (are_equal (argument frame.old.stack 1)
        (argument frame.old.stack 0)) frame.old.stack)) result l l }
    ensures rest { OnOk result (SameRest frame.old frame.new) }
{
    let b = frame.pop();
    let a = frame.pop();
    frame.push_bool(are_equal(&a, &b))?;
    Ok(())
}

pub(crate) fn not(frame: &mut Frame) -> Result<(), Trouble>
    requires { Over IsBool Rest frame.old.stack }
    ensures does { (l : LocalView) → DoesAs (λ _. frame.new.stack)
        (ends (tested 1 (opposite (truth
        (argument frame.old.stack 0))) frame.old.stack)) result l l }
    ensures rest { OnOk result (SameRest frame.old frame.new) }
{
    let b = frame.pop_bool();
    frame.push_bool(!b)?;
    Ok(())
}

/// The value of a local on top.
pub(crate) fn load(frame: &mut Frame, n: u16) -> Result<(), Trouble>
    requires { n < length frame.old.locals }
    ensures does { (l : LocalView) → DoesAs (λ _. frame.new.stack)
        (ends (argument frame.old.locals n ∷ frame.old.stack)) result l l }
    ensures rest { OnOk result (SameRest frame.old frame.new) }
{
    frame.load(usize::from(n))?;
    Ok(())
}

/// The value on top for a local.
pub(crate) fn store(frame: &mut Frame, n: u16) -> Result<(), NoMemory>
    requires value { Over Any Rest frame.old.stack }
    requires local { n < length frame.old.locals }
    ensures { OnOk result (frame.new ≡ stored n frame.old) }
{
    frame.store(usize::from(n))
}

/// Goes on where the truth value on top is true, and else jumps.
pub(crate) fn unless(frame: &mut Frame, to: u32) -> Next
    requires { Over IsBool Rest frame.old.stack }
    ensures stack { frame.new.stack ≡ drop 1 frame.old.stack }
    ensures rest { SameRest frame.old frame.new }
    ensures goes { result ≡ (if truth (argument frame.old.stack 0) then next.On else next.To to) }
{
    if frame.pop_bool() {
        Next::On
    } else {
        Next::To(to)
    }
}
