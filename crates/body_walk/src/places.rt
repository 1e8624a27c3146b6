// Reading and writing what may be assigned, and what is made of the value of an operand, and of two.
ghost use Rattle.std.specs.Prelude.{◌≡◌, IfOk, OnOk};
ghost use Rattle.std.specs.Option.{option_copied, option_map};
ghost use Rattle.acts.specs.declared.body_fault.BodyFault.TheVariants as own;
ghost use Rattle.acts.specs.Prelude.{found, DoesAs, itself, given};
ghost use Rattle.body_meaning.specs.Prelude.{thing_bound, at_place, part_of, with_part, with_place, value_in, joined};
ghost use Rattle.body_walk.specs.Parts.{left_frame, thing_made, unary_of, value_made};

use crate::rebind;
use acts::{BodyFault, Local, NoMemory, Trouble, Value, get, set};
use body_meaning::{Frame, Place, Thing, joined, negated, thing_bound, value_in};
use built_in_acts::{reference, truth};
use slicc_ast::tree::{Expr, Operator};
use std::alloc::Global;

fn copy_of(v: &Value) -> Result<Value, NoMemory>
    ensures { IfOk result (λ copy. copy ≡ v.now) }
{
    Ok(v.clone()?)
}

fn value_of(t: &Thing) -> Result<Value, NoMemory>
    ensures { IfOk result (λ v. v ≡ value_in t.now) }
{
    match t {
        Thing::Value(v) => copy_of(v),
        _ => Ok(Value::Bool(false)),
    }
}

// The value of what a name is, which is to be bound.
#[tactic(auto, using(acts::proofs::Walk::walk_steps, crate::proofs::Ends::last_steps))]
fn named_value<T: Local>(t: Option<&Thing>, local: &T) -> Result<Value, Trouble>
    ensures { DoesAs itself (found own.Reference (option_map value_in (option_copied t.entry)))
        result (T.view local.now) (T.view local.now) }
{
    match t {
        Some(t) => Ok(value_of(t)?),
        None => Err(Trouble::from(BodyFault::Reference)),
    }
}

fn part_of(k: u16, t: Option<&Thing>) -> Option<&Value>
    ensures { option_copied result ≡ part_of k (option_copied t.entry) }
{
    match t {
        Some(Thing::Message(_, fields)) => fields.get(k),
        _ => None,
    }
}

// The field of a message, which is to be there.
#[tactic(auto, using(acts::proofs::Walk::walk_steps, crate::proofs::Ends::last_steps))]
fn part_value<T: Local>(v: Option<&Value>, local: &T) -> Result<Value, Trouble>
    ensures { DoesAs itself (found own.Reference (option_copied v.entry)) result
        (T.view local.now) (T.view local.now) }
{
    match v {
        Some(v) => Ok(copy_of(v)?),
        None => Err(Trouble::from(BodyFault::Reference)),
    }
}

/// The value at a place.
pub fn at_place<T: Local>(frame: &Frame, p: &Place, local: &T) -> Result<Value, Trouble>
    ensures { DoesAs itself (at_place frame.now p.now) result (T.view local.now)
        (T.view local.now) }
{
    match p {
        Place::Named(name) => named_value(thing_bound(&frame.names, name), local),
        Place::Part(name, k) => part_value(part_of(*k, thing_bound(&frame.names, name)), local),
        Place::Line(r, k) => get(local, r, *k),
    }
}

fn with_part(
    alloc: Global,
    frame: &mut Frame,
    name: &[u8],
    k: u16,
    v: Value,
) -> Result<(), NoMemory>
    ensures { OnOk result
        (frame.new ≡ with_part name.now k v frame.old (thing_bound name.now frame.old.names)) }
{
    let Some(Thing::Message(structure, fields)) = thing_bound(&frame.names, name) else {
        return Ok(());
    };
    let structure = *structure;
    let mut fields = fields.clone()?;
    fields.write(k, v);
    rebind(alloc, frame, name, Thing::Message(structure, fields))
}

/// Writes a value to a place.
pub fn with_place<T: Local>(
    alloc: Global,
    frame: &mut Frame,
    p: &Place,
    v: Value,
    local: &mut T,
) -> Result<(), Trouble>
    ensures { DoesAs (left_frame frame.new) (with_place frame.old p.now v) result
        (T.view local.old) (T.view local.new) }
{
    match p {
        Place::Named(name) => Ok(rebind(alloc, frame, name, Thing::Value(v))?),
        Place::Part(name, k) => Ok(with_part(alloc, frame, name, *k, v)?),
        Place::Line(r, k) => {
            set(local, r, *k, v)?;
            Ok(())
        }
    }
}

/// What an expression makes of the value of one operand.
#[derive(Clone, Copy)]
pub(crate) enum Unary {
    /// The negation of a truth value.
    Not,
    /// The negation of a number.
    Negate,
    /// Whether it is a reference to a line.
    IsValid,
    /// Whether it is a reference to nothing.
    IsInvalid,
}

/// What an expression makes of its operand, where it has one.
pub(crate) fn unary_of(e: &Expr) -> Unary
    ensures { result ≡ unary_of e.now }
{
    match e {
        Expr::Not(..) => Unary::Not,
        Expr::Negate(..) => Unary::Negate,
        Expr::IsValid(..) => Unary::IsValid,
        _ => Unary::IsInvalid,
    }
}

fn value_made(unary: Unary, v: &Value) -> Result<Value, BodyFault>
    ensures { result ≡ value_made unary v.now }
{
    match unary {
        Unary::Not => Ok(Value::Bool(!truth(v))),
        Unary::Negate => negated(v),
        Unary::IsValid => Ok(Value::Bool(reference(v).is_some())),
        Unary::IsInvalid => Ok(Value::Bool(reference(v).is_none())),
    }
}

/// What is made of what an operand gives.
#[tactic(auto, using(acts::proofs::Walk::walk_steps), unfolding(crate::specs::Parts::thing_made))]
pub(crate) fn thing_made<T: Local>(unary: Unary, t: Thing, local: &T) -> Result<Thing, Trouble>
    ensures { DoesAs itself (thing_made unary t) result (T.view local.now) (T.view local.now) }
{
    let v = value_made(unary, &value_in(t))?;
    Ok(Thing::Value(v))
}

/// What an operator makes of its two sides, where the left one doesn't decide.
#[tactic(auto, using(acts::proofs::Walk::walk_steps, crate::proofs::Ends::last_steps))]
pub(crate) fn joined_values<T: Local>(
    operator: Operator,
    a: &Value,
    b: &Value,
    local: &T,
) -> Result<Value, Trouble>
    ensures { DoesAs itself (given (joined operator a.now b.now)) result (T.view local.now)
        (T.view local.now) }
{
    Ok(joined(operator, a, b)?)
}
