// What expressions give, with the operands, suffixes and arguments in them.
ghost use Rattle.acts.specs.Prelude.{DoesAs, itself};
ghost use Rattle.body_walk.specs.Prelude.{CallsDo, called, leaf, of_operand, operation};
ghost use Rattle.body_meaning.specs.Prelude.{calls_within, each, operand_step, suffixed, value, value_behind, values_of, reading};

use crate::places::{Unary, joined_values, thing_made, unary_of};
use crate::{field_in, index, method_call, named_call, value_found, variable};
use acts::{Local, Trouble, Value};
use body_meaning::{Frame, Scope, Thing, member_value, settled, value_in};
use ruby_base::Seq;
use slicc_ast::tree::{Expr, Operand, Suffix};
use std::alloc::Global;
use std::mem;

// What an expression gives that has no other one in it.
fn leaf<T: Local>(s: Scope<'_>, frame: &Frame, e: &Expr, local: &T) -> Result<Thing, Trouble>
    ensures { DoesAs itself (leaf (reading s.entry) frame.now e.now) result (T.view local.now)
        (T.view local.now) }
{
    match e {
        Expr::Number(n, _) => Ok(Thing::Value(Value::Int(*n))),
        Expr::True(_) => Ok(Thing::Value(Value::Bool(true))),
        Expr::False(_) => Ok(Thing::Value(Value::Bool(false))),
        Expr::Nothing(_) => Ok(Thing::Value(Value::Entry(None))),
        Expr::Variable(name) => variable(s, frame, &name.text, local),
        Expr::Member { owner, member, .. } => {
            value_found(member_value(s, &owner.text, &member.text), local)
        }
        _ => Ok(Thing::Nothing),
    }
}

/// What an expression gives in a body that has this of its own.
#[cycle(value)]
pub fn value<T: Local, F: Fn(u16, Seq<Value>, &mut T) -> Result<Thing, Trouble>>(
    alloc: Global,
    s: Scope<'_>,
    depth: u16,
    calls: &F,
    frame: &Frame,
    e: &Expr,
    local: &mut T,
) -> Result<Thing, Trouble>
    requires callable { F.IsAlwaysCallable calls.now }
    requires does { CallsDo T.view F.Fn calls.now (calls_within (reading s) depth) }
    ensures { DoesAs itself
        (value (reading s.entry) (calls_within (reading s.entry) depth) frame.now e.now) result
        (T.view local.old) (T.view local.new) }
{
    match e {
        Expr::Operation { first, others, .. } => {
            let t = value(alloc, s, depth, calls, frame, first.get(), local)?;
            operation(alloc, s, depth, calls, frame, value_in(t), others, local)
        }
        Expr::Not(operand, _)
        | Expr::Negate(operand, _)
        | Expr::IsValid(operand, _)
        | Expr::IsInvalid(operand, _) => {
            let unary = unary_of(e);
            of_operand(alloc, s, depth, calls, frame, unary, operand.get(), local)
        }
        Expr::Postfix {
            value: inner,
            suffixes,
            ..
        } => {
            let t = value(alloc, s, depth, calls, frame, inner.get(), local)?;
            suffixed_all(alloc, s, depth, calls, frame, t, suffixes, local)
        }
        Expr::Call {
            name,
            arguments,
            ..
        } => {
            let items = arguments.items.as_slice();
            called(alloc, s, depth, calls, frame, &name.text, items, local)
        }
        Expr::Cast { value: inner, .. } | Expr::Group(inner, _) => {
            value(alloc, s, depth, calls, frame, inner.get(), local)
        }
        Expr::Number(..)
        | Expr::True(_)
        | Expr::False(_)
        | Expr::Nothing(_)
        | Expr::Variable(_)
        | Expr::Member { .. }
        | Expr::New(..) => leaf(s, frame, e, local),
    }
}

// What is made of an operand.
#[cycle(value)]
fn of_operand<T: Local, F: Fn(u16, Seq<Value>, &mut T) -> Result<Thing, Trouble>>(
    alloc: Global,
    s: Scope<'_>,
    depth: u16,
    calls: &F,
    frame: &Frame,
    unary: Unary,
    operand: &Expr,
    local: &mut T,
) -> Result<Thing, Trouble>
    requires callable { F.IsAlwaysCallable calls.now }
    requires does { CallsDo T.view F.Fn calls.now (calls_within (reading s) depth) }
    ensures { DoesAs itself
        (of_operand (reading s.entry) (calls_within (reading s.entry) depth) frame.now unary
        operand.now)
        result (T.view local.old) (T.view local.new) }
{
    let t = value(alloc, s, depth, calls, frame, operand, local)?;
    thing_made(unary, t, local)
}

// Operators with their right sides, behind a value, as an expression.
#[cycle(value)]
fn operation<T: Local, F: Fn(u16, Seq<Value>, &mut T) -> Result<Thing, Trouble>>(
    alloc: Global,
    s: Scope<'_>,
    depth: u16,
    calls: &F,
    frame: &Frame,
    left: Value,
    others: &[Operand],
    local: &mut T,
) -> Result<Thing, Trouble>
    requires callable { F.IsAlwaysCallable calls.now }
    requires does { CallsDo T.view F.Fn calls.now (calls_within (reading s) depth) }
    ensures { DoesAs itself
        (operation (reading s.entry) (calls_within (reading s.entry) depth) frame.now left
        others.now)
        result (T.view local.old) (T.view local.new) }
{
    let v = operands(alloc, s, depth, calls, frame, left, others, local)?;
    Ok(Thing::Value(v))
}

// A call without a receiver.
#[cycle(value)]
fn called<T: Local, F: Fn(u16, Seq<Value>, &mut T) -> Result<Thing, Trouble>>(
    alloc: Global,
    s: Scope<'_>,
    depth: u16,
    calls: &F,
    frame: &Frame,
    name: &[u8],
    arguments: &[Expr],
    local: &mut T,
) -> Result<Thing, Trouble>
    requires callable { F.IsAlwaysCallable calls.now }
    requires does { CallsDo T.view F.Fn calls.now (calls_within (reading s) depth) }
    ensures { DoesAs itself
        (called (reading s.entry) (calls_within (reading s.entry) depth) frame.now name.now
        arguments.now)
        result (T.view local.old) (T.view local.new) }
{
    let vs = values_of(alloc, s, depth, calls, frame, arguments, local)?;
    named_call(alloc, s, depth, calls, name, vs, local)
}

// An operator and its right side, behind a value.
#[cycle(value)]
#[tactic(auto, using(acts::proofs::Walk::walk_steps), unfolding(body_meaning::specs::Expressions::operated))]
fn operated<T: Local, F: Fn(u16, Seq<Value>, &mut T) -> Result<Thing, Trouble>>(
    alloc: Global,
    s: Scope<'_>,
    depth: u16,
    calls: &F,
    frame: &Frame,
    left: Value,
    o: &Operand,
    local: &mut T,
) -> Result<Value, Trouble>
    requires callable { F.IsAlwaysCallable calls.now }
    requires does { CallsDo T.view F.Fn calls.now (calls_within (reading s) depth) }
    ensures { DoesAs itself
        (operand_step (reading s.entry) (calls_within (reading s.entry) depth) frame.now left o.now)
        result (T.view local.old) (T.view local.new) }
{
    if let Some(v) = settled(o.operator, &left) {
        return Ok(v);
    }
    let t = value(alloc, s, depth, calls, frame, &o.value, local)?;
    joined_values(o.operator, &left, &value_in(t), local)
}

// Operators with their right sides, behind a value.
#[cycle(value)]
fn operands<T: Local, F: Fn(u16, Seq<Value>, &mut T) -> Result<Thing, Trouble>>(
    alloc: Global,
    s: Scope<'_>,
    depth: u16,
    calls: &F,
    frame: &Frame,
    first: Value,
    others: &[Operand],
    local: &mut T,
) -> Result<Value, Trouble>
    requires callable { F.IsAlwaysCallable calls.now }
    requires does { CallsDo T.view F.Fn calls.now (calls_within (reading s) depth) }
    ensures { DoesAs itself
        (each (operand_step (reading s.entry) (calls_within (reading s.entry) depth) frame.now)
        first others.now)
        result (T.view local.old) (T.view local.new) }
{
    let mut left = first;
    for o in others {
        left = operated(alloc, s, depth, calls, frame, left, o, local)?;
    }
    Ok(left)
}

// A suffix of a thing, of which a call takes what it is on.
#[cycle(value)]
fn suffixed<T: Local, F: Fn(u16, Seq<Value>, &mut T) -> Result<Thing, Trouble>>(
    alloc: Global,
    s: Scope<'_>,
    depth: u16,
    calls: &F,
    frame: &Frame,
    t: &mut Thing,
    suffix: &Suffix,
    local: &mut T,
) -> Result<Thing, Trouble>
    requires callable { F.IsAlwaysCallable calls.now }
    requires does { CallsDo T.view F.Fn calls.now (calls_within (reading s) depth) }
    ensures { DoesAs itself
        (suffixed (reading s.entry) (calls_within (reading s.entry) depth) frame.now t.old
        suffix.now)
        result (T.view local.old) (T.view local.new) }
{
    match suffix {
        Suffix::Field(name, _) => field_in(s, &name.text, t, local),
        Suffix::Method {
            name,
            arguments,
            ..
        } => {
            let vs = values_of(alloc, s, depth, calls, frame, &arguments.items, local)?;
            let receiver = mem::replace(t, Thing::Nothing);
            method_call(alloc, s, receiver, &name.text, vs, local)
        }
        Suffix::Index(key, _) => {
            let k = value(alloc, s, depth, calls, frame, key, local)?;
            index(alloc, s, t, value_in(k), local)
        }
    }
}

// Suffixes of a thing, one after another.
#[cycle(value)]
fn suffixed_all<T: Local, F: Fn(u16, Seq<Value>, &mut T) -> Result<Thing, Trouble>>(
    alloc: Global,
    s: Scope<'_>,
    depth: u16,
    calls: &F,
    frame: &Frame,
    first: Thing,
    suffixes: &[Suffix],
    local: &mut T,
) -> Result<Thing, Trouble>
    requires callable { F.IsAlwaysCallable calls.now }
    requires does { CallsDo T.view F.Fn calls.now (calls_within (reading s) depth) }
    ensures { DoesAs itself
        (each (suffixed (reading s.entry) (calls_within (reading s.entry) depth) frame.now)
        first suffixes.now)
        result (T.view local.old) (T.view local.new) }
{
    let mut t = first;
    for suffix in suffixes {
        t = suffixed(alloc, s, depth, calls, frame, &mut t, suffix, local)?;
    }
    Ok(t)
}

/// What these arguments give, one after another.
#[cycle(value)]
#[tactic(auto, using(acts::proofs::Walk::walk_steps), unfolding(body_meaning::specs::Expressions::values_of, body_meaning::specs::Expressions::with_value))]
pub fn values_of<T: Local, F: Fn(u16, Seq<Value>, &mut T) -> Result<Thing, Trouble>>(
    alloc: Global,
    s: Scope<'_>,
    depth: u16,
    calls: &F,
    frame: &Frame,
    arguments: &[Expr],
    local: &mut T,
) -> Result<Seq<Value>, Trouble>
    requires callable { F.IsAlwaysCallable calls.now }
    requires does { CallsDo T.view F.Fn calls.now (calls_within (reading s) depth) }
    ensures { DoesAs itself
        (values_of (reading s.entry) (calls_within (reading s.entry) depth) frame.now arguments.now)
        result (T.view local.old) (T.view local.new) }
{
    let mut values = Seq::new(alloc);
    for e in arguments {
        let t = value(alloc, s, depth, calls, frame, e, local)?;
        values.push(value_in(t))?;
    }
    Ok(values)
}

/// What an expression with suffixes behind it gives.
#[tactic(auto, using(acts::proofs::Walk::walk_steps), unfolding(body_meaning::specs::Expressions::value_behind))]
pub fn value_behind<T: Local, F: Fn(u16, Seq<Value>, &mut T) -> Result<Thing, Trouble>>(
    alloc: Global,
    s: Scope<'_>,
    depth: u16,
    calls: &F,
    frame: &Frame,
    inner: &Expr,
    suffixes: &[Suffix],
    local: &mut T,
) -> Result<Thing, Trouble>
    requires callable { F.IsAlwaysCallable calls.now }
    requires does { CallsDo T.view F.Fn calls.now (calls_within (reading s) depth) }
    ensures { DoesAs itself
        (value_behind (reading s.entry) (calls_within (reading s.entry) depth) frame.now inner.now
        suffixes.now)
        result (T.view local.old) (T.view local.new) }
{
    let t = value(alloc, s, depth, calls, frame, inner, local)?;
    suffixed_all(alloc, s, depth, calls, frame, t, suffixes, local)
}
