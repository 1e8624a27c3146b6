// Expressions as statements.
ghost use Rattle.std.specs.Prelude.{◌≡◌, Some};
ghost use Rattle.acts.specs.Prelude.{DoesAs};
ghost use Rattle.body_walk.specs.Prelude.{CallsDo};
ghost use Rattle.body_meaning.specs.Prelude.{calls_within, ended, before_last, reading, behind_alone, evaluated, last_alone};
ghost use Rattle.plain_walk.specs.Prelude.{call_alone, method_alone};

use crate::calls::called_alone;
use crate::changes::{changed, written_back};
use crate::plain::{valued, valued_behind};
use acts::{Local, Trouble, Value};
use body_meaning::{Flow, Frame, Scope, Thing, changes_receiver};
use body_walk::values_of;
use ruby_base::Seq;
use slicc_ast::tree::{Expr, Name, Suffix};
use std::alloc::Global;

// The suffixes before the last one.
fn before_last(suffixes: &[Suffix]) -> &[Suffix]
    ensures { result.now ≡ before_last suffixes.now }
{
    match suffixes.split_last() {
        Some((_, before)) => before,
        None => suffixes,
    }
}

// A call of a name, which is the last of these suffixes.
fn method_alone<T: Local, F: Fn(u16, Seq<Value>, &mut T) -> Result<Thing, Trouble>>(
    alloc: Global,
    s: Scope<'_>,
    depth: u16,
    calls: &F,
    inner: &Expr,
    suffixes: &[Suffix],
    name: &Name,
    arguments: &[Expr],
    frame: &mut Frame,
    local: &mut T,
) -> Result<Flow, Trouble>
    requires callable { F.IsAlwaysCallable calls.now }
    requires does { CallsDo T.view F.Fn calls.now (calls_within (reading s) depth) }
    ensures { DoesAs (ended frame.new)
        (method_alone (reading s.entry) (calls_within (reading s.entry) depth) inner.now
        suffixes.now name.now.text arguments.now frame.old)
        result (T.view local.old) (T.view local.new) }
{
    if changes_receiver(name.text.as_slice()) {
        let before = before_last(suffixes);
        return changed(
            alloc, s, depth, calls, inner, before, name, arguments, frame, local,
        );
    }
    if name.text.as_slice() == b"writeCallback".as_slice() {
        return written_back(alloc, s, depth, calls, arguments, frame, local);
    }
    valued_behind(alloc, s, depth, calls, inner, suffixes, frame, local)
}

// An expression with these suffixes, of which this is the last one.
fn last_alone<T: Local, F: Fn(u16, Seq<Value>, &mut T) -> Result<Thing, Trouble>>(
    alloc: Global,
    s: Scope<'_>,
    depth: u16,
    calls: &F,
    inner: &Expr,
    suffixes: &[Suffix],
    last: &Suffix,
    frame: &mut Frame,
    local: &mut T,
) -> Result<Flow, Trouble>
    requires callable { F.IsAlwaysCallable calls.now }
    requires does { CallsDo T.view F.Fn calls.now (calls_within (reading s) depth) }
    ensures { DoesAs (ended frame.new)
        (last_alone (reading s.entry) (calls_within (reading s.entry) depth) inner.now
        suffixes.now frame.old (Some last.now)) result (T.view local.old) (T.view local.new) }
{
    match last {
        Suffix::Method {
            name,
            arguments,
            ..
        } => {
            let items = arguments.items.as_slice();
            method_alone(
                alloc, s, depth, calls, inner, suffixes, name, items, frame, local,
            )
        }
        Suffix::Field(..) | Suffix::Index(..) => {
            valued_behind(alloc, s, depth, calls, inner, suffixes, frame, local)
        }
    }
}

// An expression with these suffixes.
#[tactic(auto, using(acts::proofs::Walk::walk_steps), unfolding(body_meaning::specs::Statements::behind_alone))]
fn behind_alone<T: Local, F: Fn(u16, Seq<Value>, &mut T) -> Result<Thing, Trouble>>(
    alloc: Global,
    s: Scope<'_>,
    depth: u16,
    calls: &F,
    inner: &Expr,
    suffixes: &[Suffix],
    frame: &mut Frame,
    local: &mut T,
) -> Result<Flow, Trouble>
    requires callable { F.IsAlwaysCallable calls.now }
    requires does { CallsDo T.view F.Fn calls.now (calls_within (reading s) depth) }
    ensures { DoesAs (ended frame.new)
        (behind_alone (reading s.entry) (calls_within (reading s.entry) depth) inner.now
        suffixes.now frame.old) result (T.view local.old) (T.view local.new) }
{
    match suffixes.last() {
        Some(last) => last_alone(alloc, s, depth, calls, inner, suffixes, last, frame, local),
        None => valued_behind(alloc, s, depth, calls, inner, suffixes, frame, local),
    }
}

// A call of a name.
fn call_alone<T: Local, F: Fn(u16, Seq<Value>, &mut T) -> Result<Thing, Trouble>>(
    alloc: Global,
    s: Scope<'_>,
    depth: u16,
    calls: &F,
    name: &Name,
    arguments: &[Expr],
    frame: &mut Frame,
    local: &mut T,
) -> Result<Flow, Trouble>
    requires callable { F.IsAlwaysCallable calls.now }
    requires does { CallsDo T.view F.Fn calls.now (calls_within (reading s) depth) }
    ensures { DoesAs (ended frame.new)
        (call_alone (reading s.entry) (calls_within (reading s.entry) depth) name.now.text
        arguments.now frame.old)
        result (T.view local.old) (T.view local.new) }
{
    let values = values_of(alloc, s, depth, calls, frame, arguments, local)?;
    called_alone(
        alloc,
        s,
        depth,
        calls,
        name.text.as_slice(),
        values,
        frame,
        local,
    )
}

/// `value;`
pub fn evaluated<T: Local, F: Fn(u16, Seq<Value>, &mut T) -> Result<Thing, Trouble>>(
    alloc: Global,
    s: Scope<'_>,
    depth: u16,
    calls: &F,
    e: &Expr,
    frame: &mut Frame,
    local: &mut T,
) -> Result<Flow, Trouble>
    requires callable { F.IsAlwaysCallable calls.now }
    requires does { CallsDo T.view F.Fn calls.now (calls_within (reading s) depth) }
    ensures { DoesAs (ended frame.new)
        (evaluated (reading s.entry) (calls_within (reading s.entry) depth) e.now frame.old)
        result (T.view local.old) (T.view local.new) }
{
    match e {
        Expr::Group(inner, _) => evaluated(alloc, s, depth, calls, inner.get(), frame, local),
        Expr::Call {
            name,
            arguments,
            ..
        } => {
            let items = arguments.items.as_slice();
            call_alone(alloc, s, depth, calls, name, items, frame, local)
        }
        Expr::Postfix {
            value: inner,
            suffixes,
            ..
        } => behind_alone(alloc, s, depth, calls, inner.get(), suffixes, frame, local),
        Expr::Operation { .. }
        | Expr::Not(..)
        | Expr::Negate(..)
        | Expr::Number(..)
        | Expr::True(_)
        | Expr::False(_)
        | Expr::Nothing(_)
        | Expr::Variable(_)
        | Expr::Member { .. }
        | Expr::New(..)
        | Expr::IsValid(..)
        | Expr::IsInvalid(..)
        | Expr::Cast { .. } => valued(alloc, s, depth, calls, e, frame, local),
    }
}
