// Statements without a block of their own.
ghost use Rattle.acts.specs.declared.body_fault.BodyFault.TheVariants as own;
ghost use Rattle.acts.specs.Prelude.{stops, DoesAs};
ghost use Rattle.body_walk.specs.Prelude.{CallsDo};
ghost use Rattle.body_meaning.specs.Prelude.{calls_within, value, value_behind, ended, reading, ends_by, returned, stalled};
ghost use Rattle.plain_walk.specs.Prelude.{asserted, declared, stalled_on};

use crate::ends::{flow_of, is_true};
use crate::named::port;
use acts::{BodyFault, Local, Trouble, Value};
use body_meaning::{Flow, Frame, Scope, Thing, bind, value_in};
use body_walk::{value, value_behind};
use built_in_acts::built_in;
use ruby_base::{Seq, Text};
use slicc_ast::tree::{Expr, Name, Suffix};
use std::alloc::Global;
use std::array;

/// `kind name := value;`
pub fn declared<T: Local, F: Fn(u16, Seq<Value>, &mut T) -> Result<Thing, Trouble>>(
    alloc: Global,
    s: Scope<'_>,
    depth: u16,
    calls: &F,
    name: &Name,
    e: &Expr,
    frame: &mut Frame,
    local: &mut T,
) -> Result<Flow, Trouble>
    requires callable { F.IsAlwaysCallable calls.now }
    requires does { CallsDo T.view F.Fn calls.now (calls_within (reading s) depth) }
    ensures { DoesAs (ended frame.new)
        (declared (reading s.entry) (calls_within (reading s.entry) depth) name.now.text e.now
        frame.old) result (T.view local.old) (T.view local.new) }
{
    let t = value(alloc, s, depth, calls, frame, e, local)?;
    bind(alloc, frame, name.text.as_slice(), t)?;
    Ok(Flow::WentOn)
}

/// `return value;`, or without a value.
pub fn returned<T: Local, F: Fn(u16, Seq<Value>, &mut T) -> Result<Thing, Trouble>>(
    alloc: Global,
    s: Scope<'_>,
    depth: u16,
    calls: &F,
    e: &Option<Expr>,
    frame: &Frame,
    local: &mut T,
) -> Result<Flow, Trouble>
    requires callable { F.IsAlwaysCallable calls.now }
    requires does { CallsDo T.view F.Fn calls.now (calls_within (reading s) depth) }
    ensures { DoesAs (ended frame.now) (returned (reading s.entry) (calls_within (reading s.entry)
        depth) e.now frame.now) result (T.view local.old) (T.view local.new) }
{
    match e {
        None => Ok(Flow::Returned(Thing::Nothing)),
        Some(e) => {
            let t = value(alloc, s, depth, calls, frame, e, local)?;
            Ok(Flow::Returned(t))
        }
    }
}

/// `error("text");`
pub fn failed<T: Local>(
    alloc: Global,
    text: &Text,
    frame: &Frame,
    local: &T,
) -> Result<Flow, Trouble>
    ensures { DoesAs (ended frame.now) (stops (own.Error text.now)) result (T.view local.now)
        (T.view local.now) }
{
    let text = Text::copied(alloc, text.as_slice())?;
    Err(Trouble::from(BodyFault::Error(text)))
}

/// `assert(condition);`
pub fn asserted<T: Local, F: Fn(u16, Seq<Value>, &mut T) -> Result<Thing, Trouble>>(
    alloc: Global,
    s: Scope<'_>,
    depth: u16,
    calls: &F,
    condition: &Expr,
    frame: &Frame,
    local: &mut T,
) -> Result<Flow, Trouble>
    requires callable { F.IsAlwaysCallable calls.now }
    requires does { CallsDo T.view F.Fn calls.now (calls_within (reading s) depth) }
    ensures { DoesAs (ended frame.now)
        (asserted (reading s.entry) (calls_within (reading s.entry) depth) condition.now
        frame.now) result (T.view local.old) (T.view local.new) }
{
    let t = value(alloc, s, depth, calls, frame, condition, local)?;
    if is_true(t) {
        Ok(Flow::WentOn)
    } else {
        Err(Trouble::from(BodyFault::Assert))
    }
}

// `stall_and_wait` on the port of a buffer.
fn stalled_on<T: Local, F: Fn(u16, Seq<Value>, &mut T) -> Result<Thing, Trouble>>(
    alloc: Global,
    s: Scope<'_>,
    depth: u16,
    calls: &F,
    buffer: u16,
    address: &Expr,
    frame: &Frame,
    local: &mut T,
) -> Result<Flow, Trouble>
    requires callable { F.IsAlwaysCallable calls.now }
    requires does { CallsDo T.view F.Fn calls.now (calls_within (reading s) depth) }
    ensures { DoesAs (ended frame.now)
        (stalled_on (reading s.entry) (calls_within (reading s.entry) depth) buffer address.now
        frame.now) result (T.view local.old) (T.view local.new) }
{
    let t = value(alloc, s, depth, calls, frame, address, local)?;
    let v = value_in(t);
    built_in(alloc, local, s.kept, 59, buffer, array::from_ref(&v))?;
    Ok(Flow::WentOn)
}

/// `stall_and_wait(port, address);`
#[tactic(auto, using(acts::proofs::Walk::walk_steps), unfolding(body_meaning::specs::Statements::stalled))]
pub fn stalled<T: Local, F: Fn(u16, Seq<Value>, &mut T) -> Result<Thing, Trouble>>(
    alloc: Global,
    s: Scope<'_>,
    depth: u16,
    calls: &F,
    name: &Name,
    address: &Expr,
    frame: &Frame,
    local: &mut T,
) -> Result<Flow, Trouble>
    requires callable { F.IsAlwaysCallable calls.now }
    requires does { CallsDo T.view F.Fn calls.now (calls_within (reading s) depth) }
    ensures { DoesAs (ended frame.now)
        (stalled (reading s.entry) (calls_within (reading s.entry) depth) name.now.text
        address.now frame.now) result (T.view local.old) (T.view local.new) }
{
    let buffer = port(s, name, local)?;
    stalled_on(alloc, s, depth, calls, buffer, address, frame, local)
}

// `value;`, of which only a `trigger` ends the body.
#[tactic(auto, using(acts::proofs::Walk::walk_steps), unfolding(body_meaning::specs::Statements::ends_by))]
pub(crate) fn valued<T: Local, F: Fn(u16, Seq<Value>, &mut T) -> Result<Thing, Trouble>>(
    alloc: Global,
    s: Scope<'_>,
    depth: u16,
    calls: &F,
    e: &Expr,
    frame: &Frame,
    local: &mut T,
) -> Result<Flow, Trouble>
    requires callable { F.IsAlwaysCallable calls.now }
    requires does { CallsDo T.view F.Fn calls.now (calls_within (reading s) depth) }
    ensures { DoesAs (ended frame.now)
        (ends_by frame.now (value (reading s.entry) (calls_within (reading s.entry) depth)
        frame.now e.now)) result (T.view local.old) (T.view local.new) }
{
    let t = value(alloc, s, depth, calls, frame, e, local)?;
    Ok(flow_of(t))
}

// The same, of an expression with suffixes.
#[tactic(auto, using(acts::proofs::Walk::walk_steps), unfolding(body_meaning::specs::Statements::ends_by))]
pub(crate) fn valued_behind<T: Local, F: Fn(u16, Seq<Value>, &mut T) -> Result<Thing, Trouble>>(
    alloc: Global,
    s: Scope<'_>,
    depth: u16,
    calls: &F,
    inner: &Expr,
    suffixes: &[Suffix],
    frame: &Frame,
    local: &mut T,
) -> Result<Flow, Trouble>
    requires callable { F.IsAlwaysCallable calls.now }
    requires does { CallsDo T.view F.Fn calls.now (calls_within (reading s) depth) }
    ensures { DoesAs (ended frame.now)
        (ends_by frame.now (value_behind (reading s.entry) (calls_within (reading s.entry) depth)
        frame.now inner.now suffixes.now)) result (T.view local.old) (T.view local.new) }
{
    let t = value_behind(alloc, s, depth, calls, frame, inner, suffixes, local)?;
    Ok(flow_of(t))
}
