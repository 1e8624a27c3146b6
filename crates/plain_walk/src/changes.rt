// Statements that change what is at a place.
ghost use Rattle.acts.specs.Prelude.{DoesAs};
ghost use Rattle.body_walk.specs.Prelude.{CallsDo};
ghost use Rattle.body_meaning.specs.Prelude.{calls_within, ended, reading, assigned, changed, written_back, value_in};
ghost use Rattle.plain_walk.specs.Prelude.{changed_at, put_back, remade, remade_by, rewritten, stored};

use crate::ends::{with_first, with_two};
use crate::named::{call_on, found};
use acts::{BodyFault, Local, Trouble, Value};
use body_meaning::{Flow, Frame, Place, Scope, Thing, value_in, write_callback};
use body_walk::{at_place, place_of, place_with, value, values_of, with_place};
use built_in_acts::built_in;
use ruby_base::Seq;
use slicc_ast::tree::{Expr, Name, Suffix};
use std::alloc::Global;

/// `place := value;`
#[tactic(auto, using(acts::proofs::Walk::walk_steps), unfolding(body_meaning::specs::Statements::assigned))]
pub fn assigned<T: Local, F: Fn(u16, Seq<Value>, &mut T) -> Result<Thing, Trouble>>(
    alloc: Global,
    s: Scope<'_>,
    depth: u16,
    calls: &F,
    place: &Expr,
    e: &Expr,
    frame: &mut Frame,
    local: &mut T,
) -> Result<Flow, Trouble>
    requires callable { F.IsAlwaysCallable calls.now }
    requires does { CallsDo T.view F.Fn calls.now (calls_within (reading s) depth) }
    ensures { DoesAs (ended frame.new)
        (assigned (reading s.entry) (calls_within (reading s.entry) depth) place.now e.now
        frame.old) result (T.view local.old) (T.view local.new) }
{
    let t = value(alloc, s, depth, calls, frame, e, local)?;
    let v = value_in(t);
    let p = place_of(alloc, s, depth, calls, frame, place, local)?;
    with_place(alloc, frame, &p, v, local)?;
    Ok(Flow::WentOn)
}

// The place with what a call made of its value.
fn put_back<T: Local>(
    alloc: Global,
    p: &Place,
    w: Option<Value>,
    frame: &mut Frame,
    local: &mut T,
) -> Result<Flow, Trouble>
    ensures { DoesAs (ended frame.new) (put_back frame.old p.now w) result (T.view local.old)
        (T.view local.new) }
{
    let x = found(w, local)?;
    with_place(alloc, frame, p, x, local)?;
    Ok(Flow::WentOn)
}

// The place with what the call of this number makes of these values.
fn remade<T: Local>(
    alloc: Global,
    s: Scope<'_>,
    n: u16,
    p: &Place,
    values: &[Value],
    frame: &mut Frame,
    local: &mut T,
) -> Result<Flow, Trouble>
    ensures { DoesAs (ended frame.new) (remade (reading s.entry) n frame.old p.now values.now)
        result (T.view local.old) (T.view local.new) }
{
    let w = built_in(alloc, local, s.kept, n, 0, values)?;
    put_back(alloc, p, w, frame, local)
}

// The place with what the call of a name makes of its value.
fn remade_by<T: Local>(
    alloc: Global,
    s: Scope<'_>,
    name: &Name,
    p: &Place,
    v: Value,
    others: Seq<Value>,
    frame: &mut Frame,
    local: &mut T,
) -> Result<Flow, Trouble>
    ensures { DoesAs (ended frame.new)
        (remade_by (reading s.entry) name.now.text frame.old p.now v others) result (T.view
        local.old) (T.view local.new) }
{
    let n = call_on(&v, name, local)?;
    let values = with_first(v, others)?;
    remade(alloc, s, n, p, &values, frame, local)
}

// A call that changes what is at a place.
fn changed_at<T: Local, F: Fn(u16, Seq<Value>, &mut T) -> Result<Thing, Trouble>>(
    alloc: Global,
    s: Scope<'_>,
    depth: u16,
    calls: &F,
    name: &Name,
    arguments: &[Expr],
    p: &Place,
    frame: &mut Frame,
    local: &mut T,
) -> Result<Flow, Trouble>
    requires callable { F.IsAlwaysCallable calls.now }
    requires does { CallsDo T.view F.Fn calls.now (calls_within (reading s) depth) }
    ensures { DoesAs (ended frame.new)
        (changed_at (reading s.entry) (calls_within (reading s.entry) depth) name.now.text
        arguments.now frame.old p.now)
        result (T.view local.old) (T.view local.new) }
{
    let v = at_place(frame, p, local)?;
    let others = values_of(alloc, s, depth, calls, frame, arguments, local)?;
    remade_by(alloc, s, name, p, v, others, frame, local)
}

// A call of a name that changes its receiver, which is an expression with these suffixes.
#[tactic(auto, using(acts::proofs::Walk::walk_steps), unfolding(body_meaning::specs::Statements::changed))]
pub(crate) fn changed<T: Local, F: Fn(u16, Seq<Value>, &mut T) -> Result<Thing, Trouble>>(
    alloc: Global,
    s: Scope<'_>,
    depth: u16,
    calls: &F,
    inner: &Expr,
    before: &[Suffix],
    name: &Name,
    arguments: &[Expr],
    frame: &mut Frame,
    local: &mut T,
) -> Result<Flow, Trouble>
    requires callable { F.IsAlwaysCallable calls.now }
    requires does { CallsDo T.view F.Fn calls.now (calls_within (reading s) depth) }
    ensures { DoesAs (ended frame.new)
        (changed (reading s.entry) (calls_within (reading s.entry) depth) inner.now before.now
        name.now.text arguments.now frame.old)
        result (T.view local.old) (T.view local.new) }
{
    let p = place_with(alloc, s, depth, calls, frame, inner, before, local)?;
    changed_at(alloc, s, depth, calls, name, arguments, &p, frame, local)
}

// The place with what a `writeCallback` of an address makes of this block.
fn rewritten<T: Local>(
    alloc: Global,
    s: Scope<'_>,
    p: &Place,
    address: Thing,
    block: Value,
    others: Seq<Value>,
    frame: &mut Frame,
    local: &mut T,
) -> Result<Flow, Trouble>
    ensures { DoesAs (ended frame.new)
        (rewritten (reading s.entry) frame.old p.now (value_in address) block others)
        result (T.view local.old) (T.view local.new) }
{
    let values = with_two(address, block, others)?;
    let n = write_callback(values.len());
    remade(alloc, s, n, p, &values, frame, local)
}

// A `writeCallback` of an address with the block at a place.
fn stored<T: Local, F: Fn(u16, Seq<Value>, &mut T) -> Result<Thing, Trouble>>(
    alloc: Global,
    s: Scope<'_>,
    depth: u16,
    calls: &F,
    address: Thing,
    others: &[Expr],
    p: &Place,
    frame: &mut Frame,
    local: &mut T,
) -> Result<Flow, Trouble>
    requires callable { F.IsAlwaysCallable calls.now }
    requires does { CallsDo T.view F.Fn calls.now (calls_within (reading s) depth) }
    ensures { DoesAs (ended frame.new)
        (stored (reading s.entry) (calls_within (reading s.entry) depth) address others.now
        frame.old p.now) result (T.view local.old) (T.view local.new) }
{
    let block = at_place(frame, p, local)?;
    let others = values_of(alloc, s, depth, calls, frame, others, local)?;
    rewritten(alloc, s, p, address, block, others, frame, local)
}

// `writeCallback` with these arguments, of which the second one is the block that the byte is stored in.
pub(crate) fn written_back<T: Local, F: Fn(u16, Seq<Value>, &mut T) -> Result<Thing, Trouble>>(
    alloc: Global,
    s: Scope<'_>,
    depth: u16,
    calls: &F,
    arguments: &[Expr],
    frame: &mut Frame,
    local: &mut T,
) -> Result<Flow, Trouble>
    requires callable { F.IsAlwaysCallable calls.now }
    requires does { CallsDo T.view F.Fn calls.now (calls_within (reading s) depth) }
    ensures { DoesAs (ended frame.new)
        (written_back (reading s.entry) (calls_within (reading s.entry) depth) arguments.now
        frame.old) result (T.view local.old) (T.view local.new) }
{
    let [address, block, others @ ..] = arguments else {
        return Err(Trouble::from(BodyFault::Reference));
    };
    let t = value(alloc, s, depth, calls, frame, address, local)?;
    let p = place_of(alloc, s, depth, calls, frame, block, local)?;
    stored(alloc, s, depth, calls, t, others, &p, frame, local)
}
