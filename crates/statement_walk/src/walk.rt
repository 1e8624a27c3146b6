// Statements one after another, and those that have a block.
ghost use Rattle.acts.specs.Prelude.{DoesAs};
ghost use Rattle.body_walk.specs.Prelude.{CallsDo};
ghost use Rattle.body_meaning.specs.Prelude.{calls_within, ended, reading, all_done, block_in, enqueued, exec, if_done, peeked};
ghost use Rattle.statement_walk.specs.Prelude.{done_in, made_and_sent, others_of_if, viewed};

use crate::messages::{opened, structure};
use crate::sends::sent;
use acts::{Fields, Local, Trouble, Value, front};
use body_meaning::{Flow, Frame, Scope, Thing, bind};
use body_walk::{leave, value};
use plain_walk::{
    asserted, assigned, declared, evaluated, failed, found, is_true, port, returned, stalled,
};
use ruby_base::Seq;
use slicc_ast::tree::{Expr, If, Name, Stmt};
use std::alloc::Global;

/// How statements end that are done one after another, until one of them ends the body. Calls of the
/// machine's functions are done by the closure.
#[cycle(statements)]
pub fn all_done<T: Local, F: Fn(u16, Seq<Value>, &mut T) -> Result<Thing, Trouble>>(
    alloc: Global,
    s: Scope<'_>,
    depth: u16,
    calls: &F,
    statements: &[Stmt],
    frame: &mut Frame,
    local: &mut T,
) -> Result<Flow, Trouble>
    requires callable { F.IsAlwaysCallable calls.now }
    requires does { CallsDo T.view F.Fn calls.now (calls_within (reading s) depth) }
    ensures { DoesAs (ended frame.new)
        (all_done (reading s.entry) (calls_within (reading s.entry) depth) statements.now
        frame.old) result (T.view local.old) (T.view local.new) }
{
    for first in statements {
        match exec(alloc, s, depth, calls, first, frame, local)? {
            Flow::WentOn => {}
            Flow::Returned(t) => return Ok(Flow::Returned(t)),
            Flow::Triggered(t) => return Ok(Flow::Triggered(t)),
        }
    }
    Ok(Flow::WentOn)
}

// A block, whose names are gone after it.
#[cycle(statements)]
#[tactic(auto, using(acts::proofs::Walk::walk_steps), unfolding(body_meaning::specs::Statements::scoped))]
fn block_in<T: Local, F: Fn(u16, Seq<Value>, &mut T) -> Result<Thing, Trouble>>(
    alloc: Global,
    s: Scope<'_>,
    depth: u16,
    calls: &F,
    statements: &[Stmt],
    frame: &mut Frame,
    local: &mut T,
) -> Result<Flow, Trouble>
    requires callable { F.IsAlwaysCallable calls.now }
    requires does { CallsDo T.view F.Fn calls.now (calls_within (reading s) depth) }
    ensures { DoesAs (ended frame.new)
        (block_in (done_in s.entry depth statements.now) frame.old)
        result (T.view local.old) (T.view local.new) }
{
    let n = frame.names.len();
    let flow = all_done(alloc, s, depth, calls, statements, frame, local)?;
    leave(n, frame);
    Ok(flow)
}

// The block of `peek`, in which `in_msg` is a message with these fields.
#[cycle(statements)]
#[tactic(auto, using(acts::proofs::Walk::walk_steps), unfolding(body_meaning::specs::Statements::scoped))]
fn viewed<T: Local, F: Fn(u16, Seq<Value>, &mut T) -> Result<Thing, Trouble>>(
    alloc: Global,
    s: Scope<'_>,
    depth: u16,
    calls: &F,
    structure: u16,
    fields: Fields,
    statements: &[Stmt],
    frame: &mut Frame,
    local: &mut T,
) -> Result<Flow, Trouble>
    requires callable { F.IsAlwaysCallable calls.now }
    requires does { CallsDo T.view F.Fn calls.now (calls_within (reading s) depth) }
    ensures { DoesAs (ended frame.new)
        (viewed (done_in s.entry depth statements.now) structure fields frame.old)
        result (T.view local.old) (T.view local.new) }
{
    let n = frame.names.len();
    bind(
        alloc,
        frame,
        b"in_msg".as_slice(),
        Thing::Message(structure, fields),
    )?;
    let flow = all_done(alloc, s, depth, calls, statements, frame, local)?;
    leave(n, frame);
    Ok(flow)
}

// `peek(port, ..) { statements }`
#[cycle(statements)]
#[tactic(auto, using(acts::proofs::Walk::walk_steps), unfolding(body_meaning::specs::Statements::peeked))]
fn peeked<T: Local, F: Fn(u16, Seq<Value>, &mut T) -> Result<Thing, Trouble>>(
    alloc: Global,
    s: Scope<'_>,
    depth: u16,
    calls: &F,
    name: &Name,
    statements: &[Stmt],
    frame: &mut Frame,
    local: &mut T,
) -> Result<Flow, Trouble>
    requires callable { F.IsAlwaysCallable calls.now }
    requires does { CallsDo T.view F.Fn calls.now (calls_within (reading s) depth) }
    ensures { DoesAs (ended frame.new)
        (peeked (reading s.entry).machine name.now.text (done_in s.entry depth statements.now)
        frame.old) result (T.view local.old) (T.view local.new) }
{
    let buffer = port(s, name, local)?;
    let number = structure(s, buffer, local)?;
    let message = front(local, buffer)?;
    let fields = message.fields;
    viewed(
        alloc, s, depth, calls, number, fields, statements, frame, local,
    )
}

// The block of an `enqueue`, in which `out_msg` is this, and the sending.
#[cycle(statements)]
fn made_and_sent<T: Local, F: Fn(u16, Seq<Value>, &mut T) -> Result<Thing, Trouble>>(
    alloc: Global,
    s: Scope<'_>,
    depth: u16,
    calls: &F,
    buffer: u16,
    written: &Option<Expr>,
    t: Thing,
    statements: &[Stmt],
    frame: &mut Frame,
    local: &mut T,
) -> Result<Flow, Trouble>
    requires callable { F.IsAlwaysCallable calls.now }
    requires does { CallsDo T.view F.Fn calls.now (calls_within (reading s) depth) }
    ensures { DoesAs (ended frame.new)
        (made_and_sent (reading s.entry) (calls_within (reading s.entry) depth)
        (done_in s.entry depth statements.now) buffer written.now t frame.old)
        result (T.view local.old) (T.view local.new) }
{
    let n = frame.names.len();
    bind(alloc, frame, b"out_msg".as_slice(), t)?;
    let flow = all_done(alloc, s, depth, calls, statements, frame, local)?;
    sent(
        alloc, s, depth, calls, buffer, written, n, flow, frame, local,
    )
}

// `enqueue(port, .., latency) { statements }`, which stands in actions alone.
#[cycle(statements)]
#[tactic(auto, using(acts::proofs::Walk::walk_steps), unfolding(body_meaning::specs::Statements::enqueued))]
fn enqueued<T: Local, F: Fn(u16, Seq<Value>, &mut T) -> Result<Thing, Trouble>>(
    alloc: Global,
    s: Scope<'_>,
    depth: u16,
    calls: &F,
    name: &Name,
    written: &Option<Expr>,
    statements: &[Stmt],
    frame: &mut Frame,
    local: &mut T,
) -> Result<Flow, Trouble>
    requires callable { F.IsAlwaysCallable calls.now }
    requires does { CallsDo T.view F.Fn calls.now (calls_within (reading s) depth) }
    ensures { DoesAs (ended frame.new)
        (enqueued (reading s.entry) (calls_within (reading s.entry) depth) name.now.text
        written.now (done_in s.entry depth statements.now) frame.old) result (T.view local.old)
        (T.view local.new) }
{
    found(frame.about, local)?;
    let buffer = port(s, name, local)?;
    let number = structure(s, buffer, local)?;
    let t = opened(alloc, s, number, local)?;
    made_and_sent(
        alloc, s, depth, calls, buffer, written, t, statements, frame, local,
    )
}

// What an `if` does where its condition doesn't hold.
#[cycle(statements)]
fn others_done<T: Local, F: Fn(u16, Seq<Value>, &mut T) -> Result<Thing, Trouble>>(
    alloc: Global,
    s: Scope<'_>,
    depth: u16,
    calls: &F,
    i: &If,
    frame: &mut Frame,
    local: &mut T,
) -> Result<Flow, Trouble>
    requires callable { F.IsAlwaysCallable calls.now }
    requires does { CallsDo T.view F.Fn calls.now (calls_within (reading s) depth) }
    ensures { DoesAs (ended frame.new)
        (others_of_if (reading s.entry) (calls_within (reading s.entry) depth) i.now frame.old)
        result (T.view local.old) (T.view local.new) }
{
    for other in i.others.as_slice() {
        let t = value(alloc, s, depth, calls, frame, &other.condition, local)?;
        if is_true(t) {
            return block_in(alloc, s, depth, calls, &other.then.statements, frame, local);
        }
    }
    match &i.otherwise {
        None => Ok(Flow::WentOn),
        Some(block) => block_in(alloc, s, depth, calls, &block.statements, frame, local),
    }
}

#[cycle(statements)]
fn if_done<T: Local, F: Fn(u16, Seq<Value>, &mut T) -> Result<Thing, Trouble>>(
    alloc: Global,
    s: Scope<'_>,
    depth: u16,
    calls: &F,
    i: &If,
    frame: &mut Frame,
    local: &mut T,
) -> Result<Flow, Trouble>
    requires callable { F.IsAlwaysCallable calls.now }
    requires does { CallsDo T.view F.Fn calls.now (calls_within (reading s) depth) }
    ensures { DoesAs (ended frame.new)
        (if_done (reading s.entry) (calls_within (reading s.entry) depth) i.now frame.old)
        result (T.view local.old) (T.view local.new) }
{
    let t = value(alloc, s, depth, calls, frame, &i.condition, local)?;
    if is_true(t) {
        return block_in(alloc, s, depth, calls, &i.then.statements, frame, local);
    }
    others_done(alloc, s, depth, calls, i, frame, local)
}

#[cycle(statements)]
fn exec<T: Local, F: Fn(u16, Seq<Value>, &mut T) -> Result<Thing, Trouble>>(
    alloc: Global,
    s: Scope<'_>,
    depth: u16,
    calls: &F,
    statement: &Stmt,
    frame: &mut Frame,
    local: &mut T,
) -> Result<Flow, Trouble>
    requires callable { F.IsAlwaysCallable calls.now }
    requires does { CallsDo T.view F.Fn calls.now (calls_within (reading s) depth) }
    ensures { DoesAs (ended frame.new)
        (exec (reading s.entry) (calls_within (reading s.entry) depth) statement.now frame.old)
        result (T.view local.old) (T.view local.new) }
{
    match statement {
        Stmt::Declare { name, value: e, .. } => {
            declared(alloc, s, depth, calls, name, e, frame, local)
        }
        Stmt::Assign {
            place,
            value: e,
            ..
        } => { assigned(alloc, s, depth, calls, place, e, frame, local) }
        Stmt::Evaluate(e, _) => evaluated(alloc, s, depth, calls, e, frame, local),
        Stmt::Return(e, _) => returned(alloc, s, depth, calls, e, frame, local),
        Stmt::If(i) => if_done(alloc, s, depth, calls, i, frame, local),
        Stmt::Peek { port, body, .. } => {
            peeked(alloc, s, depth, calls, port, &body.statements, frame, local)
        }
        Stmt::Enqueue {
            port,
            latency,
            body,
            ..
        } => enqueued(
            alloc,
            s,
            depth,
            calls,
            port,
            latency,
            &body.statements,
            frame,
            local,
        ),
        Stmt::StallAndWait { port, address, .. } => {
            stalled(alloc, s, depth, calls, port, address, frame, local)
        }
        Stmt::CheckAllocate(..) | Stmt::Print { .. } => Ok(Flow::WentOn),
        Stmt::Error(text, _) => failed(alloc, text, frame, local),
        Stmt::Assert(condition, _) => asserted(alloc, s, depth, calls, condition, frame, local),
    }
}
