// What `enqueue` does after its block.
ghost use Rattle.std.specs.Prelude.{◌≡◌, ◌+◌, [], ◌∷◌, IfOk};
ghost use Rattle.acts.specs.Prelude.{DoesAs, itself};
ghost use Rattle.body_walk.specs.Prelude.{CallsDo};
ghost use Rattle.body_meaning.specs.Prelude.{calls_within, ended, outermost, reading, fields_made, latency, sent, value_in};
ghost use Rattle.built_in_acts.specs.Prelude.{number};
ghost use Rattle.statement_walk.specs.Prelude.{sent_on};

use acts::{Fields, Local, NoMemory, Trouble, Value, send};
use body_meaning::{Bound, Flow, Frame, Scope, Thing, value_in};
use body_walk::{leave, value};
use built_in_acts::number;
use ruby_base::Seq;
use slicc_ast::tree::Expr;
use std::alloc::Global;

// The number that a latency gives.
fn number_in(t: Thing) -> i64
    ensures { result ≡ number (value_in t) }
{
    number(&value_in(t))
}

// The latency that is written, and 1 where none is.
fn latency<T: Local, F: Fn(u16, Seq<Value>, &mut T) -> Result<Thing, Trouble>>(
    alloc: Global,
    s: Scope<'_>,
    depth: u16,
    calls: &F,
    written: &Option<Expr>,
    frame: &Frame,
    local: &mut T,
) -> Result<i64, Trouble>
    requires callable { F.IsAlwaysCallable calls.now }
    requires does { CallsDo T.view F.Fn calls.now (calls_within (reading s) depth) }
    ensures { DoesAs itself
        (latency (reading s.entry) (calls_within (reading s.entry) depth) frame.now written.now)
        result (T.view local.old) (T.view local.new) }
{
    match written {
        None => Ok(1),
        Some(e) => {
            let t = value(alloc, s, depth, calls, frame, e, local)?;
            Ok(number_in(t))
        }
    }
}

// The fields of what a name is, if that is a message.
fn fields_of(alloc: Global, b: &Bound) -> Result<Fields, NoMemory>
    ensures { IfOk result (λ fields. fields ≡ fields_made (b.now ∷ [])) }
{
    match &b.thing {
        Thing::Message(_, fields) => Ok(fields.clone()?),
        _ => Ok(Fields::of(Vec::new(alloc))),
    }
}

// The fields of what was made in a block that began with n names.
fn fields_made(alloc: Global, n: usize, names: &Seq<Bound>) -> Result<Fields, NoMemory>
    ensures { IfOk result (λ fields. fields ≡ fields_made (outermost (n + 1) names.now)) }
{
    let before = names.len().saturating_sub(n).saturating_sub(1);
    match names.get(before) {
        Some(b) => fields_of(alloc, b),
        None => Ok(Fields::of(Vec::new(alloc))),
    }
}

// Sends what was made in a block that began with n names, and drops the names of the block.
fn sent_on<T: Local, F: Fn(u16, Seq<Value>, &mut T) -> Result<Thing, Trouble>>(
    alloc: Global,
    s: Scope<'_>,
    depth: u16,
    calls: &F,
    buffer: u16,
    written: &Option<Expr>,
    n: usize,
    frame: &mut Frame,
    local: &mut T,
) -> Result<Flow, Trouble>
    requires callable { F.IsAlwaysCallable calls.now }
    requires does { CallsDo T.view F.Fn calls.now (calls_within (reading s) depth) }
    ensures { DoesAs (ended frame.new)
        (sent_on (reading s.entry) (calls_within (reading s.entry) depth) buffer written.now n
        frame.old) result (T.view local.old) (T.view local.new) }
{
    let fields = fields_made(alloc, n, &frame.names)?;
    leave(n, frame);
    let l = latency(alloc, s, depth, calls, written, frame, local)?;
    send(local, buffer, l, fields)?;
    Ok(Flow::WentOn)
}

/// After the block of an `enqueue` that began with n names.
pub(crate) fn sent<T: Local, F: Fn(u16, Seq<Value>, &mut T) -> Result<Thing, Trouble>>(
    alloc: Global,
    s: Scope<'_>,
    depth: u16,
    calls: &F,
    buffer: u16,
    written: &Option<Expr>,
    n: usize,
    flow: Flow,
    frame: &mut Frame,
    local: &mut T,
) -> Result<Flow, Trouble>
    requires callable { F.IsAlwaysCallable calls.now }
    requires does { CallsDo T.view F.Fn calls.now (calls_within (reading s) depth) }
    ensures { DoesAs (ended frame.new)
        (sent (reading s.entry) (calls_within (reading s.entry) depth) buffer written.now n flow
        frame.old) result (T.view local.old) (T.view local.new) }
{
    match flow {
        Flow::WentOn => sent_on(alloc, s, depth, calls, buffer, written, n, frame, local),
        Flow::Returned(t) => {
            leave(n, frame);
            Ok(Flow::Returned(t))
        }
        Flow::Triggered(t) => {
            leave(n, frame);
            Ok(Flow::Triggered(t))
        }
    }
}
