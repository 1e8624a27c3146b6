// Calls without a receiver, as statements.
ghost use Rattle.std.specs.Prelude.{◌≡◌};
ghost use Rattle.acts.specs.Prelude.{DoesAs};
ghost use Rattle.body_walk.specs.Prelude.{CallsDo};
ghost use Rattle.body_meaning.specs.Prelude.{calls_within, Calls, named_call, ended, Reading, reading, about_after, called_alone, ends_by};

use crate::ends::flow_of;
use acts::{Local, Trouble, Value};
use body_meaning::{About, Flow, Frame, Scope, Thing, reference_at, with_entry, with_tbe};
use body_walk::named_call;
use ruby_base::Seq;
use ruby_symbols::function_named;
use slicc_ast::tree::Name;
use std::alloc::Global;

// What the transition is about after a call of this name with these arguments, where the call changes
// that and no function of the machine hides it.
fn about_after(
    name: &[u8],
    arguments: &[Value],
    about: Option<About>,
    function: Option<u16>,
) -> Option<Option<About>>
    ensures { (s : Reading) (calls : Calls)
        → result ≡ about_after s calls name.now arguments.now about function }
{
    if function.is_some() {
        return None;
    }
    if name == b"set_cache_entry".as_slice() {
        return Some(with_entry(reference_at(true, arguments, 0), about));
    }
    if name == b"unset_cache_entry".as_slice() {
        return Some(with_entry(None, about));
    }
    if name == b"set_tbe".as_slice() {
        return Some(with_tbe(reference_at(true, arguments, 0), about));
    }
    if name == b"unset_tbe".as_slice() {
        return Some(with_tbe(None, about));
    }
    None
}

// A call of a name, of which only a `trigger` ends the body.
#[tactic(auto, using(acts::proofs::Walk::walk_steps), unfolding(body_meaning::specs::Statements::ends_by))]
fn called<T: Local, F: Fn(u16, Seq<Value>, &mut T) -> Result<Thing, Trouble>>(
    alloc: Global,
    s: Scope<'_>,
    depth: u16,
    calls: &F,
    name: &[u8],
    arguments: Seq<Value>,
    frame: &Frame,
    local: &mut T,
) -> Result<Flow, Trouble>
    requires callable { F.IsAlwaysCallable calls.now }
    requires does { CallsDo T.view F.Fn calls.now (calls_within (reading s) depth) }
    ensures { DoesAs (ended frame.now)
        (ends_by frame.now (named_call (reading s.entry) (calls_within (reading s.entry) depth)
        name.now arguments)) result (T.view local.old) (T.view local.new) }
{
    let t = named_call(alloc, s, depth, calls, name, arguments, local)?;
    Ok(flow_of(t))
}

// A call of a name with these arguments, or what `set_cache_entry` and its kin do.
#[tactic(auto, using(acts::proofs::Walk::walk_steps), unfolding(body_meaning::specs::Statements::called_alone))]
pub(crate) fn called_alone<T: Local, F: Fn(u16, Seq<Value>, &mut T) -> Result<Thing, Trouble>>(
    alloc: Global,
    s: Scope<'_>,
    depth: u16,
    calls: &F,
    name: &[u8],
    arguments: Seq<Value>,
    frame: &mut Frame,
    local: &mut T,
) -> Result<Flow, Trouble>
    requires callable { F.IsAlwaysCallable calls.now }
    requires does { CallsDo T.view F.Fn calls.now (calls_within (reading s) depth) }
    ensures { DoesAs (ended frame.new)
        (called_alone (reading s.entry) (calls_within (reading s.entry) depth) name.now frame.old
        arguments) result (T.view local.old) (T.view local.new) }
{
    let function = function_named(s.machine, name);
    match about_after(name, &arguments, frame.about, function) {
        Some(about) => {
            frame.about = about;
            Ok(Flow::WentOn)
        }
        None => called(alloc, s, depth, calls, name, arguments, frame, local),
    }
}
