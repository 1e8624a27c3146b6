// Finding what may be assigned.
ghost use Rattle.std.specs.Prelude.{◌≡◌, IfOk};
ghost use Rattle.std.specs.Option.{option_copied};
ghost use Rattle.acts.specs.declared.body_fault.BodyFault.TheVariants as own;
ghost use Rattle.acts.specs.Prelude.{found, DoesAs, itself};
ghost use Rattle.body_walk.specs.Prelude.{CallsDo};
ghost use Rattle.body_meaning.specs.declared.frame.Place.TheVariants as place;
ghost use Rattle.body_meaning.specs.Prelude.{calls_within, field_place, line_place, name_behind, name_in, part_place, place_behind, place_last, place_of, place_with, reading};

use crate::expressions::value_behind;
use acts::{BodyFault, Local, NoMemory, Trouble, Value};
use body_meaning::{Frame, Place, Scope, Thing, line_field, structure_field};
use built_in_acts::reference;
use ruby_base::{Seq, Text};
use slicc_ast::tree::{Expr, Suffix};
use std::alloc::Global;

// The name that an expression is, parentheses aside.
fn name_in(e: &Expr) -> Option<&[u8]>
    ensures { option_copied result ≡ name_in e.now }
{
    match e {
        Expr::Variable(name) => Some(name.text.as_slice()),
        Expr::Group(inner, _) => name_in(inner.get()),
        _ => None,
    }
}

fn name_behind<'a>(e: &'a Expr, suffixes: &[Suffix]) -> Option<&'a [u8]>
    ensures { option_copied result ≡ name_behind e.now suffixes.now }
{
    if suffixes.is_empty() {
        name_in(e)
    } else {
        None
    }
}

#[tactic(auto, using(acts::proofs::Walk::walk_steps), unfolding(body_meaning::specs::Places::line_place))]
fn line_place<T: Local>(s: Scope<'_>, v: &Value, name: &[u8], local: &T) -> Result<Place, Trouble>
    ensures { DoesAs itself (line_place (reading s.entry) v.now name.now) result (T.view local.now)
        (T.view local.now) }
{
    let Some(r) = reference(v) else {
        return Err(Trouble::from(BodyFault::Reference));
    };
    let Some(k) = line_field(s, r.table, name) else {
        return Err(Trouble::from(BodyFault::Reference));
    };
    Ok(Place::Line(r, k))
}

fn part_place(
    alloc: Global,
    s: Scope<'_>,
    held: Option<&[u8]>,
    structure: u16,
    name: &[u8],
) -> Result<Option<Place>, NoMemory>
    ensures { IfOk result
        (λ p. p ≡ part_place (reading s.entry) (option_copied held.entry) structure name.now) }
{
    let Some(held) = held else {
        return Ok(None);
    };
    match structure_field(s.symbols, structure, name) {
        Some(k) => Ok(Some(Place::Part(Text::copied(alloc, held)?, k))),
        None => Ok(None),
    }
}

// The place, which is to be there.
#[tactic(auto, using(acts::proofs::Walk::walk_steps, crate::proofs::Ends::last_steps))]
fn found<T: Local>(p: Option<Place>, local: &T) -> Result<Place, Trouble>
    ensures { DoesAs itself (found own.Reference p) result (T.view local.now) (T.view local.now) }
{
    match p {
        Some(p) => Ok(p),
        None => Err(Trouble::from(BodyFault::Reference)),
    }
}

// The field of this name of a thing, which the body may have under a name.
fn field_place<T: Local>(
    alloc: Global,
    s: Scope<'_>,
    held: Option<&[u8]>,
    name: &[u8],
    t: &Thing,
    local: &T,
) -> Result<Place, Trouble>
    ensures { DoesAs itself
        (field_place (reading s.entry) (option_copied held.entry) name.now t.now) result
        (T.view local.now) (T.view local.now) }
{
    match t {
        Thing::Value(v) => line_place(s, v, name, local),
        Thing::Message(structure, _) => {
            let p = part_place(alloc, s, held, *structure, name)?;
            found(p, local)
        }
        _ => Err(Trouble::from(BodyFault::Reference)),
    }
}

// What the last suffix names, of an expression with others before it.
fn place_last<T: Local, F: Fn(u16, Seq<Value>, &mut T) -> Result<Thing, Trouble>>(
    alloc: Global,
    s: Scope<'_>,
    depth: u16,
    calls: &F,
    frame: &Frame,
    inner: &Expr,
    before: &[Suffix],
    last: Option<&Suffix>,
    local: &mut T,
) -> Result<Place, Trouble>
    requires callable { F.IsAlwaysCallable calls.now }
    requires does { CallsDo T.view F.Fn calls.now (calls_within (reading s) depth) }
    ensures { DoesAs itself
        (place_last (reading s.entry) (calls_within (reading s.entry) depth) frame.now inner.now
        before.now (option_copied last.entry))
        result (T.view local.old) (T.view local.new) }
{
    let Some(last) = last else {
        return Err(Trouble::from(BodyFault::Reference));
    };
    let Suffix::Field(name, _) = last else {
        return Err(Trouble::from(BodyFault::Reference));
    };
    let t = value_behind(alloc, s, depth, calls, frame, inner, before, local)?;
    field_place(alloc, s, name_behind(inner, before), &name.text, &t, local)
}

#[tactic(auto, using(acts::proofs::Walk::walk_steps), unfolding(body_meaning::specs::Places::place_behind))]
fn place_behind<T: Local, F: Fn(u16, Seq<Value>, &mut T) -> Result<Thing, Trouble>>(
    alloc: Global,
    s: Scope<'_>,
    depth: u16,
    calls: &F,
    frame: &Frame,
    inner: &Expr,
    suffixes: &[Suffix],
    local: &mut T,
) -> Result<Place, Trouble>
    requires callable { F.IsAlwaysCallable calls.now }
    requires does { CallsDo T.view F.Fn calls.now (calls_within (reading s) depth) }
    ensures { DoesAs itself
        (place_behind (reading s.entry) (calls_within (reading s.entry) depth) frame.now inner.now
        suffixes.now)
        result (T.view local.old) (T.view local.new) }
{
    let n = suffixes.len().saturating_sub(1);
    place_last(
        alloc,
        s,
        depth,
        calls,
        frame,
        inner,
        &suffixes[..n],
        suffixes.get(n),
        local,
    )
}

// The place of a local.
fn named_place(alloc: Global, name: &[u8]) -> Result<Place, NoMemory>
    ensures { IfOk result (λ p. p ≡ place.Named name.now) }
{
    Ok(Place::Named(Text::copied(alloc, name)?))
}

/// The place that an expression names.
pub fn place_of<T: Local, F: Fn(u16, Seq<Value>, &mut T) -> Result<Thing, Trouble>>(
    alloc: Global,
    s: Scope<'_>,
    depth: u16,
    calls: &F,
    frame: &Frame,
    e: &Expr,
    local: &mut T,
) -> Result<Place, Trouble>
    requires callable { F.IsAlwaysCallable calls.now }
    requires does { CallsDo T.view F.Fn calls.now (calls_within (reading s) depth) }
    ensures { DoesAs itself
        (place_of (reading s.entry) (calls_within (reading s.entry) depth) frame.now e.now) result
        (T.view local.old) (T.view local.new) }
{
    match e {
        Expr::Variable(name) => Ok(named_place(alloc, &name.text)?),
        Expr::Group(inner, _) => place_of(alloc, s, depth, calls, frame, inner.get(), local),
        Expr::Postfix {
            value: inner,
            suffixes,
            ..
        } => place_behind(alloc, s, depth, calls, frame, inner.get(), suffixes, local),
        _ => Err(Trouble::from(BodyFault::Reference)),
    }
}

/// The place that an expression with suffixes behind it names, if there are any.
pub fn place_with<T: Local, F: Fn(u16, Seq<Value>, &mut T) -> Result<Thing, Trouble>>(
    alloc: Global,
    s: Scope<'_>,
    depth: u16,
    calls: &F,
    frame: &Frame,
    e: &Expr,
    suffixes: &[Suffix],
    local: &mut T,
) -> Result<Place, Trouble>
    requires callable { F.IsAlwaysCallable calls.now }
    requires does { CallsDo T.view F.Fn calls.now (calls_within (reading s) depth) }
    ensures { DoesAs itself
        (place_with (reading s.entry) (calls_within (reading s.entry) depth) frame.now e.now
        suffixes.now)
        result (T.view local.old) (T.view local.new) }
{
    if suffixes.is_empty() {
        return place_of(alloc, s, depth, calls, frame, e, local);
    }
    place_behind(alloc, s, depth, calls, frame, e, suffixes, local)
}
