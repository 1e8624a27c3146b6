// Triggers.
#![tactic(auto, using(emit_expressions::proofs::Adding::adds_two, crate::proofs::Pushing::adds_three, crate::proofs::Pushing::adds_four), unfolding(crate::specs::LineWrites::WritesLine, emit_expressions::specs::Writes::AddsIfOk, emit_expressions::specs::Writes::Writes))]

ghost use Rattle.std.specs.Prelude.{◌≡◌, ◌++◌, ◌∷◌, ◌+◌, ◌-◌, [], None, true, IfOk, OnOk, length, slice_get, if◌then◌else◌};
ghost use Rattle.std.specs.Option.{option_copied, option_map};
ghost use Rattle.ruby_value.specs.declared.value.Value.TheVariants as value;
ghost use Rattle.body_meaning.specs.Prelude.{as_member, reading};
ghost use Rattle.body_code.specs.Prelude.{Ending, triggered};
ghost use Rattle.body_code.specs.Statements.{about_triggered, event_chosen, event_of, member_count, optional, reference_written, triggered_by};
ghost use Rattle.emit_expressions.specs.Prelude.{Adds, AddsIfOk};
ghost use Rattle.emit_statements.specs.Prelude.{WritesLine};

use crate::own::scratch_for;
use action_code::Instr;
use body_code::{BodyNumbers, Own};
use body_meaning::{Scope, as_member, member_value};
use emit_expressions::{entry_kind, index16, null, piece, tbe_kind};
use ruby_base::{NoMemory, Seq};
use ruby_symbols::EnumerationSymbol;
use ruby_value::{Kind, Value};
use slicc_ast::tree::Expr;
use std::alloc::Global;

fn member_numbered(s: Scope<'_>, v: Option<Value>) -> Option<u16>
    ensures { result ≡ option_map (as_member (reading s.entry) (reading s.entry).machine.events) v }
{
    match v {
        Some(v) => Some(as_member(s, s.machine.events, &v)),
        None => None,
    }
}

// The event that is written as a member.
fn event_of(s: Scope<'_>, e: &Expr) -> Option<u16>
    ensures { result ≡ event_of (reading s.entry) e.now }
{
    match e {
        Expr::Member { owner, member, .. } => {
            member_numbered(s, member_value(s, &owner.text, &member.text))
        }
        Expr::Group(inner, _) => event_of(s, inner.get()),
        Expr::Cast { value: inner, .. } => event_of(s, inner.get()),
        _ => None,
    }
}

fn optional(
    alloc: Global,
    code: &mut Seq<Instr>,
    s: Scope<'_>,
    n: &BodyNumbers,
    e: Option<&Expr>,
    own: &Own,
) -> Result<(), NoMemory>
    ensures { (ending : Ending)
        → AddsIfOk (optional (reading s.entry) n.now ending (option_copied e.entry) own.now) result
        code.old code.new }
{
    match e {
        Some(e) => {
            piece(alloc, code, s, n, &own.names, None, e)?;
            Ok(())
        }
        None => Ok(()),
    }
}

// A reference that is written, and else one to nothing.
fn written_or_null(
    alloc: Global,
    code: &mut Seq<Instr>,
    s: Scope<'_>,
    n: &BodyNumbers,
    k: Kind,
    e: Option<&Expr>,
    own: &Own,
) -> Result<(), NoMemory>
    ensures { (ending : Ending)
        → AddsIfOk
        (reference_written (reading s.entry) n.now ending true k (option_copied e.entry) own.now)
        result code.old code.new }
{
    match e {
        Some(e) => {
            piece(alloc, code, s, n, &own.names, Some(k), e)?;
            Ok(())
        }
        None => code.push(null(k)),
    }
}

// A reference that is written or, where the machine lacks the type, one to nothing.
fn reference_written(
    alloc: Global,
    code: &mut Seq<Instr>,
    s: Scope<'_>,
    n: &BodyNumbers,
    is_there: bool,
    k: Kind,
    e: Option<&Expr>,
    own: &Own,
) -> Result<(), NoMemory>
    ensures { (ending : Ending)
        → AddsIfOk
        (reference_written (reading s.entry) n.now ending is_there k (option_copied e.entry) own.now)
        result code.old code.new }
{
    if is_there {
        written_or_null(alloc, code, s, n, k, e, own)
    } else {
        code.push(null(k))
    }
}

fn tbe_place(has_entry: bool) -> usize
    ensures { result ≡ (if has_entry then 3 else 2) }
{
    if has_entry { 3 } else { 2 }
}

// The argument at this place.
fn given_at(given: &[Expr], i: usize) -> Option<&Expr>
    ensures { option_copied result ≡ slice_get given.now i }
{
    given.get(i)
}

// The address and the references that a `trigger` is about.
fn about_triggered(
    alloc: Global,
    code: &mut Seq<Instr>,
    s: Scope<'_>,
    n: &BodyNumbers,
    given: &[Expr],
    own: &Own,
) -> Result<(), NoMemory>
    ensures { (ending : Ending)
        → AddsIfOk (about_triggered (reading s.entry) n.now ending given.now own.now) result
        code.old code.new }
{
    let has_entry = s.machine.entry.is_some();
    let has_tbe = s.machine.tbe.is_some();
    let entry = entry_kind(s);
    let tbe = tbe_kind(s);
    let place = tbe_place(has_entry);
    optional(alloc, code, s, n, given_at(given, 1), own)?;
    reference_written(alloc, code, s, n, has_entry, entry, given_at(given, 2), own)?;
    reference_written(alloc, code, s, n, has_tbe, tbe, given_at(given, place), own)
}

// Whether the local has the event of this number.
fn event_test(code: &mut Seq<Instr>, events: u16, slot: u16, number: u16) -> Result<(), NoMemory>
    ensures { OnOk result (code.new
        ≡ code.old ++ Instr.Load slot ∷ Instr.Push (value.Enum events number) 0 ∷ Instr.Eq ∷ []) }
{
    code.push(Instr::Load(slot))?;
    code.push(Instr::Push(Value::Enum(events, number), 0))?;
    code.push(Instr::Eq)
}

// The place after two more instructions.
fn place_after_two(code: &Seq<Instr>) -> Result<u32, NoMemory>
    ensures { IfOk result (λ at. at ≡ length code.now + 2) }
{
    let Ok(at) = u32::try_from(code.len()) else {
        return Err(NoMemory);
    };
    match at.checked_add(2) {
        Some(second) => Ok(second),
        None => Err(NoMemory),
    }
}

// Its trigger, unless what is on the stack is false.
fn trigger_where(code: &mut Seq<Instr>, number: u16) -> Result<(), NoMemory>
    ensures { OnOk result (code.new
        ≡ code.old ++ Instr.Unless (length code.old + 2) ∷ Instr.Trigger number ∷ []) }
{
    let second = place_after_two(code)?;
    code.push(Instr::Unless(second))?;
    code.push(Instr::Trigger(number))
}

// Where the local has the event of this number, its trigger.
fn event_tested(code: &mut Seq<Instr>, events: u16, slot: u16, number: u16) -> Result<(), NoMemory>
    ensures { OnOk result (code.new
        ≡ code.old ++ Instr.Load slot ∷ Instr.Push (value.Enum events number) 0 ∷ Instr.Eq
        ∷ Instr.Unless (length code.old + 5) ∷ Instr.Trigger number ∷ []) }
{
    event_test(code, events, slot, number)?;
    trigger_where(code, number)
}

// By the event in the local, of so many.
fn event_chosen(code: &mut Seq<Instr>, events: u16, slot: u16, count: usize) -> Result<(), NoMemory>
    ensures { AddsIfOk (event_chosen events slot (count - 1) 1) result code.old code.new }
{
    for k in 1..count {
        let number = index16(k)?;
        event_tested(code, events, slot, number)?;
    }
    code.push(Instr::Trigger(0))
}

fn member_count(e: Option<&EnumerationSymbol>) -> usize
    ensures { result ≡ member_count (option_copied e.entry) }
{
    match e {
        Some(e) => e.members.len(),
        None => 0,
    }
}

// By the value of an expression.
fn triggered_by_value(
    alloc: Global,
    code: &mut Seq<Instr>,
    s: Scope<'_>,
    n: &BodyNumbers,
    e: &Expr,
    given: &[Expr],
    own: &mut Own,
) -> Result<bool, NoMemory>
    ensures { (ending : Ending)
        → WritesLine
        (triggered_by (reading s.entry) n.now ending e.now
        (about_triggered (reading s.entry) n.now ending given.now own.old) own.old None) result
        code.old code.new own.new }
{
    let events = s.machine.events;
    let slot = scratch_for(&mut own.locals, Kind::Enum(events, 0))?;
    let count = member_count(s.symbols.enumerations.get(usize::from(events)));
    piece(alloc, code, s, n, &own.names, None, e)?;
    code.push(Instr::Store(slot))?;
    about_triggered(alloc, code, s, n, given, own)?;
    event_chosen(code, events, slot, count)?;
    Ok(false)
}

// By an event that is written as a member, or by the value of the expression.
fn triggered_by(
    alloc: Global,
    code: &mut Seq<Instr>,
    s: Scope<'_>,
    n: &BodyNumbers,
    e: &Expr,
    given: &[Expr],
    event: Option<u16>,
    own: &mut Own,
) -> Result<bool, NoMemory>
    ensures { (ending : Ending)
        → WritesLine
        (triggered_by (reading s.entry) n.now ending e.now
        (about_triggered (reading s.entry) n.now ending given.now own.old) own.old event) result
        code.old code.new own.new }
{
    match event {
        Some(number) => {
            about_triggered(alloc, code, s, n, given, own)?;
            code.push(Instr::Trigger(number))?;
            Ok(false)
        }
        None => triggered_by_value(alloc, code, s, n, e, given, own),
    }
}

/// `trigger`
pub(crate) fn triggered(
    alloc: Global,
    code: &mut Seq<Instr>,
    s: Scope<'_>,
    n: &BodyNumbers,
    given: &[Expr],
    own: &mut Own,
) -> Result<bool, NoMemory>
    ensures { (ending : Ending)
        → WritesLine (triggered (reading s.entry) n.now ending given.now own.old) result code.old
        code.new own.new }
{
    match given {
        [] => Ok(true),
        [e, ..] => {
            let event = event_of(s, e);
            triggered_by(alloc, code, s, n, e, given, event, own)
        }
    }
}
