// Assignments, and calls that change what they are on.
#![tactic(auto, using(emit_expressions::proofs::Adding::adds_two, crate::proofs::Pushing::adds_three, crate::proofs::Pushing::adds_four), unfolding(crate::specs::LineWrites::WritesLine, emit_expressions::specs::Writes::AddsIfOk, emit_expressions::specs::Writes::Writes))]

ghost use Rattle.std.specs.Prelude.{◌≡◌, ◌++◌, ◌∷◌, [], List, OnOk, option_and_then};
ghost use Rattle.body_meaning.specs.Prelude.{reading};
ghost use Rattle.action_code.specs.declared.instr.Instr.{Instr};
ghost use Rattle.body_code.specs.Prelude.{Ending, Segment, arguments_by, assigned, assigned_at, changed, changed_at, kind_at, piece_behind, value_call, written_back, ◌⨾◌};
ghost use Rattle.body_code.specs.Spots.{AtLine, AtLocal, AtPart};
ghost use Rattle.emit_expressions.specs.Prelude.{Adds, AddsIfOk, spot_code};
ghost use Rattle.emit_statements.specs.Prelude.{WritesLine, operated_by};

use crate::own::scratch_for;
use action_code::Instr;
use body_code::{BodyNumbers, FieldAt, NameAt, Own};
use body_meaning::{Scope, write_callback};
use emit_expressions::{
    Spot, arguments, kind_at, piece, piece_behind, spot_of, spot_with, value_call,
};
use ruby_base::{NoMemory, Seq};
use ruby_value::Kind;
use slicc_ast::tree::{Expr, Suffix};
use std::alloc::Global;

// A value that is written already, put into the field of a line.
fn line_assigned(
    alloc: Global,
    code: &mut Seq<Instr>,
    s: Scope<'_>,
    n: &BodyNumbers,
    inner: &Expr,
    before: &[Suffix],
    k: Kind,
    f: FieldAt,
    own: &mut Own,
) -> Result<bool, NoMemory>
    ensures { (e : Segment) (start : List Instr) → Adds e start code.old
        → WritesLine
        (assigned_at
        (AtLine (piece_behind (reading s.entry) n.now own.old.names inner.now before.now).code k f)
        e own.old) result start code.new own.new }
{
    let x = scratch_for(&mut own.locals, f.kind)?;
    code.push(Instr::Store(x))?;
    piece_behind(alloc, code, s, n, &own.names, inner, before)?;
    code.push(Instr::Load(x))?;
    code.push(Instr::Set(f.number))?;
    Ok(true)
}

// A value that is written already, put there.
fn assigned_at(
    alloc: Global,
    code: &mut Seq<Instr>,
    s: Scope<'_>,
    n: &BodyNumbers,
    spot: &Spot<'_>,
    own: &mut Own,
) -> Result<bool, NoMemory>
    ensures { (e : Segment) (start : List Instr) → Adds e start code.old
        → WritesLine
        (assigned_at (spot_code (reading s.entry) n.now own.old.names spot.now) e own.old) result
        start code.new own.new }
{
    match spot {
        Spot::Local(slot, _) => {
            code.push(Instr::Store(*slot))?;
            Ok(true)
        }
        Spot::Part(f) => {
            code.push(Instr::Setout(f.number))?;
            Ok(true)
        }
        Spot::Line(inner, before, k, f) => {
            line_assigned(alloc, code, s, n, inner, before, *k, *f, own)
        }
        Spot::Nowhere => Ok(true),
    }
}

/// An assignment.
pub(crate) fn assigned(
    alloc: Global,
    code: &mut Seq<Instr>,
    s: Scope<'_>,
    n: &BodyNumbers,
    place: &Expr,
    e: &Expr,
    own: &mut Own,
) -> Result<bool, NoMemory>
    ensures { (ending : Ending)
        → WritesLine (assigned (reading s.entry) n.now ending place.now e.now own.old) result
        code.old code.new own.new }
{
    let spot = spot_of(alloc, s, n, &own.names, place)?;
    let kind = kind_at(&spot);
    piece(alloc, code, s, n, &own.names, kind, e)?;
    assigned_at(alloc, code, s, n, &spot, own)
}

// Arguments and an operation on what is on the stack.
fn change(
    alloc: Global,
    code: &mut Seq<Instr>,
    s: Scope<'_>,
    n: &BodyNumbers,
    names: &[NameAt],
    given: &[Expr],
    operation: Option<u16>,
) -> Result<(), NoMemory>
    ensures { AddsIfOk
        (arguments_by (reading s.entry) n.now names.now [] given.now ⨾ operated_by operation) result
        code.old code.new }
{
    let none: [Kind; 0] = [];
    arguments(alloc, code, s, n, names, &none, given)?;
    operated(code, operation)
}

fn operated(code: &mut Seq<Instr>, operation: Option<u16>) -> Result<(), NoMemory>
    ensures { AddsIfOk (operated_by operation) result code.old code.new }
{
    match operation {
        Some(number) => code.push(Instr::Op(number, 0)),
        None => Ok(()),
    }
}

fn local_changed(
    alloc: Global,
    code: &mut Seq<Instr>,
    s: Scope<'_>,
    n: &BodyNumbers,
    slot: u16,
    k: Kind,
    given: &[Expr],
    operation: Option<u16>,
    own: &Own,
) -> Result<bool, NoMemory>
    ensures { WritesLine
        (changed_at (AtLocal slot k)
        (arguments_by (reading s.entry) n.now own.now.names [] given.now ⨾ operated_by operation)
        own.now) result code.old code.new own.now }
{
    code.push(Instr::Load(slot))?;
    change(alloc, code, s, n, &own.names, given, operation)?;
    code.push(Instr::Store(slot))?;
    Ok(true)
}

fn part_changed(
    alloc: Global,
    code: &mut Seq<Instr>,
    s: Scope<'_>,
    n: &BodyNumbers,
    f: FieldAt,
    given: &[Expr],
    operation: Option<u16>,
    own: &Own,
) -> Result<bool, NoMemory>
    ensures { WritesLine
        (changed_at (AtPart f)
        (arguments_by (reading s.entry) n.now own.now.names [] given.now ⨾ operated_by operation)
        own.now) result code.old code.new own.now }
{
    code.push(Instr::Outfield(f.number))?;
    change(alloc, code, s, n, &own.names, given, operation)?;
    code.push(Instr::Setout(f.number))?;
    Ok(true)
}

// The field of the line on the stack, of which the reference is set aside.
fn field_opened(code: &mut Seq<Instr>, y: u16, f: FieldAt) -> Result<(), NoMemory>
    ensures { OnOk result (code.new
        ≡ code.old ++ Instr.Store y ∷ Instr.Load y ∷ Instr.Get f.number ∷ []) }
{
    code.push(Instr::Store(y))?;
    code.push(Instr::Load(y))?;
    code.push(Instr::Get(f.number))
}

// The value on the stack, put into the field of the line whose reference was set aside.
fn field_closed(code: &mut Seq<Instr>, y: u16, x: u16, f: FieldAt) -> Result<(), NoMemory>
    ensures { OnOk result (code.new
        ≡ code.old ++ Instr.Store x ∷ Instr.Load y ∷ Instr.Load x ∷ Instr.Set f.number ∷ []) }
{
    code.push(Instr::Store(x))?;
    code.push(Instr::Load(y))?;
    code.push(Instr::Load(x))?;
    code.push(Instr::Set(f.number))
}

fn line_changed(
    alloc: Global,
    code: &mut Seq<Instr>,
    s: Scope<'_>,
    n: &BodyNumbers,
    inner: &Expr,
    before: &[Suffix],
    k: Kind,
    f: FieldAt,
    given: &[Expr],
    operation: Option<u16>,
    own: &mut Own,
) -> Result<bool, NoMemory>
    ensures { WritesLine
        (changed_at
        (AtLine (piece_behind (reading s.entry) n.now own.old.names inner.now before.now).code k f)
        (arguments_by (reading s.entry) n.now own.old.names [] given.now ⨾ operated_by operation)
        own.old) result code.old code.new own.new }
{
    let y = scratch_for(&mut own.locals, k)?;
    let x = scratch_for(&mut own.locals, f.kind)?;
    piece_behind(alloc, code, s, n, &own.names, inner, before)?;
    field_opened(code, y, f)?;
    change(alloc, code, s, n, &own.names, given, operation)?;
    field_closed(code, y, x, f)?;
    Ok(true)
}

// What is there, changed by an operation with these arguments.
fn changed_at(
    alloc: Global,
    code: &mut Seq<Instr>,
    s: Scope<'_>,
    n: &BodyNumbers,
    spot: &Spot<'_>,
    given: &[Expr],
    operation: Option<u16>,
    own: &mut Own,
) -> Result<bool, NoMemory>
    ensures { WritesLine
        (changed_at (spot_code (reading s.entry) n.now own.old.names spot.now)
        (arguments_by (reading s.entry) n.now own.old.names [] given.now ⨾ operated_by operation)
        own.old) result code.old code.new own.new }
{
    match spot {
        Spot::Local(slot, k) => {
            local_changed(alloc, code, s, n, *slot, *k, given, operation, own)
        }
        Spot::Part(f) => part_changed(alloc, code, s, n, *f, given, operation, own),
        Spot::Line(inner, before, k, f) => line_changed(
            alloc, code, s, n, inner, before, *k, *f, given, operation, own,
        ),
        Spot::Nowhere => {
            change(alloc, code, s, n, &own.names, given, operation)?;
            Ok(true)
        }
    }
}

// The number of a call on what is there.
fn call_at(alloc: Global, kind: Option<Kind>, name: &[u8]) -> Option<u16>
    ensures { result ≡ option_and_then (λ k. value_call k name.now) kind }
{
    match kind {
        Some(k) => value_call(alloc, k, name),
        None => None,
    }
}

/// A call that changes what it is on.
pub(crate) fn changed(
    alloc: Global,
    code: &mut Seq<Instr>,
    s: Scope<'_>,
    n: &BodyNumbers,
    inner: &Expr,
    before: &[Suffix],
    name: &[u8],
    given: &[Expr],
    own: &mut Own,
) -> Result<bool, NoMemory>
    ensures { (ending : Ending)
        → WritesLine
        (changed (reading s.entry) n.now ending inner.now before.now name.now given.now own.old)
        result code.old code.new own.new }
{
    let spot = spot_with(alloc, s, n, &own.names, inner, before)?;
    let kind = kind_at(&spot);
    let operation = call_at(alloc, kind, name);
    changed_at(alloc, code, s, n, &spot, given, operation, own)
}

// The address and the place of the block that a `writeCallback` has, and its other arguments.
fn block_written(
    alloc: Global,
    code: &mut Seq<Instr>,
    s: Scope<'_>,
    n: &BodyNumbers,
    address: &Expr,
    block: &Expr,
    others: &[Expr],
    own: &mut Own,
) -> Result<bool, NoMemory>
    ensures { (ending : Ending)
        → WritesLine
        (written_back (reading s.entry) n.now ending (address.now ∷ block.now ∷ others.now) own.old)
        result code.old code.new own.new }
{
    piece(alloc, code, s, n, &own.names, None, address)?;
    let spot = spot_of(alloc, s, n, &own.names, block)?;
    let operation = write_callback(others.len().saturating_add(2));
    changed_at(alloc, code, s, n, &spot, others, Some(operation), own)
}

/// `writeCallback`, which changes its second argument, a block.
pub(crate) fn written_back(
    alloc: Global,
    code: &mut Seq<Instr>,
    s: Scope<'_>,
    n: &BodyNumbers,
    given: &[Expr],
    own: &mut Own,
) -> Result<bool, NoMemory>
    ensures { (ending : Ending)
        → WritesLine (written_back (reading s.entry) n.now ending given.now own.old) result
        code.old code.new own.new }
{
    match given {
        [address, block, others @ ..] => {
            block_written(alloc, code, s, n, address, block, others, own)
        }
        _ => Ok(true),
    }
}
