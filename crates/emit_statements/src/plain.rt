// Statements without a block, and what statements with one are made of.
#![tactic(auto, using(emit_expressions::proofs::Adding::adds_two), unfolding(crate::specs::LineWrites::WritesLine, emit_expressions::specs::Writes::AddsIfOk, emit_expressions::specs::Writes::Writes))]

ghost use Rattle.std.specs.Prelude.{◌≡◌, ◌&&◌, ◌||◌, ◌++◌, ◌∷◌, [], true, if◌then◌else◌, is_some, nat_lt, slice_get, unwrap_or, IfOk, OnOk};
ghost use Rattle.std.specs.Option.{option_copied};
ghost use Rattle.ruby_value.specs.declared.fault.Fault.TheVariants as fault;
ghost use Rattle.ruby_value.specs.declared.kind.Kind.TheVariants as kind;
ghost use Rattle.body_meaning.specs.Prelude.{reading};
ghost use Rattle.body_code.specs.Prelude.{ends, just, kind_written};
ghost use Rattle.body_code.specs.Statements.{asserted, declared_as, returned, stalled};
ghost use Rattle.emit_statements.specs.Prelude.{WritesLine, ending_of, filled, filled_all, goes_on_after, message_at};

use crate::arms::{fill, fill_all, goes_on_after};
use crate::ending::{Ending, close};
use crate::own::bind;
use action_code::Instr;
use body_code::{BodyNumbers, Home, Own};
use body_meaning::{Scope, message_of, port_named};
use emit_expressions::{hole, index16, kind_written, piece, set_unless};
use ruby_base::{NoMemory, Seq, Text};
use ruby_symbols::StructureSymbol;
use ruby_value::{Fault, Kind};
use slicc_ast::tree::{Expr, Name, TypeName};
use std::alloc::Global;

/// A declaration.
pub(crate) fn declared(
    alloc: Global,
    code: &mut Seq<Instr>,
    s: Scope<'_>,
    n: &BodyNumbers,
    ending: Ending,
    kind: &TypeName,
    name: &Name,
    e: &Expr,
    own: &mut Own,
) -> Result<bool, NoMemory>
    ensures { WritesLine
        (declared_as (reading s.entry) n.now (ending_of ending) name.now.text
        (kind_written (reading s.entry) kind.now.text) e.now own.old) result
        code.old code.new own.new }
{
    let k = or_bool(kind_written(s, &kind.text));
    piece(alloc, code, s, n, &own.names, Some(k), e)?;
    let slot = index16(own.locals.kinds.len())?;
    code.push(Instr::Store(slot))?;
    own.locals.kinds.push(k)?;
    bind(alloc, &mut own.names, &name.text, Home::Local(slot, k))?;
    Ok(true)
}

fn or_bool(known: Option<Kind>) -> Kind
    ensures { result ≡ unwrap_or known kind.Bool }
{
    match known {
        Some(k) => k,
        None => Kind::Bool,
    }
}

pub(crate) fn returned(
    alloc: Global,
    code: &mut Seq<Instr>,
    s: Scope<'_>,
    n: &BodyNumbers,
    ending: Ending,
    written: &Option<Expr>,
    own: &Own,
) -> Result<bool, NoMemory>
    ensures { WritesLine
        (returned (reading s.entry) n.now (ending_of ending) written.now own.now) result code.old
        code.new own.now }
{
    match written {
        None => {
            close(code, ending)?;
            Ok(false)
        }
        Some(e) => {
            piece(alloc, code, s, n, &own.names, ending.result, e)?;
            code.push(Instr::Ret)?;
            Ok(false)
        }
    }
}

pub(crate) fn stalled(
    alloc: Global,
    code: &mut Seq<Instr>,
    s: Scope<'_>,
    n: &BodyNumbers,
    ending: Ending,
    port: &Name,
    address: &Expr,
    own: &Own,
) -> Result<bool, NoMemory>
    ensures { WritesLine
        (stalled (reading s.entry) n.now (ending_of ending) port.now.text address.now own.now) result
        code.old code.new own.now }
{
    let Some(buffer) = port_named(s.machine, &port.text) else {
        return Ok(true);
    };
    piece(alloc, code, s, n, &own.names, None, address)?;
    code.push(Instr::Op(59, buffer))?;
    Ok(true)
}

/// The body ends with the fault that the text tells.
pub(crate) fn failed(
    alloc: Global,
    code: &mut Seq<Instr>,
    text: &Text,
    own: &Own,
) -> Result<bool, NoMemory>
    ensures { WritesLine (ends (just (Instr.Stop (fault.Error text.now) ∷ [])) own.now) result
        code.old code.new own.now }
{
    let text = Text::copied(alloc, text)?;
    code.push(Instr::Stop(Fault::Error(text)))?;
    Ok(false)
}

pub(crate) fn asserted(
    alloc: Global,
    code: &mut Seq<Instr>,
    s: Scope<'_>,
    n: &BodyNumbers,
    ending: Ending,
    condition: &Expr,
    own: &Own,
) -> Result<bool, NoMemory>
    ensures { WritesLine
        (asserted (reading s.entry) n.now (ending_of ending) condition.now own.now) result code.old
        code.new own.now }
{
    piece(alloc, code, s, n, &own.names, None, condition)?;
    code.push(Instr::Not)?;
    let test = hole(code)?;
    code.push(Instr::Stop(Fault::Assert))?;
    set_unless(code, test)?;
    Ok(true)
}

/// The buffer that a port is on, and the structure of its messages.
pub(crate) fn message_at(s: Scope<'_>, port: &Name) -> Option<(u16, u16)>
    ensures { result ≡ message_at (reading s.entry) port.now.text }
{
    let Some(buffer) = port_named(s.machine, &port.text) else {
        return None;
    };
    match message_of(s.machine, buffer) {
        Some(structure) => Some((buffer, structure)),
        None => None,
    }
}

/// Where a run goes on, this too.
pub(crate) fn closed(code: &mut Seq<Instr>, goes_on: bool, i: Instr) -> Result<(), NoMemory>
    ensures { OnOk result (code.new ≡ (if goes_on then code.old ++ i ∷ [] else code.old)) }
{
    if goes_on { code.push(i) } else { Ok(()) }
}

/// Whether there are more of so many from this one on, or a last one.
pub(crate) fn has_more(from: usize, count: usize, has_last: bool) -> bool
    ensures { result ≡ (nat_lt from count || has_last) }
{
    from < count || has_last
}

/// Sets the jumps that are left open, once what they pass is written.
pub(crate) fn passed(code: &mut Seq<Instr>, jumps: &[usize], other: bool) -> Result<bool, NoMemory>
    ensures goes_on { IfOk result (λ goes_on. goes_on ≡ goes_on_after jumps.now other) }
    ensures all { OnOk result (code.new ≡ filled_all jumps.now code.old) }
{
    fill_all(code, jumps)?;
    Ok(goes_on_after(jumps, other))
}

/// Sets the jump of the first arm, if it left one open.
pub(crate) fn first_passed(
    code: &mut Seq<Instr>,
    jump: Option<usize>,
    other: bool,
) -> Result<bool, NoMemory>
    ensures goes_on { IfOk result (λ goes_on. goes_on ≡ (if is_some jump then true else other)) }
    ensures all { OnOk result (code.new ≡ filled jump code.old) }
{
    fill(code, jump)?;
    Ok(jump.is_some() || other)
}

/// Whether a run passes what follows.
pub(crate) fn passes(goes_on: bool, more: bool) -> bool
    ensures { result ≡ (goes_on && more) }
{
    goes_on && more
}

/// The structure of this number.
pub(crate) fn structure_at<'a>(s: Scope<'a>, structure: u16) -> Option<&'a StructureSymbol>
    ensures { option_copied result ≡ slice_get (reading s.entry).symbols.structures structure }
{
    s.symbols.structures.get(usize::from(structure))
}
