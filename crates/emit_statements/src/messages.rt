// Messages that are made.
#![tactic(auto, using(emit_expressions::proofs::Adding::adds_two, crate::proofs::Pushing::adds_three, crate::proofs::Pushing::adds_four), unfolding(crate::specs::LineWrites::WritesLine, emit_expressions::specs::Writes::AddsIfOk, emit_expressions::specs::Writes::Writes))]

ghost use Rattle.std.specs.Prelude.{◌≡◌, ◌+◌, ◌++◌, cond, OnOk, length, reverse};
ghost use Rattle.std.specs.Option.{option_copied};
ghost use Rattle.std.specs.List.{enumerate_from};
ghost use Rattle.body_meaning.specs.Prelude.{reading};
ghost use Rattle.body_code.specs.Prelude.{Ending, field_kinds};
ghost use Rattle.body_code.specs.Statements.{each_field, field_set, fields_kept, fields_read, fields_set, is_set, latency, opened, outer_of, sent};
ghost use Rattle.emit_expressions.specs.Prelude.{AddsIfOk};
ghost use Rattle.emit_statements.specs.Prelude.{WritesLine};

use crate::own::{bind, kept_for, names_copied};
use action_code::Instr;
use body_code::{BodyNumbers, Home, Own};
use body_meaning::Scope;
use emit_expressions::{index16, piece};
use ruby_base::{NoMemory, Seq};
use ruby_symbols::{FieldSymbol, StructureSymbol};
use ruby_value::Value;
use slicc_ast::tree::Expr;
use std::alloc::Global;

// The value, where it is another than the default of its kind.
fn set_value(v: &Value) -> Option<Value>
    ensures { result ≡ cond (is_set v.now) (Some v.now) None }
{
    match v {
        Value::Bool(true) => Some(Value::Bool(true)),
        Value::Int(n) if *n != 0 => Some(Value::Int(*n)),
        Value::Addr(a) if *a != 0 => Some(Value::Addr(*a)),
        _ => None,
    }
}

// The field of this number, where it begins with another value than the default of its kind.
fn field_set(code: &mut Seq<Instr>, k: usize, f: &FieldSymbol) -> Result<(), NoMemory>
    ensures { OnOk result (code.new ≡ code.old ++ field_set (k, f.now)) }
{
    if let Some(v) = set_value(&f.initial) {
        let number = index16(k)?;
        code.push(Instr::Push(v, 0))?;
        code.push(Instr::Setout(number))?;
    }
    Ok(())
}

// The same of all of them.
fn fields_set(code: &mut Seq<Instr>, fields: &[FieldSymbol]) -> Result<(), NoMemory>
    ensures { OnOk result (code.new ≡ code.old ++ fields_set (enumerate_from 0 fields.now)) }
{
    for (k, f) in fields.iter().enumerate() {
        field_set(code, k, f)?;
    }
    Ok(())
}

/// A new message of this structure.
pub(crate) fn opened(
    code: &mut Seq<Instr>,
    structure: u16,
    t: &StructureSymbol,
) -> Result<(), NoMemory>
    ensures { AddsIfOk (opened structure t.now) result code.old code.new }
{
    code.push(Instr::New(structure))?;
    fields_set(code, &t.fields)
}

fn field_count(t: Option<&StructureSymbol>) -> usize
    ensures { result ≡ length (field_kinds (option_copied t.entry)) }
{
    match t {
        Some(t) => t.fields.len(),
        None => 0,
    }
}

// The fields of the message that is being made, one after another.
fn each_read(code: &mut Seq<Instr>, s: Scope<'_>, structure: u16) -> Result<(), NoMemory>
    ensures { OnOk result (code.new ≡ code.old ++ each_field Instr.Outfield (reading s.entry) structure) }
{
    let count = field_count(s.symbols.structures.get(usize::from(structure)));
    for k in 0..count {
        let number = index16(k)?;
        code.push(Instr::Outfield(number))?;
    }
    Ok(())
}

/// The fields of the message around, if there is one that the latency can name.
pub(crate) fn fields_read(
    code: &mut Seq<Instr>,
    s: Scope<'_>,
    outer: Option<u16>,
) -> Result<(), NoMemory>
    ensures { AddsIfOk (fields_read (reading s.entry) outer) result code.old code.new }
{
    match outer {
        None => Ok(()),
        Some(structure) => each_read(code, s, structure),
    }
}

// The values on the stack, in locals that follow one another.
fn each_stored(
    code: &mut Seq<Instr>,
    s: Scope<'_>,
    structure: u16,
    first: u16,
) -> Result<(), NoMemory>
    ensures { OnOk result (code.new
        ≡ code.old ++ reverse (each_field (λ k. Instr.Store (first + k)) (reading s.entry) structure)) }
{
    let count = field_count(s.symbols.structures.get(usize::from(structure)));
    for i in 0..count {
        let slot = index16(usize::from(first).saturating_add(count - 1 - i))?;
        code.push(Instr::Store(slot))?;
    }
    Ok(())
}

// Keeps them in locals, where the latency finds them.
fn fields_kept(
    alloc: Global,
    code: &mut Seq<Instr>,
    s: Scope<'_>,
    outer: Option<u16>,
    own: &mut Own,
) -> Result<bool, NoMemory>
    ensures { WritesLine (fields_kept (reading s.entry) outer own.old) result code.old code.new
        own.new }
{
    let Some(structure) = outer else {
        return Ok(true);
    };
    let first = kept_for(&mut own.locals, s.symbols, structure)?;
    each_stored(code, s, structure, first)?;
    let home = Home::Kept(structure, first);
    bind(alloc, &mut own.names, b"out_msg".as_slice(), home)?;
    Ok(true)
}

fn latency(
    alloc: Global,
    code: &mut Seq<Instr>,
    s: Scope<'_>,
    n: &BodyNumbers,
    written: &Option<Expr>,
    own: &Own,
) -> Result<(), NoMemory>
    ensures { (ending : Ending)
        → AddsIfOk (latency (reading s.entry) n.now ending written.now own.now) result code.old
        code.new }
{
    match written {
        None => code.push(Instr::Push(Value::Int(1), 0)),
        Some(e) => {
            piece(alloc, code, s, n, &own.names, None, e)?;
            Ok(())
        }
    }
}

/// What was made is sent, after the block.
pub(crate) fn sent(
    alloc: Global,
    code: &mut Seq<Instr>,
    s: Scope<'_>,
    n: &BodyNumbers,
    buffer: u16,
    written: &Option<Expr>,
    outer: Option<u16>,
    own: &mut Own,
) -> Result<bool, NoMemory>
    ensures { (ending : Ending)
        → WritesLine (sent (reading s.entry) n.now ending buffer written.now outer own.old) result
        code.old code.new own.new }
{
    let names = names_copied(alloc, &own.names)?;
    fields_kept(alloc, code, s, outer, own)?;
    latency(alloc, code, s, n, written, own)?;
    code.push(Instr::Send(buffer))?;
    own.names = names;
    Ok(true)
}

/// The structure of the message around, where the latency can name it.
pub(crate) fn outer_of(written: &Option<Expr>, home: Option<Home>) -> Option<u16>
    ensures { result ≡ outer_of written.now home }
{
    match (written, home) {
        (Some(_), Some(Home::Made(structure))) => Some(structure),
        _ => None,
    }
}
