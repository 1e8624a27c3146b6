// Expressions as code, with the operands, suffixes and arguments in them.
ghost use Rattle.std.specs.Prelude.{◌≡◌, None, slice_get};
ghost use Rattle.body_meaning.specs.Prelude.{reading};
ghost use Rattle.body_code.specs.Prelude.{arguments_by, fork, just, operation_by, piece, piece_behind, suffixed, suffixed_by};
ghost use Rattle.slicc_ast.specs.declared.tree.expression.Operator.TheVariants as operator;
ghost use Rattle.emit_expressions.specs.Prelude.{AddsIfOk, Writes};
ghost use Rattle.emit_expressions.specs.Parts.{called, of_operand, operands_by, operation};

use crate::calls::{formals_of, index, method_call, named_call};
use crate::code::{hole, set_jump};
use crate::fields::field_read;
use crate::kinds::entry_kind;
use crate::operators::{
    Unary, and_after, kind_written, leaf, or_between, strict, unary_made, unary_of,
};
use action_code::Instr;
use body_code::{BodyNumbers, Left, NameAt};
use body_meaning::Scope;
use ruby_base::{NoMemory, Seq};
use ruby_value::Kind;
use slicc_ast::tree::{Expr, Operand, Operator, Suffix};
use std::alloc::Global;

// The kind that is expected of the argument at this place, if one is.
fn expected_at(kinds: &[Kind], i: usize) -> Option<Kind>
    ensures { result ≡ slice_get kinds.now i }
{
    kinds.get(i).copied()
}

/// An expression, where a value of this kind is expected, if one is, and what it leaves.
#[cycle(piece)]
pub fn piece(
    alloc: Global,
    code: &mut Seq<Instr>,
    s: Scope<'_>,
    n: &BodyNumbers,
    names: &[NameAt],
    expected: Option<Kind>,
    e: &Expr,
) -> Result<Left, NoMemory>
    ensures { Writes (piece (reading s.entry) n.now names.now expected e.now) result code.old
        code.new }
{
    match e {
        Expr::Operation { first, others, .. } => {
            let left = piece(alloc, code, s, n, names, None, first.get())?;
            operands(alloc, code, s, n, names, left, others)
        }
        Expr::Not(operand, _)
        | Expr::Negate(operand, _)
        | Expr::IsValid(operand, _)
        | Expr::IsInvalid(operand, _) => {
            let unary = unary_of(e);
            of_operand(alloc, code, s, n, names, unary, operand.get())
        }
        Expr::Postfix {
            value: inner,
            suffixes,
            ..
        } => {
            let left = piece(alloc, code, s, n, names, None, inner.get())?;
            suffixed_all(alloc, code, s, n, names, left, suffixes)
        }
        Expr::Call {
            name,
            arguments: given,
            ..
        } => {
            let items = given.items.as_slice();
            called(alloc, code, s, n, names, &name.text, items)
        }
        Expr::Cast {
            target,
            value: inner,
            ..
        } => {
            let k = kind_written(s, &target.text);
            piece(alloc, code, s, n, names, k, inner.get())
        }
        Expr::Group(inner, _) => piece(alloc, code, s, n, names, expected, inner.get()),
        Expr::Number(..)
        | Expr::True(_)
        | Expr::False(_)
        | Expr::Nothing(_)
        | Expr::Variable(_)
        | Expr::Member { .. }
        | Expr::New(..) => leaf(code, s, names, expected, e),
    }
}

// What is made of an operand.
#[cycle(piece)]
fn of_operand(
    alloc: Global,
    code: &mut Seq<Instr>,
    s: Scope<'_>,
    n: &BodyNumbers,
    names: &[NameAt],
    unary: Unary,
    e: &Expr,
) -> Result<Left, NoMemory>
    ensures { Writes (of_operand (reading s.entry) n.now names.now unary e.now) result code.old
        code.new }
{
    let left = piece(alloc, code, s, n, names, None, e)?;
    unary_made(code, unary, left)
}

// Operators with their right sides, behind what was left.
#[cycle(piece)]
fn operands(
    alloc: Global,
    code: &mut Seq<Instr>,
    s: Scope<'_>,
    n: &BodyNumbers,
    names: &[NameAt],
    first: Left,
    others: &[Operand],
) -> Result<Left, NoMemory>
    ensures { Writes (operands_by (reading s.entry) n.now names.now first others.now) result
        code.old code.new }
{
    let mut left = first;
    for o in others {
        left = operation(alloc, code, s, n, names, o)?;
    }
    Ok(left)
}

// An operator and its right side, behind a value.
#[cycle(piece)]
fn operation(
    alloc: Global,
    code: &mut Seq<Instr>,
    s: Scope<'_>,
    n: &BodyNumbers,
    names: &[NameAt],
    o: &Operand,
) -> Result<Left, NoMemory>
    ensures { Writes (operation (reading s.entry) n.now names.now o.now) result code.old code.new }
{
    match o.operator {
        Operator::Or => ored(alloc, code, s, n, names, &o.value),
        Operator::And => anded(alloc, code, s, n, names, &o.value),
        _ => {
            piece(alloc, code, s, n, names, None, &o.value)?;
            strict(code, o.operator)
        }
    }
}

// `||` and its right side.
#[cycle(piece)]
fn ored(
    alloc: Global,
    code: &mut Seq<Instr>,
    s: Scope<'_>,
    n: &BodyNumbers,
    names: &[NameAt],
    e: &Expr,
) -> Result<Left, NoMemory>
    ensures { Writes
        (operation_by operator.Or (piece (reading s.entry) n.now names.now None e.now).code)
        result code.old code.new }
{
    let jump = or_between(code)?;
    piece(alloc, code, s, n, names, None, e)?;
    set_jump(code, jump)?;
    Ok(Left::Value(Kind::Bool))
}

// `&&` and its right side.
#[cycle(piece)]
fn anded(
    alloc: Global,
    code: &mut Seq<Instr>,
    s: Scope<'_>,
    n: &BodyNumbers,
    names: &[NameAt],
    e: &Expr,
) -> Result<Left, NoMemory>
    ensures { Writes
        (operation_by operator.And (piece (reading s.entry) n.now names.now None e.now).code)
        result code.old code.new }
{
    let unless = hole(code)?;
    piece(alloc, code, s, n, names, None, e)?;
    and_after(code, unless)?;
    Ok(Left::Value(Kind::Bool))
}

// A call without a receiver.
#[cycle(piece)]
fn called(
    alloc: Global,
    code: &mut Seq<Instr>,
    s: Scope<'_>,
    n: &BodyNumbers,
    names: &[NameAt],
    name: &[u8],
    given: &[Expr],
) -> Result<Left, NoMemory>
    ensures { Writes (called (reading s.entry) n.now names.now name.now given.now) result code.old
        code.new }
{
    let kinds = formals_of(alloc, s, name)?;
    arguments(alloc, code, s, n, names, kinds.as_slice(), given)?;
    named_call(alloc, code, s, n, name)
}

// A suffix behind what was left. Of the calls with a receiver one takes a reference, which is to an entry.
#[cycle(piece)]
fn suffixed(
    alloc: Global,
    code: &mut Seq<Instr>,
    s: Scope<'_>,
    n: &BodyNumbers,
    names: &[NameAt],
    left: Left,
    suffix: &Suffix,
) -> Result<Left, NoMemory>
    ensures { Writes (suffixed (reading s.entry) n.now names.now left suffix.now) result code.old
        code.new }
{
    match suffix {
        Suffix::Field(name, _) => field_read(code, s, left, &name.text),
        Suffix::Method {
            name,
            arguments: given,
            ..
        } => {
            let kinds = [entry_kind(s)];
            let items = given.items.as_slice();
            arguments(alloc, code, s, n, names, &kinds, items)?;
            method_call(alloc, code, s, left, &name.text, items.len())
        }
        Suffix::Index(key, _) => {
            piece(alloc, code, s, n, names, None, key)?;
            index(alloc, code, s, left)
        }
    }
}

// Suffixes behind what was left, one after another.
#[cycle(piece)]
fn suffixed_all(
    alloc: Global,
    code: &mut Seq<Instr>,
    s: Scope<'_>,
    n: &BodyNumbers,
    names: &[NameAt],
    first: Left,
    suffixes: &[Suffix],
) -> Result<Left, NoMemory>
    ensures { Writes (suffixed_by (reading s.entry) n.now names.now first suffixes.now) result
        code.old code.new }
{
    let mut left = first;
    for suffix in suffixes {
        left = suffixed(alloc, code, s, n, names, left, suffix)?;
    }
    Ok(left)
}

/// Arguments, where values of these kinds are expected, as far as that is told.
#[cycle(piece)]
pub fn arguments(
    alloc: Global,
    code: &mut Seq<Instr>,
    s: Scope<'_>,
    n: &BodyNumbers,
    names: &[NameAt],
    kinds: &[Kind],
    given: &[Expr],
) -> Result<(), NoMemory>
    ensures { AddsIfOk (arguments_by (reading s.entry) n.now names.now kinds.now given.now) result
        code.old code.new }
{
    for (i, e) in given.iter().enumerate() {
        piece(alloc, code, s, n, names, expected_at(kinds, i), e)?;
    }
    Ok(())
}

/// An expression and suffixes behind it.
pub fn piece_behind(
    alloc: Global,
    code: &mut Seq<Instr>,
    s: Scope<'_>,
    n: &BodyNumbers,
    names: &[NameAt],
    inner: &Expr,
    suffixes: &[Suffix],
) -> Result<Left, NoMemory>
    ensures { Writes (piece_behind (reading s.entry) n.now names.now inner.now suffixes.now) result
        code.old code.new }
{
    let left = piece(alloc, code, s, n, names, None, inner)?;
    suffixed_all(alloc, code, s, n, names, left, suffixes)
}
