//! The parts of expressions.
ghost use Rattle.std.specs.Prelude.{◌≡◌, ◌++◌, None, OnOk};
ghost use Rattle.std.specs.List.{flat_map};
ghost use Rattle.std.specs.Option.{option_copied};
ghost use Rattle.slicc_plan.specs.Prelude.{call_part, changing, expr_parts, name_in, number_in, suffix_parts};
ghost use Rattle.slicc_flow.specs.Prelude.{operand_parts, receiver_at, suffix_list_parts};

use crate::calls::{is_change, is_free_change};
use crate::names::Names;
use ruby_base::{NoMemory, Seq};
use slicc_ast::tree::{Args, Expr, Name, Operand, Span, Suffix};
use slicc_plan::Part;

/// A part that changes more than a local or doesn't.
pub fn change_part(is_change: bool, place: Span) -> Part
    ensures { result ≡ changing is_change place }
{
    if is_change {
        Part::Change(place)
    } else {
        Part::Plain
    }
}

fn call_of(names: &Names, name: &[u8], place: Span) -> Part
    ensures { result ≡ call_part name.now place (number_in names.now.functions name.now) }
{
    match names.function(name) {
        Some(k) => Part::Call(k),
        None => change_part(is_free_change(name), place),
    }
}

/// The name that an expression is, parentheses aside.
pub fn name_in(e: &Expr) -> Option<&[u8]>
    ensures { option_copied result ≡ name_in e.now }
{
    match e {
        Expr::Variable(name) => Some(name.text.as_slice()),
        Expr::Group(inner, _) => name_in(inner.get()),
        _ => None,
    }
}

/// Adds the parts of an expression.
#[cycle(expression_parts)]
pub fn add_expr(parts: &mut Seq<Part>, names: &Names, e: &Expr) -> Result<(), NoMemory>
    ensures { OnOk result (parts.new ≡ parts.old ++ expr_parts names.now e.now) }
{
    match e {
        Expr::Operation { first, others, .. } => {
            add_expr(parts, names, first.get())?;
            add_operands(parts, names, others)
        }
        Expr::Not(inner, _)
        | Expr::Negate(inner, _)
        | Expr::IsValid(inner, _)
        | Expr::IsInvalid(inner, _) => {
            parts.push(Part::Plain)?;
            add_expr(parts, names, inner.get())
        }
        Expr::Postfix {
            value,
            suffixes,
            span,
        } => {
            add_expr(parts, names, value.get())?;
            add_suffixes(parts, names, name_in(value.get()), *span, suffixes)
        }
        Expr::Call {
            name,
            arguments,
            span,
        } => {
            parts.push(call_of(names, name.text.as_slice(), *span))?;
            add_args(parts, names, arguments)
        }
        Expr::Cast { value, .. } => {
            parts.push(Part::Plain)?;
            add_expr(parts, names, value.get())
        }
        Expr::Group(inner, _) => add_expr(parts, names, inner.get()),
        Expr::Number(..)
        | Expr::True(_)
        | Expr::False(_)
        | Expr::Nothing(_)
        | Expr::Variable(_)
        | Expr::Member { .. }
        | Expr::New(..) => parts.push(Part::Plain),
    }
}

#[cycle(expression_parts)]
fn add_operands(parts: &mut Seq<Part>, names: &Names, operands: &[Operand]) -> Result<(), NoMemory>
    ensures { OnOk result (parts.new ≡ parts.old ++ flat_map (operand_parts names.now) operands.now) }
{
    for operand in operands {
        parts.push(Part::Plain)?;
        add_expr(parts, names, &operand.value)?;
    }
    Ok(())
}

// The name that the suffix of this number is behind: none, but for the first.
fn name_behind<'a>(receiver: Option<&'a [u8]>, number: usize) -> Option<&'a [u8]>
    ensures { option_copied result ≡ receiver_at (option_copied receiver.entry) number }
{
    if number == 0 { receiver } else { None }
}

#[cycle(expression_parts)]
fn add_suffixes(
    parts: &mut Seq<Part>,
    names: &Names,
    receiver: Option<&[u8]>,
    place: Span,
    suffixes: &[Suffix],
) -> Result<(), NoMemory>
    ensures { OnOk result (parts.new ≡ parts.old
        ++ suffix_list_parts names.now (option_copied receiver.entry) place suffixes.now) }
{
    for (number, suffix) in suffixes.iter().enumerate() {
        let behind = name_behind(receiver, number);
        add_suffix(parts, names, behind, place, suffix)?;
    }
    Ok(())
}

#[cycle(expression_parts)]
fn add_suffix(
    parts: &mut Seq<Part>,
    names: &Names,
    receiver: Option<&[u8]>,
    place: Span,
    s: &Suffix,
) -> Result<(), NoMemory>
    ensures { OnOk result (parts.new ≡ parts.old
        ++ suffix_parts names.now (option_copied receiver.entry) place s.now) }
{
    match s {
        Suffix::Field(..) => parts.push(Part::Plain),
        Suffix::Method {
            name,
            arguments,
            ..
        } => {
            let changes = is_change(names, receiver, name.text.as_slice());
            parts.push(change_part(changes, place))?;
            add_args(parts, names, arguments)
        }
        Suffix::Index(key, _) => {
            parts.push(Part::Plain)?;
            add_expr(parts, names, key)
        }
    }
}

#[cycle(expression_parts)]
fn add_args(parts: &mut Seq<Part>, names: &Names, a: &Args) -> Result<(), NoMemory>
    ensures { OnOk result (parts.new ≡ parts.old ++ flat_map (expr_parts names.now) a.now.items) }
{
    for item in a.items.as_slice() {
        add_expr(parts, names, item)?;
    }
    Ok(())
}
