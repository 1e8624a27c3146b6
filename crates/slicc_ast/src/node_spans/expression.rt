//! The spans of a tree's nodes, in the order of the text.
ghost use Rattle.std.specs.Prelude.{◌≡◌, ◌++◌, OnOk};
ghost use Rattle.std.specs.List.{flat_map};
ghost use Rattle.slicc_ast.specs.Expressions.{suffix};
ghost use Rattle.slicc_ast.specs.Prelude.{args, expr, spans_of, operand_spans, suffix_spans};

use crate::tree::{Args, Expr, Operand, Span, Suffix};
use ruby_base::{NoMemory, Seq};

/// Adds the spans of an expression.
#[cycle(expression_spans)]
pub fn add_expr(spans: &mut Seq<Span>, e: &Expr) -> Result<(), NoMemory>
    ensures { OnOk result (spans.new ≡ spans.old ++ spans_of (expr e.now)) }
{
    match e {
        Expr::Operation {
            first,
            others,
            span,
        } => {
            spans.push(*span)?;
            add_expr(spans, first.get())?;
            add_operands(spans, others)
        }
        Expr::Not(inner, span)
        | Expr::Negate(inner, span)
        | Expr::IsValid(inner, span)
        | Expr::IsInvalid(inner, span)
        | Expr::Group(inner, span) => {
            spans.push(*span)?;
            add_expr(spans, inner.get())
        }
        Expr::Postfix {
            value,
            suffixes,
            span,
        } => {
            spans.push(*span)?;
            add_expr(spans, value.get())?;
            add_suffixes(spans, suffixes)
        }
        Expr::Number(_, span) | Expr::True(span) | Expr::False(span) | Expr::Nothing(span) => {
            spans.push(*span)
        }
        Expr::Variable(name) => spans.push(name.span),
        Expr::Member {
            owner,
            member,
            span,
        } => spans.append(&[*span, owner.span, member.span]),
        Expr::Call {
            name,
            arguments,
            span,
        } => {
            spans.append(&[*span, name.span])?;
            add_args(spans, arguments)
        }
        Expr::New(name, span) => spans.append(&[*span, name.span]),
        Expr::Cast {
            target,
            value,
            span,
            ..
        } => {
            spans.append(&[*span, target.span])?;
            add_expr(spans, value.get())
        }
    }
}

#[cycle(expression_spans)]
fn add_operands(spans: &mut Seq<Span>, operands: &[Operand]) -> Result<(), NoMemory>
    ensures { OnOk result (spans.new ≡ spans.old ++ flat_map operand_spans operands.now) }
{
    for operand in operands {
        add_expr(spans, &operand.value)?;
    }
    Ok(())
}

#[cycle(expression_spans)]
fn add_suffixes(spans: &mut Seq<Span>, suffixes: &[Suffix]) -> Result<(), NoMemory>
    ensures { OnOk result (spans.new ≡ spans.old ++ flat_map suffix_spans suffixes.now) }
{
    for suffix in suffixes {
        add_suffix(spans, suffix)?;
    }
    Ok(())
}

#[cycle(expression_spans)]
fn add_suffix(spans: &mut Seq<Span>, s: &Suffix) -> Result<(), NoMemory>
    ensures { OnOk result (spans.new ≡ spans.old ++ spans_of (suffix s.now)) }
{
    match s {
        Suffix::Field(name, span) => spans.append(&[*span, name.span]),
        Suffix::Method {
            name,
            arguments,
            span,
        } => {
            spans.append(&[*span, name.span])?;
            add_args(spans, arguments)
        }
        Suffix::Index(key, span) => {
            spans.push(*span)?;
            add_expr(spans, key)
        }
    }
}

/// Adds the spans of arguments.
#[cycle(expression_spans)]
pub fn add_args(spans: &mut Seq<Span>, a: &Args) -> Result<(), NoMemory>
    ensures { OnOk result (spans.new ≡ spans.old ++ spans_of (args a.now)) }
{
    spans.push(a.span)?;
    for item in a.items.as_slice() {
        add_expr(spans, item)?;
    }
    Ok(())
}
