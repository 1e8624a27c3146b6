ghost use Rattle.std.specs.Prelude.{◌≡◌, ◌++◌, OnOk};
ghost use Rattle.std.specs.List.{flat_map};
ghost use Rattle.slicc_ast.specs.Prelude.{expr, none, spans_in, spans_of, else_if_spans, block_outline, if_outline, optional_expr, stmt};

use super::balanced::add_balanced;
use super::declaration::add_pairs;
use super::expression::add_expr;
use crate::tree::{Block, ElseIf, Expr, If, Span, Stmt};
use ruby_base::{NoMemory, Seq};

/// Adds spans, and those of an expression behind them.
fn add_behind(spans: &mut Seq<Span>, before: &[Span], value: &Expr) -> Result<(), NoMemory>
    ensures { OnOk result (spans.new ≡ spans.old ++ (before.now ++ spans_of (expr value.now))) }
{
    spans.append(before)?;
    add_expr(spans, value)
}

fn add_optional(spans: &mut Seq<Span>, value: &Option<Expr>) -> Result<(), NoMemory>
    ensures { OnOk result (spans.new ≡ spans.old ++ spans_in (optional_expr value.now none)) }
{
    match value {
        Some(value) => add_expr(spans, value),
        None => Ok(()),
    }
}

/// Adds the spans of a block.
#[cycle(statement_spans)]
pub fn add_block(spans: &mut Seq<Span>, b: &Block) -> Result<(), NoMemory>
    ensures { OnOk result (spans.new ≡ spans.old ++ spans_of (block_outline b.now)) }
{
    spans.push(b.span)?;
    for statement in b.statements.as_slice() {
        add_stmt(spans, statement)?;
    }
    Ok(())
}

#[cycle(statement_spans)]
fn add_if(spans: &mut Seq<Span>, i: &If) -> Result<(), NoMemory>
    ensures { OnOk result (spans.new ≡ spans.old ++ spans_of (if_outline i.now)) }
{
    spans.push(i.span)?;
    add_expr(spans, &i.condition)?;
    add_block(spans, &i.then)?;
    add_others(spans, &i.others)?;
    match &i.otherwise {
        Some(block) => add_block(spans, block),
        None => Ok(()),
    }
}

#[cycle(statement_spans)]
fn add_others(spans: &mut Seq<Span>, others: &[ElseIf]) -> Result<(), NoMemory>
    ensures { OnOk result (spans.new ≡ spans.old ++ flat_map else_if_spans others.now) }
{
    for other in others {
        add_expr(spans, &other.condition)?;
        add_block(spans, &other.then)?;
    }
    Ok(())
}

#[cycle(statement_spans)]
fn add_stmt(spans: &mut Seq<Span>, s: &Stmt) -> Result<(), NoMemory>
    ensures { OnOk result (spans.new ≡ spans.old ++ spans_of (stmt s.now)) }
{
    match s {
        Stmt::Declare {
            kind,
            name,
            value,
            span,
        } => add_behind(spans, &[*span, kind.span, name.span], value),
        Stmt::Assign { place, value, span } => {
            add_behind(spans, &[*span], place)?;
            add_expr(spans, value)
        }
        Stmt::Evaluate(value, span) | Stmt::Assert(value, span) => {
            add_behind(spans, &[*span], value)
        }
        Stmt::Return(value, span) => {
            spans.push(*span)?;
            add_optional(spans, value)
        }
        Stmt::If(inner) => add_if(spans, inner),
        Stmt::Peek {
            port,
            message,
            pairs,
            body,
            span,
        } => {
            spans.append(&[*span, port.span, message.span])?;
            add_pairs(spans, pairs)?;
            add_block(spans, body)
        }
        Stmt::Enqueue {
            port,
            message,
            latency,
            body,
            span,
        } => {
            spans.append(&[*span, port.span, message.span])?;
            add_optional(spans, latency)?;
            add_block(spans, body)
        }
        Stmt::StallAndWait {
            port,
            address,
            span,
        } => add_behind(spans, &[*span, port.span], address),
        Stmt::CheckAllocate(table, span) => spans.append(&[*span, table.span]),
        Stmt::Error(_, span) => spans.push(*span),
        Stmt::Print {
            arguments,
            span,
            ..
        } => {
            spans.push(*span)?;
            add_balanced(spans, arguments)
        }
    }
}
