//! The parts of statements.
ghost use Rattle.std.specs.Prelude.{◌≡◌, ◌++◌, OnOk};
ghost use Rattle.std.specs.List.{flat_map};
ghost use Rattle.slicc_plan.specs.Prelude.{assignment, block_parts, check_part, if_parts, number_in, optional_parts, stmt_parts};
ghost use Rattle.slicc_flow.specs.Prelude.{else_if_parts};

use crate::expression::{add_expr, change_part, name_in};
use crate::names::Names;
use ruby_base::{NoMemory, Seq};
use slicc_ast::tree::{Block, ElseIf, Expr, If, Span, Stmt};
use slicc_plan::Part;

fn add_optional(parts: &mut Seq<Part>, names: &Names, value: &Option<Expr>) -> Result<(), NoMemory>
    ensures { OnOk result (parts.new ≡ parts.old ++ optional_parts names.now value.now) }
{
    match value {
        Some(value) => add_expr(parts, names, value),
        None => Ok(()),
    }
}

fn assignment_part(place: &Expr, span: Span) -> Part
    ensures { result ≡ assignment place.now span }
{
    change_part(name_in(place).is_none(), span)
}

fn check_of(names: &Names, table: &[u8]) -> Part
    ensures { result ≡ check_part (number_in names.now.tables table.now) }
{
    match names.table(table) {
        Some(k) => Part::Check(k),
        None => Part::Plain,
    }
}

/// Adds the parts of a block.
#[cycle(statement_parts)]
pub fn add_block(parts: &mut Seq<Part>, names: &Names, b: &Block) -> Result<(), NoMemory>
    ensures { OnOk result (parts.new ≡ parts.old ++ block_parts names.now b.now) }
{
    for statement in b.statements.as_slice() {
        add_stmt(parts, names, statement)?;
    }
    Ok(())
}

#[cycle(statement_parts)]
fn add_if(parts: &mut Seq<Part>, names: &Names, i: &If) -> Result<(), NoMemory>
    ensures { OnOk result (parts.new ≡ parts.old ++ if_parts names.now i.now) }
{
    add_expr(parts, names, &i.condition)?;
    add_block(parts, names, &i.then)?;
    add_others(parts, names, &i.others)?;
    match &i.otherwise {
        Some(block) => add_block(parts, names, block),
        None => Ok(()),
    }
}

#[cycle(statement_parts)]
fn add_others(parts: &mut Seq<Part>, names: &Names, others: &[ElseIf]) -> Result<(), NoMemory>
    ensures { OnOk result (parts.new ≡ parts.old ++ flat_map (else_if_parts names.now) others.now) }
{
    for other in others {
        add_expr(parts, names, &other.condition)?;
        add_block(parts, names, &other.then)?;
    }
    Ok(())
}

#[cycle(statement_parts)]
fn add_stmt(parts: &mut Seq<Part>, names: &Names, s: &Stmt) -> Result<(), NoMemory>
    ensures { OnOk result (parts.new ≡ parts.old ++ stmt_parts names.now s.now) }
{
    match s {
        Stmt::Declare { value, .. } | Stmt::Evaluate(value, _) | Stmt::Assert(value, _) => {
            parts.push(Part::Plain)?;
            add_expr(parts, names, value)
        }
        Stmt::Assign { place, value, span } => {
            parts.push(assignment_part(place, *span))?;
            add_expr(parts, names, place)?;
            add_expr(parts, names, value)
        }
        Stmt::Return(value, _) => {
            parts.push(Part::Plain)?;
            add_optional(parts, names, value)
        }
        Stmt::If(inner) => {
            parts.push(Part::Plain)?;
            add_if(parts, names, inner)
        }
        Stmt::Peek { body, .. } => {
            parts.push(Part::Plain)?;
            add_block(parts, names, body)
        }
        Stmt::Enqueue { latency, body, .. } => {
            parts.push(Part::Plain)?;
            add_optional(parts, names, latency)?;
            add_block(parts, names, body)
        }
        Stmt::StallAndWait { address, .. } => {
            parts.push(Part::Plain)?;
            add_expr(parts, names, address)
        }
        Stmt::CheckAllocate(table, _) => parts.push(check_of(names, table.text.as_slice())),
        Stmt::Error(..) | Stmt::Print { .. } => parts.push(Part::Plain),
    }
}
