//! Statements and blocks.
ghost use Rattle.std.specs.Prelude.{◌≡◌, ◌==◌};
ghost use Rattle.slicc_ast.specs.Prelude.{none, block_end, if_outline, optional_expr, print_word, stmt, stmt_list};
ghost use Rattle.slicc_same.specs.Prelude.{all_alike, same_parts, same_shape, word_number, alike_else, alike_else_if, alike_stmt};

use crate::balanced::same_balanced;
use crate::declaration::same_pairs;
use crate::expression::same_expr;
use crate::token::{same_name, same_text, same_type};
use slicc_ast::tree::{Block, ElseIf, Expr, If, PrintWord, Stmt};

fn same_print_word(a: PrintWord, b: PrintWord) -> bool
    ensures { result ≡ (word_number (print_word a) == word_number (print_word b)) }
{
    a == b
}

fn same_optional(a: &Option<Expr>, b: &Option<Expr>) -> bool
    ensures { result ≡ same_parts (optional_expr a.now none) (optional_expr b.now none) }
{
    match (a, b) {
        (Some(a), Some(b)) => same_expr(a, b),
        (None, None) => true,
        _ => false,
    }
}

#[cycle(statement)]
pub fn same_block(a: &Block, b: &Block) -> bool
    ensures { result ≡ same_parts (stmt_list a.now.statements block_end) (stmt_list b.now.statements block_end) }
{
    all_same_statements(&a.statements, &b.statements)
}

#[cycle(statement)]
fn all_same_statements(a: &[Stmt], b: &[Stmt]) -> bool
    ensures { result ≡ all_alike alike_stmt a.now b.now }
{
    let mut right = b;
    for x in a {
        let [y, others @ ..] = right else {
            return false;
        };
        if !same_stmt(x, y) {
            return false;
        }
        right = others;
    }
    right.is_empty()
}

#[cycle(statement)]
fn all_same_else_ifs(a: &[ElseIf], b: &[ElseIf]) -> bool
    ensures { result ≡ all_alike alike_else_if a.now b.now }
{
    let mut right = b;
    for x in a {
        let [y, others @ ..] = right else {
            return false;
        };
        if !same_expr(&x.condition, &y.condition) || !same_block(&x.then, &y.then) {
            return false;
        }
        right = others;
    }
    right.is_empty()
}

#[cycle(statement)]
fn same_else(a: &Option<Block>, b: &Option<Block>) -> bool
    ensures { result ≡ alike_else a.now b.now }
{
    match (a, b) {
        (Some(a), Some(b)) => same_block(a, b),
        (None, None) => true,
        _ => false,
    }
}

#[cycle(statement)]
fn same_if(a: &If, b: &If) -> bool
    ensures { result ≡ same_shape (if_outline a.now) (if_outline b.now) }
{
    same_expr(&a.condition, &b.condition)
        && same_block(&a.then, &b.then)
        && all_same_else_ifs(&a.others, &b.others)
        && same_else(&a.otherwise, &b.otherwise)
}

#[cycle(statement)]
fn same_stmt(a: &Stmt, b: &Stmt) -> bool
    ensures { result ≡ same_shape (stmt a.now) (stmt b.now) }
{
    match (a, b) {
        (
            Stmt::Declare {
                kind,
                name,
                value,
                ..
            },
            Stmt::Declare {
                kind: other_kind,
                name: other_name,
                value: other_value,
                ..
            },
        ) => {
            same_type(kind, other_kind)
                && same_name(name, other_name)
                && same_expr(value, other_value)
        }
        (
            Stmt::Assign { place, value, .. },
            Stmt::Assign {
                place: other_place,
                value: other_value,
                ..
            },
        ) => same_expr(place, other_place) && same_expr(value, other_value),
        (Stmt::Evaluate(a, _), Stmt::Evaluate(b, _)) => same_expr(a, b),
        (Stmt::Return(a, _), Stmt::Return(b, _)) => same_optional(a, b),
        (Stmt::If(a), Stmt::If(b)) => same_if(a, b),
        (
            Stmt::Peek {
                port,
                message,
                pairs,
                body,
                ..
            },
            Stmt::Peek {
                port: other_port,
                message: other_message,
                pairs: other_pairs,
                body: other_body,
                ..
            },
        ) => {
            same_name(port, other_port)
                && same_type(message, other_message)
                && same_pairs(pairs, other_pairs)
                && same_block(body, other_body)
        }
        (
            Stmt::Enqueue {
                port,
                message,
                latency,
                body,
                ..
            },
            Stmt::Enqueue {
                port: other_port,
                message: other_message,
                latency: other_latency,
                body: other_body,
                ..
            },
        ) => {
            same_name(port, other_port)
                && same_type(message, other_message)
                && same_optional(latency, other_latency)
                && same_block(body, other_body)
        }
        (
            Stmt::StallAndWait { port, address, .. },
            Stmt::StallAndWait {
                port: other_port,
                address: other_address,
                ..
            },
        ) => same_name(port, other_port) && same_expr(address, other_address),
        (Stmt::CheckAllocate(a, _), Stmt::CheckAllocate(b, _)) => same_name(a, b),
        (Stmt::Error(a, _), Stmt::Error(b, _)) => same_text(a, b),
        (Stmt::Assert(a, _), Stmt::Assert(b, _)) => same_expr(a, b),
        (
            Stmt::Print {
                word,
                arguments,
                ..
            },
            Stmt::Print {
                word: other_word,
                arguments: other_arguments,
                ..
            },
        ) => same_print_word(*word, *other_word) && same_balanced(arguments, other_arguments),
        _ => false,
    }
}
