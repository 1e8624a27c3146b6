//! Expressions.
ghost use Rattle.std.specs.Prelude.{◌≡◌, ◌==◌};
ghost use Rattle.slicc_ast.specs.Expressions.{suffix};
ghost use Rattle.slicc_ast.specs.Prelude.{args_list, expr, mode_parts, operator_sign, none};
ghost use Rattle.slicc_same.specs.Prelude.{all_alike, same_parts, same_shape, sign_number, alike_expr, alike_operand, alike_suffix};

use crate::token::{same_name, same_text, same_type};
use slicc_ast::Text;
use slicc_ast::tree::{Args, Expr, Operand, Operator, Suffix};

fn same_operator(a: Operator, b: Operator) -> bool
    ensures { result ≡ (sign_number (operator_sign a) == sign_number (operator_sign b)) }
{
    a == b
}

fn same_mode(a: &Option<Text>, b: &Option<Text>) -> bool
    ensures { result ≡ same_parts (mode_parts a.now none) (mode_parts b.now none) }
{
    match (a, b) {
        (Some(a), Some(b)) => same_text(a, b),
        (None, None) => true,
        _ => false,
    }
}

#[cycle(expression)]
pub fn same_expr(a: &Expr, b: &Expr) -> bool
    ensures { result ≡ same_shape (expr a.now) (expr b.now) }
{
    match (a, b) {
        (
            Expr::Operation { first, others, .. },
            Expr::Operation {
                first: other,
                others: more,
                ..
            },
        ) => same_expr(first.get(), other.get()) && all_same_operands(others, more),
        // With nothing behind their first parts, which no reader makes, these two are spelled alike.
        (
            Expr::Operation { first, others, .. },
            Expr::Postfix {
                value,
                suffixes,
                ..
            },
        ) => { others.is_empty() && suffixes.is_empty() && same_expr(first.get(), value.get()) }
        (
            Expr::Postfix {
                value,
                suffixes,
                ..
            },
            Expr::Operation { first, others, .. },
        ) => { others.is_empty() && suffixes.is_empty() && same_expr(value.get(), first.get()) }
        (
            Expr::Postfix {
                value,
                suffixes,
                ..
            },
            Expr::Postfix {
                value: other,
                suffixes: more,
                ..
            },
        ) => same_expr(value.get(), other.get()) && all_same_suffixes(suffixes, more),
        (Expr::Not(a, _), Expr::Not(b, _)) => same_expr(a.get(), b.get()),
        (Expr::Negate(a, _), Expr::Negate(b, _)) => same_expr(a.get(), b.get()),
        (Expr::Number(a, _), Expr::Number(b, _)) => *a == *b,
        (Expr::True(_), Expr::True(_)) => true,
        (Expr::False(_), Expr::False(_)) => true,
        (Expr::Nothing(_), Expr::Nothing(_)) => true,
        (Expr::Variable(a), Expr::Variable(b)) => same_name(a, b),
        (
            Expr::Member { owner, member, .. },
            Expr::Member {
                owner: other_owner,
                member: other_member,
                ..
            },
        ) => same_name(owner, other_owner) && same_name(member, other_member),
        (
            Expr::Call {
                name,
                arguments,
                ..
            },
            Expr::Call {
                name: other,
                arguments: more,
                ..
            },
        ) => same_name(name, other) && same_args(arguments, more),
        (Expr::New(a, _), Expr::New(b, _)) => same_name(a, b),
        (Expr::IsValid(a, _), Expr::IsValid(b, _)) => same_expr(a.get(), b.get()),
        (Expr::IsInvalid(a, _), Expr::IsInvalid(b, _)) => same_expr(a.get(), b.get()),
        (
            Expr::Cast {
                target,
                mode,
                value,
                ..
            },
            Expr::Cast {
                target: other_target,
                mode: other_mode,
                value: other_value,
                ..
            },
        ) => {
            same_type(target, other_target)
                && same_mode(mode, other_mode)
                && same_expr(value.get(), other_value.get())
        }
        (Expr::Group(a, _), Expr::Group(b, _)) => same_expr(a.get(), b.get()),
        _ => false,
    }
}

#[cycle(expression)]
fn same_args(a: &Args, b: &Args) -> bool
    ensures { result ≡ same_parts (args_list a.now.items) (args_list b.now.items) }
{
    all_same_values(&a.items, &b.items)
}

#[cycle(expression)]
fn all_same_values(a: &[Expr], b: &[Expr]) -> bool
    ensures { result ≡ all_alike alike_expr a.now b.now }
{
    let mut right = b;
    for x in a {
        let [y, others @ ..] = right else {
            return false;
        };
        if !same_expr(x, y) {
            return false;
        }
        right = others;
    }
    right.is_empty()
}

#[cycle(expression)]
fn all_same_operands(a: &[Operand], b: &[Operand]) -> bool
    ensures { result ≡ all_alike alike_operand a.now b.now }
{
    let mut right = b;
    for x in a {
        let [y, others @ ..] = right else {
            return false;
        };
        if !same_operator(x.operator, y.operator) || !same_expr(&x.value, &y.value) {
            return false;
        }
        right = others;
    }
    right.is_empty()
}

#[cycle(expression)]
fn all_same_suffixes(a: &[Suffix], b: &[Suffix]) -> bool
    ensures { result ≡ all_alike alike_suffix a.now b.now }
{
    let mut right = b;
    for x in a {
        let [y, others @ ..] = right else {
            return false;
        };
        if !same_suffix(x, y) {
            return false;
        }
        right = others;
    }
    right.is_empty()
}

#[cycle(expression)]
fn same_suffix(a: &Suffix, b: &Suffix) -> bool
    ensures { result ≡ same_shape (suffix a.now) (suffix b.now) }
{
    match (a, b) {
        (Suffix::Field(a, _), Suffix::Field(b, _)) => same_name(a, b),
        (
            Suffix::Method {
                name,
                arguments,
                ..
            },
            Suffix::Method {
                name: other,
                arguments: more,
                ..
            },
        ) => same_name(name, other) && same_args(arguments, more),
        (Suffix::Index(a, _), Suffix::Index(b, _)) => same_expr(a, b),
        _ => false,
    }
}
