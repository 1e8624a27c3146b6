// Texts that are read as expressions.
ghost use Rattle.std.specs.Prelude.{◌≤◌, length};
ghost use Rattle.slicc_lex.specs.Prelude.{AreEnded};

use crate::forms::Reading;
use example_texts::RowText;
use ruby_base::Seq;
use slicc_ast::tree::{Expr, Operand, Operator, Suffix};
use slicc_expr::expr;
use slicc_lex::Token;
use slicc_plan::span_of;

fn operator_text(operator: Operator) -> &'static str {
    match operator {
        Operator::Or => "||",
        Operator::And => "&&",
        Operator::Equal => "==",
        Operator::Unequal => "!=",
        Operator::Less => "<",
        Operator::Greater => ">",
        Operator::LessOrEqual => "<=",
        Operator::GreaterOrEqual => ">=",
        Operator::Plus => "+",
        Operator::Minus => "-",
        Operator::Times => "*",
    }
}

// The last operator, and where its operand begins.
fn last_operand(others: &[Operand]) -> (&'static str, u32) {
    match others.last() {
        Some(last) => (operator_text(last.operator), span_of(&last.value).start),
        None => ("", 0),
    }
}

// The last suffix, and where the name or the expression in it begins, or that of its arguments.
fn last_suffix(suffixes: &[Suffix]) -> (&'static str, u32) {
    match suffixes.last() {
        Some(Suffix::Field(name, _)) => (".", name.span.start),
        Some(Suffix::Method { arguments, .. }) => (".()", arguments.span.start),
        Some(Suffix::Index(key, _)) => ("[]", span_of(key).start),
        None => ("", 0),
    }
}

// What the expression is, and where the last expression or name in it begins, or that of its arguments.
fn root(e: &Expr) -> (&'static str, u32) {
    match e {
        Expr::Operation { others, .. } => last_operand(others),
        Expr::Not(operand, _) => ("!", span_of(operand.get()).start),
        Expr::Negate(operand, _) => ("negate", span_of(operand.get()).start),
        Expr::Postfix { suffixes, .. } => last_suffix(suffixes),
        Expr::Number(_, span) => ("number", span.start),
        Expr::True(span) => ("true", span.start),
        Expr::False(span) => ("false", span.start),
        Expr::Nothing(span) => ("OOD", span.start),
        Expr::Variable(name) => ("name", name.span.start),
        Expr::Member { member, .. } => ("member", member.span.start),
        Expr::Call { arguments, .. } => ("call", arguments.span.start),
        Expr::New(name, _) => ("new", name.span.start),
        Expr::IsValid(value, _) => ("is_valid", span_of(value.get()).start),
        Expr::IsInvalid(value, _) => ("is_invalid", span_of(value.get()).start),
        Expr::Cast { value, .. } => ("static_cast", span_of(value.get()).start),
        Expr::Group(inner, _) => ("()", span_of(inner.get()).start),
    }
}

/// Adds how many tokens there are up to the end of the expression, what it is, by its last operator or suffix where it has any, and where
/// the last expression or name in it begins, or the fault.
pub(crate) fn add_expression(rows: &mut RowText, reading: Reading, tokens: &Seq<Token>)
    requires ended { AreEnded tokens.now }
    requires size { length tokens.now ≤ 1048577 }
{
    if reading.at as usize >= tokens.len() || reading.depth > 64 {
        return rows.lose();
    }
    match expr(rows.alloc(), tokens, reading.at, reading.depth) {
        Ok((tree, next)) => {
            let (what, start) = root(&tree);
            drop(tree);
            rows.show("", &next);
            rows.show(" ", &what);
            rows.show(" ", &start);
        }
        Err(fault) => rows.debug("", &fault),
    }
}
