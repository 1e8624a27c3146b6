//! The operators between two operands.
ghost use Rattle.std.specs.Option.{IfSome};
ghost use Rattle.std.specs.Prelude.{◌≡◌, ◌<◌, ◌≤◌, ◌+◌, ℕ, false, length, MatchOption};
ghost use Rattle.slicc_ast.specs.Prelude.{has, is_ahead, operator_level, operator_sign, kind_of, sign_kind};
ghost use Rattle.slicc_ast.specs.declared.tree.token.TokenKind.TheVariants.{Sign as SignOf};
ghost use Rattle.slicc_lex.specs.Prelude.{symbols};
ghost use Rattle.slicc_expr.specs.Prelude.{IsOperator, kinds_at};

use slicc_ast::tree::{Operator, Sign, TokenKind};
use slicc_lex::Token;
use slicc_reading::split_first;

fn product_operator(sign: Sign) -> Option<Operator>
    ensures { MatchOption result (has (kinds_at 0) (sign_kind sign) ≡ false) (λ o. (operator_sign o ≡ sign) × (operator_level o ≡ 6)) }
{
    match sign {
        Sign::Star => Some(Operator::Times),
        _ => None,
    }
}

fn sum_operator(sign: Sign) -> Option<Operator>
    ensures { MatchOption result (has (kinds_at 1) (sign_kind sign) ≡ false) (λ o. (operator_sign o ≡ sign) × (operator_level o ≡ 5)) }
{
    match sign {
        Sign::Plus => Some(Operator::Plus),
        Sign::Minus => Some(Operator::Minus),
        _ => None,
    }
}

fn order_operator(sign: Sign) -> Option<Operator>
    ensures { MatchOption result (has (kinds_at 2) (sign_kind sign) ≡ false) (λ o. (operator_sign o ≡ sign) × (operator_level o ≡ 4)) }
{
    match sign {
        Sign::Less => Some(Operator::Less),
        Sign::Greater => Some(Operator::Greater),
        Sign::LessOrEqual => Some(Operator::LessOrEqual),
        Sign::GreaterOrEqual => Some(Operator::GreaterOrEqual),
        _ => None,
    }
}

fn equality_operator(sign: Sign) -> Option<Operator>
    ensures { MatchOption result (has (kinds_at 3) (sign_kind sign) ≡ false) (λ o. (operator_sign o ≡ sign) × (operator_level o ≡ 3)) }
{
    match sign {
        Sign::Equal => Some(Operator::Equal),
        Sign::Unequal => Some(Operator::Unequal),
        _ => None,
    }
}

fn conjunction_operator(sign: Sign) -> Option<Operator>
    ensures { MatchOption result (has (kinds_at 4) (sign_kind sign) ≡ false) (λ o. (operator_sign o ≡ sign) × (operator_level o ≡ 2)) }
{
    match sign {
        Sign::And => Some(Operator::And),
        _ => None,
    }
}

fn disjunction_operator(sign: Sign) -> Option<Operator>
    ensures { MatchOption result (has (kinds_at 5) (sign_kind sign) ≡ false) (λ o. (operator_sign o ≡ sign) × (operator_level o ≡ 1)) }
{
    match sign {
        Sign::Or => Some(Operator::Or),
        _ => None,
    }
}

/// The sign as an operator of this height.
fn operator_of(height: u8, sign: Sign) -> Option<Operator>
    requires { height ≤ 5 }
    ensures { MatchOption result (has (kinds_at height) (sign_kind sign) ≡ false) (λ o. (operator_sign o ≡ sign) × (operator_level o + height ≡ 6)) }
{
    match height {
        0 => product_operator(sign),
        1 => sum_operator(sign),
        2 => order_operator(sign),
        3 => equality_operator(sign),
        4 => conjunction_operator(sign),
        _ => disjunction_operator(sign),
    }
}

fn sign_of(kind: &TokenKind) -> Option<Sign>
    ensures signs { IfSome result (λ sign. kind.now ≡ SignOf sign) }
    ensures others { (height : ℕ) → height ≤ 5 → result ≡ None → has (kinds_at height) (kind_of kind.now) ≡ false }
{
    match kind {
        TokenKind::Sign(sign) => Some(*sign),
        _ => None,
    }
}

/// The first token as an operator of this height, with the tokens behind it.
pub fn operator(height: u8, tokens: &[Token]) -> Option<(Operator, &[Token])>
    requires { height ≤ 5 }
    ensures operator { MatchOption result (is_ahead (kinds_at height) (symbols tokens.now) ≡ false) (λ read. IsOperator height read.0 tokens.now read.1.now) }
    ensures shorter { IfSome result (λ read. length read.1.now < length tokens.now) }
{
    let (first, left) = split_first(tokens)?;
    let sign = sign_of(&first.kind)?;
    let operator = operator_of(height, sign)?;
    Some((operator, left))
}
