//! Nodes of expressions that hold expressions, made of their parts, each with what it is spelled by.
ghost use Rattle.std.specs.Prelude.{◌≡◌, IfOk, nat_le};
ghost use Rattle.slicc_ast.specs.declared.tree.token.Sign.TheVariants.{CloseBracket, CloseParenthesis, Comma, Dot, Minus, Not, OpenBracket, OpenParenthesis};
ghost use Rattle.slicc_ast.specs.declared.tree.token.Word.TheVariants.{IsInvalid, IsValid, StaticCast};
ghost use Rattle.slicc_ast.specs.Expressions.{suffix};
ghost use Rattle.slicc_ast.specs.Prelude.{args, expr, level_of, list_level, mode_parts, type_name, node, none, part, provided};
ghost use Rattle.slicc_ast.specs.Names.{name as name_of, sign, word};
ghost use Rattle.slicc_expr.specs.Prelude.{operation_node, postfix_node};

use ruby_base::{Boxed, Seq};
use slicc_ast::tree::{Args, Expr, Name, Operand, Span, Suffix, TypeName};
use slicc_ast::{NoMemory, Text};
use std::alloc::Global;

#[tactic(auto, using(crate::proofs::MadeNodes::expr_of_Operation, crate::proofs::MadeNodes::level_of_Operation))]
pub fn operation(
    alloc: Global,
    first: Expr,
    others: Seq<Operand>,
    span: Span,
) -> Result<Expr, NoMemory>
    ensures spells { IfOk result (λ e. expr e ≡ operation_node span first others) }
    ensures level { IfOk result (λ e. level_of e ≡ list_level others) }
{
    let first = Boxed::new(alloc, first)?;
    Ok(Expr::Operation {
        first,
        others,
        span,
    })
}

#[tactic(auto, using(crate::proofs::MadeNodes::expr_of_Not, crate::proofs::MadeNodes::level_of_Not))]
pub fn not(alloc: Global, operand: Expr, span: Span) -> Result<Expr, NoMemory>
    ensures spells { IfOk result (λ e. expr e ≡ node span
        (provided (nat_le 7 (level_of operand)) (sign Not (part (expr operand) none)))) }
    ensures level { IfOk result (λ e. level_of e ≡ 7) }
{
    Ok(Expr::Not(Boxed::new(alloc, operand)?, span))
}

#[tactic(auto, using(crate::proofs::MadeNodes::expr_of_Negate, crate::proofs::MadeNodes::level_of_Negate))]
pub fn negate(alloc: Global, operand: Expr, span: Span) -> Result<Expr, NoMemory>
    ensures spells { IfOk result (λ e. expr e ≡ node span
        (provided (nat_le 7 (level_of operand)) (sign Minus (part (expr operand) none)))) }
    ensures level { IfOk result (λ e. level_of e ≡ 7) }
{
    Ok(Expr::Negate(Boxed::new(alloc, operand)?, span))
}

pub fn field(name: Name, span: Span) -> Suffix
    ensures { suffix result ≡ node span (sign Dot (name_of name none)) }
{
    Suffix::Field(name, span)
}

pub fn method(name: Name, arguments: Args, span: Span) -> Suffix
    ensures { suffix result ≡ node span (sign Dot (name_of name (sign OpenParenthesis (part (args arguments) (sign CloseParenthesis none))))) }
{
    Suffix::Method {
        name,
        arguments,
        span,
    }
}

pub fn index(key: Expr, span: Span) -> Suffix
    ensures { suffix result ≡ node span (sign OpenBracket (part (expr key) (sign CloseBracket none))) }
{
    Suffix::Index(key, span)
}

#[tactic(auto, using(crate::proofs::MadeNodes::expr_of_Postfix, crate::proofs::MadeNodes::level_of_Postfix))]
pub fn postfix(
    alloc: Global,
    value: Expr,
    suffixes: Seq<Suffix>,
    span: Span,
) -> Result<Expr, NoMemory>
    ensures spells { IfOk result (λ e. expr e ≡ postfix_node span value suffixes) }
    ensures level { IfOk result (λ e. level_of e ≡ 8) }
{
    let value = Boxed::new(alloc, value)?;
    Ok(Expr::Postfix {
        value,
        suffixes,
        span,
    })
}

pub fn call(name: Name, arguments: Args, span: Span) -> Expr
    ensures spells { expr result ≡ node span (name_of name (sign OpenParenthesis (part (args arguments) (sign CloseParenthesis none)))) }
    ensures level { level_of result ≡ 9 }
{
    Expr::Call {
        name,
        arguments,
        span,
    }
}

#[tactic(auto, using(crate::proofs::MadeNodes::expr_of_IsValid, crate::proofs::MadeNodes::level_of_IsValid))]
pub fn is_valid(alloc: Global, value: Expr, span: Span) -> Result<Expr, NoMemory>
    ensures spells { IfOk result (λ e. expr e ≡ node span
        (word IsValid (sign OpenParenthesis (part (expr value) (sign CloseParenthesis none))))) }
    ensures level { IfOk result (λ e. level_of e ≡ 9) }
{
    Ok(Expr::IsValid(Boxed::new(alloc, value)?, span))
}

#[tactic(auto, using(crate::proofs::MadeNodes::expr_of_IsInvalid, crate::proofs::MadeNodes::level_of_IsInvalid))]
pub fn is_invalid(alloc: Global, value: Expr, span: Span) -> Result<Expr, NoMemory>
    ensures spells { IfOk result (λ e. expr e ≡ node span
        (word IsInvalid (sign OpenParenthesis (part (expr value) (sign CloseParenthesis none))))) }
    ensures level { IfOk result (λ e. level_of e ≡ 9) }
{
    Ok(Expr::IsInvalid(Boxed::new(alloc, value)?, span))
}

#[tactic(auto, using(crate::proofs::MadeNodes::expr_of_Cast, crate::proofs::MadeNodes::level_of_Cast))]
pub fn cast(
    alloc: Global,
    target: TypeName,
    mode: Option<Text>,
    value: Expr,
    span: Span,
) -> Result<Expr, NoMemory>
    ensures spells { IfOk result (λ e. expr e ≡ node span
        (word StaticCast (sign OpenParenthesis (type_name target (sign Comma (mode_parts mode (part (expr value) (sign CloseParenthesis none)))))))) }
    ensures level { IfOk result (λ e. level_of e ≡ 9) }
{
    Ok(Expr::Cast {
        target,
        mode,
        value: Boxed::new(alloc, value)?,
        span,
    })
}

#[tactic(auto, using(crate::proofs::MadeNodes::expr_of_Group, crate::proofs::MadeNodes::level_of_Group))]
pub fn group(alloc: Global, inner: Expr, span: Span) -> Result<Expr, NoMemory>
    ensures spells { IfOk result (λ e. expr e ≡ node span
        (sign OpenParenthesis (part (expr inner) (sign CloseParenthesis none)))) }
    ensures level { IfOk result (λ e. level_of e ≡ 9) }
{
    Ok(Expr::Group(Boxed::new(alloc, inner)?, span))
}
