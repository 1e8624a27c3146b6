//! Expressions. A cycle of functions, each of which reads one form; what is in brackets, parentheses or behind a unary operator
//! is read with one more nesting open, so that the cycle goes no deeper than the nesting may. Operands of one level, suffixes and
//! arguments are read by loops.
ghost use Rattle.std.specs.Prelude.{◌≡◌, ◌+◌, ◌-◌, ◌∷◌, ◌<◌, ◌≤◌, [], true, length, IfOk, MatchResult};
ghost use Rattle.slicc_ast.specs.Prelude.{is_ahead, args, expr, level_of, list_level, mode_parts, type_name, node, none, part, first_of_constant, first_of_expression, first_of_opening, arguments, constant, expression, name_end, opening, unary, ◌▸◌, colon, comma, of, optional, parentheses, prefixed, repeated, sign_kind, word_kind};
ghost use Rattle.slicc_ast.specs.Expressions.{suffix};
ghost use Rattle.slicc_ast.specs.Names.{name as name_of, sign as sign_of, word as word_of};
ghost use Rattle.slicc_ast.specs.Outline.{token};
ghost use Rattle.slicc_ast.specs.declared.tree.token.Sign.TheVariants.{CloseParenthesis, Comma, Dot, Minus, Not, OpenBracket, OpenParenthesis};
ghost use Rattle.slicc_ast.specs.declared.tree.token.TokenKind.TheVariants.{Name as Named};
ghost use Rattle.slicc_ast.specs.declared.tree.token.Word.TheVariants.{IsInvalid, IsValid};
ghost use Rattle.slicc_ast.specs.Form.Form.{suffix as suffix_form};
ghost use Rattle.slicc_ast.specs.Parts.{name as name_part, sign as sign_part, word as word_part};
ghost use Rattle.slicc_lex.specs.Prelude.{symbols};
ghost use Rattle.slicc_expr.specs.Prelude.{cast_inner, cast_part, chain, chains, enclosed, form_at, kinds_at, is_some, operands_before, suffixes_before};
ghost use Rattle.slicc_reading.specs.Prelude.{AreRead, IsNode, IsRead, Refuses};

use crate::nodes;
use crate::operator_signs::operator;
use crate::values::{begins_expression, begins_simple, cast_head, new_entry, simple};
use slicc_ast::tree::{Args, Expr, Name, Operand, Sign, Suffix, TypeName, Word};
use slicc_ast::{Seq, Text};
use slicc_lex::Token;
use slicc_reading::{
    Fault, Read, added, called, ended, is_name, is_sign, is_word, joined, name, name_after, open,
    refuse, sign, span,
};
use std::alloc::Global;

/// A node that was made, with the tokens that are left behind it.
macro_rules! with_left {
    ($made:expr, $left:expr) => {
        match $made {
            Ok(made) => Ok((made, $left)),
            Err(_) => Err(Fault::NoMemory),
        }
    };
}

/// How many levels of operators there are.
pub const LEVELS: u8 = 6;

/// An expression.
pub fn expression(alloc: Global, room: u32, tokens: &[Token]) -> Read<Expr>
    ensures read { MatchResult result
        (λ read. IsRead room (of expression) (expr read.0) tokens.now tokens.now read.1.now)
        (Refuses room (of expression) tokens.now) }
    ensures shorter { IfOk result (λ read. length read.1.now < length tokens.now) }
{
    level(alloc, room, LEVELS, tokens)
}

/// An expression with operators of the levels below this height alone.
#[cycle(expression)]
fn level(alloc: Global, room: u32, height: u8, tokens: &[Token]) -> Read<Expr>
    requires { height ≤ 6 }
    ensures read { MatchResult result
        (λ read. IsRead room (of (form_at height)) (expr read.0) tokens.now tokens.now read.1.now)
        (Refuses room (of (form_at height)) tokens.now) }
    ensures tight { IfOk result (λ read. 7 ≤ height + level_of read.0) }
    ensures shorter { IfOk result (λ read. length read.1.now < length tokens.now) }
{
    if !begins_expression(tokens) {
        return Err(refuse(room, tokens));
    }
    match unary(alloc, room, tokens) {
        Ok((first, left)) => operators(alloc, room, height, tokens, first, left),
        Err(fault) => Err(fault),
    }
}

/// Goes on with operators of the levels below this height, the tightest first, behind the first operand.
#[cycle(expression)]
pub fn operators<'t>(
    alloc: Global,
    room: u32,
    height: u8,
    start: &[Token],
    first: Expr,
    tokens: &'t [Token],
) -> Read<'t, Expr>
    requires within { height ≤ 6 }
    requires first { IsNode (expr first) start.now tokens.now }
    requires tight { 7 ≤ level_of first }
    ensures read { MatchResult result
        (λ read. IsRead room (chains height 0) (expr read.0) start.now tokens.now read.1.now)
        (Refuses room (chains height 0) tokens.now) }
    ensures tight { IfOk result (λ read. 7 ≤ height + level_of read.0) }
{
    let mut joined = first;
    let mut left = tokens;
    let mut at: u8 = 0;
    'levels: while at < height {
        match operation(alloc, room, at, start, joined, left) {
            Ok((more, after)) => {
                joined = more;
                left = after;
                at += 1;
            }
            Err(fault) => return Err(fault),
        }
    }
    Ok((joined, left))
}

/// Joins the first operand with those behind it that have an operator of this height before them, where there are any.
#[cycle(expression)]
fn operation<'t>(
    alloc: Global,
    room: u32,
    height: u8,
    start: &[Token],
    first: Expr,
    tokens: &'t [Token],
) -> Read<'t, Expr>
    requires within { height ≤ 5 }
    requires first { IsNode (expr first) start.now tokens.now }
    requires tight { 7 ≤ height + level_of first }
    ensures read { MatchResult result
        (λ read. IsRead room (chain height) (expr read.0) start.now tokens.now read.1.now)
        (Refuses room (chain height) tokens.now) }
    ensures tight { IfOk result (λ read. 6 ≤ height + level_of read.0) }
{
    let Some(_) = operator(height, tokens) else {
        return Ok((first, tokens));
    };
    match operands(alloc, room, height, tokens) {
        Ok((others, left)) => with_left!(
            nodes::operation(alloc, first, others, span(start, left)),
            left
        ),
        Err(fault) => {
            drop(first);
            Err(fault)
        }
    }
}

/// Operators of this height, each with its operand.
#[cycle(expression)]
fn operands<'t>(alloc: Global, room: u32, height: u8, tokens: &'t [Token]) -> Read<'t, Seq<Operand>>
    requires within { height ≤ 5 }
    requires begins { is_ahead (kinds_at height) (symbols tokens.now) ≡ true }
    ensures read { MatchResult result
        (λ read. AreRead room (chain height) (operands_before (6 - height) read.0) tokens.now read.1.now)
        (Refuses room (chain height) tokens.now) }
    ensures level { IfOk result (λ read. list_level read.0 + height ≡ 6) }
{
    let mut items = Seq::new(alloc);
    let mut left = tokens;
    'more: while let Some((operator, behind)) = operator(height, left) {
        match level(alloc, room, height, behind) {
            Ok((value, after)) => match items.push(Operand { operator, value }) {
                Ok(()) => left = after,
                Err(_) => return Err(Fault::NoMemory),
            },
            Err(fault) => return Err(fault),
        }
    }
    Ok((items, left))
}

#[cycle(expression)]
fn unary(alloc: Global, room: u32, tokens: &[Token]) -> Read<Expr>
    requires { is_ahead first_of_expression (symbols tokens.now) ≡ true }
    ensures read { MatchResult result
        (λ read. IsRead room (of unary) (expr read.0) tokens.now tokens.now read.1.now)
        (Refuses room (of unary) tokens.now) }
    ensures tight { IfOk result (λ read. 7 ≤ level_of read.0) }
    ensures shorter { IfOk result (λ read. length read.1.now < length tokens.now) }
{
    if !is_name(tokens) {
        return opening(alloc, room, tokens);
    }
    match name(alloc, room, tokens) {
        Ok((name, behind)) => after_name(alloc, room, tokens, name, behind),
        Err(fault) => Err(fault),
    }
}

/// A unary expression that doesn't begin with a name.
#[cycle(expression)]
pub fn opening(alloc: Global, room: u32, tokens: &[Token]) -> Read<Expr>
    requires { is_ahead first_of_opening (symbols tokens.now) ≡ true }
    ensures read { MatchResult result
        (λ read. IsRead room (of opening) (expr read.0) tokens.now tokens.now read.1.now)
        (Refuses room (of opening) tokens.now) }
    ensures tight { IfOk result (λ read. 7 ≤ level_of read.0) }
    ensures shorter { IfOk result (λ read. length read.1.now < length tokens.now) }
{
    if is_sign(Sign::Not, tokens) {
        return not(alloc, room, tokens);
    }
    if is_sign(Sign::Minus, tokens) {
        return negate(alloc, room, tokens);
    }
    match constant(alloc, room, tokens) {
        Ok((value, left)) => suffixes(alloc, room, tokens, value, left),
        Err(fault) => Err(fault),
    }
}

/// `!` and its operand.
#[cycle(expression)]
fn not(alloc: Global, room: u32, tokens: &[Token]) -> Read<Expr>
    ensures read { MatchResult result
        (λ read. IsRead room (prefixed Not (of unary)) (expr read.0) tokens.now tokens.now read.1.now)
        (Refuses room (prefixed Not (of unary)) tokens.now) }
    ensures tight { IfOk result (λ read. 7 ≤ level_of read.0) }
    ensures shorter { IfOk result (λ read. length read.1.now < length tokens.now) }
{
    match open(room, Sign::Not, tokens) {
        Ok(behind) => match level(alloc, room - 1, 0, behind) {
            Ok((operand, left)) => with_left!(nodes::not(alloc, operand, span(tokens, left)), left),
            Err(fault) => Err(fault),
        },
        Err(fault) => Err(fault),
    }
}

/// `-` and its operand.
#[cycle(expression)]
fn negate(alloc: Global, room: u32, tokens: &[Token]) -> Read<Expr>
    ensures read { MatchResult result
        (λ read. IsRead room (prefixed Minus (of unary)) (expr read.0) tokens.now tokens.now read.1.now)
        (Refuses room (prefixed Minus (of unary)) tokens.now) }
    ensures tight { IfOk result (λ read. 7 ≤ level_of read.0) }
    ensures shorter { IfOk result (λ read. length read.1.now < length tokens.now) }
{
    match open(room, Sign::Minus, tokens) {
        Ok(behind) => match level(alloc, room - 1, 0, behind) {
            Ok((operand, left)) => with_left!(
                nodes::negate(alloc, operand, span(tokens, left)),
                left
            ),
            Err(fault) => Err(fault),
        },
        Err(fault) => Err(fault),
    }
}

/// Goes on behind the name that a primary expression begins with.
#[cycle(expression)]
pub fn after_name<'t>(
    alloc: Global,
    room: u32,
    start: &[Token],
    owner: Name,
    tokens: &'t [Token],
) -> Read<'t, Expr>
    requires { IsNode (node owner.span (token (Named owner.text) none)) start.now tokens.now }
    ensures read { MatchResult result
        (λ read. IsRead room (optional (of name_end) ▸ repeated (of suffix_form)) (expr read.0) start.now tokens.now read.1.now)
        (Refuses room (optional (of name_end) ▸ repeated (of suffix_form)) tokens.now) }
    ensures tight { IfOk result (λ read. 8 ≤ level_of read.0) }
{
    match named(alloc, room, start, owner, tokens) {
        Ok((value, left)) => suffixes(alloc, room, start, value, left),
        Err(fault) => Err(fault),
    }
}

#[cycle(expression)]
fn named<'t>(
    alloc: Global,
    room: u32,
    start: &[Token],
    owner: Name,
    tokens: &'t [Token],
) -> Read<'t, Expr>
    requires { IsNode (node owner.span (token (Named owner.text) none)) start.now tokens.now }
    ensures read { MatchResult result
        (λ read. IsRead room (optional (of name_end)) (expr read.0) start.now tokens.now read.1.now)
        (Refuses room (optional (of name_end)) tokens.now) }
    ensures tight { IfOk result (λ read. 9 ≤ level_of read.0) }
{
    if is_sign(Sign::Colon, tokens) {
        return member(alloc, room, start, owner, tokens);
    }
    if !is_sign(Sign::OpenParenthesis, tokens) {
        return Ok((Expr::Variable(owner), tokens));
    }
    match arguments(alloc, room, tokens) {
        Ok((arguments, left)) => Ok((nodes::call(owner, arguments, span(start, left)), left)),
        Err(fault) => Err(fault),
    }
}

/// Arguments in parentheses.
#[cycle(expression)]
fn arguments(alloc: Global, room: u32, tokens: &[Token]) -> Read<Args>
    ensures read { MatchResult result
        (λ read. AreRead room (parentheses (optional (of arguments))) (λ others. sign_of OpenParenthesis (part (args read.0) (sign_of CloseParenthesis others))) tokens.now read.1.now)
        (Refuses room (parentheses (optional (of arguments))) tokens.now) }
    ensures shorter { IfOk result (λ read. length read.1.now < length tokens.now) }
{
    match open(room, Sign::OpenParenthesis, tokens) {
        Ok(inner) => ended(
            room - 1,
            argument_list(alloc, room - 1, inner),
            Sign::CloseParenthesis,
        ),
        Err(fault) => Err(fault),
    }
}

/// Expressions with a comma between each two, or nothing where no expression begins.
#[cycle(expression)]
fn argument_list(alloc: Global, room: u32, tokens: &[Token]) -> Read<Args>
    ensures { MatchResult result
        (λ read. IsRead room (optional (of arguments)) (args read.0) tokens.now tokens.now read.1.now)
        (Refuses room (optional (of arguments)) tokens.now) }
{
    let mut items = Seq::new(alloc);
    if !begins_expression(tokens) {
        let span = span(tokens, tokens);
        return Ok((Args { items, span }, tokens));
    }
    let mut left = match level(alloc, room, LEVELS, tokens) {
        Ok((first, after)) => match items.push(first) {
            Ok(()) => after,
            Err(_) => return Err(Fault::NoMemory),
        },
        Err(fault) => return Err(fault),
    };
    'commas: while is_sign(Sign::Comma, left) {
        match added(&mut items, next_argument(alloc, room, left)) {
            Ok(after) => left = after,
            Err(fault) => return Err(fault),
        }
    }
    let span = span(tokens, left);
    Ok((Args { items, span }, left))
}

/// A comma and an expression.
#[cycle(expression)]
fn next_argument(alloc: Global, room: u32, tokens: &[Token]) -> Read<Expr>
    ensures read { MatchResult result
        (λ read. AreRead room (comma ▸ of expression) (λ others. sign_of Comma (part (expr read.0) others)) tokens.now read.1.now)
        (Refuses room (comma ▸ of expression) tokens.now) }
    ensures shorter { IfOk result (λ read. length read.1.now < length tokens.now) }
{
    match sign(room, Sign::Comma, tokens) {
        Ok(behind) => level(alloc, room, LEVELS, behind),
        Err(fault) => Err(fault),
    }
}

/// Joins a primary expression with the members, calls and indices behind it, where there are any.
#[cycle(expression)]
fn suffixes<'t>(
    alloc: Global,
    room: u32,
    start: &[Token],
    value: Expr,
    tokens: &'t [Token],
) -> Read<'t, Expr>
    requires value { IsNode (expr value) start.now tokens.now }
    requires tight { 9 ≤ level_of value }
    ensures read { MatchResult result
        (λ read. IsRead room (repeated (of suffix_form)) (expr read.0) start.now tokens.now read.1.now)
        (Refuses room (repeated (of suffix_form)) tokens.now) }
    ensures tight { IfOk result (λ read. 8 ≤ level_of read.0) }
{
    if !begins_suffix(tokens) {
        return Ok((value, tokens));
    }
    match suffix_list(alloc, room, tokens) {
        Ok((suffixes, left)) => with_left!(
            nodes::postfix(alloc, value, suffixes, span(start, left)),
            left
        ),
        Err(fault) => {
            drop(value);
            Err(fault)
        }
    }
}

/// At least one member, call or index.
#[cycle(expression)]
fn suffix_list(alloc: Global, room: u32, tokens: &[Token]) -> Read<Seq<Suffix>>
    requires { is_ahead (sign_kind Dot ∷ sign_kind OpenBracket ∷ []) (symbols tokens.now) ≡ true }
    ensures read { MatchResult result
        (λ read. AreRead room (repeated (of suffix_form)) (suffixes_before read.0) tokens.now read.1.now)
        (Refuses room (repeated (of suffix_form)) tokens.now) }
    ensures some { IfOk result (λ read. is_some read.0 ≡ true) }
{
    let mut items = Seq::new(alloc);
    let mut left = tokens;
    'more: while begins_suffix(left) {
        match added(&mut items, suffix(alloc, room, left)) {
            Ok(after) => left = after,
            Err(fault) => return Err(fault),
        }
    }
    Ok((items, left))
}

fn begins_suffix(tokens: &[Token]) -> bool
    ensures { result ≡ is_ahead (sign_kind Dot ∷ sign_kind OpenBracket ∷ []) (symbols tokens.now) }
{
    is_sign(Sign::Dot, tokens) || is_sign(Sign::OpenBracket, tokens)
}

/// A member, a call or an index.
#[cycle(expression)]
fn suffix(alloc: Global, room: u32, tokens: &[Token]) -> Read<Suffix>
    requires { is_ahead (sign_kind Dot ∷ sign_kind OpenBracket ∷ []) (symbols tokens.now) ≡ true }
    ensures read { MatchResult result
        (λ read. IsRead room (of suffix_form) (suffix read.0) tokens.now tokens.now read.1.now)
        (Refuses room (of suffix_form) tokens.now) }
    ensures shorter { IfOk result (λ read. length read.1.now < length tokens.now) }
{
    if is_sign(Sign::Dot, tokens) {
        return dotted(alloc, room, tokens);
    }
    match enclosed(alloc, room, Sign::OpenBracket, Sign::CloseBracket, tokens) {
        Ok((key, left)) => Ok((nodes::index(key, span(tokens, left)), left)),
        Err(fault) => Err(fault),
    }
}

/// `.`, a name, and arguments where there are any.
#[cycle(expression)]
fn dotted(alloc: Global, room: u32, tokens: &[Token]) -> Read<Suffix>
    ensures read { MatchResult result
        (λ read. IsRead room (sign_part Dot ▸ name_part ▸ optional (parentheses (optional (of arguments)))) (suffix read.0) tokens.now tokens.now read.1.now)
        (Refuses room (sign_part Dot ▸ name_part ▸ optional (parentheses (optional (of arguments)))) tokens.now) }
    ensures shorter { IfOk result (λ read. length read.1.now < length tokens.now) }
{
    match name_after(alloc, room, Sign::Dot, tokens) {
        Ok((name, behind)) => {
            if !is_sign(Sign::OpenParenthesis, behind) {
                return Ok((nodes::field(name, span(tokens, behind)), behind));
            }
            match arguments(alloc, room, behind) {
                Ok((arguments, left)) => Ok((
                    nodes::method(name, arguments, span(tokens, left)),
                    left,
                )),
                Err(fault) => Err(fault),
            }
        }
        Err(fault) => Err(fault),
    }
}

/// `:` and a name.
fn member<'t>(
    alloc: Global,
    room: u32,
    start: &[Token],
    owner: Name,
    tokens: &'t [Token],
) -> Read<'t, Expr>
    requires { IsNode (node owner.span (token (Named owner.text) none)) start.now tokens.now }
    ensures read { MatchResult result
        (λ read. IsRead room (colon ▸ name_part) (expr read.0) start.now tokens.now read.1.now)
        (Refuses room (colon ▸ name_part) tokens.now) }
    ensures tight { IfOk result (λ read. 9 ≤ level_of read.0) }
{
    match name_after(alloc, room, Sign::Colon, tokens) {
        Ok((member, left)) => {
            let span = span(start, left);
            Ok((
                Expr::Member {
                    owner,
                    member,
                    span,
                },
                left,
            ))
        }
        Err(fault) => {
            drop(owner);
            Err(fault)
        }
    }
}

/// An expression between an opening sign and a closing one.
#[cycle(expression)]
fn enclosed(alloc: Global, room: u32, opener: Sign, closer: Sign, tokens: &[Token]) -> Read<Expr>
    ensures read { MatchResult result
        (λ read. AreRead room (enclosed opener closer (of expression)) (λ others. sign_of opener (part (expr read.0) (sign_of closer others))) tokens.now read.1.now)
        (Refuses room (enclosed opener closer (of expression)) tokens.now) }
    ensures shorter { IfOk result (λ read. length read.1.now < length tokens.now) }
{
    match open(room, opener, tokens) {
        Ok(behind) => ended(room - 1, level(alloc, room - 1, LEVELS, behind), closer),
        Err(fault) => Err(fault),
    }
}

/// A primary expression that doesn't begin with a name.
#[cycle(expression)]
fn constant(alloc: Global, room: u32, tokens: &[Token]) -> Read<Expr>
    requires { is_ahead first_of_constant (symbols tokens.now) ≡ true }
    ensures read { MatchResult result
        (λ read. IsRead room (of constant) (expr read.0) tokens.now tokens.now read.1.now)
        (Refuses room (of constant) tokens.now) }
    ensures tight { IfOk result (λ read. 9 ≤ level_of read.0) }
    ensures shorter { IfOk result (λ read. length read.1.now < length tokens.now) }
{
    if begins_simple(tokens) {
        return simple(room, tokens);
    }
    if is_word(Word::New, tokens) {
        return new_entry(alloc, room, tokens);
    }
    if is_word(Word::StaticCast, tokens) {
        return cast(alloc, room, tokens);
    }
    if is_sign(Sign::OpenParenthesis, tokens) {
        return group(alloc, room, tokens);
    }
    validity(alloc, room, tokens)
}

/// An expression in parentheses.
#[cycle(expression)]
fn group(alloc: Global, room: u32, tokens: &[Token]) -> Read<Expr>
    ensures read { MatchResult result
        (λ read. IsRead room (parentheses (of expression)) (expr read.0) tokens.now tokens.now read.1.now)
        (Refuses room (parentheses (of expression)) tokens.now) }
    ensures tight { IfOk result (λ read. 9 ≤ level_of read.0) }
    ensures shorter { IfOk result (λ read. length read.1.now < length tokens.now) }
{
    match enclosed(
        alloc,
        room,
        Sign::OpenParenthesis,
        Sign::CloseParenthesis,
        tokens,
    ) {
        Ok((inner, left)) => with_left!(nodes::group(alloc, inner, span(tokens, left)), left),
        Err(fault) => Err(fault),
    }
}

/// `is_valid` or `is_invalid` of an expression in parentheses.
#[cycle(expression)]
fn validity(alloc: Global, room: u32, tokens: &[Token]) -> Read<Expr>
    requires { is_ahead (word_kind IsValid ∷ word_kind IsInvalid ∷ []) (symbols tokens.now) ≡ true }
    ensures read { MatchResult result
        (λ read. IsRead room (of constant) (expr read.0) tokens.now tokens.now read.1.now)
        (Refuses room (of constant) tokens.now) }
    ensures tight { IfOk result (λ read. 9 ≤ level_of read.0) }
    ensures shorter { IfOk result (λ read. length read.1.now < length tokens.now) }
{
    if is_word(Word::IsValid, tokens) {
        return match tested(alloc, room, Word::IsValid, tokens) {
            Ok((value, left)) => with_left!(
                nodes::is_valid(alloc, value, span(tokens, left)),
                left
            ),
            Err(fault) => Err(fault),
        };
    }
    match tested(alloc, room, Word::IsInvalid, tokens) {
        Ok((value, left)) => with_left!(nodes::is_invalid(alloc, value, span(tokens, left)), left),
        Err(fault) => Err(fault),
    }
}

/// A word and an expression in parentheses.
#[cycle(expression)]
pub fn tested(alloc: Global, room: u32, which: Word, tokens: &[Token]) -> Read<Expr>
    ensures read { MatchResult result
        (λ read. AreRead room (word_part which ▸ parentheses (of expression)) (λ others. word_of which (sign_of OpenParenthesis (part (expr read.0) (sign_of CloseParenthesis others)))) tokens.now read.1.now)
        (Refuses room (word_part which ▸ parentheses (of expression)) tokens.now) }
    ensures shorter { IfOk result (λ read. length read.1.now < length tokens.now) }
{
    match called(room, which, tokens) {
        Ok(inside) => ended(
            room - 1,
            level(alloc, room - 1, LEVELS, inside),
            Sign::CloseParenthesis,
        ),
        Err(fault) => Err(fault),
    }
}

/// `static_cast`, with a type, perhaps a string, and an expression in parentheses.
#[cycle(expression)]
fn cast(alloc: Global, room: u32, tokens: &[Token]) -> Read<Expr>
    ensures read { MatchResult result
        (λ read. IsRead room cast_part (expr read.0) tokens.now tokens.now read.1.now)
        (Refuses room cast_part tokens.now) }
    ensures tight { IfOk result (λ read. 9 ≤ level_of read.0) }
    ensures shorter { IfOk result (λ read. length read.1.now < length tokens.now) }
{
    match called(room, Word::StaticCast, tokens) {
        Ok(inside) => match converted(alloc, room - 1, inside) {
            Ok((read, left)) => {
                let (head, value) = read;
                let (target, mode) = head;
                with_left!(
                    nodes::cast(alloc, target, mode, value, span(tokens, left)),
                    left
                )
            }
            Err(fault) => Err(fault),
        },
        Err(fault) => Err(fault),
    }
}

/// What stands behind the opening parenthesis of a cast.
#[cycle(expression)]
fn converted(alloc: Global, room: u32, tokens: &[Token]) -> Read<((TypeName, Option<Text>), Expr)>
    ensures read { MatchResult result
        (λ read. AreRead room cast_inner (λ others. type_name read.0.0.0 (sign_of Comma (mode_parts read.0.0.1 (part (expr read.0.1) (sign_of CloseParenthesis others))))) tokens.now read.1.now)
        (Refuses room cast_inner tokens.now) }
    ensures shorter { IfOk result (λ read. length read.1.now < length tokens.now) }
{
    match cast_head(alloc, room, tokens) {
        Ok((head, behind)) => ended(
            room,
            joined(head, level(alloc, room, LEVELS, behind)),
            Sign::CloseParenthesis,
        ),
        Err(fault) => Err(fault),
    }
}
