//! What statements are made of: expressions where they stand in them, what stands before the block of a statement that peeks at a
//! port's message or enqueues one, and what statements begin with and go on with behind a name.
ghost use Rattle.std.specs.Prelude.{◌≡◌, ◌<◌, true, length, IfOk, MatchResult, ◌∷◌, []};
ghost use Rattle.slicc_ast.specs.Prelude.{is_ahead, expr, latency_parts, optional_expr, first_of_opening, expression, of, optional, has, first_of_form, statement as statement_form, kind_of, sign_kind, word_kind};
ghost use Rattle.slicc_ast.specs.declared.tree.token.Sign.TheVariants.{Comma};
ghost use Rattle.slicc_ast.specs.declared.tree.token.Word.TheVariants.{Else};
ghost use Rattle.slicc_lex.specs.Prelude.{symbols};
ghost use Rattle.slicc_reading.specs.Prelude.{AreRead, IsNode, IsRead, Refuses};
ghost use Rattle.slicc_expr.specs.Prelude.{name_outline, named_value, named_value_parts, opening_value, value_after, value_after_parts, value_end, enqueue_head, enqueue_head_parts, peek_head, peek_head_parts, port_and_message, port_and_message_parts, is_else_if, nesting_words, signs_behind_name, statement_words};

use crate::expressions::{LEVELS, after_name, expression, opening, operators};
use crate::values::begins_expression;
use slicc_ast::tree::{Expr, Name, Pairs, Sign, TokenKind, TypeName, Word};
use slicc_lex::Token;
use slicc_reading::{
    Read, called, ended, is_sign, is_word, joined, name, pairs, sign, split_first, type_name,
};
use std::alloc::Global;

/// Goes on with an expression behind the name that it begins with.
pub fn value_behind<'t>(
    alloc: Global,
    room: u32,
    start: &[Token],
    owner: Name,
    tokens: &'t [Token],
) -> Read<'t, Expr>
    requires { IsNode (name_outline owner) start.now tokens.now }
    ensures { MatchResult result
        (λ read. IsRead room value_end (expr read.0) start.now tokens.now read.1.now)
        (Refuses room value_end tokens.now) }
{
    match after_name(alloc, room, start, owner, tokens) {
        Ok((value, left)) => operators(alloc, room, LEVELS, start, value, left),
        Err(fault) => Err(fault),
    }
}

/// An expression that doesn't begin with a name.
pub fn opening_value(alloc: Global, room: u32, tokens: &[Token]) -> Read<Expr>
    requires { is_ahead first_of_opening (symbols tokens.now) ≡ true }
    ensures read { MatchResult result
        (λ read. IsRead room opening_value (expr read.0) tokens.now tokens.now read.1.now)
        (Refuses room opening_value tokens.now) }
    ensures shorter { IfOk result (λ read. length read.1.now < length tokens.now) }
{
    match opening(alloc, room, tokens) {
        Ok((value, left)) => operators(alloc, room, LEVELS, tokens, value, left),
        Err(fault) => Err(fault),
    }
}

/// A sign and an expression.
pub fn value_after(alloc: Global, room: u32, before: Sign, tokens: &[Token]) -> Read<Expr>
    ensures { MatchResult result
        (λ read. AreRead room (value_after before) (value_after_parts before read.0) tokens.now read.1.now)
        (Refuses room (value_after before) tokens.now) }
{
    match sign(room, before, tokens) {
        Ok(behind) => expression(alloc, room, behind),
        Err(fault) => Err(fault),
    }
}

/// A name, a sign and an expression.
pub fn named_value(alloc: Global, room: u32, between: Sign, tokens: &[Token]) -> Read<(Name, Expr)>
    ensures { MatchResult result
        (λ read. AreRead room (named_value between) (named_value_parts between read.0) tokens.now read.1.now)
        (Refuses room (named_value between) tokens.now) }
{
    match name(alloc, room, tokens) {
        Ok((called, behind)) => joined(called, value_after(alloc, room, between, behind)),
        Err(fault) => Err(fault),
    }
}

/// An expression where there is one.
pub fn optional_value(alloc: Global, room: u32, tokens: &[Token]) -> Read<Option<Expr>>
    ensures { MatchResult result
        (λ read. AreRead room (optional (of expression)) (optional_expr read.0) tokens.now read.1.now)
        (Refuses room (optional (of expression)) tokens.now) }
{
    if !begins_expression(tokens) {
        return Ok((None, tokens));
    }
    match expression(alloc, room, tokens) {
        Ok((value, left)) => Ok((Some(value), left)),
        Err(fault) => Err(fault),
    }
}

/// A comma and an expression where there is a comma.
pub fn latency(alloc: Global, room: u32, tokens: &[Token]) -> Read<Option<Expr>>
    ensures { MatchResult result
        (λ read. AreRead room (optional (value_after Comma)) (latency_parts read.0) tokens.now read.1.now)
        (Refuses room (optional (value_after Comma)) tokens.now) }
{
    if !is_sign(Sign::Comma, tokens) {
        return Ok((None, tokens));
    }
    match value_after(alloc, room, Sign::Comma, tokens) {
        Ok((value, left)) => Ok((Some(value), left)),
        Err(fault) => Err(fault),
    }
}

/// A port, a comma and the type of its messages.
fn port_and_message(alloc: Global, room: u32, tokens: &[Token]) -> Read<(Name, TypeName)>
    ensures { MatchResult result
        (λ read. AreRead room port_and_message (port_and_message_parts read.0) tokens.now read.1.now)
        (Refuses room port_and_message tokens.now) }
{
    match ended(room, name(alloc, room, tokens), Sign::Comma) {
        Ok((port, behind)) => joined(port, type_name(alloc, room, behind)),
        Err(fault) => Err(fault),
    }
}

/// `peek`, and a port, the type of its messages and attributes in parentheses.
pub fn peek_head(alloc: Global, room: u32, tokens: &[Token]) -> Read<((Name, TypeName), Pairs)>
    ensures read { MatchResult result
        (λ read. AreRead room peek_head (peek_head_parts read.0) tokens.now read.1.now)
        (Refuses room peek_head tokens.now) }
    ensures shorter { IfOk result (λ read. length read.1.now < length tokens.now) }
{
    match called(room, Word::Peek, tokens) {
        Ok(inside) => match port_and_message(alloc, room - 1, inside) {
            Ok((port, behind)) => ended(
                room - 1,
                joined(port, pairs(alloc, room - 1, behind)),
                Sign::CloseParenthesis,
            ),
            Err(fault) => Err(fault),
        },
        Err(fault) => Err(fault),
    }
}

/// `enqueue`, and a port, the type of its messages and a latency in parentheses.
pub fn enqueue_head(
    alloc: Global,
    room: u32,
    tokens: &[Token],
) -> Read<((Name, TypeName), Option<Expr>)>
    ensures read { MatchResult result
        (λ read. AreRead room enqueue_head (enqueue_head_parts read.0) tokens.now read.1.now)
        (Refuses room enqueue_head tokens.now) }
    ensures shorter { IfOk result (λ read. length read.1.now < length tokens.now) }
{
    match called(room, Word::Enqueue, tokens) {
        Ok(inside) => match port_and_message(alloc, room - 1, inside) {
            Ok((port, behind)) => ended(
                room - 1,
                joined(port, latency(alloc, room - 1, behind)),
                Sign::CloseParenthesis,
            ),
            Err(fault) => Err(fault),
        },
        Err(fault) => Err(fault),
    }
}

fn is_behind_name(sign: Sign) -> bool
    ensures { result ≡ has signs_behind_name (sign_kind sign) }
{
    match sign {
        Sign::Colon
        | Sign::OpenParenthesis
        | Sign::Dot
        | Sign::OpenBracket
        | Sign::Star
        | Sign::Plus
        | Sign::Minus
        | Sign::Less
        | Sign::Greater
        | Sign::LessOrEqual
        | Sign::GreaterOrEqual
        | Sign::Equal
        | Sign::Unequal
        | Sign::And
        | Sign::Or
        | Sign::Assign
        | Sign::Semicolon => true,
        _ => false,
    }
}

fn is_behind_name_kind(kind: &TokenKind) -> bool
    ensures { result ≡ has signs_behind_name (kind_of kind.now) }
{
    match kind {
        TokenKind::Sign(sign) => is_behind_name(*sign),
        _ => false,
    }
}

/// Whether a statement that begins with a name goes on so, where it is no declaration.
pub fn goes_on_behind_name(tokens: &[Token]) -> bool
    ensures { result ≡ is_ahead signs_behind_name (symbols tokens.now) }
{
    match split_first(tokens) {
        Some((first, _)) => is_behind_name_kind(&first.kind),
        None => false,
    }
}

fn is_statement_word(word: Word) -> bool
    ensures { result ≡ has statement_words (word_kind word) }
{
    match word {
        Word::Return
        | Word::If
        | Word::Peek
        | Word::Enqueue
        | Word::StallAndWait
        | Word::CheckAllocate
        | Word::Error
        | Word::Assert
        | Word::Dprintf
        | Word::AppendTransitionComment => true,
        _ => false,
    }
}

fn is_statement_word_kind(kind: &TokenKind) -> bool
    ensures { result ≡ has statement_words (kind_of kind.now) }
{
    match kind {
        TokenKind::Word(word) => is_statement_word(*word),
        _ => false,
    }
}

fn begins_with_word(tokens: &[Token]) -> bool
    ensures { result ≡ is_ahead statement_words (symbols tokens.now) }
{
    match split_first(tokens) {
        Some((first, _)) => is_statement_word_kind(&first.kind),
        None => false,
    }
}

/// Whether the first token begins a statement.
pub fn begins_statement(tokens: &[Token]) -> bool
    ensures { result ≡ is_ahead (first_of_form statement_form) (symbols tokens.now) }
{
    begins_expression(tokens) || begins_with_word(tokens)
}

/// Whether the first token begins a statement that holds a block.
pub fn begins_nesting(tokens: &[Token]) -> bool
    ensures { result ≡ is_ahead nesting_words (symbols tokens.now) }
{
    is_word(Word::If, tokens) || is_word(Word::Peek, tokens) || is_word(Word::Enqueue, tokens)
}

fn is_if_behind(tokens: &[Token]) -> bool
    requires { is_ahead (word_kind Else ∷ []) (symbols tokens.now) ≡ true }
    ensures { result ≡ is_else_if (symbols tokens.now) }
{
    match split_first(tokens) {
        Some((_, behind)) => is_word(Word::If, behind),
        None => false,
    }
}

/// Whether the first two tokens are `else` and `if`.
pub fn begins_else_if(tokens: &[Token]) -> bool
    ensures { result ≡ is_else_if (symbols tokens.now) }
{
    is_word(Word::Else, tokens) && is_if_behind(tokens)
}
