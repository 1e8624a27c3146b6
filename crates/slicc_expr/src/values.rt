//! Primary expressions of one or two tokens, what stands before the expression of a cast, and what expressions begin with.
ghost use Rattle.std.specs.Prelude.{◌≡◌, ◌∷◌, ◌<◌, [], ◌≤◌, false, true, length, IfOk, MatchOption, MatchResult};
ghost use Rattle.slicc_ast.specs.Prelude.{has, is_ahead, expr, level_of, node, none, first_of_constant, first_of_expression, first_of_opening, ◌▸◌, of, constant, kind_of, number, word_kind, mode_parts, type_name};
ghost use Rattle.slicc_ast.specs.Names.{word as word_of, sign};
ghost use Rattle.slicc_ast.specs.Outline.{token};
ghost use Rattle.slicc_ast.specs.declared.tree.token.TokenKind.TheVariants.{Word as WordOf};
ghost use Rattle.slicc_ast.specs.declared.tree.token.Word.TheVariants.{New};
ghost use Rattle.slicc_ast.specs.Parts.{name, word as word_part};
ghost use Rattle.slicc_ast.specs.declared.tree.token.Sign.TheVariants.{Comma};
ghost use Rattle.slicc_lex.specs.Prelude.{symbols};
ghost use Rattle.slicc_reading.specs.Prelude.{IsRead, Refuses, AreRead};
ghost use Rattle.slicc_expr.specs.Prelude.{IsSimple, longer_kinds, simple_kinds, cast_head, mode_part};

use slicc_ast::Text;
use slicc_ast::tree::{Expr, Sign, Span, TokenKind, TypeName, Word};
use slicc_lex::Token;
use slicc_reading::{
    Read, ended, is_name, is_number, is_sign, is_string, is_word, joined, name, refuse, span,
    split_first, string, type_name, word,
};
use std::alloc::Global;

/// Whether the first token is an expression by itself and isn't a name.
pub fn begins_simple(tokens: &[Token]) -> bool
    ensures { result ≡ is_ahead simple_kinds (symbols tokens.now) }
{
    is_number(tokens)
        || is_word(Word::True, tokens)
        || is_word(Word::False, tokens)
        || is_word(Word::Ood, tokens)
}

/// Whether the first token is a word or a parenthesis that begins a primary expression of several tokens.
fn begins_longer(tokens: &[Token]) -> bool
    ensures { result ≡ is_ahead longer_kinds (symbols tokens.now) }
{
    is_word(Word::New, tokens)
        || is_word(Word::IsValid, tokens)
        || is_word(Word::IsInvalid, tokens)
        || is_word(Word::StaticCast, tokens)
        || is_sign(Sign::OpenParenthesis, tokens)
}

/// Whether the first token begins a primary expression and isn't a name.
pub fn begins_constant(tokens: &[Token]) -> bool
    ensures { result ≡ is_ahead first_of_constant (symbols tokens.now) }
{
    begins_simple(tokens) || begins_longer(tokens)
}

/// Whether the first token begins an expression and isn't a name.
pub fn begins_opening(tokens: &[Token]) -> bool
    ensures { result ≡ is_ahead first_of_opening (symbols tokens.now) }
{
    is_sign(Sign::Not, tokens) || is_sign(Sign::Minus, tokens) || begins_constant(tokens)
}

/// Whether the first token begins an expression.
pub fn begins_expression(tokens: &[Token]) -> bool
    ensures { result ≡ is_ahead first_of_expression (symbols tokens.now) }
{
    is_name(tokens) || begins_opening(tokens)
}

fn word_value(word: Word, span: Span) -> Option<Expr>
    ensures { MatchOption result (has simple_kinds (word_kind word) ≡ false) (λ e. IsSimple (WordOf word) span e) }
{
    match word {
        Word::True => Some(Expr::True(span)),
        Word::False => Some(Expr::False(span)),
        Word::Ood => Some(Expr::Nothing(span)),
        _ => None,
    }
}

/// What a token is as an expression: a number, or a word that stands for a value.
fn value_of(kind: &TokenKind, span: Span) -> Option<Expr>
    ensures { MatchOption result (has simple_kinds (kind_of kind.now) ≡ false) (λ e. IsSimple kind.now span e) }
{
    match kind {
        TokenKind::Number(value) => Some(Expr::Number(*value, span)),
        TokenKind::Word(word) => word_value(*word, span),
        _ => None,
    }
}

/// A number, or a word that stands for a value.
pub fn simple(room: u32, tokens: &[Token]) -> Read<Expr>
    requires { is_ahead simple_kinds (symbols tokens.now) ≡ true }
    ensures read { MatchResult result
        (λ read. IsRead room (of constant) (expr read.0) tokens.now tokens.now read.1.now)
        (Refuses room (of constant) tokens.now) }
    ensures tight { IfOk result (λ read. 9 ≤ level_of read.0) }
    ensures shorter { IfOk result (λ read. length read.1.now < length tokens.now) }
{
    let Some((first, left)) = split_first(tokens) else {
        return Err(refuse(room, tokens));
    };
    match value_of(&first.kind, first.span) {
        Some(value) => Ok((value, left)),
        None => Err(refuse(room, tokens)),
    }
}

/// `new` and a name.
pub fn new_entry(alloc: Global, room: u32, tokens: &[Token]) -> Read<Expr>
    ensures read { MatchResult result
        (λ read. IsRead room (word_part New ▸ name) (expr read.0) tokens.now tokens.now read.1.now)
        (Refuses room (word_part New ▸ name) tokens.now) }
    ensures tight { IfOk result (λ read. 9 ≤ level_of read.0) }
    ensures shorter { IfOk result (λ read. length read.1.now < length tokens.now) }
{
    match word(room, Word::New, tokens) {
        Ok(behind) => match name(alloc, room, behind) {
            Ok((made, left)) => Ok((Expr::New(made, span(tokens, left)), left)),
            Err(fault) => Err(fault),
        },
        Err(fault) => Err(fault),
    }
}

/// A string and a comma where there is a string.
fn optional_mode(alloc: Global, room: u32, tokens: &[Token]) -> Read<Option<Text>>
    ensures { MatchResult result
        (λ read. AreRead room mode_part (mode_parts read.0) tokens.now read.1.now)
        (Refuses room mode_part tokens.now) }
{
    if !is_string(tokens) {
        return Ok((None, tokens));
    }
    match ended(room, string(alloc, room, tokens), Sign::Comma) {
        Ok((mode, left)) => Ok((Some(mode), left)),
        Err(fault) => Err(fault),
    }
}

/// A type and a comma, and a string and a comma where there is a string.
pub fn cast_head(alloc: Global, room: u32, tokens: &[Token]) -> Read<(TypeName, Option<Text>)>
    ensures read { MatchResult result
        (λ read. AreRead room cast_head (λ others. type_name read.0.0 (sign Comma (mode_parts read.0.1 others))) tokens.now read.1.now)
        (Refuses room cast_head tokens.now) }
    ensures shorter { IfOk result (λ read. length read.1.now < length tokens.now) }
{
    match ended(room, type_name(alloc, room, tokens), Sign::Comma) {
        Ok((target, behind)) => joined(target, optional_mode(alloc, room, behind)),
        Err(fault) => Err(fault),
    }
}
