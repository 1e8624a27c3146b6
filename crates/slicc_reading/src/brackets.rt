//! Tokens of which no more is known than that brackets close in pairs.
ghost use Rattle.std.specs.Prelude.{◌≡◌, ◌<◌, true, length, IfOk, MatchResult};
ghost use Rattle.slicc_ast.specs.Prelude.{has, is_ahead, first_of_form, of, unbracketed, kind_of, sign_kind};
ghost use Rattle.slicc_ast.specs.Names.{balanced_part};
ghost use Rattle.slicc_ast.specs.declared.tree.token.Sign.TheVariants.{CloseBrace, CloseBracket, CloseParenthesis, OpenBrace, OpenBracket, OpenParenthesis};
ghost use Rattle.slicc_ast.specs.Form.Form.{balanced_part as part_form};
ghost use Rattle.slicc_ast.specs.Parts.{balanced};
ghost use Rattle.slicc_lex.specs.Prelude.{symbols};
ghost use Rattle.slicc_reading.specs.Prelude.{balanced_outline, bracketed, bracketed_parts, opening_brackets, AreRead, IsRead, Refuses};

use crate::fault::{Fault, Read};
use crate::kept::{added, ended};
use crate::leaf::{is_sign, open, refuse, span, split_first};
use slicc_ast::tree::{Balanced, Part, Sign, TokenKind};
use slicc_ast::{NoMemory, Seq};
use slicc_lex::Token;
use std::alloc::Global;

/// Whether a sign is none of the brackets.
fn is_loose_sign(sign: Sign) -> bool
    ensures { result ≡ has unbracketed (sign_kind sign) }
{
    match sign {
        Sign::OpenBrace
        | Sign::CloseBrace
        | Sign::OpenParenthesis
        | Sign::CloseParenthesis
        | Sign::OpenBracket
        | Sign::CloseBracket => false,
        _ => true,
    }
}

/// Whether a token is no bracket and not the end of the text.
fn is_loose_kind(kind: &TokenKind) -> bool
    ensures { result ≡ has unbracketed (kind_of kind.now) }
{
    match kind {
        TokenKind::Sign(sign) => is_loose_sign(*sign),
        TokenKind::End => false,
        _ => true,
    }
}

/// Whether the first token is no bracket and not the end of the text.
fn is_loose(tokens: &[Token]) -> bool
    ensures { result ≡ is_ahead unbracketed (symbols tokens.now) }
{
    match split_first(tokens) {
        Some((first, _)) => is_loose_kind(&first.kind),
        None => false,
    }
}

/// Whether the first token is an opening bracket.
fn opens_pair(tokens: &[Token]) -> bool
    ensures { result ≡ is_ahead opening_brackets (symbols tokens.now) }
{
    is_sign(Sign::OpenParenthesis, tokens)
        || is_sign(Sign::OpenBracket, tokens)
        || is_sign(Sign::OpenBrace, tokens)
}

/// Whether the first token goes on with a balanced part.
fn begins_part(tokens: &[Token]) -> bool
    ensures { result ≡ is_ahead (first_of_form part_form) (symbols tokens.now) }
{
    is_loose(tokens) || opens_pair(tokens)
}

fn copied_kind(alloc: Global, kind: &TokenKind) -> Result<TokenKind, NoMemory>
    ensures { IfOk result (λ copy. copy ≡ kind.now) }
{
    match kind {
        TokenKind::Name(text) => Ok(TokenKind::Name(Seq::copied(alloc, text)?)),
        TokenKind::Quoted(text) => Ok(TokenKind::Quoted(Seq::copied(alloc, text)?)),
        TokenKind::Number(number) => Ok(TokenKind::Number(*number)),
        TokenKind::Word(word) => Ok(TokenKind::Word(*word)),
        TokenKind::Sign(sign) => Ok(TokenKind::Sign(*sign)),
        TokenKind::End => Ok(TokenKind::End),
    }
}

/// A token that is no bracket.
fn loose(alloc: Global, room: u32, tokens: &[Token]) -> Read<Part>
    requires { is_ahead unbracketed (symbols tokens.now) ≡ true }
    ensures read { MatchResult result
        (λ read. AreRead room (of part_form) (balanced_part read.0) tokens.now read.1.now)
        (Refuses room (of part_form) tokens.now) }
    ensures shorter { IfOk result (λ read. length read.1.now < length tokens.now) }
{
    let Some((first, left)) = split_first(tokens) else {
        return Err(refuse(room, tokens));
    };
    match copied_kind(alloc, &first.kind) {
        Ok(kind) => Ok((Part::Token(kind), left)),
        Err(_) => Err(Fault::NoMemory),
    }
}

/// Any tokens in which brackets close in pairs, as far as they go.
#[cycle(balanced)]
pub fn balanced(alloc: Global, room: u32, tokens: &[Token]) -> Read<Balanced>
    ensures { MatchResult result
        (λ read. IsRead room balanced (balanced_outline read.0) tokens.now tokens.now read.1.now)
        (Refuses room balanced tokens.now) }
{
    let mut parts = Seq::new(alloc);
    let mut left = tokens;
    'parts: while begins_part(left) {
        match added(&mut parts, next_part(alloc, room, left)) {
            Ok(after) => left = after,
            Err(fault) => return Err(fault),
        }
    }
    let span = span(tokens, left);
    Ok((Balanced { parts, span }, left))
}

/// A token that is no bracket, or a pair of brackets with what is between them.
#[cycle(balanced)]
fn next_part(alloc: Global, room: u32, tokens: &[Token]) -> Read<Part>
    requires { is_ahead (first_of_form part_form) (symbols tokens.now) ≡ true }
    ensures read { MatchResult result
        (λ read. AreRead room (of part_form) (balanced_part read.0) tokens.now read.1.now)
        (Refuses room (of part_form) tokens.now) }
    ensures shorter { IfOk result (λ read. length read.1.now < length tokens.now) }
{
    if is_loose(tokens) {
        return loose(alloc, room, tokens);
    }
    if is_sign(Sign::OpenParenthesis, tokens) {
        return match bracketed(
            alloc,
            room,
            Sign::OpenParenthesis,
            Sign::CloseParenthesis,
            tokens,
        ) {
            Ok((inner, left)) => Ok((Part::Parentheses(inner), left)),
            Err(fault) => Err(fault),
        };
    }
    if is_sign(Sign::OpenBracket, tokens) {
        return match bracketed(alloc, room, Sign::OpenBracket, Sign::CloseBracket, tokens) {
            Ok((inner, left)) => Ok((Part::Brackets(inner), left)),
            Err(fault) => Err(fault),
        };
    }
    match bracketed(alloc, room, Sign::OpenBrace, Sign::CloseBrace, tokens) {
        Ok((inner, left)) => Ok((Part::Braces(inner), left)),
        Err(fault) => Err(fault),
    }
}

/// A balanced part between an opening sign and a closing one.
#[cycle(balanced)]
pub fn bracketed(
    alloc: Global,
    room: u32,
    opener: Sign,
    closer: Sign,
    tokens: &[Token],
) -> Read<Balanced>
    ensures read { MatchResult result
        (λ read. AreRead room (bracketed opener closer)
        (bracketed_parts opener closer read.0) tokens.now read.1.now)
        (Refuses room (bracketed opener closer) tokens.now) }
    ensures shorter { IfOk result (λ read. length read.1.now < length tokens.now) }
{
    match open(room, opener, tokens) {
        Ok(behind) => ended(room - 1, balanced(alloc, room - 1, behind), closer),
        Err(fault) => Err(fault),
    }
}
