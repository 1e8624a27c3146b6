//! Attributes.
ghost use Rattle.std.specs.Prelude.{◌≡◌, ◌<◌, false, length, IfOk, MatchOption, MatchResult};
ghost use Rattle.slicc_ast.specs.Prelude.{has, pair_list, pair_value, node, part, ◌▸◌, comma, of, value, kind_of};
ghost use Rattle.slicc_ast.specs.Declarations.{pair};
ghost use Rattle.slicc_ast.specs.Names.{name as name_of, sign as sign_of};
ghost use Rattle.slicc_ast.specs.declared.tree.token.Sign.TheVariants.{Comma, Equals};
ghost use Rattle.slicc_ast.specs.Form.Form.{pair as pair_form};
ghost use Rattle.slicc_ast.specs.Parts.{name as name_part, pairs, sign as sign_part};
ghost use Rattle.slicc_reading.specs.Prelude.{IsValue, value_kinds, AreRead, IsRead, Refuses};

use crate::fault::{Fault, Read};
use crate::kept::added;
use crate::leaf::{is_name, is_sign, is_string, name, refuse, sign, span, split_first, string};
use slicc_ast::tree::{Name, Pair, PairValue, Pairs, Sign, TokenKind};
use slicc_ast::{NoMemory, Seq};
use slicc_lex::Token;
use std::alloc::Global;

/// What a token is as the value of an attribute.
fn value_of(alloc: Global, token: &Token) -> Result<Option<PairValue>, NoMemory>
    ensures { IfOk result (λ found. MatchOption found (has value_kinds (kind_of token.now.kind) ≡ false) (λ v. IsValue token.now v)) }
{
    match &token.kind {
        TokenKind::Name(text) => Ok(Some(PairValue::Name(Name {
            text: Seq::copied(alloc, text)?,
            span: token.span,
        }))),
        TokenKind::Quoted(text) => Ok(Some(PairValue::Quoted(Seq::copied(alloc, text)?))),
        TokenKind::Number(number) => Ok(Some(PairValue::Number(*number))),
        _ => Ok(None),
    }
}

/// A string, a number or a name.
fn pair_value(alloc: Global, room: u32, tokens: &[Token]) -> Read<PairValue>
    ensures read { MatchResult result
        (λ read. AreRead room value (pair_value read.0) tokens.now read.1.now)
        (Refuses room value tokens.now) }
    ensures shorter { IfOk result (λ read. length read.1.now < length tokens.now) }
{
    let Some((first, left)) = split_first(tokens) else {
        return Err(refuse(room, tokens));
    };
    match value_of(alloc, first) {
        Ok(Some(value)) => Ok((value, left)),
        Ok(None) => Err(refuse(room, tokens)),
        Err(_) => Err(Fault::NoMemory),
    }
}

/// `=` and a value.
pub fn assigned(alloc: Global, room: u32, tokens: &[Token]) -> Read<PairValue>
    ensures read { MatchResult result
        (λ read. AreRead room (sign_part Equals ▸ value) (λ others. sign_of Equals (pair_value read.0 others)) tokens.now read.1.now)
        (Refuses room (sign_part Equals ▸ value) tokens.now) }
    ensures shorter { IfOk result (λ read. length read.1.now < length tokens.now) }
{
    match sign(room, Sign::Equals, tokens) {
        Ok(behind) => pair_value(alloc, room, behind),
        Err(fault) => Err(fault),
    }
}

/// An attribute: a name with a value, or a string.
pub fn pair(alloc: Global, room: u32, tokens: &[Token]) -> Read<Pair>
    ensures read { MatchResult result
        (λ read. IsRead room (of pair_form) (pair read.0) tokens.now tokens.now read.1.now)
        (Refuses room (of pair_form) tokens.now) }
    ensures shorter { IfOk result (λ read. length read.1.now < length tokens.now) }
{
    if is_name(tokens) {
        return named_pair(alloc, room, tokens);
    }
    if !is_string(tokens) {
        return Err(refuse(room, tokens));
    }
    match string(alloc, room, tokens) {
        Ok((text, left)) => Ok((Pair::Bare(text, span(tokens, left)), left)),
        Err(fault) => Err(fault),
    }
}

fn named_pair(alloc: Global, room: u32, tokens: &[Token]) -> Read<Pair>
    ensures read { MatchResult result
        (λ read. IsRead room (name_part ▸ sign_part Equals ▸ value) (pair read.0) tokens.now tokens.now read.1.now)
        (Refuses room (name_part ▸ sign_part Equals ▸ value) tokens.now) }
    ensures shorter { IfOk result (λ read. length read.1.now < length tokens.now) }
{
    match name(alloc, room, tokens) {
        Ok((name, behind)) => match assigned(alloc, room, behind) {
            Ok((value, left)) => {
                let span = span(tokens, left);
                Ok((Pair::Named { name, value, span }, left))
            }
            Err(fault) => Err(fault),
        },
        Err(fault) => Err(fault),
    }
}

/// A comma and an attribute.
pub fn next_pair(alloc: Global, room: u32, tokens: &[Token]) -> Read<Pair>
    ensures read { MatchResult result
        (λ read. AreRead room (comma ▸ of pair_form) (λ others. sign_of Comma (part (pair read.0) others)) tokens.now read.1.now)
        (Refuses room (comma ▸ of pair_form) tokens.now) }
    ensures shorter { IfOk result (λ read. length read.1.now < length tokens.now) }
{
    match sign(room, Sign::Comma, tokens) {
        Ok(behind) => pair(alloc, room, behind),
        Err(fault) => Err(fault),
    }
}

/// Any number of attributes, each behind a comma.
pub fn pairs(alloc: Global, room: u32, tokens: &[Token]) -> Read<Pairs>
    ensures { MatchResult result
        (λ read. IsRead room pairs (node read.0.span (pair_list read.0.items)) tokens.now tokens.now read.1.now)
        (Refuses room pairs tokens.now) }
{
    let mut items = Seq::new(alloc);
    let mut left = tokens;
    'commas: while is_sign(Sign::Comma, left) {
        match added(&mut items, next_pair(alloc, room, left)) {
            Ok(after) => left = after,
            Err(fault) => return Err(fault),
        }
    }
    let span = span(tokens, left);
    Ok((Pairs { items, span }, left))
}
