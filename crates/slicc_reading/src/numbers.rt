//! Numbers.
ghost use Rattle.std.specs.Prelude.{◌≡◌, ◌∷◌, ◌<◌, [], false, length, IfOk, MatchOption, MatchResult};
ghost use Rattle.slicc_ast.specs.Prelude.{has, is_ahead, number_token, kind_of, number};
ghost use Rattle.slicc_ast.specs.Outline.{token};
ghost use Rattle.slicc_ast.specs.declared.tree.token.TokenKind.TheVariants.{Number};
ghost use Rattle.slicc_lex.specs.Prelude.{symbols};
ghost use Rattle.slicc_reading.specs.Prelude.{AreRead, Refuses};

use crate::fault::Read;
use crate::leaf::{refuse, split_first};
use slicc_ast::tree::TokenKind;
use slicc_lex::Token;

fn number_of(kind: &TokenKind) -> Option<i64>
    ensures { MatchOption result (has (number ∷ []) (kind_of kind.now) ≡ false) (λ n. kind.now ≡ Number n) }
{
    match kind {
        TokenKind::Number(found) => Some(*found),
        _ => None,
    }
}

fn is_number_kind(kind: &TokenKind) -> bool
    ensures { result ≡ has (number ∷ []) (kind_of kind.now) }
{
    match kind {
        TokenKind::Number(_) => true,
        _ => false,
    }
}

/// Whether the first token is a number.
pub fn is_number(tokens: &[Token]) -> bool
    ensures { result ≡ is_ahead (number ∷ []) (symbols tokens.now) }
{
    match split_first(tokens) {
        Some((first, _)) => is_number_kind(&first.kind),
        None => false,
    }
}

/// A number.
pub fn number(room: u32, tokens: &[Token]) -> Read<i64>
    ensures read { MatchResult result
        (λ read. AreRead room number_token (token (Number read.0)) tokens.now read.1.now)
        (Refuses room number_token tokens.now) }
    ensures shorter { IfOk result (λ read. length read.1.now < length tokens.now) }
{
    let Some((first, left)) = split_first(tokens) else {
        return Err(refuse(room, tokens));
    };
    match number_of(&first.kind) {
        Some(found) => Ok((found, left)),
        None => Err(refuse(room, tokens)),
    }
}
