//! The heads of declarations: a name and attributes in parentheses, and names and attributes that a sign ends. And the clauses of
//! a file that name something by a string: the protocol's name, and files that are included.
ghost use Rattle.std.specs.Prelude.{◌≡◌, ◌∷◌, ◌<◌, [], length, IfOk, MatchResult};
ghost use Rattle.slicc_ast.specs.Prelude.{is_ahead, ◌▸◌, parentheses, sign_kind, protocol_parts, optional, semicolon, string};
ghost use Rattle.slicc_ast.specs.Declarations.{pairs as pairs_of};
ghost use Rattle.slicc_ast.specs.Names.{name as name_of, sign as sign_of, word as word_of};
ghost use Rattle.slicc_ast.specs.declared.tree.token.Sign.TheVariants.{CloseParenthesis, Comma, OpenParenthesis, Semicolon};
ghost use Rattle.slicc_ast.specs.Parts.{name as name_part, pairs as pairs_part, sign as sign_part, word as word_part};
ghost use Rattle.slicc_ast.specs.Outline.{token};
ghost use Rattle.slicc_ast.specs.Trees.{item};
ghost use Rattle.slicc_ast.specs.declared.tree.token.TokenKind.TheVariants.{Quoted};
ghost use Rattle.slicc_ast.specs.declared.tree.token.Word.TheVariants.{Include, Protocol};
ghost use Rattle.slicc_lex.specs.Prelude.{symbols};
ghost use Rattle.slicc_reading.specs.Prelude.{AreRead, Refuses, IsRead};

use slicc_ast::Text;
use slicc_ast::tree::{Item, Name, Pairs, Sign, Word};
use slicc_lex::Token;
use slicc_reading::{
    Fault, Read, ended, is_sign, is_word, name, open, pairs, sign, span, string, word,
};
use std::alloc::Global;

/// Two values that are read from the front of tokens, one behind the other, and the tokens that are left behind them.
pub type ReadBoth<'t, A, B> = Result<(A, B, &'t [Token]), Fault>;

/// Reads a form that is a reserved word, a head and a block: `$block` reads the block, which is kept as `$members`.
#[macro_export]
macro_rules! headed {
    ($alloc:ident, $room:ident, $tokens:ident, $reserved:expr, $block:ident => $form:ident { $members:ident }) => {{
        if !is_word($reserved, $tokens) {
            return Err(refuse($room, $tokens));
        }
        match word($room, $reserved, $tokens) {
            Ok(inside) => match head($alloc, $room, inside) {
                Ok((name, pairs, behind)) => match $block($alloc, $room, behind) {
                    Ok(($members, left)) => {
                        let span = span($tokens, left);
                        Ok((
                            $form {
                                name,
                                pairs,
                                $members,
                                span,
                            },
                            left,
                        ))
                    }
                    Err(fault) => {
                        drop(name);
                        drop(pairs);
                        Err(fault)
                    }
                },
                Err(fault) => Err(fault),
            },
            Err(fault) => Err(fault),
        }
    }};
}

/// Whether attributes and `;` begin with the first token.
pub fn begins_ended_pairs(tokens: &[Token]) -> bool
    ensures { result ≡ is_ahead (sign_kind Comma ∷ sign_kind Semicolon ∷ []) (symbols tokens.now) }
{
    is_sign(Sign::Comma, tokens) || is_sign(Sign::Semicolon, tokens)
}

/// Attributes and the sign that ends them.
pub fn ended_pairs(alloc: Global, room: u32, end: Sign, tokens: &[Token]) -> Read<Pairs>
    ensures read { MatchResult result
        (λ read. AreRead room (pairs_part ▸ sign_part end) (λ others. pairs_of read.0 (sign_of end others)) tokens.now read.1.now)
        (Refuses room (pairs_part ▸ sign_part end) tokens.now) }
    ensures shorter { IfOk result (λ read. length read.1.now < length tokens.now) }
{
    ended(room, pairs(alloc, room, tokens), end)
}

/// A name and the sign that ends it.
pub fn ended_by(alloc: Global, room: u32, end: Sign, tokens: &[Token]) -> Read<Name>
    ensures read { MatchResult result
        (λ read. AreRead room (name_part ▸ sign_part end) (λ others. name_of read.0 (sign_of end others)) tokens.now read.1.now)
        (Refuses room (name_part ▸ sign_part end) tokens.now) }
    ensures shorter { IfOk result (λ read. length read.1.now < length tokens.now) }
{
    ended(room, name(alloc, room, tokens), end)
}

/// A name, attributes and the sign that ends them.
pub fn ended_name(alloc: Global, room: u32, end: Sign, tokens: &[Token]) -> ReadBoth<Name, Pairs>
    ensures read { MatchResult result
        (λ read. AreRead room (name_part ▸ pairs_part ▸ sign_part end) (λ others. name_of read.0 (pairs_of read.1 (sign_of end others))) tokens.now read.2.now)
        (Refuses room (name_part ▸ pairs_part ▸ sign_part end) tokens.now) }
    ensures shorter { IfOk result (λ read. length read.2.now < length tokens.now) }
{
    match name(alloc, room, tokens) {
        Ok((called, behind)) => match ended_pairs(alloc, room, end, behind) {
            Ok((attributes, left)) => Ok((called, attributes, left)),
            Err(fault) => {
                drop(called);
                Err(fault)
            }
        },
        Err(fault) => Err(fault),
    }
}

/// A name and attributes in parentheses.
pub fn head(alloc: Global, room: u32, tokens: &[Token]) -> ReadBoth<Name, Pairs>
    ensures { MatchResult result
        (λ read. AreRead room (parentheses (name_part ▸ pairs_part)) (λ others. sign_of OpenParenthesis (name_of read.0 (pairs_of read.1 (sign_of CloseParenthesis others)))) tokens.now read.2.now)
        (Refuses room (parentheses (name_part ▸ pairs_part)) tokens.now) }
{
    match open(room, Sign::OpenParenthesis, tokens) {
        Ok(behind) => ended_name(alloc, room - 1, Sign::CloseParenthesis, behind),
        Err(fault) => Err(fault),
    }
}

/// A string and `;`.
fn ended_string(alloc: Global, room: u32, tokens: &[Token]) -> Read<Text>
    ensures { MatchResult result
        (λ read. AreRead room (string ▸ semicolon) (λ others. token (Quoted read.0) (sign_of Semicolon others)) tokens.now read.1.now)
        (Refuses room (string ▸ semicolon) tokens.now) }
{
    match string(alloc, room, tokens) {
        Ok((text, behind)) => match sign(room, Sign::Semicolon, behind) {
            Ok(left) => Ok((text, left)),
            Err(fault) => Err(fault),
        },
        Err(fault) => Err(fault),
    }
}

/// A reserved word, a string and `;`.
fn clause(alloc: Global, room: u32, reserved: Word, tokens: &[Token]) -> Read<Text>
    ensures { MatchResult result
        (λ read. AreRead room (word_part reserved ▸ string ▸ semicolon) (λ others. word_of reserved (token (Quoted read.0) (sign_of Semicolon others))) tokens.now read.1.now)
        (Refuses room (word_part reserved ▸ string ▸ semicolon) tokens.now) }
{
    match word(room, reserved, tokens) {
        Ok(behind) => ended_string(alloc, room, behind),
        Err(fault) => Err(fault),
    }
}

/// A file that is included.
pub fn include(alloc: Global, room: u32, tokens: &[Token]) -> Read<Item>
    ensures { MatchResult result
        (λ read. IsRead room (word_part Include ▸ string ▸ semicolon) (item read.0) tokens.now tokens.now read.1.now)
        (Refuses room (word_part Include ▸ string ▸ semicolon) tokens.now) }
{
    match clause(alloc, room, Word::Include, tokens) {
        Ok((file, left)) => Ok((Item::Include(file, span(tokens, left)), left)),
        Err(fault) => Err(fault),
    }
}

/// The name of the protocol where it is there.
pub fn optional_protocol(alloc: Global, room: u32, tokens: &[Token]) -> Read<Option<Text>>
    ensures { MatchResult result
        (λ read. AreRead room (optional (word_part Protocol ▸ string ▸ semicolon)) (protocol_parts read.0) tokens.now read.1.now)
        (Refuses room (optional (word_part Protocol ▸ string ▸ semicolon)) tokens.now) }
{
    if !is_word(Word::Protocol, tokens) {
        return Ok((None, tokens));
    }
    match clause(alloc, room, Word::Protocol, tokens) {
        Ok((name, left)) => Ok((Some(name), left)),
        Err(fault) => Err(fault),
    }
}
