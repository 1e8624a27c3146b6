//! Functions that are read and not looked at, and their names, which the grammar sets apart.
ghost use Rattle.std.specs.Prelude.{IsTrue, MatchResult, ◌≡◌, ◌||◌, ◌∷◌, [], codes};
ghost use Rattle.std.specs.Str.{bytes_eq};
ghost use Rattle.slicc_ast.specs.Prelude.{is_skipped, skipped, node, none, has, is_ahead, functional_name, kind_of};
ghost use Rattle.slicc_ast.specs.Outline.{token};
ghost use Rattle.slicc_ast.specs.declared.tree.token.TokenKind.TheVariants.{Name as Named};
ghost use Rattle.slicc_lex.specs.Prelude.{symbols};
ghost use Rattle.slicc_reading.specs.Prelude.{AreRead, IsNode, IsRead, Refuses};
ghost use Rattle.slicc_decl.specs.Members.{skipped_body_parts, skipped_body_row, skipped_parts, skipped_row};

use crate::heads::ReadBoth;
use slicc_ast::tree::{Balanced, Name, Pairs, Sign, Skipped, TokenKind, TypeName};
use slicc_lex::Token;
use slicc_reading::{Read, bracketed, pairs, span, split_first};
use std::alloc::Global;

fn is_skipped_text(text: &[u8]) -> bool
    ensures { result ≡ bytes_eq text.now (codes "functionalRead") || bytes_eq text.now (codes "functionalWrite") }
{
    text == "functionalRead".as_bytes() || text == "functionalWrite".as_bytes()
}

fn is_skipped_kind(kind: &TokenKind) -> bool
    ensures { result ≡ has (functional_name ∷ []) (kind_of kind.now) }
{
    match kind {
        TokenKind::Name(text) => is_skipped_text(text.as_slice()),
        _ => false,
    }
}

/// Whether the first token is the name of a function that is skipped: `functionalRead` or `functionalWrite`.
pub fn is_skipped_name(tokens: &[Token]) -> bool
    ensures { result ≡ is_ahead (functional_name ∷ []) (symbols tokens.now) }
{
    match split_first(tokens) {
        Some((first, _)) => is_skipped_kind(&first.kind),
        None => false,
    }
}

/// What is behind the name of a function that is skipped.
#[derive(Drop)]
pub struct SkippedEnd {
    pub arguments: Balanced,
    pub pairs: Pairs,
    pub body: Balanced,
}

/// Attributes and a body in braces, which is any balanced part.
fn pairs_and_body(alloc: Global, room: u32, tokens: &[Token]) -> ReadBoth<Pairs, Balanced>
    ensures { MatchResult result
        (λ read. AreRead room skipped_body_row
        (skipped_body_parts read.0 read.1) tokens.now read.2.now)
        (Refuses room skipped_body_row tokens.now) }
{
    match pairs(alloc, room, tokens) {
        Ok((attributes, behind)) => {
            match bracketed(alloc, room, Sign::OpenBrace, Sign::CloseBrace, behind) {
                Ok((body, left)) => Ok((attributes, body, left)),
                Err(fault) => Err(fault),
            }
        }
        Err(fault) => Err(fault),
    }
}

/// Arguments in parentheses, attributes and a body in braces.
fn skipped_end(alloc: Global, room: u32, tokens: &[Token]) -> Read<SkippedEnd>
    ensures { MatchResult result
        (λ read. AreRead room skipped_row
        (skipped_parts read.0.arguments read.0.pairs read.0.body) tokens.now read.1.now)
        (Refuses room skipped_row tokens.now) }
{
    match bracketed(
        alloc,
        room,
        Sign::OpenParenthesis,
        Sign::CloseParenthesis,
        tokens,
    ) {
        Ok((arguments, behind)) => match pairs_and_body(alloc, room, behind) {
            Ok((pairs, body, left)) => Ok((
                SkippedEnd {
                    arguments,
                    pairs,
                    body,
                },
                left,
            )),
            Err(fault) => Err(fault),
        },
        Err(fault) => Err(fault),
    }
}

/// A function that is skipped, behind its type at `start` and its name at `tokens`.
pub fn skipped<'t>(
    alloc: Global,
    room: u32,
    start: &[Token],
    kind: TypeName,
    tokens: &[Token],
    name: Name,
    behind: &'t [Token],
) -> Read<'t, Skipped>
    requires kind { IsNode (node kind.span (token (Named kind.text) none)) start.now tokens.now }
    requires name { IsNode (node name.span (token (Named name.text) none)) tokens.now behind.now }
    requires skipped { IsTrue (is_skipped name) }
    ensures { MatchResult result
        (λ read. IsRead room skipped_row (skipped read.0) start.now behind.now read.1.now)
        (Refuses room skipped_row behind.now) }
{
    match skipped_end(alloc, room, behind) {
        Ok((end, left)) => {
            let SkippedEnd {
                arguments,
                pairs,
                body,
            } = end;
            let span = span(start, left);
            Ok((
                Skipped {
                    kind,
                    name,
                    arguments,
                    pairs,
                    body,
                    span,
                },
                left,
            ))
        }
        Err(fault) => Err(fault),
    }
}
