//! Whole files.
ghost use Rattle.std.specs.Prelude.{◌≡◌, ◌==◌, ◌∷◌, ◌≤◌, [], IsTrue, length, not, IfOk, MatchResult};
ghost use Rattle.slicc_ast.specs.Prelude.{has, is_ahead, covering, first_of_form, file, end_token, of, end_of_text, kind_of};
ghost use Rattle.slicc_ast.specs.declared.tree.token.TokenKind.TheVariants.{End};
ghost use Rattle.slicc_lex.specs.Prelude.{token_spans, symbols};
ghost use Rattle.slicc_parse.specs.Prelude.{IsEndAt, IsFileRead, AreEndedOnce, IsParse, file_parts, file_row};
ghost use Rattle.slicc_reading.specs.Prelude.{AreRead, Refuses};

use crate::items::{begins_item, several_items};
use slicc_ast::tree::{Item, Span, TokenKind, Tree, Word};
use slicc_ast::{Seq, Text};
use slicc_decl::{ReadBoth, optional_protocol};
use slicc_lex::Token;
use slicc_reading::{Read, SyntaxFault, is_word, placed, refuse, room_within, split_first};
use std::alloc::Global;

/// Whether the first token begins a file.
fn begins_file(tokens: &[Token]) -> bool
    ensures { result ≡ is_ahead (first_of_form file) (symbols tokens.now) }
{
    is_word(Word::Protocol, tokens) || begins_item(tokens)
}

/// The number of the file that the first token is in.
fn first_file(tokens: &[Token]) -> u16
    ensures { result ≡ (covering (token_spans tokens.now)).file }
{
    match split_first(tokens) {
        Some((first, _)) => first.span.file,
        None => 0,
    }
}

fn is_end_kind(kind: &TokenKind) -> bool
    ensures value { result ≡ has (end_of_text ∷ []) (kind_of kind.now) }
    ensures same { IsTrue result → kind.now ≡ End }
{
    match kind {
        TokenKind::End => true,
        _ => false,
    }
}

/// Where the end token begins, and what is behind it.
fn end_place(room: u32, tokens: &[Token]) -> Read<u32>
    ensures { MatchResult result
        (λ read. IsEndAt tokens.now read.0 read.1.now)
        (Refuses room end_token tokens.now) }
{
    match split_first(tokens) {
        Some((first, left)) => {
            if is_end_kind(&first.kind) {
                return Ok((first.span.start, left));
            }
            Err(refuse(room, tokens))
        }
        None => Err(refuse(room, tokens)),
    }
}

/// The name of the protocol, where it is there, and the items.
fn protocol_and_items(
    alloc: Global,
    room: u32,
    tokens: &[Token],
) -> ReadBoth<Option<Text>, Vec<Item>>
    ensures read { MatchResult result
        (λ read. AreRead room file_row (file_parts read.0 read.1.items) tokens.now read.2.now)
        (Refuses room file_row tokens.now) }
    ensures some { IfOk result (λ read. IsTrue (not (length read.1.items == 0))) }
{
    match optional_protocol(alloc, room, tokens) {
        Ok((protocol, behind)) => match several_items(alloc, room, behind) {
            Ok((items, left)) => Ok((protocol, items, left)),
            Err(fault) => {
                drop(protocol);
                Err(fault)
            }
        },
        Err(fault) => Err(fault),
    }
}

/// A file, and what is behind its end token.
fn file(alloc: Global, room: u32, tokens: &[Token]) -> Read<Tree>
    ensures { MatchResult result
        (λ read. IsFileRead room read.0 tokens.now read.1.now)
        (Refuses room (of file) tokens.now) }
{
    if !begins_file(tokens) {
        return Err(refuse(room, tokens));
    }
    match protocol_and_items(alloc, room, tokens) {
        Ok((protocol, items, behind)) => match end_place(room, behind) {
            Ok((end, left)) => {
                let span = Span {
                    file: first_file(tokens),
                    start: 0,
                    end,
                };
                let items = Seq::of(items);
                Ok((
                    Tree {
                        protocol,
                        items,
                        span,
                    },
                    left,
                ))
            }
            Err(fault) => {
                drop(protocol);
                drop(items);
                Err(fault)
            }
        },
        Err(fault) => Err(fault),
    }
}

/// The tree of a whole file, which the tokens spell, or the place of the first token with which no file begins so or which
/// opens a nesting above 64. The last of the tokens, and no other, is the end token.
pub fn parse(alloc: Global, tokens: &Seq<Token>) -> Result<Tree, SyntaxFault>
    requires size { length tokens.now ≤ 1048577 }
    requires ended { AreEndedOnce tokens.now }
    ensures { IsParse tokens.now result }
{
    let count = tokens.len();
    match file(alloc, room_within(0), tokens.as_slice()) {
        Ok((tree, _)) => Ok(tree),
        Err(fault) => Err(placed(count, fault)),
    }
}
