//! The objects and the ports of a machine.
ghost use Rattle.std.specs.Prelude.{MatchResult};
ghost use Rattle.slicc_ast.specs.Declarations.{pairs as pairs_of};
ghost use Rattle.slicc_ast.specs.Machines.{out_port};
ghost use Rattle.slicc_ast.specs.Names.{name as name_of, sign as sign_of};
ghost use Rattle.slicc_ast.specs.Prelude.{type_name, ◌▸◌, comma, of, parentheses, semicolon, type, object, node, none};
ghost use Rattle.slicc_ast.specs.declared.tree.token.Sign.TheVariants.{CloseParenthesis, Comma, OpenParenthesis, Semicolon};
ghost use Rattle.slicc_ast.specs.Form.Form.{out_port as out_port_form};
ghost use Rattle.slicc_ast.specs.Parts.{name as name_part, pairs as pairs_part, sign as sign_part, star};
ghost use Rattle.slicc_ast.specs.Outline.{token};
ghost use Rattle.slicc_ast.specs.declared.tree.token.TokenKind.TheVariants.{Name as Named};
ghost use Rattle.slicc_reading.specs.Prelude.{AreRead, IsRead, Refuses, IsNode};

use crate::heads::{ended_by, ended_name, ended_pairs};
use slicc_ast::tree::{Name, Object, OutPort, Pairs, Sign, TypeName, Word};
use slicc_lex::Token;
use slicc_reading::{Fault, Read, is_word, open, refuse, sign, span, type_name, word};
use std::alloc::Global;

/// An object with a star, behind its type at `start`.
pub fn starred_object<'t>(
    alloc: Global,
    room: u32,
    start: &[Token],
    kind: TypeName,
    tokens: &'t [Token],
) -> Read<'t, Object>
    requires { IsNode (node kind.span (token (Named kind.text) none)) start.now tokens.now }
    ensures { MatchResult result
        (λ read. IsRead room (star ▸ name_part ▸ pairs_part ▸ semicolon) (object read.0) start.now tokens.now read.1.now)
        (Refuses room (star ▸ name_part ▸ pairs_part ▸ semicolon) tokens.now) }
{
    match sign(room, Sign::Star, tokens) {
        Ok(behind) => match ended_name(alloc, room, Sign::Semicolon, behind) {
            Ok((name, pairs, left)) => {
                let span = span(start, left);
                Ok((
                    Object {
                        kind,
                        has_star: true,
                        name,
                        pairs,
                        span,
                    },
                    left,
                ))
            }
            Err(fault) => Err(fault),
        },
        Err(fault) => Err(fault),
    }
}

/// An object with no star, behind its type at `start` and its name at `tokens`.
pub fn plain_object<'t>(
    alloc: Global,
    room: u32,
    start: &[Token],
    kind: TypeName,
    tokens: &[Token],
    name: Name,
    behind: &'t [Token],
) -> Read<'t, Object>
    requires kind { IsNode (node kind.span (token (Named kind.text) none)) start.now tokens.now }
    requires name { IsNode (node name.span (token (Named name.text) none)) tokens.now behind.now }
    ensures { MatchResult result
        (λ read. IsRead room (pairs_part ▸ semicolon) (object read.0) start.now behind.now read.1.now)
        (Refuses room (pairs_part ▸ semicolon) behind.now) }
{
    match ended_pairs(alloc, room, Sign::Semicolon, behind) {
        Ok((pairs, left)) => {
            let span = span(start, left);
            Ok((
                Object {
                    kind,
                    has_star: false,
                    name,
                    pairs,
                    span,
                },
                left,
            ))
        }
        Err(fault) => Err(fault),
    }
}

/// The name of a type and a comma.
fn type_and_comma(alloc: Global, room: u32, tokens: &[Token]) -> Read<TypeName>
    ensures { MatchResult result (λ read. AreRead room (type ▸ comma) (λ others. type_name read.0 (sign_of Comma others)) tokens.now read.1.now) (Refuses room (type ▸ comma) tokens.now) }
{
    match type_name(alloc, room, tokens) {
        Ok((called, behind)) => match sign(room, Sign::Comma, behind) {
            Ok(left) => Ok((called, left)),
            Err(fault) => Err(fault),
        },
        Err(fault) => Err(fault),
    }
}

/// The type of a port's messages, a comma, its buffer, attributes and `)`.
fn message_and_buffer(
    alloc: Global,
    room: u32,
    tokens: &[Token],
) -> Result<(TypeName, Name, Pairs, &[Token]), Fault>
    ensures { MatchResult result (λ read. AreRead room ((type ▸ comma) ▸ name_part ▸ pairs_part ▸ sign_part CloseParenthesis) (λ others. type_name read.0 (sign_of Comma (name_of read.1 (pairs_of read.2 (sign_of CloseParenthesis others))))) tokens.now read.3.now) (Refuses room ((type ▸ comma) ▸ name_part ▸ pairs_part ▸ sign_part CloseParenthesis) tokens.now) }
{
    match type_and_comma(alloc, room, tokens) {
        Ok((message, behind)) => match ended_name(alloc, room, Sign::CloseParenthesis, behind) {
            Ok((buffer, attributes, left)) => Ok((message, buffer, attributes, left)),
            Err(fault) => Err(fault),
        },
        Err(fault) => Err(fault),
    }
}

/// What a port has in its parentheses.
#[derive(Drop)]
pub struct PortHead {
    pub name: Name,
    pub message: TypeName,
    pub buffer: Name,
    pub pairs: Pairs,
}

fn port_inside(alloc: Global, room: u32, tokens: &[Token]) -> Read<PortHead>
    ensures { MatchResult result (λ read. AreRead room (name_part ▸ comma ▸ type ▸ comma ▸ name_part ▸ pairs_part ▸ sign_part CloseParenthesis) (λ others. name_of read.0.name (sign_of Comma (type_name read.0.message (sign_of Comma (name_of read.0.buffer (pairs_of read.0.pairs (sign_of CloseParenthesis others))))))) tokens.now read.1.now) (Refuses room (name_part ▸ comma ▸ type ▸ comma ▸ name_part ▸ pairs_part ▸ sign_part CloseParenthesis) tokens.now) }
{
    match ended_by(alloc, room, Sign::Comma, tokens) {
        Ok((name, behind)) => match message_and_buffer(alloc, room, behind) {
            Ok((message, buffer, pairs, left)) => Ok((
                PortHead {
                    name,
                    message,
                    buffer,
                    pairs,
                },
                left,
            )),
            Err(fault) => Err(fault),
        },
        Err(fault) => Err(fault),
    }
}

/// A port's name, message type, buffer and attributes in parentheses.
pub fn port_head(alloc: Global, room: u32, tokens: &[Token]) -> Read<PortHead>
    ensures { MatchResult result (λ read. AreRead room (parentheses (name_part ▸ comma ▸ type ▸ comma ▸ name_part ▸ pairs_part)) (λ others. sign_of OpenParenthesis (name_of read.0.name (sign_of Comma (type_name read.0.message (sign_of Comma (name_of read.0.buffer (pairs_of read.0.pairs (sign_of CloseParenthesis others)))))))) tokens.now read.1.now) (Refuses room (parentheses (name_part ▸ comma ▸ type ▸ comma ▸ name_part ▸ pairs_part)) tokens.now) }
{
    match open(room, Sign::OpenParenthesis, tokens) {
        Ok(behind) => port_inside(alloc, room - 1, behind),
        Err(fault) => Err(fault),
    }
}

/// The head of a port and `;`.
fn ended_head(alloc: Global, room: u32, tokens: &[Token]) -> Read<PortHead>
    ensures { MatchResult result (λ read. AreRead room (parentheses (name_part ▸ comma ▸ type ▸ comma ▸ name_part ▸ pairs_part) ▸ semicolon) (λ others. sign_of OpenParenthesis (name_of read.0.name (sign_of Comma (type_name read.0.message (sign_of Comma (name_of read.0.buffer (pairs_of read.0.pairs (sign_of CloseParenthesis (sign_of Semicolon others))))))))) tokens.now read.1.now) (Refuses room (parentheses (name_part ▸ comma ▸ type ▸ comma ▸ name_part ▸ pairs_part) ▸ semicolon) tokens.now) }
{
    match port_head(alloc, room, tokens) {
        Ok((head, behind)) => match sign(room, Sign::Semicolon, behind) {
            Ok(left) => Ok((head, left)),
            Err(fault) => {
                drop(head);
                Err(fault)
            }
        },
        Err(fault) => Err(fault),
    }
}

/// A port that messages are sent by.
pub fn out_port(alloc: Global, room: u32, tokens: &[Token]) -> Read<OutPort>
    ensures { MatchResult result (λ read. IsRead room (of out_port_form) (out_port read.0) tokens.now tokens.now read.1.now) (Refuses room (of out_port_form) tokens.now) }
{
    if !is_word(Word::OutPort, tokens) {
        return Err(refuse(room, tokens));
    }
    match word(room, Word::OutPort, tokens) {
        Ok(behind) => match ended_head(alloc, room, behind) {
            Ok((head, left)) => {
                let PortHead {
                    name,
                    message,
                    buffer,
                    pairs,
                } = head;
                let span = span(tokens, left);
                Ok((
                    OutPort {
                        name,
                        message,
                        buffer,
                        pairs,
                        span,
                    },
                    left,
                ))
            }
            Err(fault) => Err(fault),
        },
        Err(fault) => Err(fault),
    }
}
