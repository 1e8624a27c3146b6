//! The declarations of a machine, each chosen by its first token. Ports that messages are received by and actions are a head and a
//! block.
ghost use Rattle.std.specs.Prelude.{◌≡◌, MatchResult};
ghost use Rattle.slicc_ast.specs.Prelude.{is_ahead, decl, first_of_form, declaration, of};
ghost use Rattle.slicc_ast.specs.Machines.{action, in_port};
ghost use Rattle.slicc_ast.specs.Form.Form.{action as action_form, in_port as in_port_form};
ghost use Rattle.slicc_lex.specs.Prelude.{symbols};
ghost use Rattle.slicc_reading.specs.Prelude.{AreRead, IsRead, Refuses};
ghost use Rattle.slicc_parse.specs.Prelude.{braces_parts, braces_row, closed_parts, closed_row, words_of_kinds, words_of_rules};

use crate::typed::typed;
use slicc_ast::tree::{Action, Decl, InPort, Sign, Word};
use slicc_decl::{PortHead, enumeration, head, out_port, port_head, states, structure, transition};
use slicc_expr::statement_block;
use slicc_lex::Token;
use slicc_reading::{Fault, Read, is_name, is_word, open, refuse, sign, span, word};
use std::alloc::Global;

/// A port that messages are received by.
fn in_port(alloc: Global, room: u32, tokens: &[Token]) -> Read<InPort>
    ensures { MatchResult result
        (λ read. IsRead room (of in_port_form) (in_port read.0) tokens.now tokens.now read.1.now)
        (Refuses room (of in_port_form) tokens.now) }
{
    if !is_word(Word::InPort, tokens) {
        return Err(refuse(room, tokens));
    }
    match word(room, Word::InPort, tokens) {
        Ok(inside) => match port_head(alloc, room, inside) {
            Ok((head, behind)) => match statement_block(alloc, room, behind) {
                Ok((body, left)) => {
                    let PortHead {
                        name,
                        message,
                        buffer,
                        pairs,
                    } = head;
                    let span = span(tokens, left);
                    Ok((
                        InPort {
                            name,
                            message,
                            buffer,
                            pairs,
                            body,
                            span,
                        },
                        left,
                    ))
                }
                Err(fault) => {
                    drop(head);
                    Err(fault)
                }
            },
            Err(fault) => Err(fault),
        },
        Err(fault) => Err(fault),
    }
}

/// An action.
fn action(alloc: Global, room: u32, tokens: &[Token]) -> Read<Action>
    ensures { MatchResult result
        (λ read. IsRead room (of action_form) (action read.0) tokens.now tokens.now read.1.now)
        (Refuses room (of action_form) tokens.now) }
{
    if !is_word(Word::Action, tokens) {
        return Err(refuse(room, tokens));
    }
    match word(room, Word::Action, tokens) {
        Ok(inside) => match head(alloc, room, inside) {
            Ok((name, pairs, behind)) => match statement_block(alloc, room, behind) {
                Ok((body, left)) => {
                    let span = span(tokens, left);
                    Ok((
                        Action {
                            name,
                            pairs,
                            body,
                            span,
                        },
                        left,
                    ))
                }
                Err(fault) => Err(fault),
            },
            Err(fault) => Err(fault),
        },
        Err(fault) => Err(fault),
    }
}

/// Whether the first token begins a declaration of types.
fn begins_kinds(tokens: &[Token]) -> bool
    ensures { result ≡ is_ahead words_of_kinds (symbols tokens.now) }
{
    is_word(Word::StateDeclaration, tokens)
        || is_word(Word::Enumeration, tokens)
        || is_word(Word::Structure, tokens)
}

/// Whether the first token begins a declaration of what a machine does.
fn begins_rules(tokens: &[Token]) -> bool
    ensures { result ≡ is_ahead words_of_rules (symbols tokens.now) }
{
    is_word(Word::OutPort, tokens)
        || is_word(Word::InPort, tokens)
        || is_word(Word::Action, tokens)
        || is_word(Word::Transition, tokens)
}

/// Whether the first token begins a declaration.
fn begins_declaration(tokens: &[Token]) -> bool
    ensures { result ≡ is_ahead (first_of_form declaration) (symbols tokens.now) }
{
    is_name(tokens) || begins_kinds(tokens) || begins_rules(tokens)
}

/// A declaration of a kind, with the tokens that are left behind it.
macro_rules! declared {
    ($read:expr, $kind:path) => {
        match $read {
            Ok((found, left)) => Ok(($kind(found), left)),
            Err(fault) => Err(fault),
        }
    };
}

/// A declaration.
fn declaration(alloc: Global, room: u32, tokens: &[Token]) -> Read<Decl>
    ensures { MatchResult result
        (λ read. IsRead room (of declaration) (decl read.0) tokens.now tokens.now read.1.now)
        (Refuses room (of declaration) tokens.now) }
{
    if is_name(tokens) {
        return typed(alloc, room, tokens);
    }
    if is_word(Word::Transition, tokens) {
        return declared!(transition(alloc, room, tokens), Decl::Transition);
    }
    if is_word(Word::Action, tokens) {
        return declared!(action(alloc, room, tokens), Decl::Action);
    }
    if is_word(Word::InPort, tokens) {
        return declared!(in_port(alloc, room, tokens), Decl::InPort);
    }
    if is_word(Word::OutPort, tokens) {
        return declared!(out_port(alloc, room, tokens), Decl::OutPort);
    }
    if is_word(Word::Structure, tokens) {
        return declared!(structure(alloc, room, tokens), Decl::Structure);
    }
    if is_word(Word::Enumeration, tokens) {
        return declared!(enumeration(alloc, room, tokens), Decl::Enumeration);
    }
    if is_word(Word::StateDeclaration, tokens) {
        return declared!(states(alloc, room, tokens), Decl::States);
    }
    Err(refuse(room, tokens))
}

/// Declarations and `}`.
fn closed_declarations(alloc: Global, room: u32, tokens: &[Token]) -> Read<Vec<Decl>>
    ensures { MatchResult result
        (λ read. AreRead room closed_row (closed_parts read.0.items) tokens.now read.1.now)
        (Refuses room closed_row tokens.now) }
{
    let mut items = Vec::new(alloc);
    let mut left = tokens;
    'members: while begins_declaration(left) {
        match declaration(alloc, room, left) {
            Ok((next, after)) => match items.push(next) {
                Ok(()) => left = after,
                Err(failed) => {
                    drop(failed);
                    return Err(Fault::NoMemory);
                }
            },
            Err(fault) => return Err(fault),
        }
    }
    match sign(room, Sign::CloseBrace, left) {
        Ok(behind) => Ok((items, behind)),
        Err(fault) => Err(fault),
    }
}

/// Declarations in braces.
pub fn declaration_block(alloc: Global, room: u32, tokens: &[Token]) -> Read<Vec<Decl>>
    ensures { MatchResult result
        (λ read. AreRead room braces_row (braces_parts read.0.items) tokens.now read.1.now)
        (Refuses room braces_row tokens.now) }
{
    match open(room, Sign::OpenBrace, tokens) {
        Ok(behind) => closed_declarations(alloc, room - 1, behind),
        Err(fault) => Err(fault),
    }
}
