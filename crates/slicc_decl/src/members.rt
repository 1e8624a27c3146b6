//! Enumerations and a machine's states: declarations whose members are names with attributes.
ghost use Rattle.std.specs.Prelude.{◌<◌, length, IfOk, MatchResult};
ghost use Rattle.slicc_ast.specs.Declarations.{enumeration, pairs, states};
ghost use Rattle.slicc_ast.specs.Prelude.{state_list, symbol_list, ◌▸◌, braces, of, repeated};
ghost use Rattle.slicc_ast.specs.Names.{name, sign as sign_of};
ghost use Rattle.slicc_ast.specs.declared.tree.token.Sign.TheVariants.{CloseBrace, Colon, Comma, OpenBrace, Semicolon};
ghost use Rattle.slicc_ast.specs.Form.Form.{enumeration as enumeration_form, states as states_form};
ghost use Rattle.slicc_ast.specs.Parts.{sign as sign_part};
ghost use Rattle.slicc_reading.specs.Prelude.{AreRead, IsRead, Refuses};
ghost use Rattle.slicc_decl.specs.Prelude.{state_parts, state_row, symbol_row};

use crate::headed;
use crate::heads::{ended_by, ended_name, head};
use slicc_ast::Seq;
use slicc_ast::tree::{Enumeration, Sign, State, States, Symbol, Word};
use slicc_lex::Token;
use slicc_reading::{Fault, Read, added, ended, is_name, is_word, open, refuse, span, word};
use std::alloc::Global;

/// Members of an enumeration and `}`.
fn symbols(alloc: Global, room: u32, tokens: &[Token]) -> Read<Seq<Symbol>>
    ensures { MatchResult result
        (λ read. AreRead room (repeated symbol_row ▸ sign_part CloseBrace) (λ others. symbol_list read.0 (sign_of CloseBrace others)) tokens.now read.1.now)
        (Refuses room (repeated symbol_row ▸ sign_part CloseBrace) tokens.now) }
{
    let mut items = Seq::new(alloc);
    let mut left = tokens;
    'members: while is_name(left) {
        match ended_name(alloc, room, Sign::Semicolon, left) {
            Ok((name, pairs, after)) => match items.push(Symbol { name, pairs }) {
                Ok(()) => left = after,
                Err(_) => return Err(Fault::NoMemory),
            },
            Err(fault) => return Err(fault),
        }
    }
    ended(room, Ok((items, left)), Sign::CloseBrace)
}

/// Members of an enumeration in braces.
fn symbol_block(alloc: Global, room: u32, tokens: &[Token]) -> Read<Seq<Symbol>>
    ensures { MatchResult result
        (λ read. AreRead room (braces (repeated symbol_row)) (λ others. sign_of OpenBrace (symbol_list read.0 (sign_of CloseBrace others))) tokens.now read.1.now)
        (Refuses room (braces (repeated symbol_row)) tokens.now) }
{
    match open(room, Sign::OpenBrace, tokens) {
        Ok(behind) => symbols(alloc, room - 1, behind),
        Err(fault) => Err(fault),
    }
}

/// An enumeration.
pub fn enumeration(alloc: Global, room: u32, tokens: &[Token]) -> Read<Enumeration>
    ensures { MatchResult result
        (λ read. IsRead room (of enumeration_form) (enumeration read.0) tokens.now tokens.now read.1.now)
        (Refuses room (of enumeration_form) tokens.now) }
{
    headed! { alloc, room, tokens, Word::Enumeration, symbol_block => Enumeration { members } }
}

/// A state with its access permission.
fn state(alloc: Global, room: u32, tokens: &[Token]) -> Read<State>
    ensures read { MatchResult result
        (λ read. AreRead room state_row (state_parts read.0) tokens.now read.1.now)
        (Refuses room state_row tokens.now) }
    ensures shorter { IfOk result (λ read. length read.1.now < length tokens.now) }
{
    match ended_by(alloc, room, Sign::Comma, tokens) {
        Ok((name, inside)) => match ended_by(alloc, room, Sign::Colon, inside) {
            Ok((owner, behind)) => match ended_name(alloc, room, Sign::Semicolon, behind) {
                Ok((permission, pairs, left)) => Ok((
                    State {
                        name,
                        owner,
                        permission,
                        pairs,
                    },
                    left,
                )),
                Err(fault) => Err(fault),
            },
            Err(fault) => Err(fault),
        },
        Err(fault) => Err(fault),
    }
}

/// States and `}`.
fn state_members(alloc: Global, room: u32, tokens: &[Token]) -> Read<Seq<State>>
    ensures { MatchResult result
        (λ read. AreRead room (repeated state_row ▸ sign_part CloseBrace) (λ others. state_list read.0 (sign_of CloseBrace others)) tokens.now read.1.now)
        (Refuses room (repeated state_row ▸ sign_part CloseBrace) tokens.now) }
{
    let mut items = Seq::new(alloc);
    let mut left = tokens;
    'members: while is_name(left) {
        match added(&mut items, state(alloc, room, left)) {
            Ok(after) => left = after,
            Err(fault) => {
                drop(items);
                return Err(fault);
            }
        }
    }
    ended(room, Ok((items, left)), Sign::CloseBrace)
}

/// States in braces.
fn state_block(alloc: Global, room: u32, tokens: &[Token]) -> Read<Seq<State>>
    ensures { MatchResult result
        (λ read. AreRead room (braces (repeated state_row)) (λ others. sign_of OpenBrace (state_list read.0 (sign_of CloseBrace others))) tokens.now read.1.now)
        (Refuses room (braces (repeated state_row)) tokens.now) }
{
    match open(room, Sign::OpenBrace, tokens) {
        Ok(behind) => state_members(alloc, room - 1, behind),
        Err(fault) => Err(fault),
    }
}

/// The states of a machine.
pub fn states(alloc: Global, room: u32, tokens: &[Token]) -> Read<States>
    ensures { MatchResult result
        (λ read. IsRead room (of states_form) (states read.0) tokens.now tokens.now read.1.now)
        (Refuses room (of states_form) tokens.now) }
{
    headed! { alloc, room, tokens, Word::StateDeclaration, state_block => States { members } }
}
