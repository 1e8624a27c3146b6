//! The head of a machine: its name, its title, attributes and parameters.
ghost use Rattle.std.specs.Prelude.{◌≡◌, ◌∷◌, [], codes, MatchResult};
ghost use Rattle.std.specs.Str.{bytes_eq};
ghost use Rattle.slicc_ast.specs.Prelude.{has, is_ahead, parameter_list, type_parts, machine_name, ◌▸◌, colon, comma, of, parentheses, repeated, string, kind_of, machine_type};
ghost use Rattle.slicc_ast.specs.Declarations.{pairs as pairs_of};
ghost use Rattle.slicc_ast.specs.Names.{name as name_of, sign as sign_of};
ghost use Rattle.slicc_ast.specs.Outline.{token};
ghost use Rattle.slicc_ast.specs.declared.tree.token.Sign.TheVariants.{CloseParenthesis, Colon, Comma, OpenParenthesis};
ghost use Rattle.slicc_ast.specs.declared.tree.token.TokenKind.TheVariants.{Quoted};
ghost use Rattle.slicc_ast.specs.Form.Form.{parameter};
ghost use Rattle.slicc_ast.specs.Parts.{name as name_part, pairs as pairs_part, sign as sign_part};
ghost use Rattle.slicc_lex.specs.Prelude.{symbols};
ghost use Rattle.slicc_reading.specs.Prelude.{AreRead, Refuses};

use crate::heads::{ReadBoth, ended_pairs};
use crate::parameters::parameter;
use slicc_ast::Text;
use slicc_ast::tree::{Name, Pairs, Parameter, Sign, TokenKind};
use slicc_lex::Token;
use slicc_reading::{
    Fault, Read, is_name, is_sign, name, name_after, open, refuse, sign, split_first, string,
};
use std::alloc::Global;

fn is_machine_type_text(text: &[u8]) -> bool
    ensures { result ≡ bytes_eq text.now (codes "MachineType") }
{
    text == "MachineType".as_bytes()
}

fn is_machine_type_kind(kind: &TokenKind) -> bool
    ensures { result ≡ has (machine_type ∷ []) (kind_of kind.now) }
{
    match kind {
        TokenKind::Name(text) => is_machine_type_text(text.as_slice()),
        _ => false,
    }
}

/// Whether the first token is the name `MachineType`.
fn is_machine_type(tokens: &[Token]) -> bool
    ensures { result ≡ is_ahead (machine_type ∷ []) (symbols tokens.now) }
{
    match split_first(tokens) {
        Some((first, _)) => is_machine_type_kind(&first.kind),
        None => false,
    }
}

/// The name of a machine, and whether `MachineType:` is before it.
fn machine_name(alloc: Global, room: u32, tokens: &[Token]) -> ReadBoth<bool, Name>
    ensures { MatchResult result
        (λ read. AreRead room (of machine_name) (λ others. type_parts read.0 (name_of read.1 others)) tokens.now read.2.now)
        (Refuses room (of machine_name) tokens.now) }
{
    if !is_name(tokens) {
        return Err(refuse(room, tokens));
    }
    match name(alloc, room, tokens) {
        Ok((first, behind)) => {
            if !is_machine_type(tokens) {
                return Ok((false, first, behind));
            }
            if !is_sign(Sign::Colon, behind) {
                return Ok((false, first, behind));
            }
            drop(first);
            match name_after(alloc, room, Sign::Colon, behind) {
                Ok((called, left)) => Ok((true, called, left)),
                Err(fault) => Err(fault),
            }
        }
        Err(fault) => Err(fault),
    }
}

/// A comma, a title, attributes and `)`.
fn title_and_pairs(alloc: Global, room: u32, tokens: &[Token]) -> ReadBoth<Text, Pairs>
    ensures { MatchResult result
        (λ read. AreRead room (comma ▸ string ▸ pairs_part ▸ sign_part CloseParenthesis) (λ others. sign_of Comma (token (Quoted read.0) (pairs_of read.1 (sign_of CloseParenthesis others)))) tokens.now read.2.now)
        (Refuses room (comma ▸ string ▸ pairs_part ▸ sign_part CloseParenthesis) tokens.now) }
{
    match sign(room, Sign::Comma, tokens) {
        Ok(inside) => match string(alloc, room, inside) {
            Ok((title, behind)) => {
                match ended_pairs(alloc, room, Sign::CloseParenthesis, behind) {
                    Ok((pairs, left)) => Ok((title, pairs, left)),
                    Err(fault) => Err(fault),
                }
            }
            Err(fault) => Err(fault),
        },
        Err(fault) => Err(fault),
    }
}

/// What a machine has in its parentheses.
#[derive(Drop)]
pub struct MachineHead {
    pub has_type: bool,
    pub name: Name,
    pub title: Text,
    pub pairs: Pairs,
}

fn closed_head(alloc: Global, room: u32, tokens: &[Token]) -> Read<MachineHead>
    ensures { MatchResult result
        (λ read. AreRead room (of machine_name ▸ comma ▸ string ▸ pairs_part ▸ sign_part CloseParenthesis) (λ others. type_parts read.0.has_type (name_of read.0.name (sign_of Comma (token (Quoted read.0.title) (pairs_of read.0.pairs (sign_of CloseParenthesis others)))))) tokens.now read.1.now)
        (Refuses room (of machine_name ▸ comma ▸ string ▸ pairs_part ▸ sign_part CloseParenthesis) tokens.now) }
{
    match machine_name(alloc, room, tokens) {
        Ok((has_type, name, behind)) => match title_and_pairs(alloc, room, behind) {
            Ok((title, pairs, left)) => Ok((
                MachineHead {
                    has_type,
                    name,
                    title,
                    pairs,
                },
                left,
            )),
            Err(fault) => Err(fault),
        },
        Err(fault) => Err(fault),
    }
}

/// A machine's name, title and attributes in parentheses.
pub fn machine_head(alloc: Global, room: u32, tokens: &[Token]) -> Read<MachineHead>
    ensures { MatchResult result
        (λ read. AreRead room (parentheses (of machine_name ▸ comma ▸ string ▸ pairs_part)) (λ others. sign_of OpenParenthesis (type_parts read.0.has_type (name_of read.0.name (sign_of Comma (token (Quoted read.0.title) (pairs_of read.0.pairs (sign_of CloseParenthesis others))))))) tokens.now read.1.now)
        (Refuses room (parentheses (of machine_name ▸ comma ▸ string ▸ pairs_part)) tokens.now) }
{
    match open(room, Sign::OpenParenthesis, tokens) {
        Ok(behind) => closed_head(alloc, room - 1, behind),
        Err(fault) => Err(fault),
    }
}

/// The parameters of a machine.
pub fn parameter_list(alloc: Global, room: u32, tokens: &[Token]) -> Read<Vec<Parameter>>
    ensures { MatchResult result
        (λ read. AreRead room (repeated (of parameter)) (parameter_list read.0.items) tokens.now read.1.now)
        (Refuses room (repeated (of parameter)) tokens.now) }
{
    let mut items = Vec::new(alloc);
    let mut left = tokens;
    'members: while is_name(left) {
        match parameter(alloc, room, left) {
            Ok((next, after)) => match items.push(next) {
                Ok(()) => left = after,
                Err(failed) => {
                    drop(failed);
                    return Err(Fault::NoMemory);
                }
            },
            Err(fault) => return Err(fault),
        }
    }
    Ok((items, left))
}
