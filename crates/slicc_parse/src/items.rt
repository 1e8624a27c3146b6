//! The items of a file, and machines among them.
ghost use Rattle.std.specs.Prelude.{◌≡◌, ◌==◌, IsTrue, length, not, IfOk, MatchResult};
ghost use Rattle.slicc_ast.specs.Prelude.{is_ahead, first_of_form, of};
ghost use Rattle.slicc_ast.specs.Trees.{item};
ghost use Rattle.slicc_ast.specs.Form.Form.{item as item_form, machine as machine_form};
ghost use Rattle.slicc_ast.specs.Machines.{machine};
ghost use Rattle.slicc_lex.specs.Prelude.{symbols};
ghost use Rattle.slicc_reading.specs.Prelude.{AreRead, IsRead, Refuses};
ghost use Rattle.slicc_parse.specs.Prelude.{items_parts, items_row, machine_parts, machine_row};

use crate::declarations::declaration_block;
use slicc_ast::Seq;
use slicc_ast::tree::{Decl, Item, Machine, Parameter, Sign, Word};
use slicc_decl::{
    MachineHead, ReadBoth, enumeration, include, machine_head, parameter_list, structure,
};
use slicc_lex::Token;
use slicc_reading::{Fault, Read, is_word, refuse, sign, span, word};
use std::alloc::Global;

/// A colon, parameters and declarations in braces.
fn machine_end(alloc: Global, room: u32, tokens: &[Token]) -> ReadBoth<Vec<Parameter>, Vec<Decl>>
    ensures { MatchResult result
        (λ read. AreRead room machine_row
        (machine_parts read.0.items read.1.items) tokens.now read.2.now)
        (Refuses room machine_row tokens.now) }
{
    match sign(room, Sign::Colon, tokens) {
        Ok(inside) => match parameter_list(alloc, room, inside) {
            Ok((parameters, behind)) => match declaration_block(alloc, room, behind) {
                Ok((declarations, left)) => Ok((parameters, declarations, left)),
                Err(fault) => Err(fault),
            },
            Err(fault) => Err(fault),
        },
        Err(fault) => Err(fault),
    }
}

/// A machine.
fn machine(alloc: Global, room: u32, tokens: &[Token]) -> Read<Machine>
    ensures { MatchResult result
        (λ read. IsRead room (of machine_form) (machine read.0) tokens.now tokens.now read.1.now)
        (Refuses room (of machine_form) tokens.now) }
{
    if !is_word(Word::Machine, tokens) {
        return Err(refuse(room, tokens));
    }
    match word(room, Word::Machine, tokens) {
        Ok(inside) => match machine_head(alloc, room, inside) {
            Ok((head, behind)) => match machine_end(alloc, room, behind) {
                Ok((parameters, declarations, left)) => {
                    let MachineHead {
                        has_type,
                        name,
                        title,
                        pairs,
                    } = head;
                    let span = span(tokens, left);
                    let parameters = Seq::of(parameters);
                    let declarations = Seq::of(declarations);
                    Ok((
                        Machine {
                            has_type,
                            name,
                            title,
                            pairs,
                            parameters,
                            declarations,
                            span,
                        },
                        left,
                    ))
                }
                Err(fault) => {
                    drop(head);
                    Err(fault)
                }
            },
            Err(fault) => Err(fault),
        },
        Err(fault) => Err(fault),
    }
}

/// Whether the first token begins an item.
pub fn begins_item(tokens: &[Token]) -> bool
    ensures { result ≡ is_ahead (first_of_form item_form) (symbols tokens.now) }
{
    is_word(Word::Include, tokens)
        || is_word(Word::Enumeration, tokens)
        || is_word(Word::Structure, tokens)
        || is_word(Word::Machine, tokens)
}

/// An item.
fn item(alloc: Global, room: u32, tokens: &[Token]) -> Read<Item>
    ensures { MatchResult result
        (λ read. IsRead room (of item_form) (item read.0) tokens.now tokens.now read.1.now)
        (Refuses room (of item_form) tokens.now) }
{
    if is_word(Word::Machine, tokens) {
        return match machine(alloc, room, tokens) {
            Ok((found, left)) => Ok((Item::Machine(found), left)),
            Err(fault) => Err(fault),
        };
    }
    if is_word(Word::Structure, tokens) {
        return match structure(alloc, room, tokens) {
            Ok((found, left)) => Ok((Item::Structure(found), left)),
            Err(fault) => Err(fault),
        };
    }
    if is_word(Word::Enumeration, tokens) {
        return match enumeration(alloc, room, tokens) {
            Ok((found, left)) => Ok((Item::Enumeration(found), left)),
            Err(fault) => Err(fault),
        };
    }
    if is_word(Word::Include, tokens) {
        return include(alloc, room, tokens);
    }
    Err(refuse(room, tokens))
}

/// The items of a file, at least one.
pub fn several_items(alloc: Global, room: u32, tokens: &[Token]) -> Read<Vec<Item>>
    ensures read { MatchResult result
        (λ read. AreRead room items_row (items_parts read.0.items) tokens.now read.1.now)
        (Refuses room items_row tokens.now) }
    ensures some { IfOk result (λ read. IsTrue (not (length read.0.items == 0))) }
{
    let mut items = Vec::new(alloc);
    let mut left = match item(alloc, room, tokens) {
        Ok((first, behind)) => match items.push(first) {
            Ok(()) => behind,
            Err(failed) => {
                drop(failed);
                return Err(Fault::NoMemory);
            }
        },
        Err(fault) => return Err(fault),
    };
    'members: while begins_item(left) {
        match item(alloc, room, left) {
            Ok((next, after)) => match items.push(next) {
                Ok(()) => left = after,
                Err(failed) => {
                    drop(failed);
                    return Err(Fault::NoMemory);
                }
            },
            Err(fault) => return Err(fault),
        }
    }
    Ok((items, left))
}
