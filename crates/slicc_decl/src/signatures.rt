//! What is separated by commas: the formals of functions, with the types of declarations and a star where there is one, and the
//! names of a transition's states and events.
ghost use Rattle.std.specs.Prelude.{◌<◌, length, IfOk, MatchResult, ◌==◌, IsTrue, not};
ghost use Rattle.slicc_ast.specs.Declarations.{formal, formals};
ghost use Rattle.slicc_ast.specs.Prelude.{formal_list, optional_name, type_name, node, part, ◌▸◌, comma, of, optional, parentheses, repeated, type, name_list, braces};
ghost use Rattle.slicc_ast.specs.Names.{sign as sign_of, star as star_where, name as name_of};
ghost use Rattle.slicc_ast.specs.declared.tree.token.Sign.TheVariants.{CloseParenthesis, Comma, CloseBrace, OpenBrace};
ghost use Rattle.slicc_ast.specs.Form.Form.{formal as formal_form, formals as formals_form, names as names_form};
ghost use Rattle.slicc_ast.specs.Parts.{name, sign as sign_part, star};
ghost use Rattle.slicc_ast.specs.Machines.{names};
ghost use Rattle.slicc_reading.specs.Prelude.{AreRead, IsRead, Refuses};

use crate::heads::ReadBoth;
use slicc_ast::Seq;
use slicc_ast::tree::{Formal, Formals, Name, Names, Sign, TypeName};
use slicc_lex::Token;
use slicc_reading::{
    Fault, Read, added, ended, is_name, is_sign, name, name_after, open, refuse, sign, span,
    type_name,
};
use std::alloc::Global;

/// Whether a star is first, and what is behind it.
fn optional_star(room: u32, tokens: &[Token]) -> Read<bool>
    ensures { MatchResult result
        (λ read. AreRead room (optional star) (star_where read.0) tokens.now read.1.now)
        (Refuses room (optional star) tokens.now) }
{
    if !is_sign(Sign::Star, tokens) {
        return Ok((false, tokens));
    }
    match sign(room, Sign::Star, tokens) {
        Ok(left) => Ok((true, left)),
        Err(fault) => Err(fault),
    }
}

/// A type, and a star where there is one.
pub fn starred_type(alloc: Global, room: u32, tokens: &[Token]) -> ReadBoth<TypeName, bool>
    ensures read { MatchResult result
        (λ read. AreRead room (type ▸ optional star) (λ others. type_name read.0 (star_where read.1 others)) tokens.now read.2.now)
        (Refuses room (type ▸ optional star) tokens.now) }
    ensures shorter { IfOk result (λ read. length read.2.now < length tokens.now) }
{
    match type_name(alloc, room, tokens) {
        Ok((kind, behind)) => match optional_star(room, behind) {
            Ok((has_star, left)) => Ok((kind, has_star, left)),
            Err(fault) => Err(fault),
        },
        Err(fault) => Err(fault),
    }
}

/// A name where there is one.
fn optional_name(alloc: Global, room: u32, tokens: &[Token]) -> Read<Option<Name>>
    ensures { MatchResult result
        (λ read. AreRead room (optional name) (optional_name read.0) tokens.now read.1.now)
        (Refuses room (optional name) tokens.now) }
{
    if !is_name(tokens) {
        return Ok((None, tokens));
    }
    match name(alloc, room, tokens) {
        Ok((found, left)) => Ok((Some(found), left)),
        Err(fault) => Err(fault),
    }
}

/// A formal: a type, and a star and a name where there are.
fn formal(alloc: Global, room: u32, tokens: &[Token]) -> Read<Formal>
    ensures read { MatchResult result
        (λ read. IsRead room (of formal_form) (formal read.0) tokens.now tokens.now read.1.now)
        (Refuses room (of formal_form) tokens.now) }
    ensures shorter { IfOk result (λ read. length read.1.now < length tokens.now) }
{
    if !is_name(tokens) {
        return Err(refuse(room, tokens));
    }
    match starred_type(alloc, room, tokens) {
        Ok((kind, has_star, behind)) => match optional_name(alloc, room, behind) {
            Ok((name, left)) => {
                let span = span(tokens, left);
                Ok((
                    Formal {
                        kind,
                        has_star,
                        name,
                        span,
                    },
                    left,
                ))
            }
            Err(fault) => Err(fault),
        },
        Err(fault) => Err(fault),
    }
}

/// A comma and a formal.
fn next_formal(alloc: Global, room: u32, tokens: &[Token]) -> Read<Formal>
    ensures read { MatchResult result
        (λ read. AreRead room (comma ▸ of formal_form) (λ others. sign_of Comma (part (formal read.0) others)) tokens.now read.1.now)
        (Refuses room (comma ▸ of formal_form) tokens.now) }
    ensures shorter { IfOk result (λ read. length read.1.now < length tokens.now) }
{
    match sign(room, Sign::Comma, tokens) {
        Ok(behind) => formal(alloc, room, behind),
        Err(fault) => Err(fault),
    }
}

/// Formals, separated by commas.
fn several_formals(alloc: Global, room: u32, tokens: &[Token]) -> Read<Formals>
    ensures { MatchResult result
        (λ read. IsRead room (of formal_form ▸ repeated (comma ▸ of formal_form)) (node read.0.span (formal_list read.0.items)) tokens.now tokens.now read.1.now)
        (Refuses room (of formal_form ▸ repeated (comma ▸ of formal_form)) tokens.now) }
{
    let mut items = Seq::new(alloc);
    let mut left = match formal(alloc, room, tokens) {
        Ok((first, behind)) => match items.push(first) {
            Ok(()) => behind,
            Err(_) => return Err(Fault::NoMemory),
        },
        Err(fault) => return Err(fault),
    };
    'commas: while is_sign(Sign::Comma, left) {
        match added(&mut items, next_formal(alloc, room, left)) {
            Ok(after) => left = after,
            Err(fault) => {
                drop(items);
                return Err(fault);
            }
        }
    }
    let span = span(tokens, left);
    Ok((Formals { items, span }, left))
}

/// Formals where there are some.
fn optional_formals(alloc: Global, room: u32, tokens: &[Token]) -> Read<Formals>
    ensures { MatchResult result
        (λ read. IsRead room (optional (of formals_form)) (node read.0.span (formal_list read.0.items)) tokens.now tokens.now read.1.now)
        (Refuses room (optional (of formals_form)) tokens.now) }
{
    if is_name(tokens) {
        return several_formals(alloc, room, tokens);
    }
    let items = Seq::new(alloc);
    let span = span(tokens, tokens);
    Ok((Formals { items, span }, tokens))
}

/// The formals of a function in parentheses.
pub fn formals(alloc: Global, room: u32, tokens: &[Token]) -> Read<Formals>
    ensures { MatchResult result
        (λ read. AreRead room (parentheses (optional (of formals_form))) (formals read.0) tokens.now read.1.now)
        (Refuses room (parentheses (optional (of formals_form))) tokens.now) }
{
    match open(room, Sign::OpenParenthesis, tokens) {
        Ok(inside) => ended(
            room - 1,
            optional_formals(alloc, room - 1, inside),
            Sign::CloseParenthesis,
        ),
        Err(fault) => Err(fault),
    }
}

/// Names, separated by commas, and `}`.
fn closed_names(alloc: Global, room: u32, tokens: &[Token]) -> Read<Seq<Name>>
    ensures read { MatchResult result
        (λ read. AreRead room ((name ▸ repeated (comma ▸ name)) ▸ sign_part CloseBrace) (λ others. name_list read.0 (sign_of CloseBrace others)) tokens.now read.1.now)
        (Refuses room ((name ▸ repeated (comma ▸ name)) ▸ sign_part CloseBrace) tokens.now) }
    ensures some { IfOk result (λ read. IsTrue (not (length read.0 == 0))) }
{
    let mut items = Seq::new(alloc);
    let mut left = match name(alloc, room, tokens) {
        Ok((first, behind)) => match items.push(first) {
            Ok(()) => behind,
            Err(_) => return Err(Fault::NoMemory),
        },
        Err(fault) => return Err(fault),
    };
    'commas: while is_sign(Sign::Comma, left) {
        match added(&mut items, name_after(alloc, room, Sign::Comma, left)) {
            Ok(after) => left = after,
            Err(fault) => {
                drop(items);
                return Err(fault);
            }
        }
    }
    ended(room, Ok((items, left)), Sign::CloseBrace)
}

/// Names in braces.
fn name_block(alloc: Global, room: u32, tokens: &[Token]) -> Read<Seq<Name>>
    ensures read { MatchResult result
        (λ read. AreRead room (braces (name ▸ repeated (comma ▸ name))) (λ others. sign_of OpenBrace (name_list read.0 (sign_of CloseBrace others))) tokens.now read.1.now)
        (Refuses room (braces (name ▸ repeated (comma ▸ name))) tokens.now) }
    ensures some { IfOk result (λ read. IsTrue (not (length read.0 == 0))) }
{
    match open(room, Sign::OpenBrace, tokens) {
        Ok(behind) => closed_names(alloc, room - 1, behind),
        Err(fault) => Err(fault),
    }
}

/// One name, or several in braces.
pub fn names(alloc: Global, room: u32, tokens: &[Token]) -> Read<Names>
    ensures { MatchResult result
        (λ read. AreRead room (of names_form) (names read.0) tokens.now read.1.now)
        (Refuses room (of names_form) tokens.now) }
{
    if is_name(tokens) {
        return match name(alloc, room, tokens) {
            Ok((one, left)) => Ok((Names::One(one), left)),
            Err(fault) => Err(fault),
        };
    }
    if !is_sign(Sign::OpenBrace, tokens) {
        return Err(refuse(room, tokens));
    }
    match name_block(alloc, room, tokens) {
        Ok((several, left)) => {
            let span = span(tokens, left);
            Ok((Names::Several(several, span), left))
        }
        Err(fault) => Err(fault),
    }
}
