//! Statements that begin with an expression or with `return`, and declarations of variables.
ghost use Rattle.std.specs.Prelude.{◌≡◌, ◌<◌, true, length, IfOk, MatchResult};
ghost use Rattle.slicc_ast.specs.Prelude.{is_ahead, expr, stmt, first_of_opening, statement_end, ◌▸◌, of, semicolon};
ghost use Rattle.slicc_ast.specs.declared.tree.token.Sign.TheVariants.{Assign};
ghost use Rattle.slicc_ast.specs.Parts.{name};
ghost use Rattle.slicc_lex.specs.Prelude.{symbols};
ghost use Rattle.slicc_reading.specs.Prelude.{IsNode, IsRead, Refuses};
ghost use Rattle.slicc_expr.specs.Prelude.{expression_end, name_outline, named_value, opening_value, return_form};

use crate::statement_values::{
    goes_on_behind_name, named_value, opening_value, optional_value, value_after, value_behind,
};
use slicc_ast::tree::{Expr, Name, Sign, Stmt, TypeName, Word};
use slicc_lex::Token;
use slicc_reading::{Read, ended, is_name, is_sign, name, refuse, sign, span, word};
use std::alloc::Global;

/// Goes on behind the expression that a statement begins with.
fn behind_expression<'t>(
    alloc: Global,
    room: u32,
    start: &[Token],
    place: Expr,
    tokens: &'t [Token],
) -> Read<'t, Stmt>
    requires { IsNode (expr place) start.now tokens.now }
    ensures { MatchResult result
        (λ read. IsRead room expression_end (stmt read.0) start.now tokens.now read.1.now)
        (Refuses room expression_end tokens.now) }
{
    if !is_sign(Sign::Assign, tokens) {
        return match sign(room, Sign::Semicolon, tokens) {
            Ok(left) => Ok((Stmt::Evaluate(place, span(start, left)), left)),
            Err(fault) => {
                drop(place);
                Err(fault)
            }
        };
    }
    match value_after(alloc, room, Sign::Assign, tokens) {
        Ok((value, behind)) => match sign(room, Sign::Semicolon, behind) {
            Ok(left) => {
                let span = span(start, left);
                Ok((Stmt::Assign { place, value, span }, left))
            }
            Err(fault) => {
                drop(place);
                drop(value);
                Err(fault)
            }
        },
        Err(fault) => {
            drop(place);
            Err(fault)
        }
    }
}

/// The rest of a declaration of a variable, behind its type.
fn declaration<'t>(
    alloc: Global,
    room: u32,
    start: &[Token],
    owner: Name,
    tokens: &'t [Token],
) -> Read<'t, Stmt>
    requires { IsNode (name_outline owner) start.now tokens.now }
    ensures { MatchResult result
        (λ read. IsRead room (named_value Assign ▸ semicolon) (stmt read.0) start.now tokens.now read.1.now)
        (Refuses room (named_value Assign ▸ semicolon) tokens.now) }
{
    let named = named_value(alloc, room, Sign::Assign, tokens);
    match ended(room, named, Sign::Semicolon) {
        Ok((read, left)) => {
            let (name, value) = read;
            let Name { text, span: place } = owner;
            let kind = TypeName { text, span: place };
            let span = span(start, left);
            Ok((
                Stmt::Declare {
                    kind,
                    name,
                    value,
                    span,
                },
                left,
            ))
        }
        Err(fault) => {
            drop(owner);
            Err(fault)
        }
    }
}

/// Goes on behind the name that a statement begins with.
fn behind_name<'t>(
    alloc: Global,
    room: u32,
    start: &[Token],
    owner: Name,
    tokens: &'t [Token],
) -> Read<'t, Stmt>
    requires { IsNode (name_outline owner) start.now tokens.now }
    ensures { MatchResult result
        (λ read. IsRead room (of statement_end) (stmt read.0) start.now tokens.now read.1.now)
        (Refuses room (of statement_end) tokens.now) }
{
    if is_name(tokens) {
        return declaration(alloc, room, start, owner, tokens);
    }
    if !goes_on_behind_name(tokens) {
        drop(owner);
        return Err(refuse(room, tokens));
    }
    match value_behind(alloc, room, start, owner, tokens) {
        Ok((value, behind)) => behind_expression(alloc, room, start, value, behind),
        Err(fault) => Err(fault),
    }
}

/// A statement that begins with a name.
pub fn name_statement(alloc: Global, room: u32, tokens: &[Token]) -> Read<Stmt>
    ensures read { MatchResult result
        (λ read. IsRead room (name ▸ of statement_end) (stmt read.0) tokens.now tokens.now read.1.now)
        (Refuses room (name ▸ of statement_end) tokens.now) }
    ensures shorter { IfOk result (λ read. length read.1.now < length tokens.now) }
{
    match name(alloc, room, tokens) {
        Ok((owner, behind)) => behind_name(alloc, room, tokens, owner, behind),
        Err(fault) => Err(fault),
    }
}

/// A statement that begins with an expression, and that one not with a name.
pub fn opening_statement(alloc: Global, room: u32, tokens: &[Token]) -> Read<Stmt>
    requires { is_ahead first_of_opening (symbols tokens.now) ≡ true }
    ensures read { MatchResult result
        (λ read. IsRead room (opening_value ▸ expression_end)
        (stmt read.0) tokens.now tokens.now read.1.now)
        (Refuses room (opening_value ▸ expression_end) tokens.now) }
    ensures shorter { IfOk result (λ read. length read.1.now < length tokens.now) }
{
    match opening_value(alloc, room, tokens) {
        Ok((value, behind)) => behind_expression(alloc, room, tokens, value, behind),
        Err(fault) => Err(fault),
    }
}

/// `return`, an expression where there is one, and `;`.
pub fn return_statement(alloc: Global, room: u32, tokens: &[Token]) -> Read<Stmt>
    ensures read { MatchResult result
        (λ read. IsRead room return_form (stmt read.0) tokens.now tokens.now read.1.now)
        (Refuses room return_form tokens.now) }
    ensures shorter { IfOk result (λ read. length read.1.now < length tokens.now) }
{
    match word(room, Word::Return, tokens) {
        Ok(behind) => {
            match ended(room, optional_value(alloc, room, behind), Sign::Semicolon) {
                Ok((value, left)) => Ok((Stmt::Return(value, span(tokens, left)), left)),
                Err(fault) => Err(fault),
            }
        }
        Err(fault) => Err(fault),
    }
}
