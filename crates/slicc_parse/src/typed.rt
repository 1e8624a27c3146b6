//! The declarations that begin with a type: functions, which have a body or are prototypes, and objects.
ghost use Rattle.std.specs.Prelude.{◌≡◌, ◌∷◌, [], IsTrue, true, MatchResult, not};
ghost use Rattle.slicc_ast.specs.Prelude.{is_ahead, is_skipped, decl, node, none, declaration_end, functional_end, named_end, of, functional_name, machine_type, other_name, function, body};
ghost use Rattle.slicc_ast.specs.Outline.{token};
ghost use Rattle.slicc_ast.specs.declared.tree.token.TokenKind.TheVariants.{Name as Named};
ghost use Rattle.slicc_lex.specs.Prelude.{symbols};
ghost use Rattle.slicc_reading.specs.Prelude.{IsNode, IsRead, Refuses, AreRead};
ghost use Rattle.slicc_parse.specs.Prelude.{object_row, plain_row, skipped_row, typed_row};
ghost use Rattle.slicc_parse.specs.Rows.{body_parts, ending_parts, ending_row, function_parts, function_row};

use slicc_ast::tree::{Block, Decl, Formals, Function, Name, Pairs, Sign, TypeName};
use slicc_decl::{
    ReadBoth, begins_ended_pairs, formals, is_skipped_name, plain_object, skipped, starred_object,
};
use slicc_expr::statement_block;
use slicc_lex::Token;
use slicc_reading::{Read, is_name, is_sign, name, pairs, refuse, sign, span, type_name};
use std::alloc::Global;

/// A function's body, or `;`.
fn body(alloc: Global, room: u32, tokens: &[Token]) -> Read<Option<Block>>
    ensures { MatchResult result
        (λ read. AreRead room (of body) (body_parts read.0) tokens.now read.1.now)
        (Refuses room (of body) tokens.now) }
{
    if is_sign(Sign::OpenBrace, tokens) {
        return match statement_block(alloc, room, tokens) {
            Ok((found, left)) => Ok((Some(found), left)),
            Err(fault) => Err(fault),
        };
    }
    if !is_sign(Sign::Semicolon, tokens) {
        return Err(refuse(room, tokens));
    }
    match sign(room, Sign::Semicolon, tokens) {
        Ok(left) => Ok((None, left)),
        Err(fault) => Err(fault),
    }
}

/// Attributes and a body.
fn pairs_and_body(alloc: Global, room: u32, tokens: &[Token]) -> ReadBoth<Pairs, Option<Block>>
    ensures { MatchResult result
        (λ read. AreRead room ending_row (ending_parts read.0 read.1) tokens.now read.2.now)
        (Refuses room ending_row tokens.now) }
{
    match pairs(alloc, room, tokens) {
        Ok((attributes, behind)) => match body(alloc, room, behind) {
            Ok((found, left)) => Ok((attributes, found, left)),
            Err(fault) => Err(fault),
        },
        Err(fault) => Err(fault),
    }
}

/// What is behind the name of a function.
#[derive(Drop)]
pub struct FunctionEnd {
    pub formals: Formals,
    pub pairs: Pairs,
    pub body: Option<Block>,
}

/// Formals in parentheses, attributes and a body.
fn function_end(alloc: Global, room: u32, tokens: &[Token]) -> Read<FunctionEnd>
    ensures { MatchResult result
        (λ read. AreRead room function_row
        (function_parts read.0.formals read.0.pairs read.0.body) tokens.now read.1.now)
        (Refuses room function_row tokens.now) }
{
    match formals(alloc, room, tokens) {
        Ok((formals, behind)) => match pairs_and_body(alloc, room, behind) {
            Ok((pairs, body, left)) => Ok((
                FunctionEnd {
                    formals,
                    pairs,
                    body,
                },
                left,
            )),
            Err(fault) => Err(fault),
        },
        Err(fault) => Err(fault),
    }
}

/// A function that isn't skipped, behind its type at `start` and its name at `tokens`.
fn plain_function<'t>(
    alloc: Global,
    room: u32,
    start: &[Token],
    kind: TypeName,
    tokens: &[Token],
    name: Name,
    behind: &'t [Token],
) -> Read<'t, Function>
    requires kind { IsNode (node kind.span (token (Named kind.text) none)) start.now tokens.now }
    requires name { IsNode (node name.span (token (Named name.text) none)) tokens.now behind.now }
    requires plain { IsTrue (not (is_skipped name)) }
    ensures { MatchResult result
        (λ read. IsRead room function_row (function read.0) start.now behind.now read.1.now)
        (Refuses room function_row behind.now) }
{
    match function_end(alloc, room, behind) {
        Ok((end, left)) => {
            let FunctionEnd {
                formals,
                pairs,
                body,
            } = end;
            let span = span(start, left);
            Ok((
                Function::Plain {
                    kind,
                    name,
                    formals,
                    pairs,
                    body,
                    span,
                },
                left,
            ))
        }
        Err(fault) => Err(fault),
    }
}

/// An object with no star, behind its type at `start` and its name at `tokens`.
fn object<'t>(
    alloc: Global,
    room: u32,
    start: &[Token],
    kind: TypeName,
    tokens: &[Token],
    name: Name,
    behind: &'t [Token],
) -> Read<'t, Decl>
    requires kind { IsNode (node kind.span (token (Named kind.text) none)) start.now tokens.now }
    requires name { IsNode (node name.span (token (Named name.text) none)) tokens.now behind.now }
    ensures { MatchResult result
        (λ read. IsRead room object_row (decl read.0) start.now behind.now read.1.now)
        (Refuses room object_row behind.now) }
{
    match plain_object(alloc, room, start, kind, tokens, name, behind) {
        Ok((found, left)) => Ok((Decl::Object(found), left)),
        Err(fault) => Err(fault),
    }
}

/// A function or an object that has no name of those that are skipped, behind its type at `start` and its name at `tokens`.
fn named_end<'t>(
    alloc: Global,
    room: u32,
    start: &[Token],
    kind: TypeName,
    tokens: &[Token],
    name: Name,
    behind: &'t [Token],
) -> Read<'t, Decl>
    requires kind { IsNode (node kind.span (token (Named kind.text) none)) start.now tokens.now }
    requires name { IsNode (node name.span (token (Named name.text) none)) tokens.now behind.now }
    requires plain { IsTrue (not (is_skipped name)) }
    ensures { MatchResult result
        (λ read. IsRead room (of named_end) (decl read.0) start.now behind.now read.1.now)
        (Refuses room (of named_end) behind.now) }
{
    if is_sign(Sign::OpenParenthesis, behind) {
        return match plain_function(alloc, room, start, kind, tokens, name, behind) {
            Ok((found, left)) => Ok((Decl::Function(found), left)),
            Err(fault) => Err(fault),
        };
    }
    if !begins_ended_pairs(behind) {
        return Err(refuse(room, behind));
    }
    object(alloc, room, start, kind, tokens, name, behind)
}

/// A function that is skipped or an object of such a name, behind its type at `start` and its name at `tokens`.
fn functional_end<'t>(
    alloc: Global,
    room: u32,
    start: &[Token],
    kind: TypeName,
    tokens: &[Token],
    name: Name,
    behind: &'t [Token],
) -> Read<'t, Decl>
    requires kind { IsNode (node kind.span (token (Named kind.text) none)) start.now tokens.now }
    requires name { IsNode (node name.span (token (Named name.text) none)) tokens.now behind.now }
    requires skipped { IsTrue (is_skipped name) }
    ensures { MatchResult result
        (λ read. IsRead room (of functional_end) (decl read.0) start.now behind.now read.1.now)
        (Refuses room (of functional_end) behind.now) }
{
    if is_sign(Sign::OpenParenthesis, behind) {
        return match skipped(alloc, room, start, kind, tokens, name, behind) {
            Ok((found, left)) => Ok((Decl::Function(Function::Skipped(found)), left)),
            Err(fault) => Err(fault),
        };
    }
    if !begins_ended_pairs(behind) {
        return Err(refuse(room, behind));
    }
    object(alloc, room, start, kind, tokens, name, behind)
}

/// A function or an object, behind its type at `start`, that has no name of those that are skipped.
fn plain_end<'t>(
    alloc: Global,
    room: u32,
    start: &[Token],
    kind: TypeName,
    tokens: &'t [Token],
) -> Read<'t, Decl>
    requires kind { IsNode (node kind.span (token (Named kind.text) none)) start.now tokens.now }
    requires plain { is_ahead (other_name ∷ machine_type ∷ []) (symbols tokens.now) ≡ true }
    ensures { MatchResult result
        (λ read. IsRead room plain_row (decl read.0) start.now tokens.now read.1.now)
        (Refuses room plain_row tokens.now) }
{
    match name(alloc, room, tokens) {
        Ok((name, behind)) => named_end(alloc, room, start, kind, tokens, name, behind),
        Err(fault) => Err(fault),
    }
}

/// The same of such a name.
fn skipped_end<'t>(
    alloc: Global,
    room: u32,
    start: &[Token],
    kind: TypeName,
    tokens: &'t [Token],
) -> Read<'t, Decl>
    requires kind { IsNode (node kind.span (token (Named kind.text) none)) start.now tokens.now }
    requires skipped { is_ahead (functional_name ∷ []) (symbols tokens.now) ≡ true }
    ensures { MatchResult result
        (λ read. IsRead room skipped_row (decl read.0) start.now tokens.now read.1.now)
        (Refuses room skipped_row tokens.now) }
{
    match name(alloc, room, tokens) {
        Ok((name, behind)) => functional_end(alloc, room, start, kind, tokens, name, behind),
        Err(fault) => Err(fault),
    }
}

/// What is behind the type of a function or an object, which is at `start`.
fn declaration_end<'t>(
    alloc: Global,
    room: u32,
    start: &[Token],
    kind: TypeName,
    tokens: &'t [Token],
) -> Read<'t, Decl>
    requires { IsNode (node kind.span (token (Named kind.text) none)) start.now tokens.now }
    ensures { MatchResult result
        (λ read. IsRead room (of declaration_end)
        (decl read.0) start.now tokens.now read.1.now)
        (Refuses room (of declaration_end) tokens.now) }
{
    if is_sign(Sign::Star, tokens) {
        return match starred_object(alloc, room, start, kind, tokens) {
            Ok((found, left)) => Ok((Decl::Object(found), left)),
            Err(fault) => Err(fault),
        };
    }
    if is_skipped_name(tokens) {
        return skipped_end(alloc, room, start, kind, tokens);
    }
    if !is_name(tokens) {
        return Err(refuse(room, tokens));
    }
    plain_end(alloc, room, start, kind, tokens)
}

/// A function or an object.
pub fn typed(alloc: Global, room: u32, tokens: &[Token]) -> Read<Decl>
    ensures { MatchResult result
        (λ read. IsRead room typed_row (decl read.0) tokens.now tokens.now read.1.now)
        (Refuses room typed_row tokens.now) }
{
    match type_name(alloc, room, tokens) {
        Ok((kind, behind)) => declaration_end(alloc, room, tokens, kind, behind),
        Err(fault) => Err(fault),
    }
}
