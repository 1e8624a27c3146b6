//! Structures, and their members: fields, methods, and functions that are skipped.
ghost use Rattle.std.specs.Prelude.{◌≡◌, ◌∷◌, ◌<◌, [], IsTrue, true, length, IfOk, MatchResult};
ghost use Rattle.slicc_ast.specs.Prelude.{is_ahead, is_skipped, node, none, functional_end, member_end, of, functional_name, ◌▸◌, optional, parentheses, plain_name, semicolon, machine_type, other_name, sign_kind};
ghost use Rattle.slicc_ast.specs.Declarations.{member, structure, formals, pairs as pairs_of};
ghost use Rattle.slicc_ast.specs.Outline.{token};
ghost use Rattle.slicc_ast.specs.declared.tree.token.TokenKind.TheVariants.{Name as Named};
ghost use Rattle.slicc_ast.specs.Form.Form.{member as member_form, structure as structure_form, formals as formals_form};
ghost use Rattle.slicc_ast.specs.Names.{sign};
ghost use Rattle.slicc_ast.specs.declared.tree.token.Sign.TheVariants.{OpenParenthesis, Semicolon};
ghost use Rattle.slicc_ast.specs.Parts.{pairs as pairs_part};
ghost use Rattle.slicc_lex.specs.Prelude.{symbols};
ghost use Rattle.slicc_reading.specs.Prelude.{AreRead, IsNode, IsRead, Refuses};
ghost use Rattle.slicc_decl.specs.Prelude.{members_parts, members_row, skipped_member_row, structure_parts, structure_row};

use crate::headed;
use crate::heads::{ReadBoth, begins_ended_pairs, ended_pairs, head};
use crate::signatures::formals;
use crate::skipped_functions::{is_skipped_name, skipped};
use slicc_ast::Seq;
use slicc_ast::tree::{Formals, Member, Name, Pairs, Sign, Structure, TypeName, Word};
use slicc_lex::Token;
use slicc_reading::{
    Read, added, ended, is_name, is_sign, is_word, name, open, refuse, span, type_name, word,
};
use std::alloc::Global;

/// The formals of a method in parentheses, attributes and `;`.
fn method_end(alloc: Global, room: u32, tokens: &[Token]) -> ReadBoth<Formals, Pairs>
    requires { is_ahead (sign_kind OpenParenthesis ∷ []) (symbols tokens.now) ≡ true }
    ensures { MatchResult result
        (λ read. AreRead room (optional (parentheses (optional (of formals_form))) ▸ pairs_part ▸ semicolon) (λ others. formals read.0 (pairs_of read.1 (sign Semicolon others))) tokens.now read.2.now)
        (Refuses room (optional (parentheses (optional (of formals_form))) ▸ pairs_part ▸ semicolon) tokens.now) }
{
    match formals(alloc, room, tokens) {
        Ok((found, behind)) => match ended_pairs(alloc, room, Sign::Semicolon, behind) {
            Ok((pairs, left)) => Ok((found, pairs, left)),
            Err(fault) => Err(fault),
        },
        Err(fault) => Err(fault),
    }
}

/// A field or method, behind its type at `start`.
pub fn plain_member<'t>(
    alloc: Global,
    room: u32,
    start: &[Token],
    kind: TypeName,
    tokens: &'t [Token],
) -> Read<'t, Member>
    requires kind { IsNode (node kind.span (token (Named kind.text) none)) start.now tokens.now }
    requires plain { is_ahead (other_name ∷ machine_type ∷ []) (symbols tokens.now) ≡ true }
    ensures { MatchResult result
        (λ read. IsRead room (plain_name ▸ optional (parentheses (optional (of formals_form))) ▸ pairs_part ▸ semicolon) (member read.0) start.now tokens.now read.1.now)
        (Refuses room (plain_name ▸ optional (parentheses (optional (of formals_form))) ▸ pairs_part ▸ semicolon) tokens.now) }
{
    match name(alloc, room, tokens) {
        Ok((name, behind)) => {
            if is_sign(Sign::OpenParenthesis, behind) {
                return match method_end(alloc, room, behind) {
                    Ok((formals, pairs, left)) => {
                        let span = span(start, left);
                        Ok((
                            Member::Method {
                                kind,
                                name,
                                formals,
                                pairs,
                                span,
                            },
                            left,
                        ))
                    }
                    Err(fault) => Err(fault),
                };
            }
            match ended_pairs(alloc, room, Sign::Semicolon, behind) {
                Ok((pairs, left)) => {
                    let span = span(start, left);
                    Ok((
                        Member::Field {
                            kind,
                            name,
                            pairs,
                            span,
                        },
                        left,
                    ))
                }
                Err(fault) => Err(fault),
            }
        }
        Err(fault) => Err(fault),
    }
}

/// A function that is skipped or a field of such a name, behind its type at `start` and its name at `tokens`.
fn functional_member<'t>(
    alloc: Global,
    room: u32,
    start: &[Token],
    kind: TypeName,
    tokens: &[Token],
    name: Name,
    behind: &'t [Token],
) -> Read<'t, Member>
    requires kind { IsNode (node kind.span (token (Named kind.text) none)) start.now tokens.now }
    requires name { IsNode (node name.span (token (Named name.text) none)) tokens.now behind.now }
    requires skipped { IsTrue (is_skipped name) }
    ensures { MatchResult result
        (λ read. IsRead room (of functional_end)
        (member read.0) start.now behind.now read.1.now)
        (Refuses room (of functional_end) behind.now) }
{
    if is_sign(Sign::OpenParenthesis, behind) {
        return match skipped(alloc, room, start, kind, tokens, name, behind) {
            Ok((found, left)) => Ok((Member::Skipped(found), left)),
            Err(fault) => Err(fault),
        };
    }
    if !begins_ended_pairs(behind) {
        drop(kind);
        drop(name);
        return Err(refuse(room, behind));
    }
    match ended_pairs(alloc, room, Sign::Semicolon, behind) {
        Ok((pairs, left)) => {
            let span = span(start, left);
            Ok((
                Member::Field {
                    kind,
                    name,
                    pairs,
                    span,
                },
                left,
            ))
        }
        Err(fault) => {
            drop(kind);
            drop(name);
            Err(fault)
        }
    }
}

/// A member whose name is that of a function that is skipped, behind its type at `start`.
fn skipped_member<'t>(
    alloc: Global,
    room: u32,
    start: &[Token],
    kind: TypeName,
    tokens: &'t [Token],
) -> Read<'t, Member>
    requires kind { IsNode (node kind.span (token (Named kind.text) none)) start.now tokens.now }
    requires skipped { is_ahead (functional_name ∷ []) (symbols tokens.now) ≡ true }
    ensures { MatchResult result
        (λ read. IsRead room skipped_member_row
        (member read.0) start.now tokens.now read.1.now)
        (Refuses room skipped_member_row tokens.now) }
{
    match name(alloc, room, tokens) {
        Ok((name, behind)) => functional_member(alloc, room, start, kind, tokens, name, behind),
        Err(fault) => Err(fault),
    }
}

/// What is behind the type of a member, which is at `start`.
fn member_end<'t>(
    alloc: Global,
    room: u32,
    start: &[Token],
    kind: TypeName,
    tokens: &'t [Token],
) -> Read<'t, Member>
    requires { IsNode (node kind.span (token (Named kind.text) none)) start.now tokens.now }
    ensures { MatchResult result
        (λ read. IsRead room (of member_end)
        (member read.0) start.now tokens.now read.1.now)
        (Refuses room (of member_end) tokens.now) }
{
    if is_skipped_name(tokens) {
        return skipped_member(alloc, room, start, kind, tokens);
    }
    if !is_name(tokens) {
        return Err(refuse(room, tokens));
    }
    plain_member(alloc, room, start, kind, tokens)
}

/// A member of a structure.
fn member(alloc: Global, room: u32, tokens: &[Token]) -> Read<Member>
    ensures read { MatchResult result
        (λ read. IsRead room (of member_form) (member read.0) tokens.now tokens.now read.1.now)
        (Refuses room (of member_form) tokens.now) }
    ensures shorter { IfOk result (λ read. length read.1.now < length tokens.now) }
{
    if !is_name(tokens) {
        return Err(refuse(room, tokens));
    }
    match type_name(alloc, room, tokens) {
        Ok((kind, behind)) => member_end(alloc, room, tokens, kind, behind),
        Err(fault) => Err(fault),
    }
}

/// Members and `}`.
fn closed_members(alloc: Global, room: u32, tokens: &[Token]) -> Read<Seq<Member>>
    ensures { MatchResult result
        (λ read. AreRead room members_row (members_parts read.0) tokens.now read.1.now)
        (Refuses room members_row tokens.now) }
{
    let mut items = Seq::new(alloc);
    let mut left = tokens;
    'members: while is_name(left) {
        match added(&mut items, member(alloc, room, left)) {
            Ok(after) => left = after,
            Err(fault) => {
                drop(items);
                return Err(fault);
            }
        }
    }
    ended(room, Ok((items, left)), Sign::CloseBrace)
}

/// Members in braces.
fn member_block(alloc: Global, room: u32, tokens: &[Token]) -> Read<Seq<Member>>
    ensures { MatchResult result
        (λ read. AreRead room structure_row (structure_parts read.0) tokens.now read.1.now)
        (Refuses room structure_row tokens.now) }
{
    match open(room, Sign::OpenBrace, tokens) {
        Ok(behind) => closed_members(alloc, room - 1, behind),
        Err(fault) => Err(fault),
    }
}

/// A structure.
pub fn structure(alloc: Global, room: u32, tokens: &[Token]) -> Read<Structure>
    ensures { MatchResult result
        (λ read. IsRead room (of structure_form)
        (structure read.0) tokens.now tokens.now read.1.now)
        (Refuses room (of structure_form) tokens.now) }
{
    headed! { alloc, room, tokens, Word::Structure, member_block => Structure { members } }
}
