//! Transitions. Behind the events a star is the next state, and so is a name where no `=` is behind it; else that is the key of
//! an attribute, so what is behind that comma is read before it is known whose comma it was.
ghost use Rattle.std.specs.Prelude.{◌≡◌, ◌∷◌, ◌<◌, [], true, length, IfOk, MatchResult};
ghost use Rattle.slicc_ast.specs.Prelude.{is_ahead, pair_list, action_list, next_parts, node, none, part, transition_end, ◌▸◌, braces, comma, of, optional, parentheses, repeated, string, value, sign_kind};
ghost use Rattle.slicc_ast.specs.Declarations.{pair, pairs as pairs_of};
ghost use Rattle.slicc_ast.specs.Machines.{names, transition};
ghost use Rattle.slicc_ast.specs.Names.{sign as sign_of};
ghost use Rattle.slicc_ast.specs.Outline.{token};
ghost use Rattle.slicc_ast.specs.declared.tree.token.TokenKind.TheVariants.{Name as Named};
ghost use Rattle.slicc_ast.specs.declared.tree.token.Sign.TheVariants.{CloseBrace, CloseParenthesis, Comma, Equals, OpenBrace, OpenParenthesis, Star};
ghost use Rattle.slicc_ast.specs.Form.Form.{names as names_form, transition as transition_form};
ghost use Rattle.slicc_ast.specs.Parts.{name as name_part, pairs as pairs_part, sign as sign_part, star};
ghost use Rattle.slicc_lex.specs.Prelude.{symbols};
ghost use Rattle.slicc_reading.specs.Prelude.{AreRead, IsRead, IsSpelledBefore, Refuses};
ghost use Rattle.slicc_decl.specs.Members.{action_row, pair_parts, transition_inside};

use crate::heads::{ReadBoth, ended_by};
use crate::signatures::names;
use slicc_ast::Seq;
use slicc_ast::tree::{Name, Names, NextState, Pair, Pairs, Sign, Span, Transition, Word};
use slicc_lex::Token;
use slicc_reading::{
    Fault, Read, added, assigned, ended, is_name, is_sign, is_string, is_word, name, next_pair,
    open, pairs, refuse, sign, span, string, word,
};
use std::alloc::Global;

/// Attributes of which the first one is read, with the comma at `start`.
fn further_pairs<'t>(
    alloc: Global,
    room: u32,
    first: Pair,
    start: &[Token],
    tokens: &'t [Token],
) -> Read<'t, Pairs>
    requires { IsSpelledBefore (pair_parts first) start.now tokens.now }
    ensures { MatchResult result
        (λ read. IsRead room pairs_part (node read.0.span (pair_list read.0.items)) start.now tokens.now read.1.now)
        (Refuses room pairs_part tokens.now) }
{
    let mut items = Seq::new(alloc);
    let Ok(()) = items.push(first) else {
        return Err(Fault::NoMemory);
    };
    let mut left = tokens;
    'commas: while is_sign(Sign::Comma, left) {
        match added(&mut items, next_pair(alloc, room, left)) {
            Ok(after) => left = after,
            Err(fault) => {
                drop(items);
                return Err(fault);
            }
        }
    }
    let span = span(start, left);
    Ok((Pairs { items, span }, left))
}

/// Attributes of which the first one is a string, with the comma at `start`.
fn bare_end<'t>(alloc: Global, room: u32, start: &[Token], tokens: &'t [Token]) -> Read<'t, Pairs>
    requires { AreRead room comma (sign_of Comma) start.now tokens.now }
    ensures { MatchResult result
        (λ read. IsRead room (string ▸ pairs_part) (node read.0.span (pair_list read.0.items)) start.now tokens.now read.1.now)
        (Refuses room (string ▸ pairs_part) tokens.now) }
{
    match string(alloc, room, tokens) {
        Ok((text, behind)) => {
            let first = Pair::Bare(text, span(tokens, behind));
            further_pairs(alloc, room, first, start, behind)
        }
        Err(fault) => Err(fault),
    }
}

/// `=`, a value and attributes behind the name of the first attribute, with the comma at `start` and the name at `tokens`.
fn valued_end<'t>(
    alloc: Global,
    room: u32,
    start: &[Token],
    tokens: &[Token],
    name: Name,
    behind: &'t [Token],
) -> Read<'t, Pairs>
    requires comma { AreRead room comma (sign_of Comma) start.now tokens.now }
    requires name { IsRead room name_part (node name.span (token (Named name.text) none)) tokens.now tokens.now behind.now }
    requires ahead { is_ahead (sign_kind Equals ∷ []) (symbols behind.now) ≡ true }
    ensures { MatchResult result
        (λ read. IsRead room (optional (sign_part Equals ▸ value) ▸ pairs_part) (node read.0.span (pair_list read.0.items)) start.now behind.now read.1.now)
        (Refuses room (optional (sign_part Equals ▸ value) ▸ pairs_part) behind.now) }
{
    match assigned(alloc, room, behind) {
        Ok((value, after)) => {
            let span = span(tokens, after);
            let first = Pair::Named { name, value, span };
            further_pairs(alloc, room, first, start, after)
        }
        Err(fault) => Err(fault),
    }
}

/// A star, with its place, and attributes.
fn asked_end(alloc: Global, room: u32, tokens: &[Token]) -> ReadBoth<Span, Pairs>
    ensures { MatchResult result
        (λ read. AreRead room (star ▸ pairs_part) (λ others. part (node read.0 (sign_of Star none)) (pairs_of read.1 others)) tokens.now read.2.now)
        (Refuses room (star ▸ pairs_part) tokens.now) }
{
    match sign(room, Sign::Star, tokens) {
        Ok(behind) => {
            let place = span(tokens, behind);
            match pairs(alloc, room, behind) {
                Ok((pairs, left)) => Ok((place, pairs, left)),
                Err(fault) => Err(fault),
            }
        }
        Err(fault) => Err(fault),
    }
}

/// The next state and attributes, or attributes alone, behind the comma at `start`.
fn transition_end<'t>(
    alloc: Global,
    room: u32,
    start: &[Token],
    tokens: &'t [Token],
) -> ReadBoth<'t, Option<NextState>, Pairs>
    requires { AreRead room comma (sign_of Comma) start.now tokens.now }
    ensures { MatchResult result
        (λ read. AreRead room (comma ▸ of transition_end) (λ others. next_parts read.0 (pairs_of read.1 others)) start.now read.2.now)
        (Refuses room (comma ▸ of transition_end) start.now) }
{
    if is_string(tokens) {
        return match bare_end(alloc, room, start, tokens) {
            Ok((pairs, left)) => Ok((None, pairs, left)),
            Err(fault) => Err(fault),
        };
    }
    if is_sign(Sign::Star, tokens) {
        return match asked_end(alloc, room, tokens) {
            Ok((place, pairs, left)) => Ok((Some(NextState::Asked(place)), pairs, left)),
            Err(fault) => Err(fault),
        };
    }
    if !is_name(tokens) {
        return Err(refuse(room, tokens));
    }
    match name(alloc, room, tokens) {
        Ok((called, behind)) => {
            if is_sign(Sign::Equals, behind) {
                return match valued_end(alloc, room, start, tokens, called, behind) {
                    Ok((pairs, left)) => Ok((None, pairs, left)),
                    Err(fault) => Err(fault),
                };
            }
            match pairs(alloc, room, behind) {
                Ok((pairs, left)) => Ok((Some(NextState::Named(called)), pairs, left)),
                Err(fault) => {
                    drop(called);
                    Err(fault)
                }
            }
        }
        Err(fault) => Err(fault),
    }
}

/// The next state where there is one, and attributes.
fn optional_end(alloc: Global, room: u32, tokens: &[Token]) -> ReadBoth<Option<NextState>, Pairs>
    ensures { MatchResult result
        (λ read. AreRead room (optional (comma ▸ of transition_end)) (λ others. next_parts read.0 (pairs_of read.1 others)) tokens.now read.2.now)
        (Refuses room (optional (comma ▸ of transition_end)) tokens.now) }
{
    if !is_sign(Sign::Comma, tokens) {
        let items = Seq::new(alloc);
        let span = span(tokens, tokens);
        return Ok((None, Pairs { items, span }, tokens));
    }
    match sign(room, Sign::Comma, tokens) {
        Ok(behind) => transition_end(alloc, room, tokens, behind),
        Err(fault) => Err(fault),
    }
}

/// What a transition has in its parentheses.
#[derive(Drop)]
pub struct TransitionHead {
    pub states: Names,
    pub events: Names,
    pub next: Option<NextState>,
    pub pairs: Pairs,
}

/// States, events, the next state where there is one, and attributes.
fn transition_inside(alloc: Global, room: u32, tokens: &[Token]) -> Read<TransitionHead>
    ensures { MatchResult result
        (λ read. AreRead room transition_inside (λ others. names read.0.states (sign_of Comma (names read.0.events (next_parts read.0.next (pairs_of read.0.pairs others))))) tokens.now read.1.now)
        (Refuses room transition_inside tokens.now) }
{
    match ended(room, names(alloc, room, tokens), Sign::Comma) {
        Ok((states, inside)) => match names(alloc, room, inside) {
            Ok((events, behind)) => match optional_end(alloc, room, behind) {
                Ok((next, pairs, left)) => Ok((
                    TransitionHead {
                        states,
                        events,
                        next,
                        pairs,
                    },
                    left,
                )),
                Err(fault) => {
                    drop(states);
                    drop(events);
                    Err(fault)
                }
            },
            Err(fault) => {
                drop(states);
                Err(fault)
            }
        },
        Err(fault) => Err(fault),
    }
}

/// The same in parentheses.
fn transition_head(alloc: Global, room: u32, tokens: &[Token]) -> Read<TransitionHead>
    ensures { MatchResult result
        (λ read. AreRead room (parentheses transition_inside) (λ others. sign_of OpenParenthesis (names read.0.states (sign_of Comma (names read.0.events (next_parts read.0.next (pairs_of read.0.pairs (sign_of CloseParenthesis others))))))) tokens.now read.1.now)
        (Refuses room (parentheses transition_inside) tokens.now) }
{
    match open(room, Sign::OpenParenthesis, tokens) {
        Ok(inside) => ended(
            room - 1,
            transition_inside(alloc, room - 1, inside),
            Sign::CloseParenthesis,
        ),
        Err(fault) => Err(fault),
    }
}

/// Actions and `}`.
fn actions(alloc: Global, room: u32, tokens: &[Token]) -> Read<Seq<Name>>
    ensures { MatchResult result
        (λ read. AreRead room (repeated action_row ▸ sign_part CloseBrace) (λ others. action_list read.0 (sign_of CloseBrace others)) tokens.now read.1.now)
        (Refuses room (repeated action_row ▸ sign_part CloseBrace) tokens.now) }
{
    let mut items = Seq::new(alloc);
    let mut left = tokens;
    'members: while is_name(left) {
        match added(&mut items, ended_by(alloc, room, Sign::Semicolon, left)) {
            Ok(after) => left = after,
            Err(fault) => {
                drop(items);
                return Err(fault);
            }
        }
    }
    ended(room, Ok((items, left)), Sign::CloseBrace)
}

/// Actions in braces.
fn action_block(alloc: Global, room: u32, tokens: &[Token]) -> Read<Seq<Name>>
    ensures { MatchResult result
        (λ read. AreRead room (braces (repeated action_row)) (λ others. sign_of OpenBrace (action_list read.0 (sign_of CloseBrace others))) tokens.now read.1.now)
        (Refuses room (braces (repeated action_row)) tokens.now) }
{
    match open(room, Sign::OpenBrace, tokens) {
        Ok(behind) => actions(alloc, room - 1, behind),
        Err(fault) => Err(fault),
    }
}

/// A transition.
pub fn transition(alloc: Global, room: u32, tokens: &[Token]) -> Read<Transition>
    ensures { MatchResult result
        (λ read. IsRead room (of transition_form) (transition read.0) tokens.now tokens.now read.1.now)
        (Refuses room (of transition_form) tokens.now) }
{
    if !is_word(Word::Transition, tokens) {
        return Err(refuse(room, tokens));
    }
    match word(room, Word::Transition, tokens) {
        Ok(inside) => match transition_head(alloc, room, inside) {
            Ok((head, behind)) => match action_block(alloc, room, behind) {
                Ok((actions, left)) => {
                    let TransitionHead {
                        states,
                        events,
                        next,
                        pairs,
                    } = head;
                    let span = span(tokens, left);
                    Ok((
                        Transition {
                            states,
                            events,
                            next,
                            pairs,
                            actions,
                            span,
                        },
                        left,
                    ))
                }
                Err(fault) => {
                    drop(head);
                    Err(fault)
                }
            },
            Err(fault) => Err(fault),
        },
        Err(fault) => Err(fault),
    }
}
