//! The parameters of a machine, and their literals.
ghost use Rattle.std.specs.Prelude.{◌<◌, length, IfOk, MatchResult};
ghost use Rattle.slicc_ast.specs.Declarations.{pairs as pairs_of};
ghost use Rattle.slicc_ast.specs.Machines.{literal, parameter};
ghost use Rattle.slicc_ast.specs.Prelude.{literal_parts, part, ◌▸◌, assign, of, optional, semicolon, number_token};
ghost use Rattle.slicc_ast.specs.Names.{name as name_of, sign};
ghost use Rattle.slicc_ast.specs.declared.tree.token.Sign.TheVariants.{Assign, Semicolon, Minus};
ghost use Rattle.slicc_ast.specs.Form.Form.{literal as literal_form, parameter as parameter_form};
ghost use Rattle.slicc_ast.specs.Parts.{name as name_part, pairs as pairs_part, sign as sign_part};
ghost use Rattle.slicc_reading.specs.Prelude.{AreRead, IsRead, Refuses};

use crate::heads::ended_pairs;
use crate::signatures::starred_type;
use slicc_ast::tree::{Literal, Name, Pairs, Parameter, Sign, Word};
use slicc_lex::Token;
use slicc_reading::{
    Read, is_name, is_number, is_sign, is_string, is_word, name, number, refuse, sign, span,
    string, word,
};
use std::alloc::Global;

/// `-` and a number.
fn negative(room: u32, tokens: &[Token]) -> Read<Literal>
    ensures read { MatchResult result (λ read. IsRead room (sign_part Minus ▸ number_token) (literal read.0) tokens.now tokens.now read.1.now) (Refuses room (sign_part Minus ▸ number_token) tokens.now) }
    ensures shorter { IfOk result (λ read. length read.1.now < length tokens.now) }
{
    match sign(room, Sign::Minus, tokens) {
        Ok(behind) => match number(room, behind) {
            Ok((found, left)) => Ok((Literal::Minus(found, span(tokens, left)), left)),
            Err(fault) => Err(fault),
        },
        Err(fault) => Err(fault),
    }
}

/// A literal: a number, one behind a minus sign, a string, or a truth value.
pub fn literal(alloc: Global, room: u32, tokens: &[Token]) -> Read<Literal>
    ensures read { MatchResult result (λ read. IsRead room (of literal_form) (literal read.0) tokens.now tokens.now read.1.now) (Refuses room (of literal_form) tokens.now) }
    ensures shorter { IfOk result (λ read. length read.1.now < length tokens.now) }
{
    if is_sign(Sign::Minus, tokens) {
        return negative(room, tokens);
    }
    if is_string(tokens) {
        return match string(alloc, room, tokens) {
            Ok((text, left)) => Ok((Literal::Quoted(text, span(tokens, left)), left)),
            Err(fault) => Err(fault),
        };
    }
    if is_word(Word::True, tokens) {
        return match word(room, Word::True, tokens) {
            Ok(left) => Ok((Literal::True(span(tokens, left)), left)),
            Err(fault) => Err(fault),
        };
    }
    if is_word(Word::False, tokens) {
        return match word(room, Word::False, tokens) {
            Ok(left) => Ok((Literal::False(span(tokens, left)), left)),
            Err(fault) => Err(fault),
        };
    }
    if !is_number(tokens) {
        return Err(refuse(room, tokens));
    }
    match number(room, tokens) {
        Ok((found, left)) => Ok((Literal::Number(found, span(tokens, left)), left)),
        Err(fault) => Err(fault),
    }
}

/// `:=` and a literal.
fn assigned_literal(alloc: Global, room: u32, tokens: &[Token]) -> Read<Literal>
    ensures { MatchResult result
        (λ read. AreRead room (assign ▸ of literal_form) (λ others. sign Assign (part (literal read.0) others)) tokens.now read.1.now)
        (Refuses room (assign ▸ of literal_form) tokens.now) }
{
    match sign(room, Sign::Assign, tokens) {
        Ok(behind) => literal(alloc, room, behind),
        Err(fault) => Err(fault),
    }
}

/// `:=` and a literal where there is one.
fn optional_literal(alloc: Global, room: u32, tokens: &[Token]) -> Read<Option<Literal>>
    ensures { MatchResult result
        (λ read. AreRead room (optional (assign ▸ of literal_form)) (literal_parts read.0) tokens.now read.1.now)
        (Refuses room (optional (assign ▸ of literal_form)) tokens.now) }
{
    if !is_sign(Sign::Assign, tokens) {
        return Ok((None, tokens));
    }
    match assigned_literal(alloc, room, tokens) {
        Ok((found, left)) => Ok((Some(found), left)),
        Err(fault) => Err(fault),
    }
}

/// What is behind a parameter's type.
#[derive(Drop)]
pub struct ParameterEnd {
    pub name: Name,
    pub literal: Option<Literal>,
    pub pairs: Pairs,
}

/// A name, a literal where there is one, attributes and `;`.
fn parameter_end(alloc: Global, room: u32, tokens: &[Token]) -> Read<ParameterEnd>
    ensures { MatchResult result
        (λ read. AreRead room (name_part ▸ optional (assign ▸ of literal_form) ▸ pairs_part ▸ semicolon) (λ others. name_of read.0.name (literal_parts read.0.literal (pairs_of read.0.pairs (sign Semicolon others)))) tokens.now read.1.now)
        (Refuses room (name_part ▸ optional (assign ▸ of literal_form) ▸ pairs_part ▸ semicolon) tokens.now) }
{
    match name(alloc, room, tokens) {
        Ok((name, inside)) => match optional_literal(alloc, room, inside) {
            Ok((literal, behind)) => match ended_pairs(alloc, room, Sign::Semicolon, behind) {
                Ok((pairs, left)) => Ok((
                    ParameterEnd {
                        name,
                        literal,
                        pairs,
                    },
                    left,
                )),
                Err(fault) => {
                    drop(literal);
                    Err(fault)
                }
            },
            Err(fault) => Err(fault),
        },
        Err(fault) => Err(fault),
    }
}

/// A parameter of a machine.
pub fn parameter(alloc: Global, room: u32, tokens: &[Token]) -> Read<Parameter>
    ensures read { MatchResult result
        (λ read. IsRead room (of parameter_form) (parameter read.0) tokens.now tokens.now read.1.now)
        (Refuses room (of parameter_form) tokens.now) }
    ensures shorter { IfOk result (λ read. length read.1.now < length tokens.now) }
{
    if !is_name(tokens) {
        return Err(refuse(room, tokens));
    }
    match starred_type(alloc, room, tokens) {
        Ok((kind, has_star, behind)) => match parameter_end(alloc, room, behind) {
            Ok((end, left)) => {
                let ParameterEnd {
                    name,
                    literal,
                    pairs,
                } = end;
                let span = span(tokens, left);
                Ok((
                    Parameter {
                        kind,
                        has_star,
                        name,
                        literal,
                        pairs,
                        span,
                    },
                    left,
                ))
            }
            Err(fault) => Err(fault),
        },
        Err(fault) => Err(fault),
    }
}
