//! Statements of a word with something in parentheses and `;`.
ghost use Rattle.std.specs.Prelude.{◌≡◌, ◌<◌, true, false, length, IfOk, MatchOption, MatchResult};
ghost use Rattle.slicc_ast.specs.Prelude.{has, is_ahead, print_word as print_word_of, stmt, statement as statement_form, of, kind_of, word_kind};
ghost use Rattle.slicc_ast.specs.Names.{word};
ghost use Rattle.slicc_lex.specs.Prelude.{symbols};
ghost use Rattle.slicc_reading.specs.Prelude.{AreRead, IsRead, Refuses};
ghost use Rattle.slicc_expr.specs.Prelude.{IsPrintWord, assert, calling_words, check_allocate, error, print_kinds, print_statement, print_word as print_word_form, stall_and_wait};

use crate::expressions::expression;
use crate::statement_values::named_value;
use slicc_ast::tree::{PrintWord, Sign, Stmt, TokenKind, Word};
use slicc_lex::Token;
use slicc_reading::{
    Read, bracketed, called, ended, ended_call, is_word, name, refuse, span, split_first, string,
};
use std::alloc::Global;

fn stall_and_wait(alloc: Global, room: u32, tokens: &[Token]) -> Read<Stmt>
    ensures read { MatchResult result
        (λ read. IsRead room stall_and_wait (stmt read.0) tokens.now tokens.now read.1.now)
        (Refuses room stall_and_wait tokens.now) }
    ensures shorter { IfOk result (λ read. length read.1.now < length tokens.now) }
{
    match called(room, Word::StallAndWait, tokens) {
        Ok(inside) => match ended_call(room, named_value(alloc, room - 1, Sign::Comma, inside)) {
            Ok((read, left)) => {
                let (port, address) = read;
                let span = span(tokens, left);
                Ok((
                    Stmt::StallAndWait {
                        port,
                        address,
                        span,
                    },
                    left,
                ))
            }
            Err(fault) => Err(fault),
        },
        Err(fault) => Err(fault),
    }
}

fn check_allocate(alloc: Global, room: u32, tokens: &[Token]) -> Read<Stmt>
    ensures read { MatchResult result
        (λ read. IsRead room check_allocate (stmt read.0) tokens.now tokens.now read.1.now)
        (Refuses room check_allocate tokens.now) }
    ensures shorter { IfOk result (λ read. length read.1.now < length tokens.now) }
{
    match called(room, Word::CheckAllocate, tokens) {
        Ok(inside) => match ended_call(room, name(alloc, room - 1, inside)) {
            Ok((table, left)) => Ok((Stmt::CheckAllocate(table, span(tokens, left)), left)),
            Err(fault) => Err(fault),
        },
        Err(fault) => Err(fault),
    }
}

fn error(alloc: Global, room: u32, tokens: &[Token]) -> Read<Stmt>
    ensures read { MatchResult result
        (λ read. IsRead room error (stmt read.0) tokens.now tokens.now read.1.now)
        (Refuses room error tokens.now) }
    ensures shorter { IfOk result (λ read. length read.1.now < length tokens.now) }
{
    match called(room, Word::Error, tokens) {
        Ok(inside) => match ended_call(room, string(alloc, room - 1, inside)) {
            Ok((text, left)) => Ok((Stmt::Error(text, span(tokens, left)), left)),
            Err(fault) => Err(fault),
        },
        Err(fault) => Err(fault),
    }
}

fn assert(alloc: Global, room: u32, tokens: &[Token]) -> Read<Stmt>
    ensures read { MatchResult result
        (λ read. IsRead room assert (stmt read.0) tokens.now tokens.now read.1.now)
        (Refuses room assert tokens.now) }
    ensures shorter { IfOk result (λ read. length read.1.now < length tokens.now) }
{
    match called(room, Word::Assert, tokens) {
        Ok(inside) => match ended_call(room, expression(alloc, room - 1, inside)) {
            Ok((claim, left)) => Ok((Stmt::Assert(claim, span(tokens, left)), left)),
            Err(fault) => Err(fault),
        },
        Err(fault) => Err(fault),
    }
}

fn print_word_named(word: Word) -> Option<PrintWord>
    ensures { MatchOption result
        (has print_kinds (word_kind word) ≡ false)
        (λ which. print_word_of which ≡ word) }
{
    match word {
        Word::Dprintf => Some(PrintWord::Dprintf),
        Word::AppendTransitionComment => Some(PrintWord::AppendTransitionComment),
        _ => None,
    }
}

fn print_word_kind(kind: &TokenKind) -> Option<PrintWord>
    ensures { MatchOption result
        (has print_kinds (kind_of kind.now) ≡ false)
        (IsPrintWord kind.now) }
{
    match kind {
        TokenKind::Word(word) => print_word_named(*word),
        _ => None,
    }
}

/// The word of a text for a trace.
fn print_word(room: u32, tokens: &[Token]) -> Read<PrintWord>
    ensures read { MatchResult result
        (λ read. AreRead room print_word_form
        (word (print_word_of read.0)) tokens.now read.1.now)
        (Refuses room print_word_form tokens.now) }
    ensures shorter { IfOk result (λ read. length read.1.now < length tokens.now) }
{
    let Some((first, left)) = split_first(tokens) else {
        return Err(refuse(room, tokens));
    };
    match print_word_kind(&first.kind) {
        Some(which) => Ok((which, left)),
        None => Err(refuse(room, tokens)),
    }
}

/// A text for a trace.
fn print_statement(alloc: Global, room: u32, tokens: &[Token]) -> Read<Stmt>
    ensures read { MatchResult result
        (λ read. IsRead room print_statement (stmt read.0) tokens.now tokens.now read.1.now)
        (Refuses room print_statement tokens.now) }
    ensures shorter { IfOk result (λ read. length read.1.now < length tokens.now) }
{
    match print_word(room, tokens) {
        Ok((word, behind)) => match ended(
            room,
            bracketed(
                alloc,
                room,
                Sign::OpenParenthesis,
                Sign::CloseParenthesis,
                behind,
            ),
            Sign::Semicolon,
        ) {
            Ok((arguments, left)) => {
                let span = span(tokens, left);
                Ok((
                    Stmt::Print {
                        word,
                        arguments,
                        span,
                    },
                    left,
                ))
            }
            Err(fault) => Err(fault),
        },
        Err(fault) => Err(fault),
    }
}

/// A statement of a word with something in parentheses and `;`.
pub fn called_statement(alloc: Global, room: u32, tokens: &[Token]) -> Read<Stmt>
    requires { is_ahead calling_words (symbols tokens.now) ≡ true }
    ensures read { MatchResult result
        (λ read. IsRead room (of statement_form) (stmt read.0) tokens.now tokens.now read.1.now)
        (Refuses room (of statement_form) tokens.now) }
    ensures shorter { IfOk result (λ read. length read.1.now < length tokens.now) }
{
    if is_word(Word::StallAndWait, tokens) {
        return stall_and_wait(alloc, room, tokens);
    }
    if is_word(Word::CheckAllocate, tokens) {
        return check_allocate(alloc, room, tokens);
    }
    if is_word(Word::Error, tokens) {
        return error(alloc, room, tokens);
    }
    if is_word(Word::Assert, tokens) {
        return assert(alloc, room, tokens);
    }
    print_statement(alloc, room, tokens)
}
