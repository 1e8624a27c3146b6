//! Blocks, and the statements that hold them. A block is read with one more nesting open, so that the cycle of functions goes
//! no deeper than the nesting may. The statements of a block and the branches behind `else if` are loops.
ghost use Rattle.std.specs.Prelude.{◌≡◌, ◌∷◌, ◌<◌, [], false, true, length, IfOk, MatchResult};
ghost use Rattle.slicc_ast.specs.Prelude.{is_ahead, block_outline, if_outline, stmt, first_of_form, conditional, otherwise, statement as statement_form, ◌▸◌, of, word_kind};
ghost use Rattle.slicc_ast.specs.declared.tree.token.Word.TheVariants.{Else, If as IfWord};
ghost use Rattle.slicc_ast.specs.Form.Form.{block};
ghost use Rattle.slicc_ast.specs.Parts.{word};
ghost use Rattle.slicc_lex.specs.Prelude.{symbols};
ghost use Rattle.slicc_reading.specs.Prelude.{AreRead, IsRead, Refuses};
ghost use Rattle.slicc_expr.specs.Prelude.{AreElseIfs, branch, branch_parts, branches_end, else_if_parts, enqueue_statement, is_else_if, nesting_words, other_branches_parts, last_parts, peek_statement, statements_end, statements_parts};

use crate::called_statements::called_statement;
use crate::expressions::tested;
use crate::plain_statements::{name_statement, opening_statement, return_statement};
use crate::statement_values::{
    begins_else_if, begins_nesting, begins_statement, enqueue_head, peek_head,
};
use crate::values::begins_opening;
use slicc_ast::Seq;
use slicc_ast::tree::{Block, ElseIf, Expr, If, Sign, Stmt, Word};
use slicc_lex::Token;
use slicc_reading::{
    Fault, Read, added, ended, is_name, is_sign, is_word, joined, open, refuse, span, word,
};
use std::alloc::Global;

/// Statements in braces.
#[cycle(block)]
pub fn statement_block(alloc: Global, room: u32, tokens: &[Token]) -> Read<Block>
    ensures read { MatchResult result
        (λ read. IsRead room (of block)
        (block_outline read.0) tokens.now tokens.now read.1.now)
        (Refuses room (of block) tokens.now) }
    ensures shorter { IfOk result (λ read. length read.1.now < length tokens.now) }
{
    if !is_sign(Sign::OpenBrace, tokens) {
        return Err(refuse(room, tokens));
    }
    match open(room, Sign::OpenBrace, tokens) {
        Ok(inside) => match statements(alloc, room - 1, inside) {
            Ok((statements, left)) => {
                let span = span(tokens, left);
                Ok((Block { statements, span }, left))
            }
            Err(fault) => Err(fault),
        },
        Err(fault) => Err(fault),
    }
}

/// Statements and `}`.
#[cycle(block)]
fn statements(alloc: Global, room: u32, tokens: &[Token]) -> Read<Seq<Stmt>>
    ensures { MatchResult result
        (λ read. AreRead room statements_end
        (statements_parts read.0) tokens.now read.1.now)
        (Refuses room statements_end tokens.now) }
{
    let mut items = Seq::new(alloc);
    let mut left = tokens;
    'more: while begins_statement(left) {
        match added(&mut items, statement(alloc, room, left)) {
            Ok(after) => left = after,
            Err(fault) => {
                drop(items);
                return Err(fault);
            }
        }
    }
    ended(room, Ok((items, left)), Sign::CloseBrace)
}

#[cycle(block)]
fn statement(alloc: Global, room: u32, tokens: &[Token]) -> Read<Stmt>
    requires { is_ahead (first_of_form statement_form) (symbols tokens.now) ≡ true }
    ensures read { MatchResult result
        (λ read. IsRead room (of statement_form) (stmt read.0) tokens.now tokens.now read.1.now)
        (Refuses room (of statement_form) tokens.now) }
    ensures shorter { IfOk result (λ read. length read.1.now < length tokens.now) }
{
    if is_name(tokens) {
        return name_statement(alloc, room, tokens);
    }
    if begins_opening(tokens) {
        return opening_statement(alloc, room, tokens);
    }
    if is_word(Word::Return, tokens) {
        return return_statement(alloc, room, tokens);
    }
    if begins_nesting(tokens) {
        return nesting_statement(alloc, room, tokens);
    }
    called_statement(alloc, room, tokens)
}

/// A statement that holds a block.
#[cycle(block)]
fn nesting_statement(alloc: Global, room: u32, tokens: &[Token]) -> Read<Stmt>
    requires { is_ahead nesting_words (symbols tokens.now) ≡ true }
    ensures read { MatchResult result
        (λ read. IsRead room (of statement_form) (stmt read.0) tokens.now tokens.now read.1.now)
        (Refuses room (of statement_form) tokens.now) }
    ensures shorter { IfOk result (λ read. length read.1.now < length tokens.now) }
{
    if is_word(Word::If, tokens) {
        return match conditional(alloc, room, tokens) {
            Ok((branches, left)) => Ok((Stmt::If(branches), left)),
            Err(fault) => Err(fault),
        };
    }
    if is_word(Word::Peek, tokens) {
        return peek(alloc, room, tokens);
    }
    enqueue(alloc, room, tokens)
}

#[cycle(block)]
fn peek(alloc: Global, room: u32, tokens: &[Token]) -> Read<Stmt>
    ensures read { MatchResult result
        (λ read. IsRead room peek_statement (stmt read.0) tokens.now tokens.now read.1.now)
        (Refuses room peek_statement tokens.now) }
    ensures shorter { IfOk result (λ read. length read.1.now < length tokens.now) }
{
    match peek_head(alloc, room, tokens) {
        Ok((head, behind)) => match joined(head, statement_block(alloc, room, behind)) {
            Ok((read, left)) => {
                let (head, body) = read;
                let (source, pairs) = head;
                let (port, message) = source;
                let span = span(tokens, left);
                Ok((
                    Stmt::Peek {
                        port,
                        message,
                        pairs,
                        body,
                        span,
                    },
                    left,
                ))
            }
            Err(fault) => Err(fault),
        },
        Err(fault) => Err(fault),
    }
}

#[cycle(block)]
fn enqueue(alloc: Global, room: u32, tokens: &[Token]) -> Read<Stmt>
    ensures read { MatchResult result
        (λ read. IsRead room enqueue_statement (stmt read.0) tokens.now tokens.now read.1.now)
        (Refuses room enqueue_statement tokens.now) }
    ensures shorter { IfOk result (λ read. length read.1.now < length tokens.now) }
{
    match enqueue_head(alloc, room, tokens) {
        Ok((head, behind)) => match joined(head, statement_block(alloc, room, behind)) {
            Ok((read, left)) => {
                let (head, body) = read;
                let (target, latency) = head;
                let (port, message) = target;
                let span = span(tokens, left);
                Ok((
                    Stmt::Enqueue {
                        port,
                        message,
                        latency,
                        body,
                        span,
                    },
                    left,
                ))
            }
            Err(fault) => Err(fault),
        },
        Err(fault) => Err(fault),
    }
}

/// `if`, its branches, and those behind `else`.
#[cycle(block)]
fn conditional(alloc: Global, room: u32, tokens: &[Token]) -> Read<If>
    requires { is_ahead (word_kind IfWord ∷ []) (symbols tokens.now) ≡ true }
    ensures read { MatchResult result
        (λ read. IsRead room (of conditional)
        (if_outline read.0) tokens.now tokens.now read.1.now)
        (Refuses room (of conditional) tokens.now) }
    ensures shorter { IfOk result (λ read. length read.1.now < length tokens.now) }
{
    match if_branch(alloc, room, tokens) {
        Ok((branch, behind)) => match joined(branch, other_branches(alloc, room, behind)) {
            Ok((read, left)) => {
                let (first, further) = read;
                let (condition, then) = first;
                let (others, otherwise) = further;
                let span = span(tokens, left);
                Ok((
                    If {
                        condition,
                        then,
                        others,
                        otherwise,
                        span,
                    },
                    left,
                ))
            }
            Err(fault) => Err(fault),
        },
        Err(fault) => Err(fault),
    }
}

/// `if`, a condition and a block.
#[cycle(block)]
fn if_branch(alloc: Global, room: u32, tokens: &[Token]) -> Read<(Expr, Block)>
    ensures read { MatchResult result
        (λ read. AreRead room branch (branch_parts read.0) tokens.now read.1.now)
        (Refuses room branch tokens.now) }
    ensures shorter { IfOk result (λ read. length read.1.now < length tokens.now) }
{
    match tested(alloc, room, Word::If, tokens) {
        Ok((condition, behind)) => joined(condition, statement_block(alloc, room, behind)),
        Err(fault) => Err(fault),
    }
}

/// The branches behind the first one, and the block of the last `else`.
#[cycle(block)]
fn other_branches(alloc: Global, room: u32, tokens: &[Token]) -> Read<(Seq<ElseIf>, Option<Block>)>
    ensures { MatchResult result
        (λ read. AreRead room branches_end
        (other_branches_parts read.0) tokens.now read.1.now)
        (Refuses room branches_end tokens.now) }
{
    match else_ifs(alloc, room, tokens) {
        Ok((others, behind)) => match last_branch(alloc, room, behind) {
            Ok((otherwise, left)) => Ok(((others, otherwise), left)),
            Err(fault) => {
                drop(others);
                Err(fault)
            }
        },
        Err(fault) => Err(fault),
    }
}

/// Any number of branches behind `else if`.
#[cycle(block)]
fn else_ifs(alloc: Global, room: u32, tokens: &[Token]) -> Read<Seq<ElseIf>>
    ensures read { MatchResult result
        (λ read. AreElseIfs room tokens.now read.0 read.1.now)
        (Refuses room branches_end tokens.now) }
    ensures ended { IfOk result (λ read. is_else_if (symbols read.1.now) ≡ false) }
{
    let mut others = Seq::new(alloc);
    let mut left = tokens;
    'branches: while begins_else_if(left) {
        match else_if(alloc, room, left) {
            Ok((next, after)) => match others.push(next) {
                Ok(()) => left = after,
                Err(_) => return Err(Fault::NoMemory),
            },
            Err(fault) => return Err(fault),
        }
    }
    Ok((others, left))
}

/// `else if`, a condition and a block.
#[cycle(block)]
fn else_if(alloc: Global, room: u32, tokens: &[Token]) -> Read<ElseIf>
    ensures read { MatchResult result
        (λ read. AreRead room (word Else ▸ branch)
        (else_if_parts read.0) tokens.now read.1.now)
        (Refuses room (word Else ▸ branch) tokens.now) }
    ensures shorter { IfOk result (λ read. length read.1.now < length tokens.now) }
{
    match word(room, Word::Else, tokens) {
        Ok(behind) => match if_branch(alloc, room, behind) {
            Ok((read, left)) => {
                let (condition, then) = read;
                Ok((ElseIf { condition, then }, left))
            }
            Err(fault) => Err(fault),
        },
        Err(fault) => Err(fault),
    }
}

/// `else` and a block where there is an `else`.
#[cycle(block)]
fn last_branch(alloc: Global, room: u32, tokens: &[Token]) -> Read<Option<Block>>
    requires { is_else_if (symbols tokens.now) ≡ false }
    ensures { MatchResult result
        (λ read. AreRead room branches_end (last_parts read.0) tokens.now read.1.now)
        (Refuses room branches_end tokens.now) }
{
    if !is_word(Word::Else, tokens) {
        return Ok((None, tokens));
    }
    match word(room, Word::Else, tokens) {
        Ok(behind) => match last_block(alloc, room, behind) {
            Ok((last, left)) => Ok((Some(last), left)),
            Err(fault) => Err(fault),
        },
        Err(fault) => Err(fault),
    }
}

/// What is behind an `else` without an `if`.
#[cycle(block)]
fn last_block(alloc: Global, room: u32, tokens: &[Token]) -> Read<Block>
    requires { is_ahead (word_kind IfWord ∷ []) (symbols tokens.now) ≡ false }
    ensures read { MatchResult result
        (λ read. IsRead room (of otherwise)
        (block_outline read.0) tokens.now tokens.now read.1.now)
        (Refuses room (of otherwise) tokens.now) }
    ensures shorter { IfOk result (λ read. length read.1.now < length tokens.now) }
{
    if !is_sign(Sign::OpenBrace, tokens) {
        return Err(refuse(room, tokens));
    }
    statement_block(alloc, room, tokens)
}
