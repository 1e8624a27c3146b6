//! Readings of the tokens of a whole text from a place on.
ghost use Rattle.std.specs.Prelude.{◌<◌, ◌≤◌, length, MatchResult};
ghost use Rattle.slicc_ast.specs.Prelude.{expr, block_outline, expression};
ghost use Rattle.slicc_ast.specs.Form.Form.{block};
ghost use Rattle.slicc_lex.specs.Prelude.{AreEnded, IsReadAs};
ghost use Rattle.slicc_reading.specs.Prelude.{IsFaultFrom};

use crate::blocks::statement_block;
use crate::expressions::expression;
use slicc_ast::Seq;
use slicc_ast::tree::{Block, Expr};
use slicc_lex::Token;
use slicc_reading::{Fault, SyntaxFault, place, placed, room_within};
use std::alloc::Global;

/// The expression that the tokens from the place `at` on begin with, the longest there is, and the place behind it, where
/// `depth` nestings are open before `at`. The last token is the end token.
pub fn expr(
    alloc: Global,
    tokens: &Seq<Token>,
    at: u32,
    depth: u32,
) -> Result<(Expr, u32), SyntaxFault>
    requires place { at < length tokens.now }
    requires nesting { depth ≤ 64 }
    requires size { length tokens.now ≤ 1048577 }
    requires ended { AreEnded tokens.now }
    ensures { MatchResult result
        (λ read. IsReadAs expression depth tokens.now at (expr read.0) read.1)
        (IsFaultFrom expression depth tokens.now at) }
{
    let count = tokens.len();
    let (_, from) = tokens.as_slice().split_at(at as usize);
    match expression(alloc, room_within(depth), from) {
        Ok((tree, left)) => Ok((tree, place(count, left.len()))),
        Err(fault) => Err(placed(count, fault)),
    }
}

/// The block that the tokens from the place `at` on begin with, and the place behind it, where `depth` nestings are open before
/// `at`. The last token is the end token.
pub fn block(
    alloc: Global,
    tokens: &Seq<Token>,
    at: u32,
    depth: u32,
) -> Result<(Block, u32), SyntaxFault>
    requires place { at < length tokens.now }
    requires nesting { depth ≤ 64 }
    requires size { length tokens.now ≤ 1048577 }
    requires ended { AreEnded tokens.now }
    ensures { MatchResult result
        (λ read. IsReadAs block depth tokens.now at (block_outline read.0) read.1)
        (IsFaultFrom block depth tokens.now at) }
{
    let count = tokens.len();
    let (_, from) = tokens.as_slice().split_at(at as usize);
    match statement_block(alloc, room_within(depth), from) {
        Ok((tree, left)) => Ok((tree, place(count, left.len()))),
        Err(fault) => Err(placed(count, fault)),
    }
}
