// Texts that are read as blocks.
ghost use Rattle.std.specs.Prelude.{◌≤◌, length};
ghost use Rattle.slicc_lex.specs.Prelude.{AreEnded};

use crate::forms::Reading;
use example_texts::RowText;
use ruby_base::Seq;
use slicc_ast::tree::{PrintWord, Stmt};
use slicc_expr::block;
use slicc_lex::Token;

// What the statement is, and how much stands in it.
fn kind_of(s: &Stmt) -> (&'static str, usize) {
    match s {
        Stmt::Declare { .. } => ("declare", 0),
        Stmt::Assign { .. } => ("assign", 0),
        Stmt::Evaluate(_, _) => ("evaluate", 0),
        Stmt::Return(None, _) => ("return", 0),
        Stmt::Return(Some(_), _) => ("return a value", 0),
        Stmt::If(branches) => match &branches.otherwise {
            Some(_) => ("if with else", branches.others.len()),
            None => ("if", branches.others.len()),
        },
        Stmt::Peek { body, .. } => ("peek", body.statements.len()),
        Stmt::Enqueue { latency, body, .. } => match latency {
            Some(_) => ("enqueue later", body.statements.len()),
            None => ("enqueue", body.statements.len()),
        },
        Stmt::StallAndWait { .. } => ("stall_and_wait", 0),
        Stmt::CheckAllocate(_, _) => ("check_allocate", 0),
        Stmt::Error(_, _) => ("error", 0),
        Stmt::Assert(_, _) => ("assert", 0),
        Stmt::Print {
            word,
            arguments,
            ..
        } => match word {
            PrintWord::Dprintf => ("DPRINTF", arguments.parts.len()),
            PrintWord::AppendTransitionComment => {
                ("APPEND_TRANSITION_COMMENT", arguments.parts.len())
            }
        },
    }
}

/// Adds how many tokens there are up to the end of the block, how many statements it has, what the first of them is, and how many `else if`,
/// statements or balanced parts are in that, or the fault.
pub(crate) fn add_block(rows: &mut RowText, reading: Reading, tokens: &Seq<Token>)
    requires ended { AreEnded tokens.now }
    requires size { length tokens.now ≤ 1048577 }
{
    if reading.at as usize >= tokens.len() || reading.depth > 64 {
        return rows.lose();
    }
    match block(rows.alloc(), tokens, reading.at, reading.depth) {
        Ok((tree, next)) => {
            let count = tree.statements.len();
            let (what, inside) = match tree.statements.first() {
                Some(first) => kind_of(first),
                None => ("none", 0),
            };
            drop(tree);
            rows.show("", &next);
            rows.show(" ", &count);
            rows.show(" ", &what);
            rows.show(" ", &inside);
        }
        Err(fault) => rows.debug("", &fault),
    }
}
