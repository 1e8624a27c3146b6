// Texts that have tokens.
ghost use Rattle.std.specs.Prelude.{◌≤◌, length};
ghost use Rattle.slicc_lex.specs.Prelude.{AreEnded};
ghost use Rattle.slicc_parse.specs.Prelude.{AreEndedOnce};

use crate::blocks::add_block;
use crate::declarations::add_form;
use crate::expressions::add_expression;
use crate::files::add_file;
use crate::forms::{Form, Reading};
use crate::tables::{add_needs, add_numbers};
use crate::tokens::add_token;
use example_texts::RowText;
use ruby_base::Seq;
use slicc_lex::{Token, lex};

// The number of the file that each text is.
const FILE: u16 = 3;

fn add_found(rows: &mut RowText, reading: Reading, tokens: &Seq<Token>)
    requires ended { AreEnded tokens.now }
    requires once { AreEndedOnce tokens.now }
    requires size { length tokens.now ≤ 1048577 }
{
    match reading.form {
        Form::Place => rows.lose(),
        Form::Token => add_token(rows, reading.at, tokens),
        Form::Expression => add_expression(rows, reading, tokens),
        Form::Block => add_block(rows, reading, tokens),
        Form::File => add_file(rows, tokens),
        Form::Numbers => add_numbers(rows, tokens),
        Form::Needs => add_needs(rows, tokens),
        _ => add_form(rows, reading, tokens.as_slice()),
    }
}

/// Adds what is read in a text, or its first fault.
pub(crate) fn add_text(rows: &mut RowText, reading: Reading, text: &[u8]) {
    if text.len() > 1_048_576 {
        return rows.lose();
    }
    match lex(rows.alloc(), FILE, text) {
        Ok(tokens) => {
            add_found(rows, reading, &tokens);
            drop(tokens);
        }
        Err(fault) => rows.debug("", &fault),
    }
}
