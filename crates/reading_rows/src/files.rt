// Whole files, and the places of the nodes of their trees.
ghost use Rattle.std.specs.Prelude.{◌≤◌, length};
ghost use Rattle.slicc_parse.specs.Prelude.{AreEndedOnce};

use crate::tokens::add_span;
use example_texts::RowText;
use ruby_base::Seq;
use slicc_ast::spans;
use slicc_ast::tree::Tree;
use slicc_lex::Token;
use slicc_parse::parse;

fn add_spans(rows: &mut RowText, tree: &Tree) {
    match &spans(rows.alloc(), tree) {
        Ok(found) => {
            let mut before = "";
            for span in found.as_slice() {
                rows.add(before);
                add_span(rows, span);
                before = " ";
            }
        }
        Err(_) => rows.lose(),
    }
}

/// Adds where each node of the tree starts and ends, in the order of the text. A node without a token goes from 0 to 0 in file 0.
pub(crate) fn add_file(rows: &mut RowText, tokens: &Seq<Token>)
    requires once { AreEndedOnce tokens.now }
    requires size { length tokens.now ≤ 1048577 }
{
    match parse(rows.alloc(), tokens) {
        Ok(tree) => {
            add_spans(rows, &tree);
            drop(tree);
        }
        Err(_) => rows.lose(),
    }
}
