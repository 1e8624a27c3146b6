//! The trees of a protocol's text: `tree` has a type for each nonterminal of the grammar of SLICC, as Wisconsin GEMS and gem5's Ruby have
//! it. That grammar too, as it is written, and as a table of rows in which one token ahead decides; and of all such tables what lists of
//! tokens they have, where a list ceases to be one, and how far a reader with one token ahead comes. The definitions stand
//! in `specs/`; the functions for the grammar and its tables do nothing, and their contracts are what holds of these.
#![tactic(auto)]

mod laws;
mod node_spans;
mod table_laws;
pub mod tree;

pub use laws::{
    every_form_has_a_list, one_token_ahead_decides, reader_keeps_to_the_written_grammar,
    tokens_spell_one_tree, trees_are_of_the_written_grammar,
};
pub use node_spans::spans;
pub use ruby_base::{NoMemory, Seq, Text};
pub use table_laws::{
    choices_are_one, lists_stop_in_one_way, reader_fails_by_steps, reader_passes_by_steps,
    reader_stops_at_the_first_fault, rows_are_in_a_row, tables_with_the_same_lists,
};
