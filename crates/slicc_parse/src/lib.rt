//! Reads the tokens of a whole file as its tree, or finds the first token with which they can't go on.
#![tactic(auto)]

mod declarations;
mod files;
mod items;
mod laws;
mod typed;

pub use files::parse;
pub use laws::{spelled_files_are_read, tokens_end_once};
pub use slicc_reading::SyntaxFault;
