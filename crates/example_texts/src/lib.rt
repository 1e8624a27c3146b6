//! Texts of examples: rows, which are made piece by piece, and files that are too long to be kept.
#![tactic(auto)]

mod made_files;
mod row_text;

pub use made_files::{add_files, number};
pub use row_text::RowText;
