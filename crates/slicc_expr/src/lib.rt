//! Reads tokens as expressions and statements of SLICC, or finds the first token with which they can't go on.
#![tactic(auto)]

mod blocks;
mod called_statements;
mod expressions;
mod nodes;
mod operator_signs;
mod plain_statements;
mod reading;
mod statement_values;
mod values;

pub use blocks::statement_block;
pub use expressions::{after_name, expression, opening, operators};
pub use reading::{block, expr};
pub use slicc_reading::SyntaxFault;
pub use values::{begins_expression, begins_opening};
