//! The action code of statements, written after what is written already.
#![tactic(auto, using(emit_expressions::proofs::Adding::adds_two))]

mod alone;
mod arms;
mod changes;
mod ending;
mod messages;
mod own;
mod plain;
mod statements;
mod triggers;

pub use ending::{Ending, close};
pub use own::bind;
pub use ruby_base::NoMemory;
pub use statements::all_lines;
