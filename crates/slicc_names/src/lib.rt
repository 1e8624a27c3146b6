//! The names of a protocol: what is declared twice, or more often than it may be.
#![tactic(auto)]

mod count;
mod first_names;
mod laws;
mod limits;
mod names;
mod protocol;
mod scopes;
mod twice;

pub use laws::{declared_names_are_found, names_have_numbers};
pub use names::{Names, broken_declarations, collect};
pub use protocol::limits_passed;
pub use slicc_plan::{NoMemory, Refusal};
pub use twice::names_twice_declared;
