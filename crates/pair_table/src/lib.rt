//! The table of a machine: for each state and event the one transition that is written for them, and the pairs that have two.
#![tactic(auto)]

mod making;
mod places;
mod rows;
mod shared;
mod table;

pub use making::{shared_of, table_of};
pub use table::Table;
