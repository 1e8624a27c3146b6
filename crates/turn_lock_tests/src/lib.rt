//! Threads that count under a turn lock. It is a crate of its own, since a crate with tests is proved twice.
#![tactic(auto)]

mod counting;
mod tally;
#[cfg(test)]
mod tests;

pub use counting::count_together;
pub use tally::Tally;
