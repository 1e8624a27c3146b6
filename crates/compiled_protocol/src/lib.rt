//! A protocol whose scans are done by action code, from parts that were made once. It has no tree.
#![tactic(auto, using(acts::proofs::Walk::walk_steps))]

mod bodies;
mod compiled;
mod machine;
mod ports;
mod room;
mod row;
mod tries;

pub use action_gen::{Head, Parts};
pub use compiled::Compiled;
