//! The first that is broken in the statements of a body.
#![tactic(auto)]

mod judging;
mod messages;
mod plain;

pub use judging::body_judged;
