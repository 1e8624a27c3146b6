//! What expressions stand for in the bodies of a protocol, and the first that is broken in them.
#![tactic(auto, using(call_types::proofs::Firsts::rules_of_first))]

mod expression;
mod fields;
mod members;
mod operators;

pub use expression::{broken_where, typed};
