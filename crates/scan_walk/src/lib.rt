//! What a scan of a controller does, in code: a try of a `trigger` by the written transitions, and the in ports one after another. The
//! bodies of actions, in ports and functions are done by `statement_walk`.
#![tactic(auto)]

mod actions;
mod ports;
mod transition;

pub use ports::scan;
