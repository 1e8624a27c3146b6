//! What a protocol is as action code with all that is known of it before it is run: its program, the tables of its machines, what its
//! transitions need and send, and where the bodies are by which each machine is run. And when that serves a protocol.
#![tactic(auto)]

mod parts;

pub use parts::{Head, Parts};
