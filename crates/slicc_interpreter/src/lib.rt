//! Scans of a protocol that are done by walking through its trees as they are written.
#![tactic(auto)]

mod interpreted;
mod kept;
mod small;

pub use interpreted::Interpreted;
