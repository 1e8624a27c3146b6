//! The plan of a protocol: its trees where they keep all rules, else the first rule that they break. The rules are judged in
//! three phases, those of declarations, of bodies and of machines.
#![tactic(auto)]

mod machines;
mod resolving;

pub use resolving::resolve;
