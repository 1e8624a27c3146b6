//! The symbols of a protocol, made once from its trees: what it declares, as plain names and numbers.
#![tactic(auto)]

mod bodies;
mod functions;
mod lines;
mod machine;
mod names;
mod objects;
mod protocol;
mod states;
mod tables;
mod types;
mod values;

pub use protocol::protocol_symbols;
pub use ruby_base::NoMemory;
