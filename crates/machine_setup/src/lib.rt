//! What a machine of a protocol is to its controllers, by its symbols and the sizes that a topology sets.
#![tactic(auto)]

mod fields;
mod law;
mod machine;

pub use law::setup_is_machine;
pub use machine::setup;
pub use ruby_base::NoMemory;
