//! The rules of machines that need no body: which of them a protocol breaks first.
#![tactic(auto)]

mod network_rules;
mod next_rules;
mod parts;
mod port_rules;
mod rule;
mod state_rules;
mod wanted;

pub use network_rules::networks;
pub use next_rules::next_states;
pub use parts::machine_parts;
pub use ruby_base::NoMemory;
pub use state_rules::state_functions;
