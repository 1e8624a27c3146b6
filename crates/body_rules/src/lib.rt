//! What is broken in the bodies of a protocol, and in declarations that bodies rest on; whether functions answer on each way through
//! their bodies, and whether `return` has a value where it should; and names in transitions that their machine hasn't, and permissions
//! of states that are none.
#![tactic(auto)]

mod all;
mod bodies;
mod declarations;
mod machine_in;
mod missing;
mod returning;
mod ways;

pub use all::broken_bodies;
pub use ruby_base::NoMemory;
