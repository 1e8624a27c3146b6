//! Where code keeps values while it runs: the stack and the locals of a body, and below them those of the bodies that called it, in one
//! vector of slots of two words. A contract sees values. What is taken off as of a sort is known to be of it, and isn't tested.
#![tactic(auto)]

mod apart;
mod frame;
mod mark;
mod slot;
mod words;

pub use frame::Frame;
pub use mark::Mark;
