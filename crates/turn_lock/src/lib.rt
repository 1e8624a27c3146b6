//! A lock whose holders take turns in the order of their tickets, over a value that carries a history: a list of numbers, each
//! with an owner. Those who may enter have passes. A pass knows which history it has last seen, and which of its
//! entries are its own.
#![tactic(auto)]

mod facts;
mod kept;
mod making;
mod pass;
mod plays;
mod turnstile;
mod view;

pub use facts::hold_between_steps;
pub use kept::Kept;
pub use pass::Pass;
pub use ruby_base::{NoMemory, Seq};
pub use turnstile::Turnstile;
