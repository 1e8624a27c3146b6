//! That the action code of bodies does what the bodies mean. These functions do nothing: their contracts are the laws.
#![tactic(auto)]

mod laws;

pub use laws::expressions_do_what_they_mean;
