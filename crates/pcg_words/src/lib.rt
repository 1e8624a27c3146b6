//! The random words of an actor: the generator `Lcg64Xsh32` of `rand_pcg`, one stream of it for each actor.
#![tactic(auto)]

mod laws;
mod words;

pub use laws::{begins_again, jumps_as_it_draws};
pub use words::Words;
