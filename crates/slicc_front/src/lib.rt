//! A protocol's files as its plan, or the first thing that is wrong with them.
#![tactic(auto)]

mod answer;
mod judging;
mod laws;
mod told;

pub use answer::Front;
pub use judging::front;
pub use laws::fronts_are_one;
pub use ruby_base::{NoMemory, Text};
pub use slicc_files::Refused;
pub use slicc_plan::Plan;
