//! The stall map of a controller: messages that wait under lines, until they are woken.
#![tactic(auto)]

mod lane;
mod slots;
mod stalled;
mod waiting;

pub use ruby_base::{NoMemory, Seq, Text};
pub use ruby_value::{Fields, Message, MsgNo};
pub use stalled::Stalled;
pub use waiting::StallMap;
