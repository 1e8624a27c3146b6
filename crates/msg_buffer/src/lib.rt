//! The message buffer of a controller: messages in the order in which they become ready, by arrival and then by number.
#![tactic(auto)]

mod buffer;

pub use buffer::{Buffer, NotReady};
pub use ruby_base::{NoMemory, Seq, Text};
pub use ruby_value::{Fields, Message, MsgNo};
