//! What nearly every crate of the repository stands on: a list that contracts see as a list, a value on the heap that they see as that
//! value, a text as its bytes, and the answer for want of memory. And names with numbers: a list of names without repeats, in which a
//! name is found at once.
#![tactic(auto)]

mod boxed;
mod index;
mod memory;
mod seq;

pub use boxed::Boxed;
pub use index::NameIndex;
pub use memory::NoMemory;
pub use seq::{Seq, Text};
