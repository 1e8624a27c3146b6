//! The memories of a controller that hold whole lines: a cache of sets and ways, which keeps in which order the
//! lines of a set were used, and a directory, in which each line has fields from the start.
#![tactic(auto)]

mod cache;
mod directory;
mod use_order;

pub use cache::{CacheArray, CacheFault};
pub use directory::DirMemory;
pub use ruby_base::{NoMemory, Seq, Text};
pub use ruby_value::Fields;
