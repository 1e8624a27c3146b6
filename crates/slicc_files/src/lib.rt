//! The files that a protocol is made of: they are read by name from a library, from the protocol's own on, as include
//! lines want them, and each is read as a tree. Or there is the first of them that can't be.
#![tactic(auto)]

mod gathered;
mod gathering;
mod laws;
mod reading;
mod state;

pub use gathered::{Gathered, Refused, Source, place_in};
pub use gathering::gather;
pub use laws::{files_are_gathered_in_one_way, outlines_have_one_tree, texts_are_read_in_one_way};
pub use reading::{Broken, TextFault, TextRule, read_text};
pub use slicc_lex::Place;
