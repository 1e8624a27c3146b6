//! How a part of the grammar is read from the front of tokens, and the parts that all of it is made of: single tokens,
//! attributes, and tokens in which brackets close in pairs. What is read, or the first token with which the part can't go on,
//! is said of each.
#![tactic(auto)]

mod attributes;
mod brackets;
mod fault;
mod kept;
mod leaf;
mod numbers;

pub use attributes::{assigned, next_pair, pair, pairs};
pub use brackets::{balanced, bracketed};
pub use fault::{Fault, Read, SyntaxFault, place, placed, room_within};
pub use kept::{added, called, ended, ended_call, joined, name_after};
pub use leaf::{
    is_name, is_sign, is_string, is_word, name, open, refuse, sign, span, split_first, string,
    type_name, word,
};
pub use numbers::{is_number, number};
