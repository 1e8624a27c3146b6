//! Reads the bytes of a protocol in SLICC as its tokens, or finds the first place where they are none.
#![tactic(auto)]

mod bytes;
mod class;
mod comment;
mod fault;
mod front;
mod laws;
mod lexer;
mod number;
mod piece;
mod place;
mod sign;
mod token;
mod word;

pub use fault::LexFault;
pub use laws::{readings_are_one, spelled_trees_are_one, tokens_are_ended};
pub use lexer::lex;
pub use place::{Place, place_of};
pub use ruby_base::{NoMemory, Seq, Text};
pub use slicc_ast::tree::{Sign, Span, TokenKind, Word};
pub use token::Token;
