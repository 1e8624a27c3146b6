//! The action code of bodies: what each expression, each statement and each body is as instructions, and how the bodies of a protocol are
//! numbered. Here are the definitions, and the plain data that they speak of. That this code means what the bodies mean isn't said here.
#![tactic(auto)]

mod left;
mod numbers;
mod own;

pub use left::{FieldAt, Home, Left, NameAt};
pub use numbers::BodyNumbers;
pub use own::{Locals, MessageKept, Own, Scratch};
