//! Action code's meaning: what each instruction does, as acts, and what a body does from its arguments to its end. And that bodies of a
//! program that fits end with what they are declared to give.
#![tactic(auto)]

mod code_end;
mod laws;

pub use code_end::CodeEnd;
pub use laws::{bodies_end_as_declared, operations_answer_their_kinds};
