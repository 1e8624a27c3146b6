//! The action code of expressions, written after what is written already.
#![tactic(auto, using(crate::proofs::Adding::adds_two))]

mod calls;
mod code;
mod expressions;
mod fields;
mod kinds;
mod names;
mod numbers;
mod operators;
mod spots;

pub use calls::{formals_of, function_body_number, index, method_call, named_call, value_call};
pub use code::{hole, set_jump, set_unless};
pub use expressions::{arguments, piece, piece_behind};
pub use fields::{field_in, field_read, field_through};
pub use kinds::{bare, entry_kind, kind_in, null, null_kind, tbe_kind};
pub use names::{home_of, member_pushed, name_read};
pub use numbers::index16;
pub use operators::kind_written;
pub use ruby_base::NoMemory;
pub use spots::{Spot, kind_at, spot_of, spot_with};
