//! What names and expressions stand for in the bodies of a protocol, what is wanted where they are, and whether they are it.
#![tactic(auto)]

mod environment;
mod fitting;
mod lines;
mod meaning;
mod meanings;
mod names;
mod same;
mod typed;

pub use environment::{BodySort, Bound, Environment};
pub use fitting::{agree, fits, has_line, is_built_in, is_line, is_value};
pub use lines::Lines;
pub use meaning::{Meaning, Wanted, Written};
pub use meanings::{
    answer_of_type, incoming_of_type, is_answer_type, is_message, is_object_type, like_it,
    line_of_structure, message_type, object_of_type, outgoing_of_type, told, unfit, unless,
    value_of_type,
};
pub use names::{meaning_named, type_named, value_named, wrong_type_name, wrong_value_name};
pub use same::same_type;
pub use typed::{Given, Typed};
