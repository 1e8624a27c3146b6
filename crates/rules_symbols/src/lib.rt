//! What the rules of an accepted protocol know of types, names and calls, as kinds of values, as symbols and as operations of action
//! code. These functions do nothing: their contracts are the laws.
#![tactic(auto)]

mod calls;
mod fitting;
mod functions;
mod kinds;
mod named;
mod parts_of_types;
mod typing;

pub use calls::{arguments_fit, calls_are_operations};
pub use fitting::what_fits_has_the_kind;
pub use functions::{functions_have_kinds, state_functions_have_kinds};
pub use kinds::{
    names_of_types_have_kinds, types_of_values_have_kinds, types_that_agree_have_one_kind,
};
pub use named::{names_stand_for_what_is_declared, parameters_have_kinds, ports_are_on_buffers};
pub use parts_of_types::{fields_have_kinds, members_have_numbers};
pub use typing::{bodies_are_typed, expressions_are_typed, names_of_bodies_are_typed};
