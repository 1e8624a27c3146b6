//! The walk over the expressions and places of a body: what they mean is done in a local, as the trees are written. Names, fields and
//! calls are done by functions of their own, once what they are made of is evaluated.
#![tactic(auto, using(acts::proofs::Walk::walk_steps))]

mod built;
mod expressions;
mod finding;
mod frames;
mod places;

pub use built::{field_in, index, method_call, named_call, value_found, variable};
pub use expressions::{value, value_behind, values_of};
pub use finding::{place_of, place_with};
pub use frames::{leave, new_message, rebind};
pub use places::{at_place, with_place};
