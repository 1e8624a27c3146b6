//! What each built-in call does to a controller and answers, by the number that action code gives it, and beside it what values are
//! where a sort is wanted, and sums, comparisons and fields.
#![tactic(auto, using(acts::proofs::Walk::walk_steps, crate::proofs::Told::told_steps))]

mod call;
mod doing;
mod machines;
mod operators;
mod sets;
mod values;

pub use call::{
    Call, ControllerCall, MachineCall, MessageCall, SetCall, TableCall, ValueCall, call_at,
};
pub use doing::{built_in, of_values, on_controller, on_machines, on_messages, on_table};
pub use machines::{KeptMachines, Placed, Range, add_range, home_in, place_of, range_at};
pub use operators::{
    are_equal, difference, field_of, is_at_most, is_less, negation, product, sum, with_field,
};
pub use sets::of_set;
pub use values::{
    address, address_of_line, block, controller, line_named, member, number, reference, truth,
};
