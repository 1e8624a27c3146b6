//! What the bodies of a protocol mean: what expressions give and what statements do, as trees of acts, over the trees as they
//! are written; and what a `trigger` and a scan of a controller do over them. Here are the definitions, the plain data that they speak
//! of, and what needs no controller.
#![tactic(auto)]

mod bound;
mod call_numbers;
mod called;
mod frame;
mod laws;
mod thing;

pub use bound::{
    bind, line_field, member_value, message_of, port_at, port_named, structure_field, thing_bound,
    thing_in, with_entry, with_tbe,
};
pub use call_numbers::{changes_receiver, plain_call, write_callback};
pub use called::{
    as_member, called_on, indexed_on, permission_called, reference_at, thing_of, trigger_of,
    value_call, value_in, with_receiver,
};
pub use frame::{About, Bound, Flow, Frame, Known, Place, RoundEnd, Scope, Tried};
pub use laws::scans_that_fire_nothing_change_nothing;
pub use thing::{Numbered, Thing, Trigger, joined, message_field, negated, settled};
