//! What can be done to a controller as data, and what a body does as a tree of such acts. For each act there is a function that
//! tests whether the machine serves it, and does it in a local; what holds of every body, whatever
//! it does, is proved once for each act: `body_laws.rt` has it as contracts of functions that do nothing, at whatever type a body's answer has.
#![tactic(auto, using(crate::proofs::Calls::calls_of_acts))]

mod body_fault;
mod body_laws;
mod messages;
mod own;
mod requests;
mod required;
mod serving;
mod tables;

pub use body_fault::BodyFault;
pub use body_laws::{
    bodies_keep_marks, bodies_keep_what_holds, bodies_move_mail, bodies_never_stop_as_invalid,
    what_comes_later_changes_nothing,
};
pub use ctl_face::{
    Block, Fault, Fields, Local, MachineSetup, Message, MessageAt, NoMemory, Ref, Trouble, Value,
};
pub use messages::{front, front_at, pop, ready, recycle, send, slots, stall, wake, wake_all};
pub use own::{again, me, now, set_state, state};
pub use requests::{read_back, write_back};
pub use required::what_is_served_is_what_a_local_requires;
pub use tables::{allocate, avail, deallocate, field, free, get, lookup, probe, set, touch};
