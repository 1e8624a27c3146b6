//! Laws of slots: that none is lost. These functions do nothing: their contracts are the laws.
#![tactic(auto)]

mod bodies;
mod flows;
mod protocols;
mod runs;
mod sends;

pub use bodies::bodies_move_slots;
pub use flows::sends_are_those_of_tries;
pub use protocols::no_send_lacks_a_slot;
pub use runs::slots_hold;
pub use sends::sends_are_counted;
