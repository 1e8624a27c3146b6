//! What the statements of a body do in a local, one after another: those with a block, which are `if`, `peek` and `enqueue`, and those
//! without one, by `plain_walk`. What the bodies of a machine do: those of its functions, as they are called from each other, and those of
//! its actions and in ports. And the state of a line by the functions that a machine may have for it, and the free lines that actions
//! need and the messages that they send, counted in their bodies.
#![tactic(auto, using(acts::proofs::Walk::walk_steps))]

mod bodies;
mod done;
mod functions;
mod messages;
mod needs;
mod sends;
mod states;
mod walk;

pub use done::{action_done, port_done};
pub use functions::call_function;
pub use needs::{Counted, has_more, is_sent_on};
pub use states::{next_state, permission_set, state_by, state_set};
pub use walk::all_done;
