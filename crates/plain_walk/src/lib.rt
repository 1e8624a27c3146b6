//! What the statements without a block do in a local: declarations, assignments, expressions as statements and the calls that change
//! what is at a place or what a transition is about, `return`, `error`, `assert` and `stall_and_wait`. What they are made of is evaluated
//! by `body_walk`.
#![tactic(auto, using(acts::proofs::Walk::walk_steps))]

mod alone;
mod calls;
mod changes;
mod ends;
mod named;
mod plain;

pub use alone::evaluated;
pub use changes::assigned;
pub use ends::is_true;
pub use named::{found, port};
pub use plain::{asserted, declared, failed, returned, stalled};
