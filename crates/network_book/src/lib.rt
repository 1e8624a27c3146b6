//! A world that many workers share, under a lock whose holders take turns. Each worker has a pass, which knows the run as far as the worker
//! has seen it: by that alone the worker goes on with a controller that it holds, scans it outside the lock, and posts what came of it,
//! whatever others have done meanwhile.
#![tactic(auto)]

mod book;
mod laws;
mod net;
mod plan;
mod taken;

pub use book::Book;
pub use laws::{events_have_numbers, passes_hand_over};
pub use net::Net;
pub use plan::RunPlan;
pub use taken::Taken;
