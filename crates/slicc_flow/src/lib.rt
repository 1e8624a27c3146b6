//! What the bodies of a machine are made of, the rules of calls between the functions of a machine, of the sizes of bodies and of what only reads, and what transitions
//! need of tables and send on buffers.
#![tactic(auto)]

mod calls;
mod changes;
mod expression;
mod judge;
mod laws;
mod machine;
mod names;
mod needs;
mod plan_flow;
mod protocol;
mod reach;
mod sends;
mod sizes;
mod statement;
mod written;

pub use judge::flow_broken;
pub use laws::reaching_is_decided;
pub use machine::MachineBodies;
pub use needs::Needs;
pub use plan_flow::Flow;
pub use protocol::{flow, flow_of_trees};
pub use sends::MachineSends;
