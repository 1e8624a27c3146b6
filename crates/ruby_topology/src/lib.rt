//! Topologies: the file that says how many controllers each machine has, which network joins them, and how large their
//! tables are.
#![tactic(auto)]

mod forms;
mod laws;
mod lines;
mod members;
mod named;
mod paths;
mod routes;
mod said;
mod text;
mod topology;

pub use ctl_face::Routes;
pub use forms::TopoFault;
pub use laws::answers_are_one;
pub use ruby_base::{NoMemory, Seq, Text};
pub use ruby_value::Sizes;
pub use topology::{Seat, Topology, plain, read_topology};
