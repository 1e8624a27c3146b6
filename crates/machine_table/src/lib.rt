//! What a machine does on an event in a state, as a table made of its written transitions, with their names as numbers; and the
//! buffers and ports that machines declare.
#![tactic(auto)]

mod by_name;
mod making;
mod numbers;
mod parts;
mod ports;
mod table;
mod written;

pub use by_name::Numbers;
pub use making::{all_written, build, build_of_trees, tables_of};
pub use numbers::{PartNumbers, part_numbers};
pub use parts::{event_count, events, machines, state_count, states};
pub use ports::{
    BufferIn, Place, PortOn, all_ports, buffer_in, is_destination, is_mandatory, port_in,
};
pub use ruby_base::{NoMemory, Seq};
pub use table::{TableFault, Tables};
