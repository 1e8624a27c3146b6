//! What rows of controllers and programs that time them are made of: machines, routes and messages by rows of plain data, stores of
//! controllers with their scans and what is done around these, and the plans that the scans are by. And there is a driver that issues the
//! requests of a list, each at its seat in its cycle. Of a controller's parts there are rows of what no whole run shows.
#![tactic(auto)]

mod machines;
mod messages;
mod parts;
mod paths;
mod plans;
mod requests;
mod scans;
mod script;
mod steps;
mod stores;

pub use machines::{BufferRow, MachineRow, TableRow, machine};
pub use messages::{message, number_of, one_field};
pub use parts::add_controllers;
pub use paths::{Network, routes};
pub use plans::plan_of;
pub use requests::requests_of;
pub use scans::{ScanEnd, scan};
pub use script::Script;
pub use steps::{apply, begin, wake_again};
pub use stores::{is_delivered, is_issued, is_taken, opened};
