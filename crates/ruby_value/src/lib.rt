//! The plain data that a controller works on: values and their kinds, the fields of a message or of a table's
//! line, sets of controllers, messages and their numbers, the requests of processors, lines, a map from lines, lists that ascend, what a machine is to its controllers, and the
//! words for what a run finds and what goes wrong.
#![tactic(auto)]

mod arithmetic;
mod ascending;
mod asked;
mod far_members;
mod fault;
mod fields;
mod kind;
mod line_map;
mod lines;
mod message;
mod net_dest;
mod setup;
mod value;

pub use arithmetic::{add, mul, sub};
pub use ascending::{Ascends, has_mark, inserted, marks_from, with_mark};
pub use asked::{Answer, Ask, Asked, BackFault};
pub use fault::{Fault, Finding};
pub use fields::Fields;
pub use kind::{Kind, are_same_kinds, have_kinds};
pub use line_map::LineMap;
pub use lines::line_of;
pub use message::{Delivery, Message, MsgNo, Sent};
pub use net_dest::NetDest;
pub use ruby_base::{NoMemory, Seq, Text};
pub use setup::{BufferPlace, BufferSetup, MachineSetup, Sizes, TableSetup, TableSize};
pub use value::{Block, Ref, Value, default_of};
