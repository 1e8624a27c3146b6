//! The table of transaction buffer entries (TBEs) of a controller: the lines with a transaction under way, and
//! their fields. It holds a bounded number of lines.
#![tactic(auto)]

mod table;

pub use ruby_base::{NoMemory, Seq, Text};
pub use ruby_value::Fields;
pub use table::{TbeFault, TbeTable};
