//! The text of a run, of a machine's table and of action code, line by line, to a sink. A line is put together on the stack, and one of
//! at most 1,024 bytes is one piece, so that the standard output is written to once for it. Nothing here takes memory.
#![tactic(auto)]

mod code;
mod ends;
mod entries;
mod laws;
mod line;
mod rows;

pub use code::write_code;
pub use ends::{RunText, write_rest, write_verdict};
pub use entries::{fault_word, write_entry};
pub use laws::machine_is_found_by_name;
pub use line::{Word, write_line};
pub use rows::{controller_machine, state_word, write_rows};
pub use ruby_base::{Seq, Text};
