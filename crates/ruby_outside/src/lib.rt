//! What the program meets outside: libraries that it reads named files from, sinks that it writes bytes to, and
//! gates that a worker passes. Each is a trait with a meaning, and has bodies over memory and over the system.
#![tactic(auto)]

mod gate;
mod library;
mod memory_library;
mod memory_sink;
mod plan;
mod sink;
mod system;

pub use gate::{Gate, Moment, OpenGate};
pub use library::{Got, Library};
pub use memory_library::{MemLibrary, SureLibrary};
pub use memory_sink::{MemSink, SureSink};
pub use ruby_base::{NoMemory, Seq, Text};
pub use sink::{Sink, Wrote, put};
pub use system::{FileLibrary, StdSink, read_opened};
