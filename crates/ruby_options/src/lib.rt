//! What the words of a command line ask for. `words` are those after the program's name, and `read` takes them to the options, or to the
//! reason why there are none, over the kit's `clap`.
#![tactic(auto)]

mod arguments;
mod command_line;
mod names;
mod numbers;
mod options;
mod reading;
mod tables;

pub use arguments::words;
pub use options::{Command, OptionFault, Options, Order};
pub use reading::read;
pub use ruby_base::{NoMemory, Text};
pub use tables::{
    Bounds, CHECKS, COMMAND, COMMANDS, CYCLES, CommandRow, DEADLOCK, GENERATED, LIMIT, LINES,
    NAMES, NUMBERS, NumberOption, ORDER, PROGRAM, REQUESTS, SEED, TRACE, WORKERS,
};
