//! Rows of texts and what is read in them: their tokens, declarations, expressions and blocks, or the first fault; of whole files where
//! the nodes of their trees are; and of protocols what no printed text shows of their names, their tables and what transitions need. Rows
//! of what comes in and goes out too: what is answered to reads of real files and of a reader that fails, and to writes to an output that
//! fails or takes a part; and what each of a table of command lines, as a program gets them, asks for.
//!
//! The texts are the lines of the file `readings`: a form, the token or the byte to read from, how many nestings are open before it (of a
//! declaration, how many more are allowed), and the text, in which a backslash and two hexadecimal digits are a byte. A line that begins
//! with `#` is a comment. Below each is printed what is read, or the fault. What is expected of reads, writes and command lines was worked
//! out by hand.
#![tactic(auto)]

mod blocks;
mod declarations;
mod expressions;
mod files;
mod forms;
mod lines;
mod options;
mod outputs;
mod outside;
mod outside_files;
mod readings;
mod tables;
mod texts;
mod tokens;

pub use outside::{add_options, add_outside};
pub use readings::add_readings;
