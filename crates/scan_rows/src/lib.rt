//! Rows of scans of small protocols on drafts of a controller, for the program `parts`.
//!
//! There is a line for each scan: how it ended, that is the transition that fired with its lists of messages (`consumed 2:0`: sender
//! and number), that it was idle or full, or where it stopped and why; and then, each after a semicolon, what is left: the marks, how many
//! messages are queued, stalled and recycled, the states of lines that aren't the default, the lines of tables with the fields that differ
//! from a new line's, the copies for another controller and the finished requests. What has fired is sealed and applied, and else the
//! draft is dropped. There is a scan for each statement, operator and built-in call, and for the faults. What is expected stands in
//! `crates/parts/stdout`, worked out by hand from the rules of the language; a further row is a few lines in a file of the folder `scans` in
//! `crates/parts/data`, and a line there. And there are the lines of whole journals, which that program prints of runs.
#![tactic(auto)]

mod after;
mod before;
mod begun;
mod entries;
mod left;
mod list;
mod protocol;
mod scans;
mod shown;

pub use entries::write_entries;
use example_texts::RowText;
use list::{LISTS, add_list};
use ruby_outside::Library;

/// Adds the rows, over a library with the folder `scans`.
pub fn add_scans<L: Library>(rows: &mut RowText, library: &mut L) {
    for list in LISTS {
        add_list(rows, library, list);
    }
}
