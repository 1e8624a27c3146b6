//! Rows of parts of the program that no whole call shows, which the program `parts` prints: of each part a line `# NAME`, and below it the
//! part's rows. What has to be printed is in `crates/parts/stdout`, and each module says where that is from. A further part is a module
//! with one function, which adds its rows; the two lines below that call it; its folder in `crates/parts/data` if it reads files; and its
//! text in `stdout`, which `bench/part` puts there.
#![tactic(auto)]

mod calls;
mod code;
mod lists;
mod pairs;
mod protocols;
mod symbols;
mod tester;
mod topologies;

use example_texts::RowText;
use ruby_outside::Library;

/// Adds the rows of all parts, over a library with their folders.
pub fn add_parts<L: Library>(rows: &mut RowText, library: &mut L) {
    rows.add("# symbols\n");
    symbols::add(rows, library);
    rows.add("# calls\n");
    calls::add(rows, library);
    rows.add("# code\n");
    code::add(rows, library);
    rows.add("# topologies\n");
    topologies::add(rows, library);
    rows.add("# tester\n");
    tester::add(rows);
    rows.add("# pairs\n");
    pairs::add(rows, library);
}
