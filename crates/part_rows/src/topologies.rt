// Reads the topologies of a list, each for one of a few small protocols, and tells what each says or which rule it breaks at
// which line. The topologies are the lines of the file `rows` in the folder `topologies`, where the protocols are. What is expected of
// the faults was worked out by hand, and of the rest a second implementation gave it, which is `bench/topology-rows`.
mod answer;
mod table;

use example_texts::RowText;
use ruby_outside::{Got, Library};
use table::add_rows;

// The file with the topologies, and the most bytes that it may have.
const ROWS: &str = "topologies/rows";

const ROWS_LIMIT: u64 = 1_048_576;

/// Adds what each topology says.
pub(crate) fn add<L: Library>(rows: &mut RowText, library: &mut L) {
    let Got::Bytes(list) = library.read(ROWS, ROWS_LIMIT) else {
        return rows.lose();
    };
    match str::from_utf8(list.as_slice()) {
        Ok(list) => add_rows(rows, library, list),
        Err(_) => rows.lose(),
    }
    drop(list);
}
