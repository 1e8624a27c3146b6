// Runs under a script of requests: the rows of a list, and of each a line `== NAME` and below it the whole journal of the run, or how
// it ended alone.

ghost use Rattle.std.specs.Prelude.{◌≤◌};
ghost use Rattle.ctl_face.specs.Prelude.{last_cycle};

mod held;
mod row;
mod run;
mod steps;
mod workers;

use row::{Row, row_of};
use ruby_outside::{Got, Library, Sink, put};
use run::write_run;
use std::alloc::Global;

// The most bytes that a list may have.
const LIST_LIMIT: u64 = 1_048_576;

// Writes a row, and answers whether it was written whole. A run whose files can't be read, or are refused, has no lines.
fn write_row<L: Library, S: Sink>(
    alloc: Global,
    library: &mut L,
    sink: &mut S,
    row: &Row<'_>,
) -> bool
    requires { row.now.limits.cycles ≤ last_cycle }
{
    put(sink, b"== ")
        && put(sink, row.name.as_bytes())
        && put(sink, b"\n")
        && write_run(alloc, library, sink, row)
}

// Writes the rows of those lines that say one, until one isn't written whole.
fn write_lines<L: Library, S: Sink>(
    alloc: Global,
    lines: &str,
    library: &mut L,
    sink: &mut S,
) -> bool {
    for line in lines.lines() {
        if let Some(row) = row_of(line)
            && !write_row(alloc, library, sink, &row)
        {
            return false;
        }
    }
    true
}

/// Writes the rows of the list in the file of this name until one isn't written whole, and answers whether all were.
pub(crate) fn write_list<L: Library, S: Sink>(
    alloc: Global,
    file: &str,
    library: &mut L,
    sink: &mut S,
) -> bool {
    match library.read(file, LIST_LIMIT) {
        Got::Bytes(lines) => {
            let lines = str::from_utf8(&lines).unwrap_or("");
            write_lines(alloc, lines, library, sink)
        }
        _ => false,
    }
}
