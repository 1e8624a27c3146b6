// What reads of files are answered, whole and torn, what writes are, and what command lines ask for.
use crate::options::add_line;
use crate::outputs::add_output;
use crate::outside_files::{add_file, add_torn, text_of};
use example_texts::RowText;
use ruby_outside::Library;
use std::io::ErrorKind;

// The most bytes that a protocol's file may have.
const LIMIT: u64 = 1_048_576;

// Names of real files, and the most bytes that each may have. The first has a byte more than a protocol may have.
const FILES: &[(&str, u64)] = &[
    ("outside/long", LIMIT + 1),
    ("outside/long", LIMIT),
    ("outside/machine", LIMIT),
    ("outside/empty", LIMIT),
    ("outside/empty/x", LIMIT),
    ("/", LIMIT),
    ("no/such/file", LIMIT),
];

// The fault of reading an opened file of seven bytes at its end, and the most bytes that it may have.
const FAULTS: &[(ErrorKind, u64)] = &[
    (ErrorKind::Other, 9),
    (ErrorKind::NotFound, 9),
    (ErrorKind::OutOfMemory, 9),
    (ErrorKind::Other, 6),
];

// The most bytes that a write takes, where it doesn't fail.
const OUTPUTS: &[Option<usize>] = &[None, Some(0), Some(1), Some(9)];

/// Adds what reads and writes are answered.
pub fn add_outside<L: Library>(rows: &mut RowText, library: &mut L) {
    for (name, limit) in FILES {
        add_file(rows, library, name, *limit);
    }
    for (fault, limit) in FAULTS {
        add_torn(rows, *fault, *limit);
    }
    for most in OUTPUTS {
        add_output(rows, *most);
    }
}

fn add_lines(rows: &mut RowText, lines: &str) {
    for line in lines.lines() {
        if !line.starts_with('#') {
            add_line(rows, line);
        }
    }
}

/// Adds what each command line of the file `outside/lines` asks for. A line that begins with `#` is none.
pub fn add_options<L: Library>(rows: &mut RowText, library: &mut L) {
    let lines = text_of(rows, library, "outside/lines");
    add_lines(rows, str::from_utf8(&lines).unwrap_or(""));
    drop(lines);
}
