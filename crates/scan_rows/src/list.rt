// The lists of scans, which are files with a few lines for each: its name, and below it a line `WORD TEXT` for what it has of its own.
use crate::before::Before;
use crate::scans::{Scan, add_scan};
use example_texts::RowText;
use ruby_outside::{Got, Library};

/// A list of scans: its file, that of what their protocols have in common, the address of their requests, their cycle, and the buffer
/// that takes the messages of network 0.
pub(crate) struct List {
    file: &'static str,
    frame: &'static str,
    address: u64,
    cycle: u64,
    receiving: Option<u16>,
}

const NODE: List = List {
    file: "",
    frame: "scans/node.frame",
    address: 64,
    cycle: 10,
    receiving: Some(2),
};

/// The lists.
pub(crate) const LISTS: &[List] = &[
    List {
        file: "scans/ticker",
        frame: "scans/ticker.frame",
        address: 0,
        cycle: 1,
        receiving: None,
    },
    List {
        file: "scans/statements",
        ..NODE
    },
    List {
        file: "scans/expressions",
        ..NODE
    },
    List {
        file: "scans/calls",
        ..NODE
    },
];

// The most bytes that a file may have.
const LIMIT: u64 = 1_048_576;

/// What a row has of its own for a word.
pub(crate) fn part<'a>(row: &'a str, word: &str) -> Option<&'a str> {
    for line in row.lines() {
        let (first, text) = line.split_once(' ').unwrap_or((line, ""));
        if first == word {
            return Some(text);
        }
    }
    None
}

/// The number that a row has for a word.
pub(crate) fn number(row: &str, word: &str) -> Option<u64> {
    part(row, word)?.parse::<u64>().ok()
}

// What is done to the controller before the scan of a row.
fn before(row: &str) -> Before {
    match part(row, "before") {
        Some("popped") => Before::Popped,
        Some("B") => Before::InB,
        _ => Before::Nothing,
    }
}

fn add_row(rows: &mut RowText, list: &List, frame: &str, row: &str) {
    let (name, row) = row.split_once('\n').unwrap_or((row, ""));
    let scan = Scan {
        name,
        address: list.address,
        cycle: list.cycle,
        before: before(row),
        fired: number(row, "fired").unwrap_or(0),
        receiving: list.receiving,
    };
    add_scan(rows, &scan, frame, row);
}

// What comes before the first row is no row.
fn add_rows(rows: &mut RowText, list: &List, frame: &str, text: &str) {
    for row in text.split("\n== ").skip(1) {
        add_row(rows, list, frame, row);
    }
}

/// Adds the rows of a list.
pub(crate) fn add_list<L: Library>(rows: &mut RowText, library: &mut L, list: &List) {
    let frame = library.read(list.frame, LIMIT);
    let text = library.read(list.file, LIMIT);
    if let (Got::Bytes(frame), Got::Bytes(text)) = (&frame, &text) {
        let frame = str::from_utf8(frame).unwrap_or("");
        add_rows(rows, list, frame, str::from_utf8(text).unwrap_or(""));
    } else {
        rows.lose();
    }
}
