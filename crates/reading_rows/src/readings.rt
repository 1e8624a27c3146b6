// What is read in each text of the file `readings`.
use crate::lines::add_line;
use example_texts::RowText;
use ruby_outside::{Got, Library};

const LIMIT: u64 = 1_048_576;

fn add_lines(rows: &mut RowText, lines: &str) {
    for line in lines.lines() {
        if !line.starts_with('#') {
            add_line(rows, line);
        }
    }
}

/// Adds what is read in each text.
pub fn add_readings<L: Library>(rows: &mut RowText, library: &mut L) {
    match library.read("readings", LIMIT) {
        Got::Bytes(lines) => {
            add_lines(rows, str::from_utf8(&lines).unwrap_or(""));
            drop(lines);
        }
        _ => rows.lose(),
    }
}
