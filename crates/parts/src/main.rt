//! Prints the rows of parts of the program that no whole call shows: those of `part_rows`; what is read in texts, by `reading_rows`; the
//! parts of controllers, by `controller_rows`; what comes in and goes out and what command lines ask for, by `reading_rows` again; the
//! scans of small protocols, by `scan_rows`; and whole journals of worlds, whose requests are those of a script. Before each part is a line
//! `# NAME`. What has to be printed is in `stdout`, and the rows that are data are files of the folder that the program is run in, which is
//! `data`.
//!
//! With a word, it makes the runs of the list in the file of that name alone, which is for `bench/world`.
#![tactic(auto)]

mod worlds;

use controller_rows::add_controllers;
use example_texts::RowText;
use part_rows::add_parts;
use reading_rows::{add_options, add_outside, add_readings};
use ruby_options::words;
use ruby_outside::{FileLibrary, Library, Sink, StdSink, put};
use scan_rows::add_scans;
use std::alloc::Global;
use std::process::ExitCode;
use worlds::write_list;

fn add_rows<L: Library>(rows: &mut RowText, library: &mut L) {
    add_parts(rows, library);
    rows.add("# readings\n");
    add_readings(rows, library);
    rows.add("# controllers\n");
    add_controllers(rows);
    rows.add("# outside\n");
    add_outside(rows, library);
    rows.add("# options\n");
    add_options(rows, library);
    rows.add("# scans\n");
    add_scans(rows, library);
    rows.add("# worlds\n");
}

// Writes all rows but those of worlds, and answers whether all were.
fn write_rows<L: Library, S: Sink>(alloc: Global, library: &mut L, sink: &mut S) -> bool {
    let mut rows = RowText::new(alloc);
    add_rows(&mut rows, library);
    put(sink, rows.bytes()) && rows.is_whole()
}

// Writes the runs of the list that the words name, or without words all rows, and answers whether all were.
fn write<L: Library, S: Sink>(
    alloc: Global,
    words: &[String],
    library: &mut L,
    sink: &mut S,
) -> bool {
    match words.first() {
        Some(file) => write_list(alloc, file.as_str(), library, sink),
        None => {
            write_rows(alloc, library, sink) && write_list(alloc, "worlds/rows", library, sink)
        }
    }
}

fn main(rt: HostRuntime) -> ExitCode {
    let Ok(words) = words(&rt, rt.alloc()) else {
        return ExitCode::FAILURE;
    };
    let mut library = FileLibrary::new(rt.alloc(), &rt);
    let mut sink = StdSink::new(&rt);
    if write(rt.alloc(), words.as_slice(), &mut library, &mut sink) {
        ExitCode::SUCCESS
    } else {
        ExitCode::FAILURE
    }
}
