// Reads of real files, and of a reader that fails where its bytes end.
use example_texts::RowText;
use ruby_base::Text;
use ruby_outside::{Got, Library, read_opened};
use std::io::{self, ErrorKind, Read};

// The most bytes that a file of rows may have.
const ROWS_LIMIT: u64 = 1_048_576;

/// The text of a file of rows.
pub(crate) fn text_of<L: Library>(rows: &mut RowText, library: &mut L, file: &str) -> Text {
    match library.read(file, ROWS_LIMIT) {
        Got::Bytes(text) => text,
        _ => {
            rows.lose();
            Text::new(rows.alloc())
        }
    }
}

// How many bytes are an `x`.
fn count_of_x(bytes: &[u8]) -> usize {
    let mut count: usize = 0;
    for byte in bytes {
        if *byte == b'x' {
            count = count.saturating_add(1);
        }
    }
    count
}

// Adds what was read, or how much of it is there and is an `x` where that is much.
fn add_bytes(rows: &mut RowText, bytes: &[u8]) {
    if bytes.len() < 16 {
        rows.add("'");
        rows.add_bytes(bytes);
        rows.add("'");
    } else {
        rows.show("", &bytes.len());
        rows.show(" bytes, of which an x are ", &count_of_x(bytes));
    }
}

fn add_got(rows: &mut RowText, got: &Got) {
    match got {
        Got::Bytes(bytes) => add_bytes(rows, bytes),
        Got::Absent => rows.add("absent"),
        Got::TooLarge => rows.add("too large"),
        Got::Failed => rows.add("failed"),
        Got::NoMemory => rows.add("no memory"),
    }
    rows.add("\n");
}

/// Adds what a read of a real file is answered.
pub(crate) fn add_file<L: Library>(rows: &mut RowText, library: &mut L, name: &str, limit: u64) {
    rows.add(name);
    rows.show(" at most ", &limit);
    rows.add(": ");
    let got = library.read(name, limit);
    add_got(rows, &got);
    drop(got);
}

// A reader of some bytes that fails where they end.
#[derive(Drop)]
struct Torn<'a> {
    bytes: &'a [u8],
    fault: ErrorKind,
}

impl<'a> Read for Torn<'a> {
    fn read(&mut self, buffer: &mut [u8]) -> io::Result<usize> {
        if self.bytes.is_empty() {
            return Err(io::Error::from(self.fault));
        }
        self.bytes.read(buffer)
    }
}

/// Adds what a read of an opened file of seven bytes is answered that fails at its end.
pub(crate) fn add_torn(rows: &mut RowText, fault: ErrorKind, limit: u64) {
    rows.debug("machine, then ", &fault);
    rows.show(", at most ", &limit);
    rows.add(": ");
    let file = Torn {
        bytes: b"machine",
        fault,
    };
    let got = read_opened(rows.alloc(), Ok(file), limit);
    add_got(rows, &got);
    drop(got);
}
