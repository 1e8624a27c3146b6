// Writes to an output that fails, or takes some bytes of a piece at most.
use example_texts::RowText;
use ruby_outside::{Sink, StdSink, Wrote, put};
use std::cell::Cell;
use std::fmt::Display;
use std::io::{self, ErrorKind};

// An output that fails, or takes so many bytes of a piece at most.
#[derive(Drop)]
struct Output {
    most: Option<usize>,
    // The bytes that were taken, as the digits of a number.
    taken: Cell<u64>,
}

// The number with these bytes as further digits.
fn with_bytes(number: u64, bytes: &[u8]) -> u64 {
    let mut number = number;
    for byte in bytes {
        number = number.wrapping_mul(256) | u64::from(*byte);
    }
    number
}

impl Print for Output {
    fn print<D: Display + Drop>(&self, _value: D) -> io::Result<()> {
        Err(io::Error::from(ErrorKind::Unsupported))
    }

    fn println<D: Display + Drop>(&self, _value: D) -> io::Result<()> {
        Err(io::Error::from(ErrorKind::Unsupported))
    }

    fn write_all(&self, _bytes: &[u8]) -> io::Result<()> {
        Err(io::Error::from(ErrorKind::Unsupported))
    }

    fn write_some(&self, bytes: &[u8]) -> io::Result<usize> {
        let Some(most) = self.most else {
            return Err(io::Error::from(ErrorKind::StorageFull));
        };
        let count = most.min(bytes.len());
        self.taken
            .set(with_bytes(self.taken.get(), &bytes[..count]));
        Ok(count)
    }
}

/// Adds what a write of `hello` is answered, whether `you` is written whole after it, and what was taken then.
pub(crate) fn add_output(rows: &mut RowText, most: Option<usize>) {
    let output = Output {
        most,
        taken: Cell::new(0),
    };
    let mut sink = StdSink::new(&output);
    match most {
        Some(most) => rows.show("most ", &most),
        None => rows.add("fails"),
    }
    rows.add(": ");
    match sink.write(b"hello") {
        Wrote::Took(count) => rows.show("took ", &count),
        Wrote::Failed => rows.add("failed"),
    }
    rows.show(", whole ", &put(&mut sink, b"you"));
    rows.show(", taken ", &output.taken.get());
    rows.add("\n");
}
