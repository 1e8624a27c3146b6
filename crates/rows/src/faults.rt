// Calls over libraries and sinks in memory: those that fail where a line says so, and calls with long texts. They are the rows of a list, and
// of each are printed a line `== LINE`, what the sink then holds, the status, and whether a record is kept.
ghost use Rattle.std.specs.Prelude.{◌<◌, IfSome, length};

use crate::row::{add, row_of};
use crate::table::end_of;
use example_texts::{RowText, add_files, number};
use ruby_base::{NoMemory, Seq, Text};
use ruby_cli::ruby;
use ruby_outside::{Library, MemLibrary, MemSink, OpenGate};
use std::alloc::Global;
use std::sync::Wait;
use std::thread::Threads;

// The most bytes of a call's text, and of one of which only the last lines are printed.
const ROOM: u64 = 4_096;

const LONG_ROOM: u64 = 16_777_216;

/// Which read of a library and which write of a sink fails, counted from 1, or 0 for none; how many bytes a write takes and how many the
/// sink, at most; how many of the last lines that it then holds are printed, at most; and which word of the line names the files of the
/// library, after which come the words of the call.
#[derive(Clone, Copy)]
pub(crate) struct Planned {
    read: u64,
    write: u64,
    most: u64,
    room: u64,
    lines: u64,
    pub(crate) named: usize,
}

/// What the words of a line plan, if they plan something.
pub(crate) fn said(words: &[String]) -> Option<Planned>
    ensures { IfSome result (λ planned. planned.named < length words.now) }
{
    let kind = words.first()?.as_str();
    if kind == "fails" && words.len() > 4 {
        return Some(Planned {
            read: number(words[1].as_str()),
            write: number(words[2].as_str()),
            most: number(words[3].as_str()),
            room: ROOM,
            lines: ROOM,
            named: 4,
        });
    }
    if kind == "ends" && words.len() > 2 {
        return Some(Planned {
            read: 0,
            write: 0,
            most: ROOM,
            room: LONG_ROOM,
            lines: number(words[1].as_str()),
            named: 2,
        });
    }
    None
}

// The last lines of a text, at most so many.
fn last_lines(text: &[u8], count: u64) -> &[u8] {
    let mut left = count;
    for end in (1..text.len()).rev() {
        if text[end - 1] == b'\n' {
            left = left.saturating_sub(1);
            if left == 0 {
                return &text[end..];
            }
        }
    }
    text
}

// Adds the row of a call that was made.
fn add_made(rows: &mut RowText, line: &str, text: &[u8], made: (u8, bool)) {
    let (status, kept) = made;
    add(rows, row_of(rows.alloc(), line, text, status));
    rows.add(if kept {
        "a record is kept\n"
    } else {
        "no record is kept\n"
    });
}

// Which reads fail, and an empty sink, as planned.
fn faults_of(alloc: Global, planned: &Planned) -> Result<(Seq<u64>, MemSink), NoMemory> {
    let reads = Seq::copied(alloc, &[planned.read])?;
    let writes = Seq::copied(alloc, &[planned.write])?;
    let sink = MemSink::new(alloc, writes, planned.most, planned.room)?;
    Ok((reads, sink))
}

// Adds the row of a call over a library with these files and a sink, with planned faults.
fn add_planned<R: Threads + Wait + Sync>(
    rt: &R,
    rows: &mut RowText,
    line: &str,
    planned: &Planned,
    files: Seq<(Text, Text)>,
    call: &[String],
) {
    match faults_of(rows.alloc(), planned) {
        Ok((reads, mut sink)) => {
            let mut library = MemLibrary::new(rows.alloc(), files, reads);
            let done = ruby(rt, rows.alloc(), call, &mut library, &mut sink, &OpenGate);
            let made = end_of(done);
            drop(library);
            add_made(rows, line, last_lines(sink.bytes(), planned.lines), made);
            drop(sink);
        }
        Err(NoMemory) => {
            drop(files);
            rows.lose();
        }
    }
}

/// Adds the row of a line with these words, which plan this.
pub(crate) fn add_row<R: Threads + Wait + Sync, L: Library>(
    rt: &R,
    rows: &mut RowText,
    line: &str,
    planned: &Planned,
    words: &[String],
    library: &mut L,
)
    requires { planned.now.named < length words.now }
{
    let mut files = Seq::new(rows.alloc());
    let list = words[planned.named].as_str();
    if add_files(rows.alloc(), library, list, &mut files).is_err() {
        drop(files);
        return rows.lose();
    }
    add_planned(rt, rows, line, planned, files, &words[planned.named + 1..]);
}
