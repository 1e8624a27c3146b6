ghost use Rattle.std.specs.Prelude.{◌≡◌, ◌≢◌, ◌≤◌, None, IfSome, IfOk, IfErr, OnOk, length};
ghost use Rattle.std.specs.IoError.{error_kind};
ghost use Rattle.ruby_outside.specs.Files.{IsCountedRead, IsOpenedRead, IsReadOf, IsWithin, got_of};
ghost use Rattle.ruby_outside.specs.Lawful.{counted_read, counted_write};
ghost use Rattle.ruby_outside.specs.Sink.{IsCountedWrite, wrote_of};

use crate::{Got, Library, Sink, Wrote};
use ruby_base::Seq;
use std::alloc::Global;
use std::io::{ErrorKind, Read};
use std::marker::Model;
use std::rt::Files;
use std::{fs, io};

/// The files of the system, by their paths. It tells none of them. A contract sees it as its count of faults, which
/// stands still at 2^64 - 1.
#[derive(Drop)]
pub struct FileLibrary<'a, R> {
    alloc: Global,
    runtime: &'a R,
    faults: u64,
}

impl<'a, R> Model for FileLibrary<'a, R> {
    ghost use Rattle.std.specs.Prelude.{ℕ};

    ghost Value = { ℕ };

    ghost view = { λ l. l.faults };
}

impl<'a, R> FileLibrary<'a, R> {
    /// The files that the runtime reaches. The allocator is for the bytes that it hands out.
    pub fn new(alloc: Global, runtime: &'a R) -> FileLibrary<'a, R>
        ensures { result ≡ 0 }
    {
        FileLibrary {
            alloc,
            runtime,
            faults: 0,
        }
    }
}

impl<'a, R: Files> Library for FileLibrary<'a, R> {
    ghost files = { λ _. None };

    ghost faults = { λ count. count };

    ghost reads = { λ before _ limit got after. IsCountedRead R.File.remaining before limit got after };

    fn read(&mut self, name: &str, limit: u64) -> Got
        ensures { IsCountedRead R.File.remaining self.old limit result self.new }
    {
        let got = read_opened(self.alloc, fs::open(self.runtime, name), limit);
        if let Got::Failed = got {
            self.faults = self.faults.saturating_add(1);
        }
        got
    }

    ghost lawful = { λ before name limit got after read. counted_read R.File.remaining before name limit got after read };
}

/// The answer to a read of a file, by how its opening went. A name that isn't found is absent, and any other fault of
/// opening is `Failed`. No opened file is absent.
pub fn read_opened<F: Read + Drop>(alloc: Global, opened: io::Result<F>, limit: u64) -> Got
    ensures within { IsWithin limit result }
    ensures opened { IsOpenedRead F.remaining opened limit result }
{
    match opened {
        Ok(file) => read_whole(alloc, file, limit),
        Err(fault) if fault.kind() == ErrorKind::NotFound => Got::Absent,
        Err(_) => Got::Failed,
    }
}

/// Reads what a reader has left, one byte past the limit at most.
fn read_whole<F: Read + Drop>(alloc: Global, file: F, limit: u64) -> Got
    ensures there { result ≢ Got.Absent }
    ensures within { IsWithin limit result }
    ensures told { IfSome (F.remaining file) (λ bytes. IsReadOf bytes limit result) }
{
    let mut bytes = Vec::new(alloc);
    let ended = file.take(limit.saturating_add(1)).read_to_end(&mut bytes);
    got_of(ended, bytes, limit)
}

/// The answer to a read, by how it ended and the bytes that came. Want of memory is told by the kind of the fault.
fn got_of(ended: io::Result<usize>, bytes: Vec<u8>, limit: u64) -> Got
    ensures whole { OnOk ended (result ≡ got_of limit bytes.items) }
    ensures memory { IfErr ended (λ fault. error_kind fault ≡ ErrorKind.OutOfMemory → result ≡ Got.NoMemory) }
    ensures failed { IfErr ended (λ fault. error_kind fault ≢ ErrorKind.OutOfMemory → result ≡ Got.Failed) }
{
    match ended {
        Ok(_) if bytes.len() as u64 > limit => Got::TooLarge,
        Ok(_) => Got::Bytes(Seq::of(bytes)),
        Err(fault) if fault.kind() == ErrorKind::OutOfMemory => Got::NoMemory,
        Err(_) => Got::Failed,
    }
}

/// The standard output. It tells nothing of what was written. A contract sees it as its count of faults, which stands
/// still at 2^64 - 1.
#[derive(Drop)]
pub struct StdSink<'a, R> {
    runtime: &'a R,
    faults: u64,
}

impl<'a, R> Model for StdSink<'a, R> {
    ghost use Rattle.std.specs.Prelude.{ℕ};

    ghost Value = { ℕ };

    ghost view = { λ s. s.faults };
}

impl<'a, R> StdSink<'a, R> {
    /// The standard output of the runtime.
    pub fn new(runtime: &'a R) -> StdSink<'a, R>
        ensures { result ≡ 0 }
    {
        StdSink { runtime, faults: 0 }
    }

    /// What one write of a piece was, by what the system answered to it. A fault is counted, and so is a write that
    /// took none of a piece that isn't empty.
    fn count(&mut self, answer: io::Result<usize>, piece: &[u8]) -> Wrote
        requires { IfOk answer (λ count. count ≤ length piece.now) }
        ensures answer { result ≡ wrote_of answer }
        ensures write { IsCountedWrite self.old piece.now result self.new }
    {
        let (wrote, is_fault) = match answer {
            Ok(count) => (Wrote::Took(count as u64), count == 0 && !piece.is_empty()),
            Err(_) => (Wrote::Failed, true),
        };
        if is_fault {
            self.faults = self.faults.saturating_add(1);
        }
        wrote
    }
}

impl<'a, R: Print> Sink for StdSink<'a, R> {
    ghost written = { λ _. None };

    ghost faults = { λ count. count };

    ghost writes = { IsCountedWrite };

    fn write(&mut self, piece: &[u8]) -> Wrote
        ensures { IsCountedWrite self.old piece.now result self.new }
    {
        let answer = self.runtime.write_some(piece);
        self.count(answer, piece)
    }

    ghost lawful = { counted_write };
}
