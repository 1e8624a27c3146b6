ghost use Rattle.std.specs.Prelude.{◌≡◌, ◌≢◌, ℕ, List, Option, Some};
ghost use Rattle.std.specs.Option.{option_copied};
ghost use Rattle.ruby_outside.specs.Plan.{begun, is_planned, after_call};
ghost use Rattle.ruby_outside.specs.Lawful.{planned_read, sure_read};
ghost use Rattle.ruby_outside.specs.Files.{IsPlannedRead, IsReadable, IsSureRead, Reads, bytes_of};

use crate::plan::Plan;
use crate::{Got, Library};
use ruby_base::{Seq, Text};
use std::alloc::Global;
use std::marker::Model;

/// A library in memory that fails at planned reads. It tells its files. A contract sees its files and its plan, with
/// two counts that stand still at 2^64 - 1.
#[derive(Drop)]
pub struct MemLibrary {
    alloc: Global,
    files: Seq<(Text, Text)>,
    plan: Plan,
}

impl Model for MemLibrary {
    ghost use Rattle.ruby_outside.specs.Files.{LibraryState};

    ghost Value = { LibraryState };

    ghost view = { λ l. record { files = l.files; plan = l.plan } };
}

impl MemLibrary {
    /// A library of these files, names with their bytes, of which the first with a name counts. The reads with the
    /// numbers in `fails`, counted from 1, fail. The allocator is for the bytes that it hands out.
    pub fn new(alloc: Global, files: Seq<(Text, Text)>, fails: Seq<u64>) -> MemLibrary
        ensures { result ≡ record { files = files; plan = begun fails } }
    {
        MemLibrary {
            alloc,
            files,
            plan: Plan::new(fails),
        }
    }
}

impl Library for MemLibrary {
    ghost files = { λ library. Some library.files };

    ghost faults = { λ library. library.plan.faults };

    ghost reads = { IsPlannedRead };

    fn read(&mut self, name: &str, limit: u64) -> Got
        ensures read { IsPlannedRead self.old name.now limit result self.new }
        ensures memory { result ≡ Got.NoMemory → IsReadable self.old.files name.now limit }
    {
        if self.plan.fails_next() {
            return Got::Failed;
        }
        copy_of(self.alloc, self.files.as_slice(), name, limit)
    }

    ghost lawful = { planned_read };
}

/// A library in memory that never fails, so its count of faults is always 0. It tells its files. A contract sees it
/// as its files, names with their bytes, of which the first with a name counts.
#[derive(Drop)]
pub struct SureLibrary {
    alloc: Global,
    files: Seq<(Text, Text)>,
}

impl Model for SureLibrary {
    ghost use Rattle.std.specs.Prelude.{ℕ, List};

    ghost Value = { List (List ℕ × List ℕ) };

    ghost view = { λ l. l.files };
}

impl SureLibrary {
    /// A library of these files, names with their bytes. The allocator is for the bytes that it hands out.
    pub fn new(alloc: Global, files: Seq<(Text, Text)>) -> SureLibrary
        ensures { result ≡ files }
    {
        SureLibrary { alloc, files }
    }
}

impl Library for SureLibrary {
    ghost files = { λ library. Some library };

    ghost faults = { λ _. 0 };

    ghost reads = { IsSureRead };

    fn read(&mut self, name: &str, limit: u64) -> Got
        ensures read { IsSureRead self.old name.now limit result self.new }
        ensures memory { result ≡ Got.NoMemory → IsReadable self.old name.now limit }
    {
        copy_of(self.alloc, self.files.as_slice(), name, limit)
    }

    ghost lawful = { sure_read };
}

/// The bytes of the first file with a name.
fn found<'a>(files: &'a [(Text, Text)], name: &[u8]) -> Option<&'a Text>
    ensures { option_copied result ≡ bytes_of files.now name.now }
{
    for file in files {
        if file.0.as_slice() == name {
            return Some(&file.1);
        }
    }
    None
}

/// The answer of a library that has these files and meets no fault.
fn copy_of(alloc: Global, files: &[(Text, Text)], name: &str, limit: u64) -> Got
    ensures never_failed { result ≢ Got.Failed }
    ensures answer { Reads files.now name.now limit result }
    ensures memory { result ≡ Got.NoMemory → IsReadable files.now name.now limit }
{
    match found(files, name.as_bytes()) {
        None => Got::Absent,
        Some(bytes) if bytes.len() as u64 > limit => Got::TooLarge,
        Some(bytes) => match Seq::copied(alloc, bytes.as_slice()) {
            Ok(copy) => Got::Bytes(copy),
            Err(_) => Got::NoMemory,
        },
    }
}
