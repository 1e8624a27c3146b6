ghost use Rattle.std.specs.Prelude.{ℕ, List, Option};
ghost use Rattle.ruby_outside.specs.Files.{IsLawfulRead};
ghost use Rattle.ruby_outside.specs.declared.library.Got.{Got};

use ruby_base::Text;

/// What a library answers to a read.
#[derive(Drop)]
pub enum Got {
    /// All the bytes of the file.
    Bytes(Text),
    /// There is no file of that name.
    Absent,
    /// The file has more bytes than the reader takes.
    TooLarge,
    /// The library met a fault of its own, and its count of faults rose.
    Failed,
    /// There was no memory for the bytes.
    NoMemory,
}

/// Files that are read by name. This interface is the project's own.
pub trait Library {
    /// The files, as names with their bytes, where the library tells them. Of two files with one name the first
    /// counts.
    ghost files: { Self → Option (List (List ℕ × List ℕ)) };

    /// A count of faults. It never falls, and it rose in each read that answers `Failed`. A count that stands at
    /// 2^64 - 1 after a call rose in it too. By how much it rises is not said, nor that it rises at a fault alone.
    ghost faults: { Self → ℕ };

    /// What one read is, as far as the library says: the library before it, the name, the limit, the answer, and the
    /// library after it. So a caller can promise that it made one read and no other, and by which answer it went.
    ghost reads: { Self → List ℕ → ℕ → Got → Self → Type 0 };

    /// Reads the file of a name whole, if it has no more than `limit` bytes. A fault or a lack of memory may come in
    /// place of any other answer. What each read keeps is the law `lawful`.
    fn read(&mut self, name: &str, limit: u64) -> Got
        ensures { reads self.old name.now limit result self.new };

    /// What each read keeps: the files that the library tells, and their bytes in its answer; and that its count of faults
    /// never falls, and rose where it failed.
    ghost lawful: { (before : Self) (name : List ℕ) (limit : ℕ) (got : Got) (after : Self) → reads before name limit got after → IsLawfulRead (files before) (faults before) name limit got (files after) (faults after) };
}
