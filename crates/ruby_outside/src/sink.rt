ghost use Rattle.std.specs.Prelude.{ℕ, List, Option};
ghost use Rattle.ruby_outside.specs.Put.{IsPut};
ghost use Rattle.ruby_outside.specs.Sink.{IsLawfulWrite, IsWritten};
ghost use Rattle.ruby_outside.specs.declared.sink.Wrote.{Wrote};

/// What a sink answers to a write.
#[derive(Clone, Copy)]
pub enum Wrote {
    /// It took this many bytes from the start of the piece.
    Took(u64),
    /// It met a fault and took nothing, and its count of faults rose.
    Failed,
}

/// Where bytes are written, one piece after the other. This interface is the project's own.
pub trait Sink {
    /// All the bytes that were written, where the sink tells them.
    ghost written: { Self → Option (List ℕ) };

    /// A count of faults. It never falls, and it rose in each write that answers `Failed` or takes none of a piece that
    /// isn't empty. A count that stands at 2^64 - 1 after a call rose in it too. By how much it rises is not said, nor
    /// that it rises at a fault alone.
    ghost faults: { Self → ℕ };

    /// What one write is, as far as the sink says: the sink before it, the piece, the answer, and the sink after it. So a
    /// caller can promise which writes it made, and that it made no other.
    ghost writes: { Self → List ℕ → Wrote → Self → Type 0 };

    /// Takes bytes from the start of the piece. To take none of a piece that isn't empty counts as a fault too. What each
    /// write keeps is the law `lawful`.
    fn write(&mut self, piece: &[u8]) -> Wrote
        ensures { writes self.old piece.now result self.new };

    /// What each write keeps: what it takes comes to the end of what the sink tells; and its count of faults never falls, and
    /// rose where the write failed or took nothing.
    ghost lawful: { (before : Self) (piece : List ℕ) (wrote : Wrote) (after : Self) → writes before piece wrote after → IsLawfulWrite (written before) (faults before) piece wrote (written after) (faults after) };
}

/// Writes the whole piece, by as many writes as that takes, and answers whether it did. It answers `false`, and
/// writes nothing further, as soon as a write fails or takes nothing. It takes no memory of its own.
pub fn put<S: Sink>(sink: &mut S, piece: &[u8]) -> bool
    ensures by_writes { IsPut S.writes sink.old piece.now result sink.new }
    ensures written { IsWritten (S.written sink.old) (S.faults sink.old) piece.now result (S.written sink.new) (S.faults sink.new) }
{
    let mut done = 0;
    while done < piece.len() {
        match sink.write(&piece[done..]) {
            Wrote::Took(0) | Wrote::Failed => return false,
            Wrote::Took(count) => done += count as usize,
        }
    }
    true
}
