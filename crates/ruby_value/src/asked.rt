use crate::Block;

/// What a processor wants of a line: the requests of gem5's Ruby that this project's drivers issue.
#[derive(Clone, Copy)]
pub enum Ask {
    /// To read bytes: `LD`.
    Load,
    /// To write a byte: `ST`.
    Store,
    /// To read bytes as an instruction: `IFETCH`.
    Fetch,
}

/// A request of a processor, as a sequencer keeps it until it is finished.
#[derive(Clone, Copy)]
pub struct Asked {
    /// The line number, which is the byte address divided by 64.
    pub line: u64,
    pub kind: Ask,
    /// Where the bytes begin within the line, counted from 0.
    pub offset: u8,
    /// How many bytes are asked for, 1 to 64, all within the line.
    pub size: u8,
    /// The byte that a store writes at the offset. A load and a fetch have no use for it.
    pub byte: u8,
    /// The cycle of its issue.
    pub issued: u64,
}

/// A finished request, with the bytes of its line at that time; those of a store have its byte in them.
#[derive(Clone, Copy)]
pub struct Answer {
    pub asked: Asked,
    pub block: Block,
}

/// Why a request wasn't finished.
#[derive(Clone, Copy, PartialEq, Eq)]
pub enum BackFault {
    /// The line has no outstanding request.
    NoRequest,
    /// The line's request is a store where a read was to be finished, or the other way round.
    WrongKind,
}
