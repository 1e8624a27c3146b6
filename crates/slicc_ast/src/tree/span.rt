/// A stretch of a file's bytes, from its first byte to right after its last one. A node that has no token has the span
/// from 0 to 0 in file 0.
#[derive(Clone, Copy, PartialEq, Eq)]
pub struct Span {
    /// The file's number in the order of reading, from 0.
    pub file: u16,
    pub start: u32,
    pub end: u32,
}
