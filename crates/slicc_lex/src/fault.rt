use ruby_base::NoMemory;

/// Why bytes are not read as tokens: the first place where they are none, as the offset of a byte from 0.
#[derive(Clone, Copy, Debug)]
pub enum LexFault {
    /// A byte that begins no token, or one that a string which is closed on its line may not hold.
    BadByte(u32),
    /// The quote of a string whose line, or the file, ends before it is closed.
    OpenString(u32),
    /// The `/*` of a comment that isn't closed.
    OpenComment(u32),
    /// The first digit of a number above 2^63 - 1.
    NumberTooLarge(u32),
    /// The first byte of a name of more than 128 bytes.
    NameTooLong(u32),
    NoMemory,
}

impl From<NoMemory> for LexFault {
    fn from(_: NoMemory) -> LexFault {
        LexFault::NoMemory
    }
}
