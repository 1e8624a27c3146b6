use slicc_plan::BuiltInType;

/// What a call is called on.
#[derive(Clone, Copy, PartialEq, Eq)]
pub enum Receiver {
    InPort,
    Cache,
    Directory,
    TbeTable,
    NetDest,
    DataBlock,
    Sequencer,
    /// A reference to a line of a cache or of a directory.
    Entry,
    Nothing,
}

/// What an argument has to be.
#[derive(Clone, Copy, PartialEq, Eq)]
pub enum Argument {
    ValueOf(BuiltInType),
    /// `new` and the name of the structure of the table's lines.
    NewLine,
    /// An address, or a reference to a line of the table.
    AddressOrLine,
    /// A reference to a line of a cache.
    CacheLine,
    /// A reference to a line of a TBE table.
    TbeLine,
    /// A reference to a line of a cache, in a machine that has such lines alone.
    OwnCacheLine,
    /// A reference to a line of a TBE table, in a machine that has such lines alone.
    OwnTbeLine,
    /// A member of the machine's own enumeration of events.
    Event,
}

/// What a call answers.
#[derive(Clone, Copy, PartialEq, Eq)]
pub enum Answer {
    Nothing,
    Value(BuiltInType),
    /// A reference to a line of the table that it is called on.
    Line,
}

/// What a call changes, of what a body reads.
#[derive(Clone, Copy, PartialEq, Eq)]
pub enum Change {
    Nothing,
    Receiver,
    /// The block that is its second argument.
    Block,
    /// Which lines a table has, which of them was used last, or which one a transition is about.
    Lines,
}

/// The bodies in which a call is allowed.
#[derive(Clone, Copy, PartialEq, Eq)]
pub enum Allowed {
    Anywhere,
    InPorts,
    InActions,
}

/// A built-in call.
#[derive(Clone, Copy)]
pub struct Call {
    pub receiver: Receiver,
    pub name: &'static str,
    /// The arguments that there always are.
    pub always: &'static [Argument],
    /// Those that may follow.
    pub perhaps: &'static [Argument],
    pub answer: Answer,
    pub change: Change,
    pub allowed: Allowed,
}
