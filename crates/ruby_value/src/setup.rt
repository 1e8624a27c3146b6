use crate::{Fields, Kind, Seq};

/// What a table of a controller is, and how many lines it has place for. The sorts of tables are those of SLICC in gem5.
#[derive(Clone, Copy)]
pub enum TableSize {
    /// A cache, with its sets and how many ways each has.
    Cache { sets: u32, ways: u32 },
    /// A directory, in which each line has fields from the start.
    Directory,
    /// A TBE table, with the most lines that it may hold.
    Tbe { entries: u32 },
    /// The machine's parameters, which are the fields of line 0. That they are read like a table is this project's own.
    Parameters,
}

/// A table of a machine.
#[derive(Drop)]
pub struct TableSetup {
    pub size: TableSize,
    /// The number of the structure of its lines, which is that of the kind of a reference to one; of the parameters that of
    /// their fields, to which no reference is.
    pub structure: u16,
    /// The kinds of the fields of a line, in the order of their declaration.
    pub kinds: Seq<Kind>,
    /// The fields that a new line has; of a directory, those of each line that was never written; of the parameters,
    /// their values as a run begins.
    pub initial: Fields,
}

/// Where the messages of a buffer come from or go to.
#[derive(Clone, Copy)]
pub enum BufferPlace {
    /// The controller's own: it takes from there what it sends there, or what a driver asks of it.
    Local,
    /// To a virtual network. The field of this number names the receivers; where the message type has no such field, a
    /// message names nobody, and a send goes to nobody.
    To {
        network: u16,
        destination: Option<u16>,
    },
    /// From a virtual network.
    From {
        network: u16,
    },
}

/// A buffer of a machine.
#[derive(Drop)]
pub struct BufferSetup {
    pub place: BufferPlace,
    /// Whether its declaration calls it ordered. One of the controller's own then keeps the order of its sends, and one on a
    /// network has that network keep the order of what one controller sends to another.
    pub ordered: bool,
    /// The kinds of the fields of its message type, in the order of their declaration.
    pub kinds: Seq<Kind>,
}

/// What a machine of a protocol is to each of its controllers: plain data that is made once for the machine, from the
/// protocol and the sizes that a topology sets.
#[derive(Drop)]
pub struct MachineSetup {
    /// The machine's tables by their numbers: caches, directories and TBE tables, and after them the parameters.
    pub tables: Seq<TableSetup>,
    /// The machine's buffers by their numbers.
    pub buffers: Seq<BufferSetup>,
    /// The state of a line that was never set, where the machine has the built-in map of states.
    pub default_state: Option<u16>,
    /// Whether the machine has a sequencer.
    pub has_sequencer: bool,
}

/// The sizes of a machine's tables and the values of its parameters, as far as a topology sets them, and where each
/// machine's controllers stand. What isn't listed has its default.
#[derive(Drop)]
pub struct Sizes {
    /// A cache's number among the machine's tables, its sets and its ways.
    pub caches: Seq<(u16, u32, u32)>,
    /// A TBE table's number among the machine's tables, and how many lines it may hold.
    pub tbes: Seq<(u16, u32)>,
    /// The number of the parameter's field on line 0 of the table of parameters, and its value.
    pub parameters: Seq<(u16, i64)>,
    /// For every machine of the protocol, in the order of the text, its first controller's number and its count.
    pub machines: Seq<(u32, u32)>,
}
