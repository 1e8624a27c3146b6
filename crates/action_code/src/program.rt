ghost use Rattle.std.specs.Prelude.{◌≡◌};
ghost use Rattle.action_code.specs.Fits.{are_numbered};

use crate::instr::Code;
use ruby_value::{Kind, Seq};

/// What a table of a machine is.
#[derive(Clone, Copy)]
pub enum TableSort {
    Cache,
    Directory,
    Tbe,
    /// The machine's parameters, which are the fields of line 0.
    Parameters,
}

/// A table of a machine.
#[derive(Clone, Copy)]
pub struct TableDecl {
    pub sort: TableSort,
    /// The number of the structure of its lines, or of the machine's parameters.
    pub structure: u16,
}

/// Where the messages of a buffer come from or go to.
#[derive(Clone, Copy)]
pub enum Place {
    /// The controller's own, from which it takes what it sends there.
    Local,
    /// To a virtual network.
    To,
    /// From a virtual network.
    From,
}

/// A buffer of a machine.
#[derive(Clone, Copy)]
pub struct BufferDecl {
    /// The number of its message type among the structures.
    pub message: u16,
    pub place: Place,
}

/// What verification reads of a machine.
#[derive(Drop)]
pub struct MachineDecl {
    /// Whether it has the built-in map of states.
    pub built_in_map: bool,
    /// The number of its state declaration among the enumerations.
    pub states: u16,
    /// Its tables by their numbers: caches, directories and TBE tables, and after them its parameters.
    pub tables: Seq<TableDecl>,
    /// Its buffers by their numbers.
    pub buffers: Seq<BufferDecl>,
}

/// The bodies of a protocol's machines as action code, and what is declared beside them. In a kind the enumerations are numbered
/// `MachineType` 0, `AccessPermission` 1, `RubyRequestType` 2, `MessageSizeType` 3, and then those of the protocol.
#[derive(Drop)]
pub struct Program {
    pub machines: Seq<MachineDecl>,
    /// The kinds of the fields of structures and message types, which have one numbering.
    pub structures: Seq<Seq<Kind>>,
    /// The bodies by their numbers. A body calls lower ones alone.
    pub bodies: Seq<Code>,
}

// How many numbers of 32 bits there are.
const NUMBERS: usize = 4_294_967_296;

fn are_numbered(bodies: &[Code]) -> bool
    ensures { result ≡ are_numbered bodies.now }
{
    bodies.iter().all(|c| c.instructions.len() < NUMBERS)
}

impl Program {
    ghost use Rattle.action_code.specs.Fits.{is_numbered};

    /// Whether its bodies, and the instructions of each, have numbers of 32 bits.
    pub fn is_numbered(&self) -> bool
        ensures { result ≡ is_numbered self.now }
    {
        self.bodies.len() < NUMBERS && are_numbered(self.bodies.as_slice())
    }
}
