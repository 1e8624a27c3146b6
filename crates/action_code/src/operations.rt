//! The built-in calls that action code does as operations, by their numbers.
ghost use Rattle.std.specs.Prelude.{◌≡◌, slice_get};
ghost use Rattle.std.specs.Option.{option_copied};
ghost use Rattle.action_code.specs.Operations.{operations};

use crate::operand::Operand;
use crate::program::TableSort;
use ruby_value::Kind;

/// What an operation is on, which its second number names.
#[derive(Clone, Copy)]
pub enum Receiver {
    /// A buffer from which messages are taken, one of the controller's own or one from a network.
    Port,
    /// A table of this sort.
    Table(TableSort),
    /// Nothing, the sequencer, or a value, which is the first argument then. The second number is 0.
    Nothing,
    /// The built-in map of states, which not every machine has. The second number is 0.
    States,
    /// No operation has this number: other instructions do the call's work.
    Unserved,
}

/// The arguments of an operation, in their order.
#[derive(Clone, Copy)]
pub enum Arguments {
    Zero,
    One(Operand),
    Two(Operand, Operand),
    Three(Operand, Operand, Operand),
    Four(Operand, Operand, Operand, Operand),
}

/// What an operation gives.
#[derive(Clone, Copy)]
pub enum Answer {
    Nothing,
    /// A value of this kind.
    Value(Kind),
    /// A reference to a line of the table that it is on.
    Line,
}

/// An operation: what it is on, what it takes and what it gives.
#[derive(Clone, Copy)]
pub struct Operation {
    pub on: Receiver,
    pub arguments: Arguments,
    pub answer: Answer,
}

const BOOL: Operand = Operand::Value(Kind::Bool);

const INT: Operand = Operand::Value(Kind::Int);

const ADDRESS: Operand = Operand::Value(Kind::Addr);

const MACHINE: Operand = Operand::Value(Kind::Machine);

const DEST: Operand = Operand::Value(Kind::Dest);

const BLOCK: Operand = Operand::Value(Kind::Block);

const MACHINE_TYPE: Operand = Operand::Value(Kind::Enum(0, 0));

const PERMISSION: Operand = Operand::Value(Kind::Enum(1, 0));

const CACHE: Receiver = Receiver::Table(TableSort::Cache);

const DIRECTORY: Receiver = Receiver::Table(TableSort::Directory);

const TBES: Receiver = Receiver::Table(TableSort::Tbe);

macro_rules! on {
    ($receiver:expr, $arguments:expr, $answer:expr) => {
        Operation {
            on: $receiver,
            arguments: $arguments,
            answer: $answer,
        }
    };
}

/// The operations by their numbers: the built-in calls in the order in which the language lists them, one for each count of arguments,
/// the least count first, and then the controller's own number, a stall, and the setting of the built-in state. The `new` of an
/// `allocate` is no argument.
pub const OPERATIONS: [Operation; 61] = [
    // isReady, dequeue, recycle without a latency and with one, on ports
    on!(
        Receiver::Port,
        Arguments::One(INT),
        Answer::Value(Kind::Bool)
    ),
    on!(Receiver::Port, Arguments::One(INT), Answer::Nothing),
    on!(Receiver::Port, Arguments::One(INT), Answer::Nothing),
    on!(Receiver::Port, Arguments::Two(INT, INT), Answer::Nothing),
    // lookup, index, isTagPresent, cacheAvail, cacheProbe, allocate, deallocate, setMRU, on caches
    on!(CACHE, Arguments::One(ADDRESS), Answer::Line),
    on!(CACHE, Arguments::One(ADDRESS), Answer::Line),
    on!(CACHE, Arguments::One(ADDRESS), Answer::Value(Kind::Bool)),
    on!(CACHE, Arguments::One(ADDRESS), Answer::Value(Kind::Bool)),
    on!(CACHE, Arguments::One(ADDRESS), Answer::Value(Kind::Addr)),
    on!(CACHE, Arguments::One(ADDRESS), Answer::Line),
    on!(CACHE, Arguments::One(ADDRESS), Answer::Nothing),
    on!(
        CACHE,
        Arguments::One(Operand::AddressOrLine),
        Answer::Nothing
    ),
    // lookup, index, isPresent, allocate, on directories
    on!(DIRECTORY, Arguments::One(ADDRESS), Answer::Line),
    on!(DIRECTORY, Arguments::One(ADDRESS), Answer::Line),
    on!(
        DIRECTORY,
        Arguments::One(ADDRESS),
        Answer::Value(Kind::Bool)
    ),
    on!(DIRECTORY, Arguments::One(ADDRESS), Answer::Line),
    // lookup, index, allocate, deallocate, isPresent, on TBE tables
    on!(TBES, Arguments::One(ADDRESS), Answer::Line),
    on!(TBES, Arguments::One(ADDRESS), Answer::Line),
    on!(TBES, Arguments::One(ADDRESS), Answer::Nothing),
    on!(TBES, Arguments::One(ADDRESS), Answer::Nothing),
    on!(TBES, Arguments::One(ADDRESS), Answer::Value(Kind::Bool)),
    // add, remove, clear, count, isElement, isEmpty, addNetDest, removeNetDest, broadcast, on sets of controllers
    on!(
        Receiver::Nothing,
        Arguments::Two(DEST, MACHINE),
        Answer::Value(Kind::Dest)
    ),
    on!(
        Receiver::Nothing,
        Arguments::Two(DEST, MACHINE),
        Answer::Value(Kind::Dest)
    ),
    on!(
        Receiver::Nothing,
        Arguments::One(DEST),
        Answer::Value(Kind::Dest)
    ),
    on!(
        Receiver::Nothing,
        Arguments::One(DEST),
        Answer::Value(Kind::Int)
    ),
    on!(
        Receiver::Nothing,
        Arguments::Two(DEST, MACHINE),
        Answer::Value(Kind::Bool)
    ),
    on!(
        Receiver::Nothing,
        Arguments::One(DEST),
        Answer::Value(Kind::Bool)
    ),
    on!(
        Receiver::Nothing,
        Arguments::Two(DEST, DEST),
        Answer::Value(Kind::Dest)
    ),
    on!(
        Receiver::Nothing,
        Arguments::Two(DEST, DEST),
        Answer::Value(Kind::Dest)
    ),
    on!(
        Receiver::Nothing,
        Arguments::Two(DEST, MACHINE_TYPE),
        Answer::Value(Kind::Dest)
    ),
    // clear, on blocks
    on!(
        Receiver::Nothing,
        Arguments::One(BLOCK),
        Answer::Value(Kind::Block)
    ),
    // readCallback with two to four arguments, and then writeCallback
    on!(
        Receiver::Nothing,
        Arguments::Two(ADDRESS, BLOCK),
        Answer::Nothing
    ),
    on!(
        Receiver::Nothing,
        Arguments::Three(ADDRESS, BLOCK, BOOL),
        Answer::Nothing
    ),
    on!(
        Receiver::Nothing,
        Arguments::Four(ADDRESS, BLOCK, BOOL, MACHINE_TYPE),
        Answer::Nothing
    ),
    on!(
        Receiver::Nothing,
        Arguments::Two(ADDRESS, BLOCK),
        Answer::Value(Kind::Block)
    ),
    on!(
        Receiver::Nothing,
        Arguments::Three(ADDRESS, BLOCK, BOOL),
        Answer::Value(Kind::Block)
    ),
    on!(
        Receiver::Nothing,
        Arguments::Four(ADDRESS, BLOCK, BOOL, MACHINE_TYPE),
        Answer::Value(Kind::Block)
    ),
    // clockEdge, curCycle, cyclesToTicks, ticksToCycles, mapAddressToMachine, makeLineAddress, machineIDToNodeID, machineIDToMachineType
    on!(Receiver::Nothing, Arguments::Zero, Answer::Value(Kind::Int)),
    on!(Receiver::Nothing, Arguments::Zero, Answer::Value(Kind::Int)),
    on!(
        Receiver::Nothing,
        Arguments::One(INT),
        Answer::Value(Kind::Int)
    ),
    on!(
        Receiver::Nothing,
        Arguments::One(INT),
        Answer::Value(Kind::Int)
    ),
    on!(
        Receiver::Nothing,
        Arguments::Two(ADDRESS, MACHINE_TYPE),
        Answer::Value(Kind::Machine)
    ),
    on!(
        Receiver::Nothing,
        Arguments::One(ADDRESS),
        Answer::Value(Kind::Addr)
    ),
    on!(
        Receiver::Nothing,
        Arguments::One(MACHINE),
        Answer::Value(Kind::Int)
    ),
    on!(
        Receiver::Nothing,
        Arguments::One(MACHINE),
        Answer::Value(Kind::Enum(0, 0))
    ),
    // set_cache_entry, unset_cache_entry, set_tbe, unset_tbe
    on!(Receiver::Unserved, Arguments::Zero, Answer::Nothing),
    on!(Receiver::Unserved, Arguments::Zero, Answer::Nothing),
    on!(Receiver::Unserved, Arguments::Zero, Answer::Nothing),
    on!(Receiver::Unserved, Arguments::Zero, Answer::Nothing),
    // wakeUpBuffers, wakeUpAllBuffers
    on!(Receiver::Nothing, Arguments::One(ADDRESS), Answer::Nothing),
    on!(Receiver::Nothing, Arguments::Zero, Answer::Nothing),
    // trigger, and the permission of a state
    on!(Receiver::Unserved, Arguments::Zero, Answer::Nothing),
    on!(Receiver::Unserved, Arguments::Zero, Answer::Nothing),
    // profileMsgDelay; changePermission on an entry; evictionCallback; profileDemandHit and profileDemandMiss on caches
    on!(Receiver::Nothing, Arguments::Two(INT, INT), Answer::Nothing),
    on!(
        Receiver::Nothing,
        Arguments::Two(Operand::Line, PERMISSION),
        Answer::Nothing
    ),
    on!(Receiver::Nothing, Arguments::One(ADDRESS), Answer::Nothing),
    on!(CACHE, Arguments::Zero, Answer::Nothing),
    on!(CACHE, Arguments::Zero, Answer::Nothing),
    // machineID, stall_and_wait on a port, the setting of the built-in state
    on!(
        Receiver::Nothing,
        Arguments::Zero,
        Answer::Value(Kind::Machine)
    ),
    on!(Receiver::Port, Arguments::One(ADDRESS), Answer::Nothing),
    on!(
        Receiver::States,
        Arguments::Two(ADDRESS, Operand::State),
        Answer::Nothing
    ),
];

#[tactic(auto, unfolding(crate::specs::Operations::operations))]
fn operations() -> &'static [Operation]
    ensures { result.now ≡ operations }
{
    &OPERATIONS
}

/// The operation of this number, if there is one.
pub fn operation_at(n: u16) -> Option<&'static Operation>
    ensures { option_copied result ≡ slice_get operations n }
{
    operations().get(usize::from(n))
}
