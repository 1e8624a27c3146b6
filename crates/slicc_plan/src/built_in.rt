/// The types that every protocol has without a declaration. `State`, `Event`, `Entry` and `TBE` are none of them: a machine
/// declares its own.
#[derive(Clone, Copy, PartialEq, Eq)]
pub enum BuiltInType {
    /// `int`
    Int,
    /// `Cycles`, whose values are those of `int`.
    Cycles,
    /// `Tick`, whose values are those of `int`.
    Tick,
    /// `bool`
    Bool,
    /// `Addr`
    Address,
    /// `MachineID`
    MachineId,
    /// `MachineType`, the enumeration of the machines' names.
    MachineType,
    /// `NetDest`
    NetDest,
    /// `DataBlock`
    DataBlock,
    /// `AccessPermission`, an enumeration.
    AccessPermission,
    /// `RubyRequestType`, an enumeration.
    RequestType,
    /// `MessageSizeType`, an enumeration.
    MessageSize,
    /// `RubyRequest`, the structure of what a processor asks for.
    Request,
    /// `AbstractCacheEntry`, which only the formals of a prototype may have.
    AbstractEntry,
    /// `void`
    Void,
    /// `CacheMemory`
    Cache,
    /// `DirectoryMemory`
    Directory,
    /// `TBETable`
    TbeTable,
    /// `Sequencer`
    Sequencer,
    /// `MessageBuffer`
    Buffer,
}
