ghost use Rattle.std.specs.Prelude.{◌≡◌};
ghost use Rattle.built_in_acts.specs.Calls.{call_at, calls};

/// A call on messages, which a port names or that wait.
#[derive(Clone, Copy)]
pub enum MessageCall {
    /// `isReady` of a port.
    IsReady,
    /// `dequeue` of a port.
    Dequeue,
    /// `recycle` of a port without a latency.
    Recycle,
    /// `recycle` with one.
    RecycleFor,
    /// `stall_and_wait`.
    Stall,
    /// `wakeUpBuffers`.
    Wake,
    /// `wakeUpAllBuffers`.
    WakeAll,
}

/// A call on a table.
#[derive(Clone, Copy)]
pub enum TableCall {
    /// `lookup` and the index of a table.
    Lookup,
    /// `isTagPresent` of a cache, `isPresent` of a TBE table.
    IsPresent,
    /// `cacheAvail`.
    HasPlace,
    /// `cacheProbe`.
    Replaced,
    /// `allocate` of a cache or a directory.
    Allocate,
    /// `allocate` of a TBE table.
    AllocateTbe,
    /// `deallocate`.
    Deallocate,
    /// `setMRU`.
    Use,
}

/// A call on a line's request or state, or on the controller itself.
#[derive(Clone, Copy)]
pub enum ControllerCall {
    /// `readCallback`.
    ReadCallback,
    /// `writeCallback`.
    WriteCallback,
    /// The setting of the built-in state.
    SetState,
    /// `clockEdge` and `curCycle`.
    Cycle,
    /// `machineID`.
    Me,
}

/// A call on the numbers of machines' controllers.
#[derive(Clone, Copy)]
pub enum MachineCall {
    /// `broadcast`.
    Broadcast,
    /// `mapAddressToMachine`.
    Home,
    /// `machineIDToNodeID`.
    Index,
    /// `machineIDToMachineType`.
    MachineOf,
}

/// A call on a set of controllers.
#[derive(Clone, Copy)]
pub enum SetCall {
    /// `add` of a set of controllers.
    Add,
    /// `remove`.
    Remove,
    /// `clear` of a set.
    ClearSet,
    /// `count`.
    Count,
    /// `isElement`.
    Contains,
    /// `isEmpty`.
    IsEmpty,
    /// `addNetDest`.
    AddAll,
    /// `removeNetDest`.
    RemoveAll,
}

/// A call that needs no more than its arguments.
#[derive(Clone, Copy)]
pub enum ValueCall {
    /// `isPresent` of a directory, which has each line.
    HasLine,
    /// `clear` of a block.
    ClearBlock,
    /// `cyclesToTicks` and `ticksToCycles`.
    Number,
    /// `makeLineAddress`.
    LineAddress,
    /// Those that have no effect.
    Nothing,
}

/// What a built-in call does, by what it is about. Several calls do the same.
#[derive(Clone, Copy)]
pub enum Call {
    Message(MessageCall),
    Table(TableCall),
    Controller(ControllerCall),
    Machines(MachineCall),
    Set(SetCall),
    Value(ValueCall),
    /// Those whose work other instructions do, and numbers without a call.
    NotServed,
}

const CALLS: [Call; 61] = [
    Call::Message(MessageCall::IsReady),
    Call::Message(MessageCall::Dequeue),
    Call::Message(MessageCall::Recycle),
    Call::Message(MessageCall::RecycleFor),
    Call::Table(TableCall::Lookup),
    Call::Table(TableCall::Lookup),
    Call::Table(TableCall::IsPresent),
    Call::Table(TableCall::HasPlace),
    Call::Table(TableCall::Replaced),
    Call::Table(TableCall::Allocate),
    Call::Table(TableCall::Deallocate),
    Call::Table(TableCall::Use),
    Call::Table(TableCall::Lookup),
    Call::Table(TableCall::Lookup),
    Call::Value(ValueCall::HasLine),
    Call::Table(TableCall::Allocate),
    Call::Table(TableCall::Lookup),
    Call::Table(TableCall::Lookup),
    Call::Table(TableCall::AllocateTbe),
    Call::Table(TableCall::Deallocate),
    Call::Table(TableCall::IsPresent),
    Call::Set(SetCall::Add),
    Call::Set(SetCall::Remove),
    Call::Set(SetCall::ClearSet),
    Call::Set(SetCall::Count),
    Call::Set(SetCall::Contains),
    Call::Set(SetCall::IsEmpty),
    Call::Set(SetCall::AddAll),
    Call::Set(SetCall::RemoveAll),
    Call::Machines(MachineCall::Broadcast),
    Call::Value(ValueCall::ClearBlock),
    Call::Controller(ControllerCall::ReadCallback),
    Call::Controller(ControllerCall::ReadCallback),
    Call::Controller(ControllerCall::ReadCallback),
    Call::Controller(ControllerCall::WriteCallback),
    Call::Controller(ControllerCall::WriteCallback),
    Call::Controller(ControllerCall::WriteCallback),
    Call::Controller(ControllerCall::Cycle),
    Call::Controller(ControllerCall::Cycle),
    Call::Value(ValueCall::Number),
    Call::Value(ValueCall::Number),
    Call::Machines(MachineCall::Home),
    Call::Value(ValueCall::LineAddress),
    Call::Machines(MachineCall::Index),
    Call::Machines(MachineCall::MachineOf),
    Call::NotServed,
    Call::NotServed,
    Call::NotServed,
    Call::NotServed,
    Call::Message(MessageCall::Wake),
    Call::Message(MessageCall::WakeAll),
    Call::NotServed,
    Call::NotServed,
    Call::Value(ValueCall::Nothing),
    Call::Value(ValueCall::Nothing),
    Call::Value(ValueCall::Nothing),
    Call::Value(ValueCall::Nothing),
    Call::Value(ValueCall::Nothing),
    Call::Controller(ControllerCall::Me),
    Call::Message(MessageCall::Stall),
    Call::Controller(ControllerCall::SetState),
];

#[tactic(auto, unfolding(crate::specs::Calls::calls))]
fn all_calls() -> &'static [Call]
    ensures { result.now ≡ calls }
{
    &CALLS
}

/// What the call of this number does, in action code's numbering: those of the table of built-in calls in its order, one for each
/// count of arguments, then the actor number, a stall, and the setting of the built-in state.
pub fn call_at(n: u16) -> Call
    ensures { result ≡ call_at n }
{
    match all_calls().get(usize::from(n)) {
        Some(call) => *call,
        None => Call::NotServed,
    }
}
