ghost use Rattle.std.specs.Prelude.{◌≡◌, map};
ghost use Rattle.std.specs.List.{list_any};
ghost use Rattle.std.specs.Str.{bytes_eq};
ghost use Rattle.slicc_plan.specs.Prelude.{Call as CallRecord, calls};
ghost use Rattle.declared_types.specs.Prelude.{call_of};

use crate::call::{Allowed, Answer, Argument, Call, Change, Receiver};
use slicc_plan::BuiltInType;

// The calls of these rows: what each is called on, its name, the arguments that there always are and those that may follow, what
// it answers, what it changes and where it is allowed.
macro_rules! calls {
    ($($on:ident $name:literal
        [$($always:ident $(($always_of:ident))?),*] [$($perhaps:ident $(($perhaps_of:ident))?),*]
        -> $answer:ident $(($answer_of:ident))?, $change:ident, $allowed:ident;)*) => {
        [$(Call {
            receiver: Receiver::$on,
            name: $name,
            always: &[$(Argument::$always $((BuiltInType::$always_of))?),*],
            perhaps: &[$(Argument::$perhaps $((BuiltInType::$perhaps_of))?),*],
            answer: Answer::$answer $((BuiltInType::$answer_of))?,
            change: Change::$change,
            allowed: Allowed::$allowed,
        }),*]
    };
}

const CALLS: [Call; 52] = calls! {
    InPort "isReady" [ValueOf(Tick)] [] -> Value(Bool), Nothing, Anywhere;
    InPort "dequeue" [ValueOf(Tick)] [] -> Nothing, Nothing, InActions;
    InPort "recycle" [ValueOf(Tick)] [ValueOf(Tick)] -> Nothing, Nothing, InActions;
    Cache "lookup" [ValueOf(Address)] [] -> Line, Nothing, Anywhere;
    Cache "[]" [ValueOf(Address)] [] -> Line, Nothing, Anywhere;
    Cache "isTagPresent" [ValueOf(Address)] [] -> Value(Bool), Nothing, Anywhere;
    Cache "cacheAvail" [ValueOf(Address)] [] -> Value(Bool), Nothing, Anywhere;
    Cache "cacheProbe" [ValueOf(Address)] [] -> Value(Address), Nothing, Anywhere;
    Cache "allocate" [ValueOf(Address), NewLine] [] -> Line, Lines, Anywhere;
    Cache "deallocate" [ValueOf(Address)] [] -> Nothing, Lines, Anywhere;
    Cache "setMRU" [AddressOrLine] [] -> Nothing, Lines, Anywhere;
    Directory "lookup" [ValueOf(Address)] [] -> Line, Nothing, Anywhere;
    Directory "[]" [ValueOf(Address)] [] -> Line, Nothing, Anywhere;
    Directory "isPresent" [ValueOf(Address)] [] -> Value(Bool), Nothing, Anywhere;
    Directory "allocate" [ValueOf(Address), NewLine] [] -> Line, Nothing, Anywhere;
    TbeTable "lookup" [ValueOf(Address)] [] -> Line, Nothing, Anywhere;
    TbeTable "[]" [ValueOf(Address)] [] -> Line, Nothing, Anywhere;
    TbeTable "allocate" [ValueOf(Address)] [] -> Nothing, Lines, Anywhere;
    TbeTable "deallocate" [ValueOf(Address)] [] -> Nothing, Lines, Anywhere;
    TbeTable "isPresent" [ValueOf(Address)] [] -> Value(Bool), Nothing, Anywhere;
    NetDest "add" [ValueOf(MachineId)] [] -> Nothing, Receiver, Anywhere;
    NetDest "remove" [ValueOf(MachineId)] [] -> Nothing, Receiver, Anywhere;
    NetDest "clear" [] [] -> Nothing, Receiver, Anywhere;
    NetDest "count" [] [] -> Value(Int), Nothing, Anywhere;
    NetDest "isElement" [ValueOf(MachineId)] [] -> Value(Bool), Nothing, Anywhere;
    NetDest "isEmpty" [] [] -> Value(Bool), Nothing, Anywhere;
    NetDest "addNetDest" [ValueOf(NetDest)] [] -> Nothing, Receiver, Anywhere;
    NetDest "removeNetDest" [ValueOf(NetDest)] [] -> Nothing, Receiver, Anywhere;
    NetDest "broadcast" [ValueOf(MachineType)] [] -> Nothing, Receiver, Anywhere;
    DataBlock "clear" [] [] -> Nothing, Receiver, Anywhere;
    Sequencer "readCallback" [ValueOf(Address), ValueOf(DataBlock)]
        [ValueOf(Bool), ValueOf(MachineType)] -> Nothing, Nothing, InActions;
    Sequencer "writeCallback" [ValueOf(Address), ValueOf(DataBlock)]
        [ValueOf(Bool), ValueOf(MachineType)] -> Nothing, Block, InActions;
    Nothing "clockEdge" [] [] -> Value(Tick), Nothing, Anywhere;
    Nothing "curCycle" [] [] -> Value(Cycles), Nothing, Anywhere;
    Nothing "cyclesToTicks" [ValueOf(Int)] [] -> Value(Tick), Nothing, Anywhere;
    Nothing "ticksToCycles" [ValueOf(Int)] [] -> Value(Cycles), Nothing, Anywhere;
    Nothing "mapAddressToMachine" [ValueOf(Address), ValueOf(MachineType)]
        [] -> Value(MachineId), Nothing, Anywhere;
    Nothing "makeLineAddress" [ValueOf(Address)] [] -> Value(Address), Nothing, Anywhere;
    Nothing "machineIDToNodeID" [ValueOf(MachineId)] [] -> Value(Int), Nothing, Anywhere;
    Nothing "machineIDToMachineType" [ValueOf(MachineId)] [] -> Value(MachineType), Nothing, Anywhere;
    Nothing "set_cache_entry" [CacheLine] [] -> Nothing, Lines, InActions;
    Nothing "unset_cache_entry" [] [] -> Nothing, Lines, InActions;
    Nothing "set_tbe" [TbeLine] [] -> Nothing, Lines, InActions;
    Nothing "unset_tbe" [] [] -> Nothing, Lines, InActions;
    Nothing "wakeUpBuffers" [ValueOf(Address)] [] -> Nothing, Nothing, InActions;
    Nothing "wakeUpAllBuffers" [] [] -> Nothing, Nothing, InActions;
    Nothing "trigger" [Event, ValueOf(Address), OwnCacheLine, OwnTbeLine]
        [] -> Nothing, Nothing, InPorts;
    Nothing "profileMsgDelay" [ValueOf(Int), ValueOf(Cycles)] [] -> Nothing, Nothing, Anywhere;
    Entry "changePermission" [ValueOf(AccessPermission)] [] -> Nothing, Nothing, Anywhere;
    Sequencer "evictionCallback" [ValueOf(Address)] [] -> Nothing, Nothing, InActions;
    Cache "profileDemandHit" [] [] -> Nothing, Nothing, Anywhere;
    Cache "profileDemandMiss" [] [] -> Nothing, Nothing, Anywhere;
};

/// The calls, in the order by which they are numbered.
pub fn built_in_calls() -> &'static [Call]
    ensures { map call_of result.now ≡ calls }
{
    &CALLS
}

// Whether one of these calls has this name.
fn has_call(calls: &[Call], text: &[u8]) -> bool
    ensures { result ≡ list_any (λ (c : CallRecord). bytes_eq c.name text.now) (map call_of calls.now) }
{
    for c in calls {
        if c.name.as_bytes() == text {
            return true;
        }
    }
    false
}

/// Whether a call that is there in every protocol has this name.
pub fn is_call_name(text: &[u8]) -> bool
    ensures { result ≡ list_any (λ (c : CallRecord). bytes_eq c.name text.now) calls }
{
    has_call(built_in_calls(), text)
}
