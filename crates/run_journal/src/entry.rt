ghost use Rattle.std.specs.Prelude.{◌≡◌, IfOk};

use crate::{Fault, Finding, MsgNo, NoMemory, Sent, Seq, Verdict};
use std::alloc::Global;

/// What a fired transition was. States and events are their numbers in the controller's machine.
#[derive(Clone, Copy)]
pub struct FireNote {
    /// The byte address that the transition was triggered for.
    pub address: u64,
    /// The state before.
    pub state: u16,
    pub event: u16,
    /// The state after.
    pub next: u16,
}

/// Where a scan stopped, as far as it is known: the byte address, and state and event by their numbers in the
/// controller's machine. What isn't known is `None`: all three before an event is triggered, and the state where
/// `getState` itself stopped.
#[derive(Drop)]
pub struct StopAt {
    pub address: Option<u64>,
    pub state: Option<u16>,
    pub event: Option<u16>,
    pub fault: Fault,
}

impl StopAt {
    /// The same stop once more, with a fault of its own.
    pub fn copied(alloc: Global, stop: &StopAt) -> Result<StopAt, NoMemory>
        ensures { IfOk result (λ s. s ≡ stop.now) }
    {
        Ok(StopAt {
            address: stop.address,
            state: stop.state,
            event: stop.event,
            fault: Fault::copied(alloc, &stop.fault)?,
        })
    }
}

/// How a wake-up of a controller ended.
#[derive(Drop)]
pub enum End {
    /// No port fired.
    Idle,
    /// The controller has fired as many transitions in this cycle as it may, and goes on in the next one.
    Full,
    /// A scan met a fault.
    Stop(StopAt),
}

/// An entry of a run's journal. The journal has one for each event but `Take` and `Release`, in their order. Cycles
/// and controllers are counted from 0. The lists of a transition stand in the order of its acts. The journal is this
/// project's own.
#[derive(Drop)]
pub enum Entry {
    /// A controller fired a transition.
    Fired {
        cycle: u64,
        controller: u32,
        note: FireNote,
        /// The messages that its actions removed from a buffer.
        consumed: Seq<MsgNo>,
        /// The copies that its actions sent.
        sent: Seq<Sent>,
        /// The messages that its actions took aside under an address.
        stalled: Seq<MsgNo>,
        /// The messages that its actions put back from under an address, those of one call in increasing number.
        woken: Seq<MsgNo>,
        /// The messages that its actions gave another arrival by `recycle`.
        recycled: Seq<MsgNo>,
    },
    /// A wake-up of a controller ended.
    Ended {
        cycle: u64,
        controller: u32,
        end: End,
    },
    /// The driver acted, unless a controller had stopped, and the cycle or the run ended.
    Turned {
        cycle: u64,
        /// The numbers of the requests that the driver issued.
        issued: Seq<MsgNo>,
        /// What the driver found, if it found something.
        finding: Option<Finding>,
        /// How the run ended, where it ended here.
        verdict: Option<Verdict>,
    },
}
