ghost use Rattle.std.specs.Prelude.{◌≡◌, IfOk};

use crate::{NoMemory, Text};
use std::alloc::Global;

/// Why a transition can't go on. The words are those that a run is to print, and they, and which case has which, are this
/// project's own: gem5 ends at most of these cases with an assertion or a panic, and leaves the rest to C++.
#[derive(Drop)]
pub enum Fault {
    /// No transition is written for the state and the event.
    Invalid,
    /// A condition that the protocol asserts doesn't hold.
    Assert,
    /// The protocol ended itself by `error`, with this text.
    Error(Text),
    /// A sum, a difference, a product or a negation is outside signed 64 bits.
    Overflow,
    /// A latency is outside 1 to 1,000,000 cycles.
    Latency,
    /// A field or a `setMRU` through a reference to nothing, or a field of an entry that isn't there.
    Reference,
    /// A peek, a dequeue, a recycle or a stall where no message is ready.
    Front,
    /// An allocation in a full set or table, of a line that isn't there.
    Full,
    /// An allocation of a line that is there.
    Present,
    /// A deallocation or a `setMRU` of a line that isn't there.
    Absent,
    /// A `cacheProbe` where `cacheAvail` is true.
    Probe,
    /// A callback for a line without a request of that kind.
    Callback,
    /// A destination whose machine has no buffer that takes messages from the virtual network.
    Route,
    /// The controller would send more than 4,096 copies in one cycle.
    Copies,
}

impl Fault {
    /// The same fault once more, with a text of its own.
    pub fn copied(alloc: Global, fault: &Fault) -> Result<Fault, NoMemory>
        ensures { IfOk result (λ f. f ≡ fault.now) }
    {
        Ok(match fault {
            Fault::Invalid => Fault::Invalid,
            Fault::Assert => Fault::Assert,
            Fault::Error(text) => Fault::Error(Text::copied(alloc, text)?),
            Fault::Overflow => Fault::Overflow,
            Fault::Latency => Fault::Latency,
            Fault::Reference => Fault::Reference,
            Fault::Front => Fault::Front,
            Fault::Full => Fault::Full,
            Fault::Present => Fault::Present,
            Fault::Absent => Fault::Absent,
            Fault::Probe => Fault::Probe,
            Fault::Callback => Fault::Callback,
            Fault::Route => Fault::Route,
            Fault::Copies => Fault::Copies,
        })
    }
}

/// What a driver finds at its turn, which is this project's own. Lines are line numbers, the bytes of a line are
/// counted from 0, and so are cycles.
#[derive(Clone, Copy)]
pub enum Finding {
    /// A load answered another byte than the one that was stored last.
    Incoherent {
        controller: u32,
        line: u64,
        offset: u8,
        expected: u8,
        found: u8,
    },
    /// A request has waited too long since it was issued.
    Deadlock {
        controller: u32,
        line: u64,
        issued: u64,
    },
    /// As many checks have passed as were asked for.
    Passed {
        checks: u64,
    },
}
