/// How a run ended, one variant for each verdict that a run is to print. A run ends at a turn: `Stop` is tried
/// first, then what the driver found, which is one of the next three, and then the others in their order. The cycle of
/// each is that of the turn, counted from 0. The verdicts are this project's own.
#[derive(Clone, Copy)]
pub enum Verdict {
    /// A controller has stopped; of several, the one of least number.
    Stop {
        cycle: u64,
        controller: u32,
    },
    /// The driver found that a load answered another byte than the one that was stored last.
    Incoherent {
        cycle: u64,
        /// The controller whose sequencer had the load.
        controller: u32,
        /// The byte address of the line, a multiple of 64.
        address: u64,
        /// The place of the byte in its line, 0 to 63.
        offset: u8,
        expected: u8,
        found: u8,
    },
    /// The driver found a request that has waited too long.
    Deadlock {
        cycle: u64,
        /// The controller whose sequencer has the request.
        controller: u32,
        /// The byte address of the line, a multiple of 64.
        address: u64,
        /// The cycle in which the request was issued.
        issued: u64,
    },
    /// The driver found that so many checks have passed as were asked for.
    Passed {
        cycle: u64,
        checks: u64,
    },
    /// Nothing is left to do: neither a controller nor the driver has a mark above this cycle.
    Quiet {
        cycle: u64,
    },
    /// The next cycle would be beyond the bound that the run was given.
    Cycles {
        cycle: u64,
    },
    /// The journal has more than 1,000,000 entries: so many, with that of this turn.
    Journal {
        cycle: u64,
        entries: u64,
    },
    /// More than 500,000 messages are in inboxes: so many.
    Mail {
        cycle: u64,
        messages: u64,
    },
}
