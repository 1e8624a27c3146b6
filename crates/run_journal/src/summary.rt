use ruby_value::Ascends;

/// The next state of the last transition that a controller fired for an address. Controllers are counted from 0, the address is a byte
/// address, and the state is its number in the controller's machine.
#[derive(Clone, Copy)]
pub struct Final {
    pub controller: u32,
    pub address: u64,
    pub state: u16,
}

impl Ascends for Final {
    ghost use Rattle.run_journal.specs.FinalBefore.{final_before};

    ghost comes_before = { final_before };

    fn comes_before(&self, other: &Final) -> bool {
        self.controller < other.controller
            || (self.controller == other.controller && self.address < other.address)
    }
}

/// Where the message copies of a run have gone: how many were sent, requests of the driver included, and how many of
/// them are in each place. Each copy that was sent is in one place. Nothing in gem5 counts them so.
#[derive(Clone, Copy)]
pub struct Account {
    pub sent: u64,
    /// Removed from their buffer by `dequeue`.
    pub consumed: u64,
    /// In an inbox, waiting under no line and never put back by `recycle`.
    pub queued: u64,
    /// In an inbox, waiting under a line.
    pub stalled: u64,
    /// In an inbox, waiting under no line, and put back by `recycle`.
    pub recycled: u64,
}

/// How many events of each kind a worker has in a history. Workers are counted from 0.
#[derive(Clone, Copy)]
pub struct Tally {
    pub worker: u32,
    pub takes: u64,
    pub fires: u64,
    pub dones: u64,
    pub releases: u64,
    pub turns: u64,
}
