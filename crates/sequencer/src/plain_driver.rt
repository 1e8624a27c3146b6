ghost use Rattle.std.specs.Prelude.{◌≡◌, ◌≤◌};
ghost use Rattle.sequencer.specs.Drive.{after_drive};
ghost use Rattle.sequencer.specs.PlainDriver.{plain_drive, plain_load, plain_needs};
ghost use Rattle.sequencer.specs.PlainLaw.{plain_lawful, plain_lasting};
ghost use Rattle.sequencer.specs.Seats.{FitSeats};

use crate::{Ask, Asked, Driver, DriverEnd, NoMemory, Seats};
use std::marker::Model;

/// The driver that issues one load of four bytes at offset 0 of line 0 at seat 0 in each cycle below a number. A contract sees it
/// as that number.
#[derive(Drop)]
pub struct PlainDriver {
    requests: u64,
}

impl Model for PlainDriver {
    ghost use Rattle.std.specs.Prelude.{ℕ};

    ghost Value = { ℕ };

    ghost view = { λ d. d.requests };
}

impl PlainDriver {
    /// The driver that issues so many requests. It takes no memory.
    pub fn new(requests: u64) -> PlainDriver
        ensures { result ≡ requests }
    {
        PlainDriver { requests }
    }

    // Issues the load of a cycle, where it has one.
    fn act<S: Seats>(&self, now: u64, seats: &mut S)
        requires seats { FitSeats 1 (S.view seats.old).kept.seats }
        requires reserved { plain_needs self.now now ≤ (S.view seats.old).room }
        ensures { (S.view seats.new).kept ≡ after_drive (S.view seats.old).kept
            (plain_drive self.now (S.view seats.old).kept.seats now) }
    {
        if now < self.requests {
            let _issued = seats.issue(0, load_at(now));
        }
    }
}

// The load that is issued in a cycle.
fn load_at(now: u64) -> Asked
    ensures { result ≡ plain_load now }
{
    Asked {
        line: 0,
        kind: Ask::Load,
        offset: 0,
        size: 4,
        byte: 0,
        issued: now,
    }
}

impl Driver for PlainDriver {
    ghost drive = { plain_drive };

    ghost needs = { plain_needs };

    ghost least = { λ _. 1 };

    ghost opening = { λ d. d };

    ghost lawful = { plain_lawful };

    ghost lasting = { plain_lasting };

    fn reserve<S: Seats>(&self, now: u64, seats: &mut S) -> Result<(), NoMemory> {
        if now < self.requests {
            return seats.reserve(1);
        }
        Ok(())
    }

    fn turn<S: Seats>(&mut self, now: u64, seats: &mut S) -> DriverEnd {
        self.act(now, seats);
        let next = match now.checked_add(1) {
            Some(next) if next < self.requests => Some(next),
            _ => None,
        };
        DriverEnd {
            next,
            finding: None,
        }
    }
}
