ghost use Rattle.std.specs.Prelude.{◌≡◌, ◌≤◌, ◌^◌, ℕ, List, OnOk, length};
ghost use Rattle.sequencer.specs.Drive.{Drive, IsLawful, after_drive};
ghost use Rattle.sequencer.specs.Seats.{FitSeats, Seat, Seating};

use crate::{Finding, NoMemory, Seats};

/// How a driver's turn ended.
#[derive(Clone, Copy)]
pub struct DriverEnd {
    /// The next cycle that the run must come to on the driver's account, if any.
    pub next: Option<u64>,
    /// What the driver has found, which ends the run.
    pub finding: Option<Finding>,
}

/// What issues the requests of a run and takes their answers, at the end of each cycle that the run comes to. A run comes to a
/// cycle, which is at most 10^12, on a controller's account or on the driver's own. What a driver is and does is given by its
/// ghost members: `drive` is what it does at seats in a cycle, `needs` how many requests its turn of a cycle
/// may issue at most, `least` how many seats it needs, and `opening` the driver as its constructor made it.
///
/// What always holds is said by two laws, over any driver, seats that fit it and a cycle: `lawful` says what a turn may do, and
/// `lasting` that no turn changes how many seats a driver needs, or its opening.
pub trait Driver: Send + Drop {
    ghost drive: { Self → List Seat → ℕ → Drive Self };

    ghost needs: { Self → ℕ → ℕ };

    ghost least: { Self → ℕ };

    ghost opening: { Self → Self };

    /// Makes room for what the turn of a cycle may issue, or answers that there is no memory for it. The seats stay as they
    /// are.
    fn reserve<S: Seats>(&self, now: u64, seats: &mut S) -> Result<(), NoMemory>
        requires seats { least self.now ≤ length (S.view seats.old).kept.seats }
        requires cycle { now ≤ 10 ^ 12 }
        ensures same { (S.view seats.new).kept ≡ (S.view seats.old).kept }
        ensures ok { OnOk result (needs self.now now ≤ (S.view seats.new).room) }
        ensures no_less { (S.view seats.old).room ≤ (S.view seats.new).room };

    /// The turn of a cycle, for which room was made, at seats that fit. They fit for the next turn too. It takes no memory.
    fn turn<S: Seats>(&mut self, now: u64, seats: &mut S) -> DriverEnd
        requires seats { FitSeats (least self.old) (S.view seats.old).kept.seats }
        requires cycle { now ≤ 10 ^ 12 }
        requires reserved { needs self.old now ≤ (S.view seats.old).room }
        ensures driver { self.new ≡ (drive self.old (S.view seats.old).kept.seats now).driver }
        ensures seats { (S.view seats.new).kept ≡ after_drive (S.view seats.old).kept
            (drive self.old (S.view seats.old).kept.seats now) }
        ensures fit { FitSeats (least self.new) (S.view seats.new).kept.seats }
        ensures next { result.next ≡ (drive self.old (S.view seats.old).kept.seats now).next }
        ensures finding { result.finding
            ≡ (drive self.old (S.view seats.old).kept.seats now).finding };

    ghost lawful: { (d : Self) (s : Seating) (now : ℕ)
        → FitSeats (least d) s.seats → now ≤ 10 ^ 12
        → IsLawful (needs d now) now s (drive d s.seats now) };

    ghost lasting: { (d : Self) (seats : List Seat) (now : ℕ)
        → (least (drive d seats now).driver ≡ least d)
        × (opening (drive d seats now).driver ≡ opening d) };
}
