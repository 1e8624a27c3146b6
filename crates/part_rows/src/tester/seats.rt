// The sequencers of some controllers, which are moved to seats for the length of a turn and back again.
ghost use Rattle.std.specs.Prelude.{◌≡◌, ◌≤◌, ◌^◌, IfOk, length};

use crate::tester::lines::add_requests;
use example_texts::RowText;
use random_tester::Tester;
use ruby_base::NoMemory;
use sequencer::{Driver, DriverEnd, OwnedSeat, OwnedSeats, Sequencer};
use std::alloc::Global;
use std::mem;

// Takes the sequencers from where they are to seats that own them. Seat k is at controller 2 k + 1.
fn seats_of(alloc: Global, sequencers: &mut [Sequencer]) -> Result<OwnedSeats, NoMemory>
    requires { length sequencers.old ≤ 3 }
    ensures { IfOk result (λ s. length s.kept.seats ≡ length sequencers.old) }
{
    let mut seats = Vec::new(alloc);
    for sequencer in sequencers.iter_mut() {
        let controller = 2 * seats.len() as u32 + 1;
        let sequencer = Some(mem::replace(sequencer, Sequencer::new(alloc)));
        seats.push(OwnedSeat {
            controller,
            sequencer,
        })?;
    }
    Ok(OwnedSeats::new(alloc, seats))
}

// Puts the sequencers back where they were.
fn put_back(seats: &mut [OwnedSeat], sequencers: &mut [Sequencer]) {
    for (k, seat) in seats.iter_mut().enumerate() {
        if let Some(moved) = &mut seat.sequencer {
            if k < sequencers.len() {
                mem::swap(moved, &mut sequencers[k]);
            }
        }
    }
}

/// What comes of a turn: how many requests were issued, and how the driver's turn ended.
#[derive(Clone, Copy)]
pub(crate) struct Turned {
    pub(crate) issued: usize,
    pub(crate) end: DriverEnd,
}

/// The turn of a cycle of the tester over these sequencers, whose requests are added.
pub(crate) fn turn(
    rows: &mut RowText,
    now: u64,
    tester: &mut Tester,
    sequencers: &mut [Sequencer],
) -> Result<Turned, NoMemory>
    requires some { 1 ≤ length sequencers.old }
    requires few { length sequencers.old ≤ 3 }
    requires cycle { now ≤ 10 ^ 12 }
{
    let mut seats = seats_of(rows.alloc(), sequencers)?;
    if tester.reserve(now, &mut seats).is_err() {
        drop(seats);
        return Err(NoMemory);
    }
    seats.fits();
    let end = tester.turn(now, &mut seats);
    add_requests(rows, now, seats.issued());
    let issued = seats.issued().len();
    let mut seats = seats.into_seats();
    put_back(&mut seats, sequencers);
    drop(seats);
    Ok(Turned { issued, end })
}
