ghost use Rattle.std.specs.Prelude.{◌≡◌, ◌≤◌, ◌<◌, ◌^◌, ℕ, [], OnOk, length, vec_len};
ghost use Rattle.std.specs.List.{All, AllPairs};
ghost use Rattle.sequencer.specs.OwnedSeats.{HasRoom, seats_of};
ghost use Rattle.sequencer.specs.Seats.{AreApart, FitSeats, FitsSeat};

use crate::{Answer, Asked, Issued, NoMemory, OwnedSeat, Seats};
use std::alloc::Global;
use std::marker::Model;

/// The seats of a driver's turn, which own their sequencers for the length of it: who has the sequencers moves them in, and
/// out again after the turn. A contract sees them as a driver does, and beside that for how many more requests there is room. No
/// two of them are at one controller.
#[derive(Drop)]
pub struct OwnedSeats {
    seats: Vec<OwnedSeat>,
    issued: Vec<Issued>,
    room: usize,
}

impl Model for OwnedSeats {
    ghost use Rattle.std.specs.Prelude.{length, vec_capacity};
    ghost use Rattle.ruby_value.specs.Prelude.{Roomy, roomy_code};
    ghost use Rattle.sequencer.specs.OwnedSeats.{AreOwned, seats_of};
    ghost use Rattle.sequencer.specs.Seats.{Seating, seating_code};

    ghost Value = { Roomy Seating };

    ghost coded = { roomy_code seating_code };

    ghost view = { λ s. record { kept = record { seats = seats_of s.seats.items; issued = s.issued.items }; room = s.room } };

    ghost invariant = { λ s. AreOwned s.seats.items (length s.issued.items) (vec_capacity s.issued) s.room };
}

// Each of these seats fits a driver.
fn each_fits(seats: &[OwnedSeat])
    ensures { All FitsSeat (seats_of seats.now) }
{
    for seat in seats {
        seat.fits();
    }
}

// Makes room for so many more requests at each of these seats.
fn reserve_each(seats: &mut [OwnedSeat], requests: u32) -> Result<(), NoMemory>
    ensures same { seats_of seats.new ≡ seats_of seats.old }
    ensures ok { OnOk result (All (HasRoom requests) seats.new) }
    ensures no_less { (n : ℕ) → All (HasRoom n) seats.old → All (HasRoom n) seats.new }
{
    for seat in seats.iter_mut() {
        seat.reserve(requests)?;
    }
    Ok(())
}

impl OwnedSeats {
    /// These seats, at which nothing was issued, without room for a request. It takes no memory.
    pub fn new(alloc: Global, seats: Vec<OwnedSeat>) -> OwnedSeats
        requires few { vec_len seats < 2 ^ 32 }
        requires apart { AllPairs AreApart (seats_of seats.items) }
        ensures seats { result.kept ≡ record { seats = seats_of seats.items; issued = [] } }
        ensures room { result.room ≡ 0 }
    {
        OwnedSeats {
            seats,
            issued: Vec::new(alloc),
            room: 0,
        }
    }

    /// A driver that needs no more seats than there are may act at them. The call does nothing but say so.
    pub fn fits(&self)
        ensures { (least : ℕ) → least ≤ length self.now.kept.seats
            → FitSeats least self.now.kept.seats }
    {
        each_fits(&self.seats);
    }

    /// For how many more requests there is room. A turn for which room was made issues no more.
    pub fn room(&self) -> usize
        ensures { result ≡ self.now.room }
    {
        self.room
    }

    /// The requests that were issued, in their order.
    pub fn issued(&self) -> &[Issued]
        ensures { result.now ≡ self.now.kept.issued }
    {
        &self.issued
    }

    /// Gives the seats back with their sequencers, in their order.
    pub fn into_seats(self) -> Vec<OwnedSeat>
        ensures { seats_of result.items ≡ self.kept.seats }
    {
        self.seats
    }
}

impl Seats for OwnedSeats {
    ghost view = { λ s. s };

    fn count(&self) -> u32 {
        self.seats.len() as u32
    }

    fn controller(&self, k: u32) -> u32 {
        self.seats[k as usize].controller
    }

    fn take_done(&mut self, k: u32) -> Option<Answer> {
        let seat = &mut self.seats[k as usize];
        seat.take_done()
    }

    fn next_after(&self, k: u32, line: Option<u64>) -> Option<Asked> {
        let seat = &self.seats[k as usize];
        seat.next_after(line)
    }

    fn reserve(&mut self, requests: u32) -> Result<(), NoMemory> {
        if requests as usize <= self.room {
            return Ok(());
        }
        self.issued.reserve(requests as usize)?;
        reserve_each(&mut self.seats, requests)?;
        self.room = requests as usize;
        Ok(())
    }

    fn issue(&mut self, k: u32, a: Asked) -> bool {
        let seat = &mut self.seats[k as usize];
        if !seat.issue(a) {
            return false;
        }
        self.room -= 1;
        self.issued.push_reserved(Issued { seat: k, asked: a });
        true
    }
}
