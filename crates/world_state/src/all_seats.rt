//! How the sequencers of all seats move out of their stores, and back.
ghost use Rattle.std.specs.Prelude.{◌≡◌, ℕ, List, IfOk, OnErr, OnOk, length, reverse, vec_len};
ghost use Rattle.std.specs.List.{All, AllPairs};
ghost use Rattle.ctl_face.specs.Prelude.{Ctl};
ghost use Rattle.protocol_runs.specs.Prelude.{seats_in};
ghost use Rattle.sequencer.specs.Prelude.{seats_of, Seat};
ghost use Rattle.world_state.specs.Prelude.{HasRoom, made_in, places_with, IsHomeIn, controllers_in, seated, setups_in};
ghost use Rattle.world_state.specs.Seated.{AreApart};

use crate::Place;
use crate::seat::SeatAt;
use crate::turns::{put_at, take_at};
use ruby_value::NoMemory;
use sequencer::OwnedSeat;
use std::alloc::Global;

/// Moves the sequencers of a driver's seats out of their stores, or answers that there is no memory for it, and then all is as it was.
/// Where sequencers with whatever requests are put back, it is as if they had been put into the stores before.
pub fn take_seats(
    alloc: Global,
    places: &mut Vec<Place>,
    seats: &[SeatAt],
) -> Result<Vec<OwnedSeat>, NoMemory>
    requires home { All (λ a. IsHomeIn (made_in places.old.items) a.controller) seats.now }
    requires apart { AllPairs AreApart seats.now }
    ensures seats { IfOk result (λ out. (held : Ctl) → seats_of out.items
        ≡ seats_in (setups_in seats.now) (controllers_in (places_with held places.old.items))) }
    ensures rest { OnOk result ((held : Ctl) (put : List Seat) → length put ≡ length seats.now
        → seated seats.now (places_with held places.new.items) put
        ≡ seated seats.now (places_with held places.old.items) put) }
    ensures made { made_in places.new.items ≡ made_in places.old.items }
    ensures err { OnErr result ((held : Ctl)
        → places_with held places.new.items ≡ places_with held places.old.items) }
{
    let mut out = Vec::new(alloc);
    out.reserve(seats.len())?;
    for a in seats {
        let sequencer = take_at(places, *a);
        out.push_reserved(OwnedSeat {
            controller: a.controller,
            sequencer,
        });
    }
    Ok(out)
}

// Puts sequencers into the stores of seats, from the last one on.
fn put_all(places: &mut Vec<Place>, seats: &[SeatAt], mut newest_first: Vec<OwnedSeat>)
    requires home { All (λ a. IsHomeIn (made_in places.old.items) a.controller) seats.now }
    requires count { vec_len newest_first ≡ length seats.now }
    ensures places { (held : Ctl) → places_with held places.new.items
        ≡ seated seats.now (places_with held places.old.items)
        (seats_of (reverse newest_first.items)) }
    ensures made { made_in places.new.items ≡ made_in places.old.items }
    ensures room { (n : ℕ) → All (HasRoom n) places.old.items
        → All (HasRoom n) places.new.items }
{
    for a in seats {
        let Some(seat) = newest_first.pop() else {
            unreachable!()
        };
        put_at(places, *a, seat.sequencer);
    }
}

/// Puts the sequencers of a driver's seats into their stores. It takes no memory.
pub fn put_seats(places: &mut Vec<Place>, seats: &[SeatAt], put: Vec<OwnedSeat>)
    requires home { All (λ a. IsHomeIn (made_in places.old.items) a.controller) seats.now }
    requires count { vec_len put ≡ length seats.now }
    ensures places { (held : Ctl) → places_with held places.new.items
        ≡ seated seats.now (places_with held places.old.items) (seats_of put.items) }
    ensures made { made_in places.new.items ≡ made_in places.old.items }
    ensures room { (n : ℕ) → All (HasRoom n) places.old.items
        → All (HasRoom n) places.new.items }
{
    let mut newest_first = put;
    newest_first.reverse();
    put_all(places, seats, newest_first);
}
