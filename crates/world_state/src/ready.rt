//! What is taken for a turn of the driver before anything changes.
ghost use Rattle.std.specs.Prelude.{◌≡◌, ◌≤◌, ◌-◌, ◌^◌, IfOk, OnErr, OnOk, length};
ghost use Rattle.world_state.specs.Steps.{IsSame};
ghost use Rattle.world_state.specs.Driving.{AreOut, CanAct, HasRoomToAct};
ghost use Rattle.world_state.specs.Turned.{messages_in};

use crate::all_seats::{put_seats, take_seats};
use crate::requests::Requests;
use crate::{Book, SeatAt, State, room_for_all, seats_are_put_back, seats_are_ready};
use ruby_value::NoMemory;
use sequencer::{Driver, OwnedSeats};
use std::alloc::Global;

/// Room for what a driver may issue at its turn, and how many messages are in inboxes before it.
#[derive(Drop)]
pub(crate) struct Room {
    pub(crate) requests: Requests,
    pub(crate) mail: u64,
}

/// The driver's seats, which own their sequencers, and room for what it may issue there.
#[derive(Drop)]
pub(crate) struct Ready {
    pub(crate) owned: OwnedSeats,
    pub(crate) room: Room,
}

// How many messages are in inboxes.
fn mail_in(book: &Book) -> u64
    ensures value { result ≡ messages_in book.now.journal }
    ensures few { result ≤ 2 ^ 64 - 2 ^ 32 }
{
    book.sent().saturating_sub(book.consumed())
}

// Takes memory for all that a driver may issue at these seats, or answers that there is none.
fn room_at<D: Driver>(
    alloc: Global,
    st: &mut State<D>,
    owned: &mut OwnedSeats,
) -> Result<Room, NoMemory>
    requires seats { D.least st.old.driver ≤ length owned.old.kept.seats }
    requires cycle { st.old.now ≤ 10 ^ 12 }
    ensures kept { owned.new.kept ≡ owned.old.kept }
    ensures same { IsSame st.old st.new }
    ensures reserved { OnOk result (D.needs st.old.driver st.old.now ≤ owned.new.room) }
    ensures ok { IfOk result (λ room. HasRoomToAct owned.new.room room st.new) }
{
    st.driver.reserve(st.now, owned)?;
    let requests = owned.room();
    st.book.reserve(1, 1, requests, 0)?;
    room_for_all(&mut st.places, requests as u32)?;
    let mail = mail_in(&st.book);
    let requests = Requests::with_room(alloc, requests)?;
    Ok(Room { requests, mail })
}

/// Moves the sequencers of the driver's seats out of their stores, and takes memory for all that it may issue there. Without memory the
/// data stay as they were.
pub(crate) fn prepare<D: Driver>(
    alloc: Global,
    st: &mut State<D>,
    seats: &[SeatAt],
) -> Result<Ready, NoMemory>
    requires { CanAct D.least D.drive seats.now st.old }
    ensures out { IfOk result (λ r. AreOut seats.now r.owned.kept st.old st.new) }
    ensures reserved { IfOk result (λ r. D.needs st.old.driver st.old.now ≤ r.owned.room) }
    ensures room { IfOk result (λ r. HasRoomToAct r.owned.room r.room st.new) }
    ensures err { OnErr result (IsSame st.old st.new) }
{
    seats_are_ready::<D>();
    seats_are_put_back();
    let taken = take_seats(alloc, &mut st.places, seats)?;
    let mut owned = OwnedSeats::new(alloc, taken);
    match room_at(alloc, st, &mut owned) {
        Ok(room) => Ok(Ready { owned, room }),
        Err(e) => {
            put_seats(&mut st.places, seats, owned.into_seats());
            Err(e)
        }
    }
}
