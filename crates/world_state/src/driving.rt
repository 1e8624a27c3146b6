//! The driver's part of a turn.
ghost use Rattle.std.specs.Prelude.{◌≡◌, ℕ, [], IfOk, OnErr};
ghost use Rattle.std.specs.List.{All};
ghost use Rattle.sequencer.specs.Prelude.{Drive};
ghost use Rattle.world_state.specs.Arrivals.{HasRoom};
ghost use Rattle.world_state.specs.Steps.{IsSame};
ghost use Rattle.world_state.specs.Driving.{CanAct, CanCome, CanEnd, HasRoomToAct, IsActed, IsBack, IsReadyToAct};
ghost use Rattle.world_state.specs.Requests.{HasRoomFor};
ghost use Rattle.world_state.specs.Turned.{IsDriven, numbers_of, requests_in};

use crate::all_seats::put_seats;
use crate::laws::{drives_are_lawful, places_stay_home, requests_can_arrive, seats_are_ready};
use crate::ready::{Ready, prepare};
use crate::requests::Requests;
use crate::seat::SeatAt;
use crate::{State, deliver};
use ruby_value::{Finding, MsgNo, NoMemory, Seq};
use sequencer::{Driver, OwnedSeats};
use std::alloc::Global;

/// What is told of a driver's part of a turn: the numbers of its requests, what it found, and how many messages were in inboxes before.
#[derive(Drop)]
pub(crate) struct Told {
    pub(crate) numbers: Seq<MsgNo>,
    pub(crate) finding: Option<Finding>,
    pub(crate) mail: u64,
}

// The driver acts at its seats, whose sequencers go back into their stores. It takes no memory.
fn act_at_seats<D: Driver>(
    st: &mut State<D>,
    seats: &[SeatAt],
    owned: OwnedSeats,
    requests: &mut Requests,
) -> Option<Finding>
    requires ready { IsReadyToAct D.least D.needs seats.now owned
        (D.drive st.old.driver owned.kept.seats st.old.now) st.old }
    requires room { HasRoomFor owned.room requests.old }
    requires none { requests.old.messages.items ≡ [] }
    ensures finding { result ≡ (D.drive st.old.driver owned.kept.seats st.old.now).finding }
    ensures messages { requests.new.messages.items ≡ requests_in seats.now st.old
        (D.drive st.old.driver owned.kept.seats st.old.now) }
    ensures numbers { requests.new.numbers.items ≡ numbers_of requests.new.messages.items }
    ensures back { IsBack seats.now owned.kept
        (D.drive st.old.driver owned.kept.seats st.old.now) st.old st.new }
    ensures room { (n : ℕ) → All (HasRoom n) st.old.places.items
        → All (HasRoom n) st.new.places.items }
{
    let mut owned = owned;
    let first = MsgNo {
        sender: st.places.len() as u32,
        count: st.issued,
    };
    let end = st.driver.turn(st.now, &mut owned);
    requests.fill(seats, first, st.now, owned.issued());
    put_seats(&mut st.places, seats, owned.into_seats());
    st.next = end.next;
    end.finding
}

// The driver acts at its seats, and the messages of its requests come to their receivers. It takes no memory.
fn act<D: Driver>(st: &mut State<D>, seats: &[SeatAt], ready: Ready) -> Told
    requires ready { IsReadyToAct D.least D.needs seats.now ready.owned
        (D.drive st.old.driver ready.owned.kept.seats st.old.now) st.old }
    requires room { HasRoomToAct ready.owned.room ready.room st.old }
    requires come { CanCome seats.now ready.owned.kept
        (D.drive st.old.driver ready.owned.kept.seats st.old.now) st.old }
    ensures numbers { result.numbers ≡ numbers_of (requests_in seats.now st.old
        (D.drive st.old.driver ready.owned.kept.seats st.old.now)) }
    ensures finding { result.finding
        ≡ (D.drive st.old.driver ready.owned.kept.seats st.old.now).finding }
    ensures mail { result.mail ≡ ready.room.mail }
    ensures acted { IsActed seats.now ready.owned.kept
        (D.drive st.old.driver ready.owned.kept.seats st.old.now) st.old st.new }
{
    let Ready { owned, room } = ready;
    let mut requests = room.requests;
    let finding = act_at_seats(st, seats, owned, &mut requests);
    let (messages, numbers) = requests.into_parts();
    st.issued += numbers.len() as u64;
    deliver(&mut st.places, messages);
    Told {
        numbers,
        finding,
        mail: room.mail,
    }
}

/// The driver acts at these seats, and the messages of its requests come to their receivers. Without memory the data stay as they were.
pub(crate) fn drive<D: Driver>(
    alloc: Global,
    st: &mut State<D>,
    seats: &[SeatAt],
) -> Result<Told, NoMemory>
    requires { CanAct D.least D.drive seats.now st.old }
    ensures driven { IfOk result (λ told. (d : Drive D) × IsDriven D.drive seats.now d st.old st.new
        × (told.numbers ≡ numbers_of (requests_in seats.now st.old d)) × (told.finding ≡ d.finding)) }
    ensures end { IfOk result (λ told. CanEnd told st.new) }
    ensures err { OnErr result (IsSame st.old st.new) }
{
    seats_are_ready::<D>();
    drives_are_lawful::<D>();
    requests_can_arrive::<D>();
    places_stay_home();
    let ready = prepare(alloc, st, seats)?;
    Ok(act(st, seats, ready))
}
