//! The messages of the requests that a driver issues, and how messages and credits come to controllers.
ghost use Rattle.std.specs.Prelude.{◌≡◌, ◌<◌, ◌≤◌, ◌+◌, ◌++◌, ◌^◌, ℕ, [], IfOk, length, slice_get, ◌∷◌, List, OnOk, reverse, vec_len};
ghost use Rattle.std.specs.List.{All};
ghost use Rattle.ruby_value.specs.Prelude.{IsRequest};
ghost use Rattle.protocol_runs.specs.Prelude.{member_of, request_at, request_fields, request_messages};
ghost use Rattle.sequencer.specs.declared.issued.Issued.{Issued};
ghost use Rattle.world_state.specs.Seated.{setups_in};
ghost use Rattle.world_state.specs.Requests.{HasRoomFor, IsFieldRoom};
ghost use Rattle.world_state.specs.Turned.{numbers_of};
ghost use Rattle.ruby_value.specs.declared.message.Delivery.{Delivery};
ghost use Rattle.ctl_face.specs.declared.parcel.Parcel.{Parcel};
ghost use Rattle.ctl_face.specs.Prelude.{Ctl};
ghost use Rattle.world_state.specs.Arrivals.{CanArrive, HasRoom, TakesAt, delivered, delivered_one};
ghost use Rattle.world_state.specs.Places.{made_in, places_with};

use crate::{Place, SeatAt};
use ctl_face::Parcel;
use ruby_value::{Ask, Asked, Delivery, Fields, Message, MsgNo, NoMemory, Seq, Value};
use sequencer::Issued;
use std::alloc::Global;

/// The messages of requests and their numbers, and lists for the fields of those to come, with the room that all of these need.
#[derive(Drop)]
pub(crate) struct Requests {
    fields: Vec<Vec<Value>>,
    messages: Vec<Delivery<Parcel>>,
    numbers: Vec<MsgNo>,
}

fn member_of(kind: Ask) -> u16
    ensures { result ≡ member_of kind }
{
    match kind {
        Ask::Load => 0,
        Ask::Store => 1,
        Ask::Fetch => 2,
    }
}

// The fields of the message of a request, in an empty list with room for them.
fn request_fields(room: Vec<Value>, a: Asked) -> Fields
    requires room { IsFieldRoom room }
    requires request { IsRequest a }
    ensures { result ≡ request_fields a }
{
    let mut fields = room;
    let line = a.line * 64;
    fields.push_reserved(Value::Addr(line));
    fields.push_reserved(Value::Addr(line + a.offset as u64));
    fields.push_reserved(Value::Enum(2, member_of(a.kind)));
    fields.push_reserved(Value::Int(a.size as i64));
    Fields::of(fields)
}

// Empty lists, so many, each with room for the fields of a request.
fn empty_fields(alloc: Global, lists: usize) -> Result<Vec<Vec<Value>>, NoMemory>
    ensures { IfOk result (λ lists_made. (lists ≤ length lists_made.items) × All IsFieldRoom lists_made.items) }
{
    let mut made = Vec::new(alloc);
    for _ in 0..lists {
        made.push(Vec::with_capacity(alloc, 4)?)?;
    }
    Ok(made)
}

impl Requests {
    /// No requests yet, with room for so many.
    pub(crate) fn with_room(alloc: Global, requests: usize) -> Result<Requests, NoMemory>
        ensures none { IfOk result (λ r. r.messages.items ≡ []) }
        ensures room { IfOk result (λ r. HasRoomFor requests r) }
    {
        let messages = Vec::with_capacity(alloc, requests)?;
        let numbers = Vec::with_capacity(alloc, requests)?;
        let fields = empty_fields(alloc, requests)?;
        Ok(Requests {
            fields,
            messages,
            numbers,
        })
    }

    // A request more, for which there is room, where its seat is there. It takes no memory.
    fn push(&mut self, seats: &[SeatAt], number: MsgNo, now: u64, i: Issued)
        requires room { HasRoomFor 1 self.old }
        requires request { IsRequest i.asked }
        requires now { now < 2 ^ 63 }
        ensures messages { self.new.messages.items ≡ self.old.messages.items
            ++ request_at (slice_get (setups_in seats.now) i.seat) number now i.asked }
        ensures room { (n : ℕ) → HasRoomFor (n + 1) self.old → HasRoomFor n self.new }
    {
        let Some(seat) = seats.get(i.seat as usize) else {
            return;
        };
        let Some(room) = self.fields.pop() else {
            unreachable!()
        };
        self.numbers.push_reserved(number);
        self.messages.push_reserved(Delivery {
            receiver: seat.controller,
            message: Parcel::Message(Message {
                number,
                buffer: seat.queue,
                arrival: now + 1,
                recycled: false,
                fields: request_fields(room, i.asked),
            }),
        });
    }

    /// The requests that a driver of this number issues at its seats in a cycle, where its numbers go on from this count. There is
    /// room for them, and it takes no memory.
    pub(crate) fn fill(&mut self, seats: &[SeatAt], first: MsgNo, now: u64, issued: &[Issued])
        requires none { self.old.messages.items ≡ [] }
        requires room { HasRoomFor (length issued.now) self.old }
        requires requests { All (λ (i : Issued). IsRequest i.asked) issued.now }
        requires now { now < 2 ^ 63 }
        requires count { first.count + length issued.now < 2 ^ 64 }
        ensures messages { self.new.messages.items
            ≡ request_messages (setups_in seats.now) first.sender first.count now issued.now }
        ensures numbers { self.new.numbers.items ≡ numbers_of self.new.messages.items }
    {
        let mut count = first.count;
        for i in issued {
            let number = MsgNo {
                sender: first.sender,
                count,
            };
            self.push(seats, number, now, *i);
            count += 1;
        }
    }

    /// The messages and their numbers.
    pub(crate) fn into_parts(self) -> (Seq<Delivery<Parcel>>, Seq<MsgNo>)
        ensures messages { result.0 ≡ self.messages.items }
        ensures numbers { result.1 ≡ self.numbers.items }
    {
        (Seq::of(self.messages), Seq::of(self.numbers))
    }
}

/// Makes room for so many messages and credits at each controller that nobody holds, if there are to be any, or answers that there is no
/// memory for them.
pub fn room_for_all(places: &mut [Place], parcels: u32) -> Result<(), NoMemory>
    ensures same { (held : Ctl) → places_with held places.new ≡ places_with held places.old }
    ensures made { made_in places.new ≡ made_in places.old }
    ensures ok { OnOk result (0 < parcels → All (HasRoom parcels) places.new) }
{
    if parcels == 0 {
        return Ok(());
    }
    for place in places.iter_mut() {
        place.room(parcels)?;
    }
    Ok(())
}

// A message or a credit comes to its receiver.
fn deliver_one(places: &mut Vec<Place>, d: Delivery<Parcel>)
    requires takes { TakesAt places.old.items d }
    requires room { All (HasRoom 1) places.old.items }
    ensures places { (held : Ctl) → places_with held places.new.items
        ≡ delivered_one (places_with held places.old.items) d }
    ensures made { made_in places.new.items ≡ made_in places.old.items }
    ensures can { (ds : List (Delivery Parcel)) → CanArrive places.old.items (d ∷ ds)
        → CanArrive places.new.items ds }
    ensures room { (n : ℕ) → All (HasRoom (n + 1)) places.old.items
        → All (HasRoom n) places.new.items }
{
    let Delivery { receiver, message } = d;
    let place = &mut places[receiver as usize];
    place.arrive(message);
}

// Messages and credits come to their receivers, from the last one on.
fn deliver_all(places: &mut Vec<Place>, mut newest_first: Vec<Delivery<Parcel>>)
    requires can { CanArrive places.old.items (reverse newest_first.items) }
    requires room { All (HasRoom (vec_len newest_first)) places.old.items }
    ensures places { (held : Ctl) → places_with held places.new.items
        ≡ delivered (places_with held places.old.items) (reverse newest_first.items) }
    ensures made { made_in places.new.items ≡ made_in places.old.items }
{
    while let Some(d) = newest_first.pop() {
        deliver_one(places, d);
    }
}

/// Messages and credits come to their receivers, one after another. It takes no memory.
#[tactic(auto, using(crate::proofs::ArrivingAt::twice_reversed))]
pub fn deliver(places: &mut Vec<Place>, deliveries: Seq<Delivery<Parcel>>)
    requires can { CanArrive places.old.items deliveries }
    requires room { 0 < length deliveries → All (HasRoom (length deliveries)) places.old.items }
    ensures places { (held : Ctl) → places_with held places.new.items
        ≡ delivered (places_with held places.old.items) deliveries }
    ensures made { made_in places.new.items ≡ made_in places.old.items }
{
    if deliveries.is_empty() {
        return;
    }
    let mut newest_first = deliveries.into_vec();
    newest_first.reverse();
    deliver_all(places, newest_first);
}
