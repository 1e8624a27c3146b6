//! What waits for controllers: messages and credits that were sent to them and aren't in their stores yet, for each controller in the order
//! in which they were sent. What is sent to a controller waits beside it, whether a worker holds it or not, and comes into its store
//! when it is taken, or at the turn.
ghost use Rattle.std.specs.Prelude.{◌≡◌, ◌≢◌, ◌<◌, ◌+◌, ◌++◌, ◌∷◌, ℕ, List, [], IfOk, IsSomeAnd, OnErr, OnOk, length, reverse, slice_get, vec_len};
ghost use Rattle.std.specs.List.{All, AllPairs};
ghost use Rattle.ruby_value.specs.declared.message.Delivery.{Delivery};
ghost use Rattle.ctl_face.specs.declared.parcel.Parcel.{Parcel};
ghost use Rattle.protocol_runs.specs.Prelude.{messages_for};
ghost use Rattle.world_state.specs.Arrivals.{HasRoom, HaveOwnNumbers, Takes};
ghost use Rattle.world_state.specs.Places.{made_in};
ghost use Rattle.world_state.specs.Waiting.{CanSettle, Comes, ComesWithRoom, HasCome, HasListRoom, HasPartlyCome, HasRoomToPost, waiting_at};

use crate::place::Place;
use ctl_face::Parcel;
use ruby_value::{Delivery, NoMemory, Seq};
use std::alloc::Global;

/// Nothing waits for any of `controllers` controllers.
pub fn no_waiting(alloc: Global, controllers: usize) -> Result<Vec<Vec<Parcel>>, NoMemory>
    ensures count { IfOk result (λ lists. length lists.items ≡ controllers) }
    ensures none { IfOk result (λ lists. All (λ v. v.items ≡ []) lists.items) }
{
    let mut lists = Vec::new(alloc);
    for _ in 0..controllers {
        lists.push(Vec::new(alloc))?;
    }
    Ok(lists)
}

/// Makes room for what is to wait for its receivers, or answers that there is no memory for it.
pub fn room_to_post(
    waiting: &mut Vec<Vec<Parcel>>,
    posted: &[Delivery<Parcel>],
) -> Result<(), NoMemory>
    requires there { All (λ d. d.receiver < length waiting.old.items) posted.now }
    ensures count { length waiting.new.items ≡ length waiting.old.items }
    ensures same { (c : ℕ) → waiting_at waiting.new.items c ≡ waiting_at waiting.old.items c }
    ensures ok { OnOk result (HasRoomToPost (length posted.now) posted.now waiting.new.items) }
{
    let count = posted.len();
    for d in posted {
        let list = &mut waiting[d.receiver as usize];
        list.reserve(count)?;
    }
    Ok(())
}

// A message or a credit is to wait for its receiver.
fn post_one(waiting: &mut Vec<Vec<Parcel>>, d: Delivery<Parcel>)
    requires { IsSomeAnd (slice_get waiting.old.items d.receiver) (HasListRoom 1) }
    ensures count { length waiting.new.items ≡ length waiting.old.items }
    ensures after { (c : ℕ) → waiting_at waiting.new.items c
        ≡ waiting_at waiting.old.items c ++ messages_for c (d ∷ []) }
    ensures room { (n : ℕ) (ds : List (Delivery Parcel)) → HasRoomToPost (n + 1) ds waiting.old.items
        → HasRoomToPost n ds waiting.new.items }
{
    let Delivery { receiver, message } = d;
    let list = &mut waiting[receiver as usize];
    list.push_reserved(message);
}

// Messages and credits are to wait for their receivers, from the last one on.
fn post_all(waiting: &mut Vec<Vec<Parcel>>, mut newest_first: Vec<Delivery<Parcel>>)
    requires { HasRoomToPost (vec_len newest_first) (reverse newest_first.items) waiting.old.items }
    ensures count { length waiting.new.items ≡ length waiting.old.items }
    ensures after { (c : ℕ) → waiting_at waiting.new.items c
        ≡ waiting_at waiting.old.items c ++ messages_for c (reverse newest_first.items) }
{
    while let Some(d) = newest_first.pop() {
        post_one(waiting, d);
    }
}

/// Messages and credits are to wait for their receivers, one after another. It takes no memory.
#[tactic(auto, using(crate::proofs::ArrivingAt::twice_reversed))]
pub fn post(waiting: &mut Vec<Vec<Parcel>>, posted: Seq<Delivery<Parcel>>)
    requires { HasRoomToPost (length posted) posted waiting.old.items }
    ensures count { length waiting.new.items ≡ length waiting.old.items }
    ensures after { (c : ℕ) → waiting_at waiting.new.items c
        ≡ waiting_at waiting.old.items c ++ messages_for c posted }
{
    let mut newest_first = posted.into_vec();
    newest_first.reverse();
    post_all(waiting, newest_first);
}

// What waits for a controller comes to it, which nobody holds. It takes no memory.
fn settle(place: &mut Place, list: &mut Vec<Parcel>)
    requires takes { All (λ p. Takes p place.old) list.old.items }
    requires apart { AllPairs HaveOwnNumbers list.old.items }
    requires room { HasRoom (length list.old.items) place.old }
    ensures comes { HasCome list.old.items place.old place.new }
    ensures room { HasRoom 0 place.new }
    ensures none { list.new.items ≡ [] }
{
    list.reverse();
    while let Some(p) = list.pop() {
        place.arrive(p);
    }
}

/// What waits for a controller that nobody holds comes to it, and there is room for one mark more there. Without memory it still waits.
pub fn settle_at(
    places: &mut Vec<Place>,
    waiting: &mut Vec<Vec<Parcel>>,
    c: usize,
) -> Result<(), NoMemory>
    requires { CanSettle c places.old.items waiting.old.items }
    ensures count { length places.new.items ≡ length places.old.items }
    ensures lists { length waiting.new.items ≡ length waiting.old.items }
    ensures made { made_in places.new.items ≡ made_in places.old.items }
    ensures others { (d : ℕ) → d ≢ c → slice_get places.new.items d ≡ slice_get places.old.items d }
    ensures rest { (d : ℕ) → d ≢ c → waiting_at waiting.new.items d ≡ waiting_at waiting.old.items d }
    ensures ok { OnOk result (ComesWithRoom (waiting_at waiting.old.items c)
        (slice_get places.old.items c) (slice_get places.new.items c)) }
    ensures none { OnOk result (waiting_at waiting.new.items c ≡ []) }
    ensures err { OnErr result (Comes [] (slice_get places.old.items c) (slice_get places.new.items c)) }
    ensures same { OnErr result (waiting_at waiting.new.items c ≡ waiting_at waiting.old.items c) }
{
    let list = &mut waiting[c];
    let place = &mut places[c];
    // Nobody has memory for more.
    let Ok(parcels) = u32::try_from(list.len()) else {
        return Err(NoMemory);
    };
    place.room(parcels)?;
    settle(place, list);
    Ok(())
}

// What waits for a controller that nobody holds comes to it, if anything does. Without memory it still waits.
fn settle_any(
    places: &mut Vec<Place>,
    waiting: &mut Vec<Vec<Parcel>>,
    c: usize,
) -> Result<(), NoMemory>
    requires { CanSettle c places.old.items waiting.old.items }
    ensures count { length places.new.items ≡ length places.old.items }
    ensures lists { length waiting.new.items ≡ length waiting.old.items }
    ensures made { made_in places.new.items ≡ made_in places.old.items }
    ensures others { (d : ℕ) → d ≢ c → slice_get places.new.items d ≡ slice_get places.old.items d }
    ensures rest { (d : ℕ) → d ≢ c → waiting_at waiting.new.items d ≡ waiting_at waiting.old.items d }
    ensures ok { OnOk result (Comes (waiting_at waiting.old.items c)
        (slice_get places.old.items c) (slice_get places.new.items c)) }
    ensures none { OnOk result (waiting_at waiting.new.items c ≡ []) }
    ensures err { OnErr result (Comes [] (slice_get places.old.items c) (slice_get places.new.items c)) }
    ensures same { OnErr result (waiting_at waiting.new.items c ≡ waiting_at waiting.old.items c) }
{
    let list = &waiting[c];
    if list.is_empty() {
        return Ok(());
    }
    settle_at(places, waiting, c)
}

/// What waits comes to each controller, of which none is held. Without memory some still waits.
pub fn settle_all(places: &mut Vec<Place>, waiting: &mut Vec<Vec<Parcel>>) -> Result<(), NoMemory>
    requires count { length waiting.old.items ≡ length places.old.items }
    requires can { (c : ℕ) → c < length places.old.items
        → CanSettle c places.old.items waiting.old.items }
    ensures count { length places.new.items ≡ length places.old.items }
    ensures lists { length waiting.new.items ≡ length waiting.old.items }
    ensures made { made_in places.new.items ≡ made_in places.old.items }
    ensures some { (c : ℕ) → HasPartlyCome (slice_get places.old.items c)
        (waiting_at waiting.old.items c) (slice_get places.new.items c)
        (waiting_at waiting.new.items c) }
    ensures none { OnOk result ((c : ℕ) → waiting_at waiting.new.items c ≡ []) }
{
    for c in 0..places.len() {
        settle_any(places, waiting, c)?;
    }
    Ok(())
}
