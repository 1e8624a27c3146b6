ghost use Rattle.std.specs.Prelude.{◌≡◌, ℕ, ◌+◌, ◌-◌, ◌<◌, ◌≤◌, [], ◌∷◌, Some, IfOk, IfErr, vec_capacity};
ghost use Rattle.turn_lock.specs.Standing.{newcomer, newcomers};
ghost use Rattle.turn_lock.specs.Tickets.{dealing};

use crate::plays::Deal;
use crate::view::{Start, Turns, View};
use crate::{Kept, NoMemory, Pass, Seq, Turnstile};
use atomic_table::{Seat, Shared, Table};
use std::alloc::Global;
use std::snapshot::Snapshot;

// One more pass, which has this number.
fn deal_one<V: Kept>(
    shared: &Shared<Option<V>, View<V::Plan>, Start<V>, Turns>,
    dealer: &mut Seat<Option<V>, View<V::Plan>>,
    start: &Start<V>,
    number: u32,
) -> Pass<V>
    requires table { (dealer.old.table_id ≡ shared.now.table_id) × (0 < shared.now.table_id.words) }
    requires left { number < start.now.passes }
    requires few { start.now.passes ≤ 64 }
    requires dealer { dealer.old.me ≡ (dealing (start.now.passes - number) number (V.plan start.now.first.value), []) }
    ensures table { dealer.new.table_id ≡ dealer.old.table_id }
    ensures dealer { dealer.new.me ≡ (dealing (start.now.passes - (number + 1)) (number + 1) (V.plan start.now.first.value), []) }
    ensures pass { result ≡ newcomer shared.now.table_id (V.plan start.now.first.value) number }
{
    Pass {
        seat: shared.split_seat::<Deal>(dealer),
        number,
        met: 1,
        start: Snapshot::of(start),
    }
}

// All passes, in the order of their numbers.
fn deal_all<V: Kept>(
    shared: &Shared<Option<V>, View<V::Plan>, Start<V>, Turns>,
    mut dealer: Seat<Option<V>, View<V::Plan>>,
    start: &Start<V>,
    mut room: Vec<Pass<V>>,
) -> Vec<Pass<V>>
    requires table { (dealer.table_id ≡ shared.now.table_id) × (0 < shared.now.table_id.words) }
    requires few { start.now.passes ≤ 64 }
    requires dealer { dealer.me ≡ (dealing start.now.passes 0 (V.plan start.now.first.value), []) }
    requires room { (room.items ≡ []) × (start.now.passes ≤ vec_capacity room) }
    ensures { result.items ≡ newcomers shared.now.table_id (V.plan start.now.first.value) start.now.passes }
{
    for number in 0..start.passes {
        let pass = deal_one(shared, &mut dealer, start, number);
        room.push(pass).unwrap();
    }
    room
}

// The one value that a table refused.
fn given_back<V: Kept>(mut slots: Vec<Option<V>>) -> V
    requires { (value : V) × (slots.items ≡ Some value ∷ []) }
    ensures { slots.items ≡ Some result ∷ [] }
{
    slots.pop().unwrap().unwrap()
}

impl<V: Kept> Turnstile<V> {
    /// A lock with this value and 1 to 64 passes, which are numbered from 0. Without memory the value comes back.
    pub fn new(
        alloc: Global,
        value: V,
        passes: u32,
    ) -> Result<(Turnstile<V>, Seq<Pass<V>>), (NoMemory, V)>
        requires count { (1 ≤ passes) × (passes ≤ 64) }
        requires empty { V.history value ≡ [] }
        ensures lock { IfOk result (λ r. r.0.passes ≡ passes) }
        ensures passes { IfOk result (λ r. r.1 ≡ newcomers r.0.id (V.plan value) passes) }
        ensures err { IfErr result (λ e. e.1 ≡ value) }
    {
        let Ok(room) = Vec::with_capacity(alloc, passes as usize) else {
            return Err((NoMemory, value));
        };
        let Ok(mut slots) = Vec::with_capacity(alloc, 1) else {
            return Err((NoMemory, value));
        };
        let start = Start {
            passes,
            first: Snapshot::of(&value),
        };
        slots.push(Some(value)).unwrap();
        match Table::new(alloc, &[0, 0], slots, &start) {
            Ok((table, dealer)) => {
                let all = deal_all(&table.shared, dealer, &start, room);
                Ok((Turnstile { table, passes }, Seq::of(all)))
            }
            Err(refused) => Err((NoMemory, given_back(refused.slots))),
        }
    }
}
