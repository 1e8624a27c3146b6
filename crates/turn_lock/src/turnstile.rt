ghost use Rattle.std.specs.Prelude.{◌≡◌, ℕ, ◌%◌, ◌^◌, true, false, [], Some, ◌<◌, ◌≤◌};
ghost use Rattle.turn_lock.specs.declared.view.Stage.TheVariants.{Waits};
ghost use Rattle.turn_lock.specs.Histories.{owned, IsPrefix, AreOwned, Continues, Adds};
ghost use Rattle.turn_lock.specs.Standing.{lists_of, entering, leaving, meeting};
ghost use Rattle.turn_lock.specs.Plays.{CameIn};

use crate::plays::{Compare, Draw, HandOn, Look, Meet};
use crate::view::{Start, Turns, View};
use crate::{Kept, Pass};
use atomic_table::{Seat, Shared, Table};
use std::alloc::Global;
use std::marker::Model;
use std::sync::Wait;

// The words of the table: the next ticket to be drawn, and the ticket that is served.
const TICKET: usize = 0;

const SERVING: usize = 1;

/// The lock. It is shared by reference among the threads that have passes of it.
#[derive(Drop)]
pub struct Turnstile<V: Kept> {
    pub(crate) table: Table<Option<V>, View<V::Plan>, Start<V>, Turns, Global>,
    pub(crate) passes: u32,
}

impl<V: Kept> Model for Turnstile<V> {
    ghost use Rattle.std.specs.Prelude.{◌≡◌};
    ghost use Rattle.turn_lock.specs.Standing.{Gate};

    ghost Value = { Gate };

    ghost view = { λ t. record { id = t.table.shared.table_id; passes = t.passes } };

    ghost invariant = { λ t. (t.table.shared.table_id.words ≡ 2) × (t.table.shared.table_id.slots ≡ 1) × (t.table.shared.key.passes ≡ t.passes) };
}

// Looks at the ticket that is served until it is the seat's own, and sleeps until the next hand-on between two looks. A sleep compares
// the low 32 bits alone, which is enough: while this seat waits, fewer than 64 tickets are served.
fn await_turn<R: Wait, V: Kept>(
    rt: &R,
    shared: &Shared<Option<V>, View<V::Plan>, Start<V>, Turns>,
    seat: &mut Seat<Option<V>, View<V::Plan>>,
    ticket: u64,
)
    requires table { (seat.old.table_id ≡ shared.now.table_id) × (shared.now.table_id.words ≡ 2) × (shared.now.table_id.slots ≡ 1) }
    requires stage { seat.old.me.0.stage ≡ Waits }
    requires ticket { ticket ≡ seat.old.me.0.ticket % 2 ^ 64 }
    ensures seat { (seat.new.table_id ≡ seat.old.table_id) × (seat.new.id ≡ seat.old.id) }
    ensures came { CameIn V.plan V.history seat.old.me seat.new.me }
{
    for _ in rt.forever() {
        let turn = shared.load::<Look>(seat, SERVING);
        if turn == ticket {
            return;
        }
        shared.park(rt, SERVING, (turn & 0xffff_ffff) as u32);
    }
    unreachable!()
}

impl<V: Kept> Turnstile<V> {
    /// Waits for the pass's turn, and takes the value out. Between two looks at whose turn it is, the thread sleeps.
    pub fn enter<R: Wait>(&self, rt: &R, pass: &mut Pass<V>) -> V
        requires lock { pass.old.lock ≡ self.now.id }
        requires outside { pass.old.inside ≡ false }
        ensures pass { pass.new ≡ entering (V.history result) pass.old }
        ensures plan { V.plan result ≡ pass.old.plan }
        ensures history { Continues pass.old.number pass.old.seen (V.history result) }
    {
        let shared = &self.table.shared;
        let seat = &mut pass.seat;
        let ticket = shared.fetch_add::<Draw>(seat, TICKET, 1);
        await_turn(rt, shared, seat, ticket);
        shared.exchange(seat, 0, None).unwrap()
    }

    /// Puts the value back, lets the next in, and wakes those that wait.
    pub fn leave(&self, pass: &mut Pass<V>, value: V)
        requires lock { pass.old.lock ≡ self.now.id }
        requires inside { pass.old.inside ≡ true }
        requires plan { V.plan value ≡ pass.old.plan }
        requires history { Adds pass.old.number pass.old.entered (V.history value) }
        ensures pass { pass.new ≡ leaving (V.history value) pass.old }
        ensures mine { owned pass.new.number pass.new.seen ≡ pass.new.mine }
    {
        let shared = &self.table.shared;
        let seat = &mut pass.seat;
        match shared.exchange(seat, 0, Some(value)) {
            None => {}
            Some(_) => unreachable!(),
        }
        shared.fetch_add::<HandOn>(seat, SERVING, 1);
        shared.wake_all(SERVING);
    }

    /// Takes another pass in. The pass then stands for all for which the two stood, and has seen what either had seen.
    pub fn meet(&self, pass: &mut Pass<V>, other: Pass<V>)
        requires lock { (pass.old.lock ≡ self.now.id) × (other.lock ≡ self.now.id) }
        requires outside { (pass.old.inside ≡ false) × (other.inside ≡ false) }
        ensures pass { pass.new ≡ meeting pass.old other }
        ensures this { IsPrefix pass.old.seen pass.new.seen }
        ensures that { IsPrefix other.seen pass.new.seen }
        ensures entries { AreOwned (lists_of pass.new) pass.new.seen }
    {
        let Pass {
            seat: other,
            number: _,
            met,
            start: _,
        } = other;
        let shared = &self.table.shared;
        shared.join_seat::<Meet>(&mut pass.seat, other);
        shared.load::<Compare>(&mut pass.seat, TICKET);
        pass.met += met;
    }

    /// For how many passes a pass stands: for itself, and for those that it met.
    pub fn met(&self, pass: &Pass<V>) -> u32
        requires { pass.now.lock ≡ self.now.id }
        ensures { result ≡ pass.now.met }
    {
        pass.met
    }

    /// Ends the lock, once all passes have met, and gives the value.
    pub fn close(self, pass: Pass<V>) -> V
        requires lock { pass.lock ≡ self.id }
        requires outside { pass.inside ≡ false }
        requires all { pass.met ≡ self.passes }
        ensures plan { V.plan result ≡ pass.plan }
        ensures history { V.history result ≡ pass.seen }
        ensures entries { AreOwned (lists_of pass) pass.seen }
        ensures of_passes { (k : ℕ) → self.passes ≤ k → owned k pass.seen ≡ [] }
    {
        let Turnstile { table, passes: _ } = self;
        let Pass {
            seat,
            number: _,
            met: _,
            start: _,
        } = pass;
        let mut closed = table.close_with(seat);
        let value = closed.take(0);
        closed.free();
        value.unwrap()
    }
}
