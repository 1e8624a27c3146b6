ghost use Rattle.std.specs.Prelude.{◌≡◌, ◌≤◌, ◌+◌, ◌∷◌, [], ℕ, false, IfErr, IfOk, OnErr, OnOk};
ghost use Rattle.run_journal.specs.declared.entry.Entry.TheVariants as entry;
ghost use Rattle.run_journal.specs.declared.event.Event.TheVariants as event;
ghost use Rattle.ctl_face.specs.Prelude.{with_one_fired};
ghost use Rattle.ctl_store.specs.Prelude.{note_of, outcome_acts, outcome_ctl};
ghost use Rattle.protocol_runs.specs.Prelude.{acts_told, fired_entry};
ghost use Rattle.ruby_world.specs.Prelude.{IsSameHeld, ctl_in};
ghost use Rattle.turn_lock.specs.Prelude.{AreOwned, IsPrefix, lists_of, meeting, newcomers, owned};
ghost use Rattle.network_book.specs.Prelude.{HasDone, HasFired, HasVisited, HoldsBy, IsTaken, IsWritten, Keeps, KeepsAll, number_of, numbers_of, plan_of, view_after};

use crate::book::take_next;
use crate::laws::{controllers_are_few, passes_hand_over};
use crate::{Book, Taken};
use ctl_store::Outcome;
use ruby_base::{NoMemory, Seq};
use ruby_world::{Held, World};
use run_journal::End;
use sequencer::Driver;
use std::alloc::Global;
use std::marker::Model;
use std::sync::Wait;
use turn_lock::{Pass, Turnstile};

/// A world that those share who have its passes. Pass k is worker k's.
#[derive(Drop)]
pub struct Net<D: Driver> {
    turns: Turnstile<Book<D>>,
}

impl<D: Driver> Model for Net<D> {
    ghost use Rattle.turn_lock.specs.Prelude.{Gate};

    ghost Value = { Gate };

    ghost view = { λ n. n.turns };
}

impl<D: Driver> Net<D> {
    /// A world in which nothing has happened yet is shared by 1 to 64 workers. Without memory it comes back.
    pub fn new(
        alloc: Global,
        world: World<D>,
        passes: u32,
    ) -> Result<(Net<D>, Seq<Pass<Book<D>>>), (NoMemory, World<D>)>
        requires count { (1 ≤ passes) × (passes ≤ 64) }
        requires opening { world.history ≡ [] }
        ensures count { IfOk result (λ r. r.0.passes ≡ passes) }
        ensures passes { IfOk result (λ r. r.1 ≡ newcomers r.0.id (plan_of world) passes) }
        ensures err { IfErr result (λ e. e.1 ≡ world) }
    {
        match Turnstile::new(alloc, Book { world }, passes) {
            Ok((turns, all)) => Ok((Net { turns }, all)),
            Err((error, book)) => Err((error, book.into_world())),
        }
    }

    /// A worker asks for something to do: it takes a controller that is due and that nobody holds; where there is none, it makes
    /// the turn, unless some controller is held. Without memory it has done nothing, but may have seen more.
    pub fn take<R: Wait>(
        &self,
        rt: &R,
        alloc: Global,
        pass: &mut Pass<Book<D>>,
    ) -> Result<Taken, NoMemory>
        requires lock { pass.old.lock ≡ self.now.id }
        requires outside { pass.old.inside ≡ false }
        ensures taken { IfOk result (IsTaken D.least D.drive pass.old pass.new) }
        ensures keeps { KeepsAll D.least D.drive pass.old pass.new }
        ensures err { OnErr result (HasVisited pass.old pass.new []) }
    {
        passes_hand_over::<D>();
        controllers_are_few::<D>();
        let worker = pass.number();
        let mut world = self.turns.enter(rt, pass).into_world();
        world.law();
        let taken = take_next(alloc, &mut world, worker);
        world.law();
        self.turns.leave(pass, Book { world });
        taken
    }

    /// A scan of a controller that the worker holds, made outside the lock, has fired: its outcome, which was sealed from the store as it is,
    /// is applied there, and what it sent goes to its receivers. The place of its entry in the journal is answered, of which it is the
    /// last as far as the pass has seen. Without memory the outcome comes back, and the worker has done nothing, but may have seen more.
    pub fn post<R: Wait>(
        &self,
        rt: &R,
        pass: &mut Pass<Book<D>>,
        held: &mut Held,
        o: Outcome,
    ) -> Result<u64, (NoMemory, Outcome)>
        requires lock { pass.old.lock ≡ self.now.id }
        requires outside { pass.old.inside ≡ false }
        requires holds { HoldsBy D.least D.drive pass.old held.old }
        requires fired { HasFired D.drive pass.old.plan held.old o }
        ensures visited { OnOk result (HasVisited pass.old pass.new
            (number_of (event.Fire pass.old.number held.old.controller) ∷ [])) }
        ensures holds { HoldsBy D.least D.drive pass.new held.new }
        ensures keeps { Keeps D.least D.drive pass.old pass.new held.old.controller }
        ensures controller { held.new.controller ≡ held.old.controller }
        ensures written { IfOk result (λ n. IsWritten D.drive pass.new n (fired_entry held.old.cycle
            held.old.controller (note_of o) (acts_told (outcome_acts o)))) }
        ensures ctl { OnOk result (ctl_in held.new ≡ with_one_fired (outcome_ctl o (ctl_in held.old))) }
        ensures one_more { OnOk result (held.new.fired ≡ held.old.fired + 1) }
        ensures few { OnOk result (held.new.fired ≤ held.new.limit) }
        ensures stalled { held.new.stalled ≡ held.old.stalled }
        ensures err { OnErr result (HasVisited pass.old pass.new []) }
        ensures err_held { OnErr result (IsSameHeld held.old held.new) }
        ensures err_outcome { IfErr result (λ e. e.1 ≡ o) }
    {
        passes_hand_over::<D>();
        controllers_are_few::<D>();
        let worker = pass.number();
        let mut world = self.turns.enter(rt, pass).into_world();
        world.law();
        let posted = world.fire(worker, held, o);
        world.law();
        self.turns.leave(pass, Book { world });
        posted
    }

    /// The wake-up of a controller that the worker holds ends as its scan has it. The place of its entry in the journal is answered. It
    /// takes no memory.
    pub fn back<R: Wait>(&self, rt: &R, pass: &mut Pass<Book<D>>, held: Held, end: End) -> u64
        requires lock { pass.old.lock ≡ self.now.id }
        requires outside { pass.old.inside ≡ false }
        requires holds { HoldsBy D.least D.drive pass.old held }
        requires done { HasDone D.drive pass.old.plan held end }
        ensures visited { HasVisited pass.old pass.new
            (number_of (event.Done pass.old.number held.controller) ∷ []) }
        ensures keeps { Keeps D.least D.drive pass.old pass.new held.controller }
        ensures written { IsWritten D.drive pass.new result
            (entry.Ended held.cycle held.controller end) }
    {
        passes_hand_over::<D>();
        controllers_are_few::<D>();
        let worker = pass.number();
        let mut world = self.turns.enter(rt, pass).into_world();
        world.law();
        let place = world.finish(worker, held, end);
        world.law();
        self.turns.leave(pass, Book { world });
        place
    }

    /// A worker gives back a controller that it holds, whose wake-up goes on. It takes no memory.
    pub fn release<R: Wait>(&self, rt: &R, pass: &mut Pass<Book<D>>, held: Held)
        requires lock { pass.old.lock ≡ self.now.id }
        requires outside { pass.old.inside ≡ false }
        requires holds { HoldsBy D.least D.drive pass.old held }
        ensures visited { HasVisited pass.old pass.new
            (number_of (event.Release pass.old.number held.controller) ∷ []) }
        ensures keeps { Keeps D.least D.drive pass.old pass.new held.controller }
    {
        passes_hand_over::<D>();
        controllers_are_few::<D>();
        let worker = pass.number();
        let mut world = self.turns.enter(rt, pass).into_world();
        world.law();
        world.release(worker, held);
        world.law();
        self.turns.leave(pass, Book { world });
    }

    /// Takes another worker's pass in. The pass then stands for both, and has seen what either had seen.
    pub fn meet(&self, pass: &mut Pass<Book<D>>, other: Pass<Book<D>>)
        requires lock { (pass.old.lock ≡ self.now.id) × (other.lock ≡ self.now.id) }
        requires outside { (pass.old.inside ≡ false) × (other.inside ≡ false) }
        ensures pass { pass.new ≡ meeting pass.old other }
        ensures this { IsPrefix pass.old.seen pass.new.seen }
        ensures that { IsPrefix other.seen pass.new.seen }
        ensures entries { AreOwned (lists_of pass.new) pass.new.seen }
    {
        self.turns.meet(pass, other);
    }

    /// For how many workers a pass stands: for its own, and for those whose passes it met.
    pub fn met(&self, pass: &Pass<Book<D>>) -> u32
        requires { pass.now.lock ≡ self.now.id }
        ensures { result ≡ pass.now.met }
    {
        self.turns.met(pass)
    }

    /// Ends the sharing, once all passes have met, and gives the world: it is the one to which what the pass has seen leads.
    pub fn close(self, pass: Pass<Book<D>>) -> World<D>
        requires lock { pass.lock ≡ self.id }
        requires outside { pass.inside ≡ false }
        requires all { pass.met ≡ self.passes }
        ensures world { result ≡ view_after pass.plan pass.seen result.journal }
        ensures numbers { numbers_of result.history ≡ pass.seen }
        ensures entries { AreOwned (lists_of pass) pass.seen }
        ensures of_passes { (k : ℕ) → self.passes ≤ k → owned k pass.seen ≡ [] }
    {
        let Net { turns } = self;
        turns.close(pass).into_world()
    }
}
