//! What happens in a world. Each of these events is a step of its run: the history with it leads to a world, too, whichever controllers
//! are held meanwhile. What is sent to a controller waits beside its place, and comes into its store when it is taken, or at the turn.
ghost use Rattle.std.specs.Prelude.{◌≡◌, ◌≤◌, ◌<◌, ◌+◌, ◌^◌, ◌++◌, ◌∷◌, [], ℕ, IfErr, IfOk, None, OnErr, OnOk, false, length};
ghost use Rattle.std.specs.List.{All};
ghost use Rattle.run_journal.specs.declared.entry.Entry.TheVariants as entry;
ghost use Rattle.run_journal.specs.declared.event.Event.TheVariants as event;
ghost use Rattle.run_journal.specs.Prelude.{HasRoomFor, KeepsRoom, numbers_in};
ghost use Rattle.ctl_face.specs.Prelude.{with_one_fired};
ghost use Rattle.ctl_store.specs.Prelude.{ctl_of, HasRoomForMark, HasRoomForOutcome, IsSameStore, note_of, outcome_acts, outcome_ctl};
ghost use Rattle.protocol_runs.specs.Prelude.{acts_told, fired_entry};
ghost use Rattle.world_state.specs.Prelude.{HasRoomToPost, waiting_at};
ghost use Rattle.ruby_world.specs.Held.{Holds, IsSameHeld, IsScanEnded, IsScanFired, ctl_in};
ghost use Rattle.ruby_world.specs.Worlds.{CanTake, CanTurn, HasAdded, InWorld, IsNobodyHeld};

use crate::opening::machine_of;
use crate::world::{Held, World};
use ctl_face::Parcel;
use ctl_store::{Outcome, Store};
use protocol_meaning::{meanings_are_framed, meanings_are_lawful, settings_are_lawful};
use protocol_runs::controllers_fit;
use ruby_value::NoMemory;
use run_journal::{End, Event, FireLists, Verdict};
use sequencer::Driver;
use std::alloc::Global;
use world_state::{
    Book, end_at, end_store, post, put_back, room_to_post, settle_all, settle_at, take_out, turn,
};

// The lists of an outcome's acts.
fn lists_of(o: &Outcome) -> FireLists<'_>
    ensures consumed { result.consumed.now ≡ (outcome_acts o.now).consumed }
    ensures sent { result.sent.now ≡ (outcome_acts o.now).sent }
    ensures stalled { result.stalled.now ≡ (outcome_acts o.now).stalled }
    ensures woken { result.woken.now ≡ (outcome_acts o.now).woken }
    ensures recycled { result.recycled.now ≡ (outcome_acts o.now).recycled }
{
    FireLists {
        consumed: o.consumed(),
        sent: o.sent(),
        stalled: o.stalled(),
        woken: o.woken(),
        recycled: o.recycled(),
    }
}

// Makes room for what a transition changes, writes and sends, and for the ways back of this many controllers, or answers that there is
// no memory for it.
fn room_to_fire(
    book: &mut Book,
    waiting: &mut Vec<Vec<Parcel>>,
    controllers: usize,
    store: &mut Store,
    o: &Outcome,
) -> Result<(), NoMemory>
    requires few { controllers < 2 ^ 32 }
    requires there { All (λ d. d.receiver < length waiting.old.items) (outcome_acts o.now).posted }
    ensures history { book.new.history ≡ book.old.history }
    ensures journal { book.new.journal ≡ book.old.journal }
    ensures no_less { book.old.event_room ≤ book.new.event_room }
    ensures no_fewer { KeepsRoom 0 0 0 book.old.entry_room book.new.entry_room }
    ensures count { length waiting.new.items ≡ length waiting.old.items }
    ensures same { (c : ℕ) → waiting_at waiting.new.items c ≡ waiting_at waiting.old.items c }
    ensures ctl { ctl_of store.new ≡ ctl_of store.old }
    ensures store { IsSameStore store.old store.new }
    ensures mark { HasRoomForMark store.old → HasRoomForMark store.new }
    ensures outcome { OnOk result (HasRoomForOutcome store.new o.now) }
    ensures events { OnOk result (controllers + 1 ≤ book.new.event_room) }
    ensures entry { OnOk result (HasRoomFor (controllers + 1)
        (length (outcome_acts o.now).consumed + length (outcome_acts o.now).stalled
        + length (outcome_acts o.now).woken + length (outcome_acts o.now).recycled)
        (length (outcome_acts o.now).sent) book.new.entry_room) }
    ensures copies { OnOk result (HasRoomToPost (length (outcome_acts o.now).posted)
        (outcome_acts o.now).posted waiting.new.items) }
{
    let lists = lists_of(o);
    book.reserve(
        controllers + 1,
        controllers + 1,
        lists.numbers(),
        lists.sent.len(),
    )?;
    store.reserve(o)?;
    room_to_post(waiting, o.posted())
}

impl<D: Driver> World<D> {
    /// A worker takes a controller that is due and that nobody holds, while no verdict stands. What waits for it comes into its store
    /// first. It makes room for the controller's way back: for one release, and for the end of its wake-up with its entry and its mark.
    /// Without memory nothing has changed.
    pub fn take(&mut self, worker: u32, c: u32) -> Result<Held, NoMemory>
        requires { InWorld D.drive self.old (CanTake D.drive self.old c) }
        ensures added { OnOk result (HasAdded self.old (event.Take worker c) self.new) }
        ensures journal { OnOk result (self.new.journal ≡ self.old.journal) }
        ensures holds { IfOk result (Holds D.drive self.new worker) }
        ensures controller { IfOk result (λ held. held.controller ≡ c) }
        ensures stalled { IfOk result (λ held. held.stalled ≡ false) }
        ensures err { OnErr result (self.new ≡ self.old) }
    {
        meanings_are_lawful();
        settings_are_lawful::<D>();
        meanings_are_framed();
        settle_at(&mut self.state.places, &mut self.waiting, c as usize)?;
        let ends = self.state.places.len();
        self.state.book.reserve(ends + 1, ends + 1, 0, 0)?;
        let kept = take_out(&mut self.state.places, worker, c);
        self.state.book.note(Event::Take {
            worker,
            controller: c,
        });
        Ok(Held {
            controller: c,
            machine: machine_of(self.topology.counts.as_slice(), c),
            cycle: self.state.now,
            seed: self.limits.seed,
            limit: self.limits.limit,
            fired: kept.store.fired(),
            stalled: false,
            store: kept.store,
            routes: kept.routes,
        })
    }

    /// A scan of a controller that the worker holds has fired: its outcome, which was sealed from the store as it is, is applied there, and
    /// what it sent waits for its receivers. The place of its entry in the journal is answered. Without memory the outcome comes back,
    /// and nothing has changed.
    pub fn fire(
        &mut self,
        worker: u32,
        held: &mut Held,
        o: Outcome,
    ) -> Result<u64, (NoMemory, Outcome)>
        requires holds { Holds D.drive self.old worker held.old }
        requires fired { IsScanFired D.drive self.old held.old o }
        ensures added { OnOk result (HasAdded self.old (event.Fire worker held.old.controller) self.new) }
        ensures place { IfOk result (λ n. n ≡ length self.old.journal) }
        ensures holds { Holds D.drive self.new worker held.new }
        ensures controller { held.new.controller ≡ held.old.controller }
        ensures journal { OnOk result (self.new.journal ≡ self.old.journal
            ++ fired_entry held.old.cycle held.old.controller (note_of o) (acts_told (outcome_acts o)) ∷ []) }
        ensures ctl { OnOk result (ctl_in held.new ≡ with_one_fired (outcome_ctl o (ctl_in held.old))) }
        ensures one_more { OnOk result (held.new.fired ≡ held.old.fired + 1) }
        ensures few { OnOk result (held.new.fired ≤ held.new.limit) }
        ensures stalled { held.new.stalled ≡ held.old.stalled }
        ensures err { OnErr result (self.new ≡ self.old) }
        ensures err_held { OnErr result (IsSameHeld held.old held.new) }
        ensures err_outcome { IfErr result (λ e. e.1 ≡ o) }
    {
        meanings_are_lawful();
        settings_are_lawful::<D>();
        meanings_are_framed();
        let _limit = held.limit;
        let controllers = self.state.places.len();
        if let Err(e) = room_to_fire(
            &mut self.state.book,
            &mut self.waiting,
            controllers,
            &mut held.store,
            &o,
        ) {
            return Err((e, o));
        }
        let place = self.state.book.entries();
        let now = self.state.now;
        self.state
            .book
            .write_fire(worker, held.controller, now, o.note(), lists_of(&o));
        let posted = held.store.apply(o);
        post(&mut self.waiting, posted);
        held.fired = held.store.fired();
        Ok(place)
    }

    /// The wake-up of a controller that the worker holds ends as its scan has it. The place of its entry in the journal is answered. It
    /// takes no memory.
    pub fn finish(&mut self, worker: u32, held: Held, end: End) -> u64
        requires holds { Holds D.drive self.old worker held }
        requires ended { IsScanEnded D.drive self.old held end }
        ensures added { HasAdded self.old (event.Done worker held.controller) self.new }
        ensures place { result ≡ length self.old.journal }
        ensures journal { self.new.journal ≡ self.old.journal ++ entry.Ended held.cycle held.controller end ∷ [] }
        ensures goes_on { InWorld D.drive self.new (λ w. w.verdict ≡ None) }
    {
        meanings_are_lawful();
        settings_are_lawful::<D>();
        meanings_are_framed();
        controllers_fit::<D>();
        let controller = held.controller;
        let stalled = held.stalled;
        let place = self.state.book.entries();
        let now = self.state.now;
        let mut kept = held.into_kept();
        end_store(&mut kept.store, now, stalled, &end);
        end_at(&mut self.state.places, controller, kept);
        self.state.book.write_end(worker, controller, now, end);
        place
    }

    /// A worker gives back a controller that it holds, whose wake-up goes on. It takes no memory.
    pub fn release(&mut self, worker: u32, held: Held)
        requires { Holds D.drive self.old worker held }
        ensures added { HasAdded self.old (event.Release worker held.controller) self.new }
        ensures journal { self.new.journal ≡ self.old.journal }
        ensures goes_on { InWorld D.drive self.new (λ w. w.verdict ≡ None) }
    {
        meanings_are_lawful();
        settings_are_lawful::<D>();
        meanings_are_framed();
        let controller = held.controller;
        put_back(&mut self.state.places, controller, held.into_kept());
        self.state.book.note(Event::Release { worker, controller });
    }

    /// A turn of a world in which nobody is held and no controller is due: the run ends with the verdict that is answered, or goes on.
    /// Without memory nothing has changed.
    pub fn turn(&mut self, alloc: Global, worker: u32) -> Result<Option<Verdict>, NoMemory>
        requires { InWorld D.drive self.old (CanTurn D.drive self.old) }
        ensures added { OnOk result (HasAdded self.old (event.Turn worker) self.new) }
        ensures verdict { IfOk result (λ v. InWorld D.drive self.new (λ w. w.verdict ≡ v)) }
        ensures nobody { OnOk result (InWorld D.drive self.new (IsNobodyHeld D.drive self.new)) }
        ensures err { OnErr result (self.new ≡ self.old) }
    {
        meanings_are_lawful();
        settings_are_lawful::<D>();
        meanings_are_framed();
        settle_all(&mut self.state.places, &mut self.waiting)?;
        turn(
            alloc,
            &mut self.state,
            worker,
            self.limits.cycles,
            &self.seats,
        )
    }
}
