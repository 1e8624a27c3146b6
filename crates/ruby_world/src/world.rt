//! A world, what bounds its run, who holds a controller, and what is read off it.
ghost use Rattle.std.specs.Prelude.{◌≡◌, ◌≤◌, IfOk, length, position};
ghost use Rattle.std.specs.List.{list_any};
ghost use Rattle.std.specs.Option.{option_copied};
ghost use Rattle.protocol_runs.specs.Prelude.{World as WorldRecord, is_free, is_held};
ghost use Rattle.ctl_face.specs.Prelude.{Ctl, last_cycle};
ghost use Rattle.run_journal.specs.Prelude.{AreFinals};
ghost use Rattle.protocol_meaning.specs.Prelude.{FitsPlan};
ghost use Rattle.ruby_world.specs.Worlds.{InWorld, IsWorldOf, is_free_at as is_free_in, rules_in};
ghost use Rattle.ruby_world.specs.Held.{kept_in};

use ctl_face::{Parcel, Routes};
use ctl_store::Store;
use protocol_meaning::{meanings_are_framed, meanings_are_lawful, settings_are_lawful};
use protocol_runs::controllers_fit;
use ruby_base::Seq;
use ruby_topology::Topology;
use ruby_value::NoMemory;
use run_journal::{Event, Final, Journal, Verdict, finals};
use sequencer::Driver;
use slicc_plan::Plan;
use std::alloc::Global;
use std::marker::Model;
use world_state::{Kept, SeatAt, State, any_held, first_free, is_free_at};

/// All controllers of a protocol over a topology, with a driver, as a run has led them here. A contract sees what the run began with, and
/// its history and journal: these lead to one world, which always is one of a run. Any number of controllers may be held, each by a worker.
pub struct World<D: Driver> {
    pub(crate) plan: Plan,
    pub(crate) topology: Topology,
    pub(crate) limits: RunLimits,
    pub(crate) seats: Vec<SeatAt>,
    pub(crate) state: State<D>,
    /// What was sent to each controller and isn't in its store yet.
    pub(crate) waiting: Vec<Vec<Parcel>>,
}

impl<D: Driver> Model for World<D> {
    ghost use Rattle.ruby_world.specs.Worlds.{WorldView, world_view_code};

    ghost Value = { WorldView D };

    ghost coded = { world_view_code D.code };

    ghost use Rattle.ruby_world.specs.Data.{IsData, view_of};

    ghost view = { λ w. view_of D.opening w.plan w.topology w.limits w.state };

    ghost invariant = { λ w. IsData D.least D.drive
        (view_of D.opening w.plan w.topology w.limits w.state) w.seats.items w.waiting.items w.state };
}

// It is written out, since each crate that lets a world go would prove a derived one anew, down to the trees.
impl<D: Driver> Drop for World<D> {
    fn drop(self) {
        let World {
            plan: _,
            topology: _,
            limits: _,
            seats: _,
            state: _,
            waiting: _,
        } = self;
    }
}

impl<D: Driver> World<D> {
    /// The history of a world leads to a world of its run, and its topology, bounds and driver meet what `new` requires of them. It does
    /// nothing.
    pub fn law(&self)
        ensures run { (w : WorldRecord Ctl D) × IsWorldOf D.drive self.now w }
        ensures fits { FitsPlan self.now.trees self.now.topology }
        ensures cycles { self.now.limits.cycles ≤ last_cycle }
        ensures enough { D.least self.now.opening ≤ length self.now.topology.seats }
    {
        let _state = &self.state;
    }

    /// The protocol.
    pub fn plan(&self) -> &Plan
        ensures { result.now ≡ self.now.trees }
    {
        &self.plan
    }

    /// The topology.
    pub fn topology(&self) -> &Topology
        ensures { result.now ≡ self.now.topology }
    {
        &self.topology
    }

    /// The least controller that is due and not held, or `None` exactly where there is none.
    pub fn due(&self) -> Option<u32>
        ensures { InWorld D.drive self.now (λ w.
            result ≡ position (is_free (rules_in D.drive self.now) w.now) w.places) }
    {
        meanings_are_lawful();
        settings_are_lawful::<D>();
        meanings_are_framed();
        controllers_fit::<D>();
        first_free(&self.state.places, self.state.now)
    }

    /// Whether there is a controller of this number, which is due and not held.
    pub fn is_due(&self, c: u32) -> bool
        ensures { InWorld D.drive self.now (λ w. result ≡ is_free_in D.drive self.now w c) }
    {
        meanings_are_lawful();
        settings_are_lawful::<D>();
        meanings_are_framed();
        is_free_at(&self.state.places, c, self.state.now)
    }

    /// Whether some controller is held.
    pub fn any_held(&self) -> bool
        ensures { InWorld D.drive self.now (λ w. result ≡ list_any is_held w.places) }
    {
        meanings_are_lawful();
        settings_are_lawful::<D>();
        meanings_are_framed();
        any_held(&self.state.places)
    }

    /// The verdict with which the run has ended, or `None` where it goes on.
    pub fn verdict(&self) -> Option<&Verdict>
        ensures { InWorld D.drive self.now (λ w. option_copied result ≡ w.verdict) }
    {
        self.state.verdict.as_ref()
    }

    /// The protocol, the topology, what has happened, the entries of that and their final states.
    pub fn into_parts(
        self,
        alloc: Global,
    ) -> Result<(Plan, Topology, Seq<Event>, Journal, Seq<Final>), NoMemory>
        ensures plan { IfOk result (λ p. p.0 ≡ self.trees) }
        ensures topology { IfOk result (λ p. p.1 ≡ self.topology) }
        ensures history { IfOk result (λ p. p.2 ≡ self.history) }
        ensures journal { IfOk result (λ p. p.3 ≡ self.journal) }
        ensures finals { IfOk result (λ p. AreFinals p.3 p.4) }
    {
        let World {
            plan,
            topology,
            limits: _,
            seats: _,
            state,
            waiting: _,
        } = self;
        let (history, journal) = state.book.into_parts();
        let finals = finals(alloc, &journal)?;
        Ok((plan, topology, history, journal, finals))
    }
}

/// A controller that a worker holds: its store, and what a scan of it goes by.
pub struct Held {
    /// The controller's number.
    pub controller: u32,
    /// The number of its machine.
    pub machine: u16,
    /// The cycle in which it is held.
    pub cycle: u64,
    /// The seed of all random words of the run.
    pub seed: u64,
    /// How many transitions the controller may fire in a cycle.
    pub limit: u64,
    /// How many it has fired in this one.
    pub fired: u64,
    /// Whether its last scan stalled a transition, so that it wakes again in the next cycle.
    pub stalled: bool,
    pub store: Store,
    pub routes: Routes,
}

// It is written out, as that of a world is.
impl Drop for Held {
    fn drop(self) {
        let Held {
            controller: _,
            machine: _,
            cycle: _,
            seed: _,
            limit: _,
            fired: _,
            stalled: _,
            store: _,
            routes: _,
        } = self;
    }
}

impl Held {
    // What goes back to the world.
    pub(crate) fn into_kept(self) -> Kept
        ensures { result ≡ kept_in self }
    {
        let Held {
            controller: _,
            machine: _,
            cycle: _,
            seed: _,
            limit: _,
            fired: _,
            stalled: _,
            store,
            routes,
        } = self;
        Kept { store, routes }
    }

    /// Keeps whether the last scan stalled a transition.
    pub fn rest(&mut self, stalled: bool)
        ensures { self.new ≡ record self.old { stalled = stalled } }
    {
        self.stalled = stalled;
    }
}

/// What bounds a run beside its protocol, its topology and its driver.
#[derive(Clone, Copy)]
pub struct RunLimits {
    /// The seed of all random words.
    pub seed: u64,
    /// The last cycle that the run may reach, 1 to 10^12.
    pub cycles: u64,
    /// How many transitions a controller may fire in a cycle, 1 to 1,000.
    pub limit: u64,
}
