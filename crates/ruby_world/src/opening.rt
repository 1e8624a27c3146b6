//! A world as its run begins, with the machines of its controllers and routes of its own.
ghost use Rattle.std.specs.Prelude.{◌≡◌, ◌≤◌, ◌<◌, IfOk, IsSome, length, option_and_then, slice_get, sum, unwrap_or, ◌+◌, ◌^◌, Some, ◌∷◌, ◌++◌, [], OnOk};
ghost use Rattle.std.specs.List.{All};
ghost use Rattle.std.specs.Option.{option_map};
ghost use Rattle.slicc_plan.specs.Prelude.{symbols_of};
ghost use Rattle.ctl_face.specs.Prelude.{last_cycle};
ghost use Rattle.ruby_symbols.specs.Prelude.{mandatory};
ghost use Rattle.protocol_runs.specs.Prelude.{machine_of};
ghost use Rattle.protocol_meaning.specs.Prelude.{FitsPlan, seat_setup, seat_setups, ranges_of};
ghost use Rattle.world_state.specs.Prelude.{setup_of, setups_in};
ghost use Rattle.ruby_world.specs.Opening.{AreOpened, IsOpened, IsOpenedFor};
ghost use Rattle.ruby_world.specs.Worlds.{opened};
ghost use Rattle.ruby_topology.specs.Prelude.{ranges_from};

use crate::world::{RunLimits, World};
use ctl_face::{Parcel, Routes};
use ctl_store::Store;
use protocol_meaning::{meanings_are_framed, meanings_are_lawful, settings_are_lawful};
use ruby_base::{NoMemory, Seq};
use ruby_symbols::mandatory;
use ruby_topology::{Seat, Topology};
use sequencer::Driver;
use slicc_plan::Plan;
use std::alloc::Global;
use world_state::{Kept, SeatAt, State, no_waiting};

// The number of the buffer `mandatoryQueue` of the machine of this number, or 0 where there is none.
fn queue_in(plan: &Plan, machine: u16) -> u16
    ensures { result ≡ unwrap_or (option_and_then mandatory
        (slice_get (symbols_of plan.now).machines machine)) 0 }
{
    match plan.symbols().machines.get(machine as usize) {
        Some(m) => mandatory(m).unwrap_or(0),
        None => 0,
    }
}

// A seat as a run has it.
fn seat_at(plan: &Plan, topology: &Topology, seat: Seat) -> SeatAt
    requires fits { FitsPlan plan.now topology.now }
    requires there { IsSome (machine_of (ranges_of topology.now) seat.controller) }
    ensures { setup_of result ≡ seat_setup (symbols_of plan.now) (ranges_of topology.now) seat }
{
    let machine = machine_of(topology.counts.as_slice(), seat.controller);
    SeatAt {
        controller: seat.controller,
        has_sequencer: seat.sequencer,
        queue: queue_in(plan, machine),
    }
}

// The seats of a run.
fn seats_at(alloc: Global, plan: &Plan, topology: &Topology) -> Result<Vec<SeatAt>, NoMemory>
    requires { FitsPlan plan.now topology.now }
    ensures { IfOk result (λ seats. setups_in seats.items
        ≡ seat_setups (symbols_of plan.now) topology.now) }
{
    let mut seats = Vec::new(alloc);
    for seat in topology.seats.as_slice() {
        seats.push(seat_at(plan, topology, *seat))?;
    }
    Ok(seats)
}

// The controller of this number as a run begins.
fn kept_at(alloc: Global, plan: &Plan, topology: &Topology, c: u32) -> Result<Kept, NoMemory>
    requires fits { FitsPlan plan.now topology.now }
    requires there { c < sum topology.now.counts }
    ensures { IfOk result (IsOpenedFor plan.now topology.now c) }
{
    let machine = machine_of(topology.counts.as_slice(), c);
    let routes = routes_copied(alloc, &topology.routes)?;
    let store = Store::new(alloc, plan, machine, c, &topology.sizes[machine as usize])?;
    Ok(Kept { store, routes })
}

// All controllers as a run begins, in the order of their numbers.
fn all_kept(alloc: Global, plan: &Plan, topology: &Topology) -> Result<Vec<Kept>, NoMemory>
    requires { FitsPlan plan.now topology.now }
    ensures { IfOk result (λ kept. AreOpened plan.now topology.now kept.items) }
{
    let controllers = topology.names.len() as u32;
    let mut kept = Vec::new(alloc);
    for c in 0..controllers {
        let one = kept_at(alloc, plan, topology, c)?;
        kept.push(one)?;
    }
    Ok(kept)
}

// The data of a run as it begins.
fn data<D: Driver>(
    alloc: Global,
    plan: &Plan,
    topology: &Topology,
    driver: D,
) -> Result<(Vec<SeatAt>, State<D>, Vec<Vec<Parcel>>), NoMemory>
    requires { FitsPlan plan.now topology.now }
    ensures seats { IfOk result (λ d. setups_in d.0.items
        ≡ seat_setups (symbols_of plan.now) topology.now) }
    ensures state { IfOk result (λ d. IsOpened plan.now topology.now driver d.1) }
    ensures count { IfOk result (λ d. length d.2.items ≡ length d.1.places.items) }
    ensures none { IfOk result (λ d. All (λ v. v.items ≡ []) d.2.items) }
{
    let seats = seats_at(alloc, plan, topology)?;
    let kept = all_kept(alloc, plan, topology)?;
    let state = State::open(alloc, kept, driver)?;
    let waiting = no_waiting(alloc, state.places.len())?;
    Ok((seats, state, waiting))
}

impl<D: Driver> World<D> {
    /// The world of a protocol over a topology that fits it, as a run with these bounds and this driver begins. The driver is as its
    /// constructor made it, and finds the seats that it needs.
    pub fn new(
        alloc: Global,
        plan: Plan,
        topology: Topology,
        limits: RunLimits,
        driver: D,
    ) -> Result<World<D>, NoMemory>
        requires fits { FitsPlan plan topology }
        requires cycles { limits.cycles ≤ last_cycle }
        requires driver { D.opening driver ≡ driver }
        requires seats { D.least driver ≤ length topology.seats }
        ensures { IfOk result (λ w. w ≡ opened plan topology limits driver) }
    {
        meanings_are_lawful();
        settings_are_lawful::<D>();
        meanings_are_framed();
        let (seats, state, waiting) = data(alloc, &plan, &topology, driver)?;
        Ok(World {
            plan,
            topology,
            limits,
            seats,
            state,
            waiting,
        })
    }
}

// The machine of controller `c` among these, of which the first has the number `machine` and begins with the controller `first`; `None`
// where it is in none.
fn machine_from(counts: &[u32], machine: u16, first: u32, c: u32) -> Option<u16>
    requires machines { machine + length counts.now < 2 ^ 16 }
    requires controllers { first + sum counts.now < 2 ^ 32 }
    ensures { result ≡ option_map (λ m. machine + m) (machine_of (ranges_from first counts.now) c) }
{
    let [count, rest @ ..] = counts else {
        return None;
    };
    if first <= c && c < first + *count {
        return Some(machine);
    }
    machine_from(rest, machine + 1, first + *count, c)
}

/// The number of a controller's machine, by how many controllers each machine has.
pub(crate) fn machine_of(counts: &[u32], c: u32) -> u16
    requires few { length counts.now < 2 ^ 16 }
    requires all { sum counts.now < 2 ^ 32 }
    requires there { IsSome (machine_of (ranges_from 0 counts.now) c) }
    ensures { machine_of (ranges_from 0 counts.now) c ≡ Some result }
{
    match machine_from(counts, 0, 0, c) {
        Some(machine) => machine,
        None => unreachable!(),
    }
}

// Adds a row of its own.
fn add_row<T: Copy>(alloc: Global, copied: &mut Seq<Seq<T>>, row: &[T]) -> Result<(), NoMemory>
    ensures { OnOk result (copied.new ≡ copied.old ++ row.now ∷ []) }
{
    let row = Seq::copied(alloc, row)?;
    copied.push(row)?;
    Ok(())
}

fn rows_copied<T: Copy>(alloc: Global, rows: &[Seq<T>]) -> Result<Seq<Seq<T>>, NoMemory>
    ensures { IfOk result (λ copied. copied ≡ rows.now) }
{
    let mut copied = Seq::new(alloc);
    for row in rows {
        add_row(alloc, &mut copied, row.as_slice())?;
    }
    Ok(copied)
}

pub(crate) fn routes_copied(alloc: Global, routes: &Routes) -> Result<Routes, NoMemory>
    ensures { IfOk result (λ copied. copied ≡ routes.now) }
{
    let paths = rows_copied(alloc, routes.paths.as_slice())?;
    let ordered = Seq::copied(alloc, routes.ordered.as_slice())?;
    let receiving = rows_copied(alloc, routes.receiving.as_slice())?;
    let slots = Seq::copied(alloc, routes.slots.as_slice())?;
    Ok(Routes {
        paths,
        jitter: routes.jitter,
        ordered,
        receiving,
        slots,
    })
}
