//! A scan of a controller that is held.
ghost use Rattle.std.specs.Prelude.{◌≡◌, IfOk};
ghost use Rattle.ctl_store.specs.Prelude.{view_of};
ghost use Rattle.ruby_world.specs.Scanned.{IsScanned, begun};
ghost use Rattle.ruby_world.specs.Prelude.{Holds, IsSameHeld};

use crate::world::{Held, World};
use body_meaning::RoundEnd;
use ctl_store::{Draft, Outcome, Scratch};
use protocol_meaning::{Protocol, meanings_are_lawful, settings_are_lawful};
use protocol_runs::controllers_fit;
use ruby_value::NoMemory;
use run_journal::End;
use sequencer::Driver;
use std::alloc::Global;

/// What a scan of a controller ended with.
#[derive(Drop)]
pub enum Scanned {
    /// A transition has fired.
    Fired(Outcome),
    /// The wake-up ends so, where the scan has stalled a transition or not. It is `rest` that what is held keeps this by, before it goes
    /// back by `finish`.
    Ended { end: End, stalled: bool },
}

// The draft of a scan of a controller that is held.
fn draft<'a, D: Driver>(
    scratch: Scratch,
    world: &World<D>,
    worker: u32,
    held: &'a Held,
) -> Draft<'a>
    requires { Holds D.drive world.now worker held.now }
    ensures { view_of result ≡ begun held.now }
{
    let _worker = worker;
    world.law();
    settings_are_lawful::<D>();
    meanings_are_lawful();
    controllers_fit::<D>();
    Draft::on(scratch, &held.store, &held.routes, held.seed, held.cycle)
}

// A scan of a controller that the worker holds, which keeps what it changes in these lists. They are left where nothing has fired.
fn scan_in<P: Protocol, D: Driver>(
    alloc: Global,
    scratch: Scratch,
    protocol: &P,
    world: &World<D>,
    worker: u32,
    held: &Held,
) -> Result<(Scanned, Option<Scratch>), NoMemory>
    requires serves { P.serves protocol.now world.now.trees }
    requires holds { Holds D.drive world.now worker held.now }
    ensures { IfOk result (λ r. IsScanned D.drive world.now held.now r.0) }
{
    world.law();
    settings_are_lawful::<D>();
    let mut draft = draft(scratch, world, worker, held);
    draft.law();
    let end = protocol.round(alloc, held.machine, &mut draft, held.fired, held.limit)?;
    let stalled = draft.stalled();
    let how = match end {
        RoundEnd::Fired(note) => return Ok((Scanned::Fired(draft.seal(note)), None)),
        RoundEnd::Idle => End::Idle,
        RoundEnd::Full => End::Full,
        RoundEnd::Stop(at) => End::Stop(at),
    };
    // Only a wake-up that ends as idle goes by what was stalled.
    Ok((Scanned::Ended { end: how, stalled }, Some(draft.abandon())))
}

// The lists that the store's last scan has left.
fn take_scratch(alloc: Global, held: &mut Held) -> Result<Scratch, NoMemory>
    ensures { IsSameHeld held.old held.new }
{
    held.store.take_scratch(alloc)
}

// Leaves the lists of a scan, if there are any, for the next one.
fn put_scratch(held: &mut Held, scratch: Option<Scratch>)
    ensures { IsSameHeld held.old held.new }
{
    if let Some(scratch) = scratch {
        held.store.put_scratch(scratch);
    }
}

/// A scan of a controller that the worker holds. It keeps what it changes in the lists that the store's last scan has left, and
/// what is held stays as it is but for these, also where there is no memory. What it ended with is for `fire` and for `finish`.
pub fn scan<P: Protocol, D: Driver>(
    alloc: Global,
    protocol: &P,
    world: &World<D>,
    worker: u32,
    held: &mut Held,
) -> Result<Scanned, NoMemory>
    requires serves { P.serves protocol.now world.now.trees }
    requires holds { Holds D.drive world.now worker held.old }
    ensures same { IsSameHeld held.old held.new }
    ensures holds { Holds D.drive world.now worker held.new }
    ensures scanned { IfOk result (IsScanned D.drive world.now held.new) }
{
    let scratch = take_scratch(alloc, held)?;
    let come = scan_in(alloc, scratch, protocol, world, worker, held)?;
    let (scanned, left) = come;
    put_scratch(held, left);
    Ok(scanned)
}
