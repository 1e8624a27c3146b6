//! A run by one worker, who is worker 0.
ghost use Rattle.std.specs.Prelude.{◌≡◌, IfOk, OnOk, is_some};
ghost use Rattle.ruby_world.specs.Prelude.{HasAddedAlone, InWorld, IsNobodyHeld};
ghost use Rattle.protocol_runs.specs.Prelude.{HasEnded};

use crate::recording::world_after;
use crate::waking::{WORKER, wake_all};
use crate::world::World;
use protocol_meaning::Protocol;
use ruby_value::NoMemory;
use sequencer::Driver;
use std::alloc::Global;

// Whether a verdict stands.
fn has_ended<D: Driver>(world: &World<D>) -> bool
    ensures { InWorld D.drive world.now (λ w. result ≡ is_some w.verdict) }
{
    world.verdict().is_some()
}

// Goes on to a verdict, as `run_alone`.
fn go_on<P: Protocol, D: Driver>(
    alloc: Global,
    protocol: &P,
    world: &mut World<D>,
) -> Result<(), NoMemory>
    requires serves { P.serves protocol.now world.old.trees }
    requires nobody { InWorld D.drive world.old (IsNobodyHeld D.drive world.old) }
    ensures alone { OnOk result (HasAddedAlone D.drive world.old world.new) }
    ensures ended { OnOk result (InWorld D.drive world.new HasEnded) }
{
    'cycles: while !has_ended(world) {
        world.law();
        wake_all(alloc, protocol, world)?;
        world.law();
        world.turn(alloc, WORKER)?;
        world.law();
    }
    Ok(())
}

/// Runs on to a verdict, where nobody is held, by a protocol's scans: in each cycle the controllers that are due wake in increasing
/// number, and then the cycle turns. A world in which a verdict stands stays as it is.
pub fn run_alone<P: Protocol, D: Driver>(
    alloc: Global,
    protocol: &P,
    begun: World<D>,
) -> Result<World<D>, NoMemory>
    requires serves { P.serves protocol.now begun.trees }
    requires nobody { InWorld D.drive begun (IsNobodyHeld D.drive begun) }
    ensures alone { IfOk result (HasAddedAlone D.drive begun) }
    ensures ended { IfOk result (λ world. InWorld D.drive world HasEnded) }
{
    let mut world = begun;
    let ran = go_on(alloc, protocol, &mut world);
    world_after(world, ran)
}
