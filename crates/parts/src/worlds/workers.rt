// A run by two workers, who hold controllers at once.
ghost use Rattle.std.specs.Prelude.{◌≡◌, ◌≤◌, IfOk, OnOk, length};
ghost use Rattle.ctl_face.specs.Prelude.{last_cycle};
ghost use Rattle.protocol_meaning.specs.Prelude.{FitsPlan};
ghost use Rattle.parts.specs.Held.{IsHand, IsSameRun};

use crate::worlds::held::{Act, perform};
use crate::worlds::steps::Step;
use protocol_meaning::{Protocol, RunRecord};
use ruby_base::NoMemory;
use ruby_options::Options;
use ruby_topology::Topology;
use ruby_world::{Held, RunLimits, World, into_record, run_alone};
use sequencer::Driver;
use slicc_plan::Plan;
use std::alloc::Global;

// What the two workers hold.
struct Hands {
    first: Option<Held>,
    second: Option<Held>,
}

// One step.
fn go<P: Protocol, D: Driver>(
    alloc: Global,
    protocol: &P,
    world: &mut World<D>,
    hands: Hands,
    step: &Step,
) -> Result<Hands, NoMemory>
    requires serves { P.serves protocol.now world.old.trees }
    requires first { IsHand D.drive world.old 0 hands.first }
    requires second { IsHand D.drive world.old 1 hands.second }
    ensures first { IfOk result (λ h. IsHand D.drive world.new 0 h.first) }
    ensures second { IfOk result (λ h. IsHand D.drive world.new 1 h.second) }
    ensures run { OnOk result (IsSameRun world.old world.new) }
{
    let Hands { first, second } = hands;
    if step.is_second {
        let second = perform(alloc, protocol, world, 1, second, step.act)?;
        return Ok(Hands { first, second });
    }
    let first = perform(alloc, protocol, world, 0, first, step.act)?;
    Ok(Hands { first, second })
}

// All steps, after which both workers give back what they hold.
fn follow<P: Protocol, D: Driver>(
    alloc: Global,
    protocol: &P,
    world: &mut World<D>,
    steps: &[Step],
) -> Result<(), NoMemory>
    requires serves { P.serves protocol.now world.old.trees }
    ensures run { OnOk result (IsSameRun world.old world.new) }
{
    let mut hands = Hands {
        first: None,
        second: None,
    };
    'steps: for step in steps {
        hands = go(alloc, protocol, world, hands, step)?;
    }
    let Hands { first, second } = hands;
    perform(alloc, protocol, world, 0, first, Act::Back)?;
    perform(alloc, protocol, world, 1, second, Act::Back)?;
    Ok(())
}

/// A run of which the first events are those of two workers, as these steps say, and the others one worker's: with the bounds of these
/// options, by a driver that is as its constructor made it and finds the seats that it needs. There is none where a controller is held
/// after the steps.
pub(crate) fn run_steps<P: Protocol, D: Driver>(
    alloc: Global,
    protocol: &P,
    plan: Plan,
    topology: Topology,
    options: Options,
    driver: D,
    steps: &[Step],
) -> Result<Option<RunRecord>, NoMemory>
    requires serves { P.serves protocol.now plan }
    requires fits { FitsPlan plan topology }
    requires cycles { options.cycles ≤ last_cycle }
    requires opening { D.opening driver ≡ driver }
    requires seats { D.least driver ≤ length topology.seats }
{
    let limits = RunLimits {
        seed: options.seed,
        cycles: options.cycles,
        limit: options.limit,
    };
    let mut world = World::new(alloc, plan, topology, limits, driver)?;
    follow(alloc, protocol, &mut world, steps)?;
    if world.any_held() {
        return Ok(None);
    }
    let ended = run_alone(alloc, protocol, world)?;
    let record = into_record(alloc, ended, options)?;
    Ok(Some(record))
}
