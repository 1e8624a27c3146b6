//! A whole run by one worker, from its opening to its record.
ghost use Rattle.std.specs.Prelude.{◌≡◌, ◌≤◌, IfOk, length};
ghost use Rattle.ctl_face.specs.Prelude.{last_cycle};
ghost use Rattle.protocol_runs.specs.Prelude.{IsAlone};
ghost use Rattle.protocol_meaning.specs.Prelude.{IsWholeRunBy, rules_in, FitsPlan};

use crate::alone::run_alone;
use crate::laws::runs_from_the_opening_are_alone;
use crate::recording::into_record;
use crate::world::{RunLimits, World};
use protocol_meaning::{Protocol, RunRecord};
use ruby_options::Options;
use ruby_topology::Topology;
use ruby_value::NoMemory;
use sequencer::Driver;
use slicc_plan::Plan;
use std::alloc::Global;

/// A whole run, by one worker, of a protocol over a topology that fits it, with the bounds of these options, by a driver that is as its
/// constructor made it and finds the seats that it needs.
pub fn run_whole<P: Protocol, D: Driver>(
    alloc: Global,
    protocol: &P,
    plan: Plan,
    topology: Topology,
    options: Options,
    driver: D,
) -> Result<RunRecord, NoMemory>
    requires serves { P.serves protocol.now plan }
    requires fits { FitsPlan plan topology }
    requires cycles { options.cycles ≤ last_cycle }
    requires opening { D.opening driver ≡ driver }
    requires seats { D.least driver ≤ length topology.seats }
    ensures plan { IfOk result (λ r. r.plan ≡ plan) }
    ensures topology { IfOk result (λ r. r.topology ≡ topology) }
    ensures options { IfOk result (λ r. r.options ≡ options) }
    ensures whole { IfOk result (IsWholeRunBy D.drive driver) }
    ensures alone { IfOk result (λ r. IsAlone (rules_in D.drive driver r) r.history) }
{
    let limits = RunLimits {
        seed: options.seed,
        cycles: options.cycles,
        limit: options.limit,
    };
    let opened = World::new(alloc, plan, topology, limits, driver)?;
    let ended = run_alone(alloc, protocol, opened)?;
    runs_from_the_opening_are_alone::<D>();
    into_record(alloc, ended, options)
}
