// The in ports of a machine, one after another.
ghost use Rattle.std.specs.Prelude.{◌≡◌, All};
ghost use Rattle.acts.specs.Prelude.{itself};
ghost use Rattle.body_meaning.specs.Prelude.{IsRoundOf};
ghost use Rattle.scan_steps.specs.Prelude.{TriesAs, scanned};
ghost use Rattle.compiled_protocol.specs.Prelude.{MayRunPort, machine_code, port_run, ports_run, trigger_in};

use crate::bodies::body_run;
use crate::machine::CompiledMachine;
use crate::tries::trigger_tried;
use action_vm::CodeEnd;
use acts::{Local, NoMemory};
use body_meaning::{RoundEnd, Tried, Trigger};
use ruby_base::Seq;
use scan_steps::{Halt, nothing_known, round_of, split};
use std::alloc::Global;

// What a port's body triggered, if it did.
fn trigger_in(end: CodeEnd) -> Option<Trigger>
    ensures { result ≡ trigger_in end }
{
    match end {
        CodeEnd::Trigger {
            event,
            address,
            entry,
            tbe,
        } => Some(Trigger {
            event,
            address,
            entry,
            tbe,
        }),
        _ => None,
    }
}

// A port that triggers nothing passes.
fn port_run<T: Local>(
    alloc: Global,
    m: CompiledMachine<'_>,
    body: u32,
    local: &mut T,
) -> Result<Tried, Halt>
    requires may { MayRunPort (machine_code m) (T.view local.old).machine body }
    ensures { TriesAs itself (port_run (machine_code m.entry) body) result (T.view local.old)
        (T.view local.new) }
{
    let end = body_run(alloc, m, nothing_known(), body, Seq::new(alloc), local)?;
    match trigger_in(end) {
        None => Ok(Tried::Waits),
        Some(t) => trigger_tried(alloc, m, t, local),
    }
}

// Each to its end or to its `trigger`, until one fires.
fn ports_run<T: Local>(
    alloc: Global,
    m: CompiledMachine<'_>,
    bodies: &[u32],
    local: &mut T,
) -> Result<Tried, Halt>
    requires may { All (MayRunPort (machine_code m) (T.view local.old).machine) bodies.now }
    ensures { TriesAs itself (ports_run (machine_code m.entry) bodies.now) result (T.view local.old)
        (T.view local.new) }
{
    match split(bodies) {
        None => Ok(Tried::Waits),
        Some(parts) => match port_run(alloc, m, *parts.0, local)? {
            Tried::Waits => ports_run(alloc, m, parts.1, local),
            Tried::Fires(note) => Ok(Tried::Fires(note)),
        },
    }
}

// Does a scan of a controller of the machine, which has fired this many transitions in this cycle and may fire so many.
pub(crate) fn scan<T: Local>(
    alloc: Global,
    m: CompiledMachine<'_>,
    limit: u64,
    fired: u64,
    local: &mut T,
) -> Result<RoundEnd, NoMemory>
    requires may { All (MayRunPort (machine_code m) (T.view local.old).machine) (machine_code m).head.ports }
    ensures { IsRoundOf
        (scanned (ports_run (machine_code m.entry) (machine_code m.entry).head.ports) limit fired (T.view local.old))
        result (T.view local.new) (T.view local.old) }
{
    if limit <= fired {
        return Ok(RoundEnd::Full);
    }
    round_of(ports_run(alloc, m, &m.head.ports, local))
}
