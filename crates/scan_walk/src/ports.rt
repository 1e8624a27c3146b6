// The in ports of a machine, one after another.
ghost use Rattle.acts.specs.Prelude.{itself};
ghost use Rattle.body_meaning.specs.Prelude.{reading, IsRoundOf, after_port, port_tried, ports_tried, scan};
ghost use Rattle.statement_walk.specs.Prelude.{HasFew};
ghost use Rattle.scan_steps.specs.Prelude.{TriesAs};

use crate::transition::tried;
use acts::{Local, NoMemory};
use body_meaning::{Flow, RoundEnd, Scope, Tried};
use ruby_symbols::PortSymbol;
use scan_steps::{Halt, nothing_known, round_of, split, told};
use statement_walk::port_done;
use std::alloc::Global;

#[tactic(auto, using(scan_steps::proofs::Tries::tries_ends))]
fn after_port<T: Local>(
    alloc: Global,
    s: Scope<'_>,
    flow: Flow,
    local: &mut T,
) -> Result<Tried, Halt>
    requires few { HasFew s.machine.now }
    ensures { TriesAs itself (after_port (reading s.entry) flow) result (T.view local.old)
        (T.view local.new) }
{
    match flow {
        Flow::Triggered(t) => tried(alloc, s, t, local),
        Flow::WentOn | Flow::Returned(_) => Ok(Tried::Waits),
    }
}

fn port_tried<T: Local>(
    alloc: Global,
    s: Scope<'_>,
    p: &PortSymbol,
    local: &mut T,
) -> Result<Tried, Halt>
    requires few { HasFew s.machine.now }
    ensures { TriesAs itself (port_tried (reading s.entry) p.now) result (T.view local.old)
        (T.view local.new) }
{
    let flow = told(nothing_known(), port_done(alloc, s, p, local))?;
    after_port(alloc, s, flow, local)
}

// Each to its end or to its `trigger`, until one fires.
fn ports_tried<T: Local>(
    alloc: Global,
    s: Scope<'_>,
    ports: &[PortSymbol],
    local: &mut T,
) -> Result<Tried, Halt>
    requires few { HasFew s.machine.now }
    ensures { TriesAs itself (ports_tried (reading s.entry) ports.now) result (T.view local.old)
        (T.view local.new) }
{
    match split(ports) {
        None => Ok(Tried::Waits),
        Some(parts) => match port_tried(alloc, s, parts.0, local)? {
            Tried::Waits => ports_tried(alloc, s, parts.1, local),
            Tried::Fires(note) => Ok(Tried::Fires(note)),
        },
    }
}

/// Does a scan of a controller of the machine, which has fired this many transitions in this cycle and may fire so many. What the scan
/// has done is in the local where a transition fired, and else the local is to be dropped; that a transition was stalled is seen from
/// its mark for the next cycle.
pub fn scan<T: Local>(
    alloc: Global,
    s: Scope<'_>,
    limit: u64,
    fired: u64,
    local: &mut T,
) -> Result<RoundEnd, NoMemory>
    requires few { HasFew s.machine.now }
    ensures { IsRoundOf (scan (reading s.entry) limit fired (T.view local.old)) result
        (T.view local.new) (T.view local.old) }
{
    if limit <= fired {
        return Ok(RoundEnd::Full);
    }
    round_of(ports_tried(alloc, s, &s.machine.in_ports, local))
}
