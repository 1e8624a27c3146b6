//! How a wake-up ends, and how a run ends.
ghost use Rattle.std.specs.Prelude.{◌≡◌, ◌<◌, ◌^◌, IfSome};
ghost use Rattle.ctl_store.specs.Prelude.{ctl_of, HasRoomForMark, IsSameStore};
ghost use Rattle.world_state.specs.Ended.{ended};
ghost use Rattle.protocol_runs.specs.Prelude.{beyond, found, quiet, too_full, too_long, verdict_after};
ghost use Rattle.world_state.specs.Cycle.{HasLine};

use ctl_store::Store;
use ruby_value::Finding;
use run_journal::{End, Verdict};

/// The controller of a store ends its wake-up so, where its last scan was told to wake it again or not. It takes no memory.
pub fn end_store(store: &mut Store, now: u64, stalled: bool, end: &End)
    requires room { HasRoomForMark store.old }
    requires now { now < 2 ^ 63 }
    ensures ctl { ctl_of store.new ≡ ended stalled now (ctl_of store.old) end.now }
    ensures store { IsSameStore store.old store.new }
{
    match end {
        End::Idle => {
            if stalled {
                store.mark(now + 1);
            }
        }
        End::Full => store.mark(now + 1),
        End::Stop(_) => store.halt(),
    }
}

fn found(now: u64, finding: Option<Finding>) -> Option<Verdict>
    requires { IfSome finding HasLine }
    ensures { result ≡ found now finding }
{
    Some(match finding? {
        Finding::Incoherent {
            controller,
            line,
            offset,
            expected,
            found,
        } => Verdict::Incoherent {
            cycle: now,
            controller,
            address: line * 64,
            offset,
            expected,
            found,
        },
        Finding::Deadlock {
            controller,
            line,
            issued,
        } => Verdict::Deadlock {
            cycle: now,
            controller,
            address: line * 64,
            issued,
        },
        Finding::Passed { checks } => Verdict::Passed { cycle: now, checks },
    })
}

fn quiet(now: u64, next: Option<u64>) -> Option<Verdict>
    ensures { result ≡ quiet now next }
{
    match next {
        None => Some(Verdict::Quiet { cycle: now }),
        Some(_) => None,
    }
}

fn beyond(now: u64, cycles: u64, next: Option<u64>) -> Option<Verdict>
    ensures { result ≡ beyond now cycles next }
{
    match next {
        Some(next) if cycles < next => Some(Verdict::Cycles { cycle: now }),
        _ => None,
    }
}

fn too_long(now: u64, entries: u64) -> Option<Verdict>
    ensures { result ≡ too_long now entries }
{
    if entries > 1_000_000 {
        Some(Verdict::Journal {
            cycle: now,
            entries,
        })
    } else {
        None
    }
}

fn too_full(now: u64, messages: u64) -> Option<Verdict>
    ensures { result ≡ too_full now messages }
{
    if messages > 500_000 {
        Some(Verdict::Mail {
            cycle: now,
            messages,
        })
    } else {
        None
    }
}

/// The verdict after the driver has acted, if the run doesn't go on: by the bound on cycles and the next cycle, what the driver
/// found, how many entries the journal has with that of this turn, and how many messages are in inboxes. It takes no memory.
pub fn verdict_after(
    now: u64,
    cycles: u64,
    next: Option<u64>,
    finding: Option<Finding>,
    entries: u64,
    messages: u64,
) -> Option<Verdict>
    requires { IfSome finding HasLine }
    ensures { result ≡ verdict_after now cycles next finding entries messages }
{
    found(now, finding)
        .or(quiet(now, next))
        .or(beyond(now, cycles, next))
        .or(too_long(now, entries))
        .or(too_full(now, messages))
}
