// A scan of a store's controller, on a draft that is sealed where it has fired, and else dropped.
ghost use Rattle.std.specs.Prelude.{◌≤◌, IfOk};
ghost use Rattle.ctl_face.specs.Prelude.{last_cycle};
ghost use Rattle.ctl_store.specs.Prelude.{view_of};
ghost use Rattle.protocol_meaning.specs.Prelude.{StaysIfFired};
ghost use Rattle.controller_rows.specs.Going.{GoesOn, IsEndOf};

use body_meaning::RoundEnd;
use ctl_face::{NoMemory, Routes};
use ctl_store::{Draft, Outcome, Scratch, Store};
use protocol_meaning::fired_rounds_stay;
use run_journal::StopAt;
use slicc_interpreter::Interpreted;
use std::alloc::Global;

/// How a scan has ended.
#[derive(Drop)]
pub enum ScanEnd {
    Fired(Outcome),
    Idle {
        /// Whether a transition was stalled.
        stalled: bool,
    },
    Full,
    Stop(StopAt),
}

// A scan, which leaves the draft in the same scan where a transition has fired.
fn round(
    alloc: Global,
    protocol: &Interpreted,
    machine: u16,
    draft: &mut Draft<'_>,
    fired: u64,
    limit: u64,
) -> Result<RoundEnd, NoMemory>
    ensures { IfOk result (λ end. StaysIfFired end (view_of draft.new) (view_of draft.old)) }
{
    fired_rounds_stay();
    protocol.walk(alloc, machine, draft, fired, limit)
}

/// Does a scan of a store's controller, of this machine, that has fired so many transitions in the cycle and may fire `limit`. The seed
/// is that of the jitter of its copies.
pub fn scan(
    alloc: Global,
    protocol: &Interpreted,
    machine: u16,
    store: &Store,
    routes: &Routes,
    seed: u64,
    now: u64,
    fired: u64,
    limit: u64,
) -> Result<ScanEnd, NoMemory>
    requires goes { GoesOn store.now routes.now now }
    requires cycle { now ≤ last_cycle }
    ensures { IfOk result (IsEndOf store.now now) }
{
    let mut draft = Draft::on(Scratch::new(alloc)?, store, routes, seed, now);
    match round(alloc, protocol, machine, &mut draft, fired, limit)? {
        RoundEnd::Fired(note) => Ok(ScanEnd::Fired(draft.seal(note))),
        RoundEnd::Idle => Ok(ScanEnd::Idle {
            stalled: draft.stalled(),
        }),
        RoundEnd::Full => Ok(ScanEnd::Full),
        RoundEnd::Stop(at) => Ok(ScanEnd::Stop(at)),
    }
}
