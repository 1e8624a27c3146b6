// What is done to a controller before its scan.
ghost use Rattle.std.specs.Prelude.{◌≡◌, ◌<◌, ◌≤◌, IfOk, OnOk};
ghost use Rattle.ctl_face.specs.Prelude.{last_cycle, SameScan};
ghost use Rattle.ctl_store.specs.Prelude.{view_of, ctl_of};
ghost use Rattle.controller_rows.specs.Prelude.{GoesOn, IsDone};

use controller_rows::apply;
use ctl_face::{Local, Routes, Trouble, receives};
use ctl_store::{Draft, Outcome, Scratch, Store};
use run_journal::FireNote;
use std::alloc::Global;

/// What is done to the controller before its scan.
#[derive(Clone, Copy)]
pub(crate) enum Before {
    Nothing,
    /// The request is popped.
    Popped,
    /// Line 0 is in state B.
    InB,
}

// Does it in a draft.
fn prepare(draft: &mut Draft<'_>, before: Before) -> Result<(), Trouble>
    ensures { SameScan (view_of draft.old) (view_of draft.new) }
{
    match before {
        Before::Nothing => Ok(()),
        Before::Popped => {
            if !receives(draft.machine(), 0) {
                return Ok(());
            }
            draft.pop(0)
        }
        Before::InB => {
            if draft.machine().default_state.is_none() {
                return Ok(());
            }
            draft.set_state(0, 1)
        }
    }
}

// What it changes.
fn prepared(
    alloc: Global,
    store: &Store,
    routes: &Routes,
    now: u64,
    before: Before,
) -> Result<Outcome, Trouble>
    requires goes { GoesOn store.now routes.now now }
    requires cycle { now ≤ last_cycle }
    ensures { IfOk result (IsDone store.now now) }
{
    let mut draft = Draft::on(Scratch::new(alloc)?, store, routes, 0, now);
    match prepare(&mut draft, before) {
        Ok(()) => Ok(draft.seal(FireNote {
            address: 0,
            state: 0,
            event: 0,
            next: 0,
        })),
        Err(trouble) => {
            drop(draft);
            Err(trouble)
        }
    }
}

/// Does it to the controller, in a draft of its own.
pub(crate) fn make_ready(
    alloc: Global,
    store: &mut Store,
    routes: &Routes,
    now: u64,
    before: Before,
) -> Result<(), Trouble>
    requires goes { GoesOn store.old routes.now now }
    requires none_fired { (ctl_of store.old).fired ≡ 0 }
    requires cycle { now ≤ last_cycle }
    ensures goes { OnOk result (GoesOn store.new routes.now now) }
    ensures few { OnOk result ((ctl_of store.new).fired < 2) }
{
    if let Before::Nothing = before {
        return Ok(());
    }
    let outcome = prepared(alloc, store, routes, now, before)?;
    let posted = apply(store, routes, now, outcome)?;
    drop(posted);
    Ok(())
}
