// What is done around the scans of a controller: a cycle begins, what a scan has changed is made so, and a mark is set for the next cycle.
ghost use Rattle.std.specs.Prelude.{◌≡◌, ◌<◌, ◌+◌, ◌-◌, ◌^◌, IfOk, OnOk};
ghost use Rattle.ctl_face.specs.Prelude.{with_wake_up};
ghost use Rattle.ctl_store.specs.Prelude.{ctl_of, outcome_acts};
ghost use Rattle.controller_rows.specs.Prelude.{GoesOn, IsDone};

use ctl_face::{NoMemory, Parcel, Routes, Seq, acts_between_scans_keep_what_holds};
use ctl_store::{Outcome, Store};
use ruby_value::Delivery;

/// Begins a cycle after another one, in which nothing has fired yet.
pub fn begin(store: &mut Store, routes: &Routes, now: u64)
    requires goes { GoesOn store.old routes.now (now - 1) }
    requires later { 0 < now }
    ensures goes { GoesOn store.new routes.now now }
    ensures none_fired { (ctl_of store.new).fired ≡ 0 }
{
    let _routes = routes;
    acts_between_scans_keep_what_holds();
    store.begin(now);
}

/// Makes room for what a scan has changed, and applies it. Answers what goes to other controllers.
pub fn apply(
    store: &mut Store,
    routes: &Routes,
    now: u64,
    outcome: Outcome,
) -> Result<Seq<Delivery<Parcel>>, NoMemory>
    requires goes { GoesOn store.old routes.now now }
    requires few { (ctl_of store.old).fired + 1 < 2 ^ 64 }
    requires done { IsDone store.old now outcome }
    ensures goes { OnOk result (GoesOn store.new routes.now now) }
    ensures fired { OnOk result ((ctl_of store.new).fired ≡ (ctl_of store.old).fired + 1) }
    ensures posted { IfOk result (λ posted. posted ≡ (outcome_acts outcome).posted) }
{
    let _routes = routes;
    store.reserve(&outcome)?;
    acts_between_scans_keep_what_holds();
    Ok(store.apply(outcome))
}

/// Sets the mark of the next cycle, as where a scan rests in which something was stalled, or where a controller has fired as often as it
/// may.
pub fn wake_again(store: &mut Store, routes: &Routes, now: u64) -> Result<(), NoMemory>
    requires goes { GoesOn store.old routes.now now }
    requires now { now < 2 ^ 63 }
    ensures goes { OnOk result (GoesOn store.new routes.now now) }
    ensures after { OnOk result (ctl_of store.new ≡ with_wake_up (ctl_of store.old) (now + 1)) }
{
    let _routes = routes;
    store.room(0)?;
    acts_between_scans_keep_what_holds();
    store.mark(now + 1);
    Ok(())
}
