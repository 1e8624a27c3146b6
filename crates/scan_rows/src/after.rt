// What a scan makes of a controller, and what is told of it.
ghost use Rattle.std.specs.Prelude.{◌<◌, ◌≤◌, OnOk};
ghost use Rattle.ctl_face.specs.Prelude.{last_cycle};
ghost use Rattle.ctl_store.specs.Prelude.{ctl_of};
ghost use Rattle.controller_rows.specs.Prelude.{GoesOn, IsEndOf};

use crate::left::{add_copies, add_lines, add_mail, add_requests};
use controller_rows::{ScanEnd, apply, wake_again};
use ctl_face::{NoMemory, Parcel, Routes, Seq};
use ctl_store::{Draft, Scratch, Store};
use example_texts::RowText;
use ruby_value::Delivery;
use std::alloc::Global;

// Makes of the controller what the scan leaves of it: nothing but what it has done where it has fired, and a mark for the next cycle
// where it rests after a stall or has fired as often as it may. Answers the copies for others.
fn leave(
    alloc: Global,
    store: &mut Store,
    routes: &Routes,
    now: u64,
    end: ScanEnd,
) -> Result<Seq<Delivery<Parcel>>, NoMemory>
    requires goes { GoesOn store.old routes.now now }
    requires few { (ctl_of store.old).fired < 2 }
    requires cycle { now ≤ last_cycle }
    requires done { IsEndOf store.old now end }
    ensures { OnOk result (GoesOn store.new routes.now now) }
{
    match end {
        ScanEnd::Fired(outcome) => apply(store, routes, now, outcome),
        ScanEnd::Idle { stalled: true } | ScanEnd::Full => {
            wake_again(store, routes, now)?;
            Ok(Seq::new(alloc))
        }
        ScanEnd::Idle { stalled: false } | ScanEnd::Stop(_) => Ok(Seq::new(alloc)),
    }
}

// Adds what is left of the controller, what was sent to others, and which requests are finished.
fn add_left(
    rows: &mut RowText,
    store: &mut Store,
    routes: &Routes,
    now: u64,
    copies: &[Delivery<Parcel>],
)
    requires goes { GoesOn store.old routes.now now }
    requires cycle { now ≤ last_cycle }
{
    add_mail(rows, store, now);
    let Ok(scratch) = Scratch::new(rows.alloc()) else {
        return rows.lose();
    };
    let draft = Draft::on(scratch, store, routes, 0, now);
    add_lines(rows, &draft);
    drop(draft);
    add_copies(rows, store.machine(), copies);
    add_requests(rows, store);
}

/// Makes of the controller what a scan leaves of it that has ended so, and adds what is left, with the end of the line.
pub(crate) fn add_after(
    rows: &mut RowText,
    store: &mut Store,
    routes: &Routes,
    now: u64,
    end: ScanEnd,
)
    requires goes { GoesOn store.old routes.now now }
    requires few { (ctl_of store.old).fired < 2 }
    requires cycle { now ≤ last_cycle }
    requires done { IsEndOf store.old now end }
{
    match leave(rows.alloc(), store, routes, now, end) {
        Ok(copies) => {
            add_left(rows, store, routes, now, &copies);
            drop(copies);
        }
        Err(NoMemory) => rows.lose(),
    }
    rows.add("\n");
}
