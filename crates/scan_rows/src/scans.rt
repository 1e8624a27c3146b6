// Does the scans, and tells how each ends and what it leaves.
ghost use Rattle.std.specs.Prelude.{◌-◌};
ghost use Rattle.controller_rows.specs.Prelude.{GoesOn};

use crate::after::add_after;
use crate::before::{Before, make_ready};
use crate::begun::{is_begun, queue, routes, store_of};
use crate::protocol::{add_protocol, plan_by};
use crate::shown::add_end;
use controller_rows::{begin, scan as scan_store};
use ctl_face::{NoMemory, Routes};
use ctl_store::Store;
use example_texts::RowText;
use slicc_interpreter::Interpreted;
use slicc_plan::Plan;

/// How many transitions the controller may fire in a cycle.
const LIMIT: u64 = 32;

const SEED: u64 = 42;

/// A scan: its name, the address of the request, the cycle, what is done before it, how many transitions have fired in the cycle, and
/// the buffer that takes the messages of network 0.
#[derive(Clone, Copy)]
pub(crate) struct Scan<'a> {
    pub(crate) name: &'a str,
    pub(crate) address: u64,
    pub(crate) cycle: u64,
    pub(crate) before: Before,
    pub(crate) fired: u64,
    pub(crate) receiving: Option<u16>,
}

// Adds the line of a scan of a store's controller, whose queue of requests has this number.
fn add_on(
    rows: &mut RowText,
    scan: &Scan<'_>,
    protocol: &Interpreted,
    store: &mut Store,
    queue: Option<u16>,
    routes: &Routes,
)
    requires { GoesOn store.old routes.now (scan.now.cycle - 1) }
{
    let alloc = rows.alloc();
    let now = scan.cycle;
    if now == 0 || now > 1000 || !is_begun(alloc, store, queue, routes, now - 1, scan.address) {
        return rows.lose();
    }
    begin(store, routes, now);
    if make_ready(alloc, store, routes, now, scan.before).is_err() {
        return rows.lose();
    }
    match scan_store(
        alloc, protocol, 0, store, routes, SEED, now, scan.fired, LIMIT,
    ) {
        Ok(end) => {
            add_end(rows, scan.name, &end);
            add_after(rows, store, routes, now, end);
        }
        Err(NoMemory) => rows.lose(),
    }
}

// Adds the line of a scan of the controller of a protocol.
fn add_for(rows: &mut RowText, scan: &Scan<'_>, plan: Plan, routes: &Routes) {
    let queue = queue(plan.symbols());
    let store = store_of(rows.alloc(), &plan, routes, scan.cycle);
    let protocol = Interpreted::new(plan);
    match store {
        Ok(Some(mut store)) => {
            add_on(rows, scan, &protocol, &mut store, queue, routes);
            drop(store);
        }
        Ok(None) | Err(NoMemory) => rows.lose(),
    }
    drop(protocol);
}

// Adds the line of a scan by these routes of the protocol that has this text.
fn add_by(rows: &mut RowText, scan: &Scan<'_>, protocol: &RowText, routes: &Routes) {
    if !protocol.is_whole() {
        return rows.lose();
    }
    match plan_by(rows.alloc(), protocol.bytes()) {
        Ok(Some(plan)) => add_for(rows, scan, plan, routes),
        Ok(None) | Err(NoMemory) => rows.lose(),
    }
}

fn add_line(rows: &mut RowText, scan: &Scan<'_>, protocol: &RowText) {
    match routes(rows.alloc(), scan.receiving) {
        Ok(routes) => {
            add_by(rows, scan, protocol, &routes);
            drop(routes);
        }
        Err(NoMemory) => rows.lose(),
    }
}

/// Adds the line of a scan of the protocol that a row has in a frame.
pub(crate) fn add_scan(rows: &mut RowText, scan: &Scan<'_>, frame: &str, row: &str) {
    let mut protocol = RowText::new(rows.alloc());
    add_protocol(&mut protocol, frame, row);
    add_line(rows, scan, &protocol);
    drop(protocol);
}
