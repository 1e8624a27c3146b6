// The controller whose scans are done: its store, with a request in its queue, and the routes to it and another of its machine.
ghost use Rattle.std.specs.Prelude.{◌-◌, IfOk, IfSome};
ghost use Rattle.ruby_value.specs.Prelude.{IsRequest};
ghost use Rattle.controller_rows.specs.Prelude.{GoesOn};

use controller_rows::{Network, is_delivered, is_issued, message, opened};
use ctl_face::{Fields, NoMemory, Routes};
use ctl_store::Store;
use machine_setup::setup;
use ruby_symbols::{Symbols, mandatory};
use ruby_value::{Ask, Asked, MachineSetup, MsgNo, Seq, Sizes, Value};
use slicc_plan::Plan;
use std::alloc::Global;

/// The actor number of the controller. There is one more controller, and then comes the driver.
const ME: u32 = 0;

const DRIVER: u32 = 2;

// A cache, if the machine has one, has one line.
fn sizes(alloc: Global) -> Result<Sizes, NoMemory> {
    let machines = Seq::copied(alloc, &[(0, 2)])?;
    Ok(Sizes {
        caches: Seq::copied(alloc, &[(0, 1, 1)])?,
        tbes: Seq::new(alloc),
        parameters: Seq::new(alloc),
        machines,
    })
}

// What the machine is to the controller.
fn machine(alloc: Global, plan: &Plan) -> Result<Option<MachineSetup>, NoMemory> {
    let sizes = sizes(alloc)?;
    let machine = setup(alloc, plan, 0, &sizes);
    drop(sizes);
    machine
}

/// The routes: 3 cycles to the other controller, where this buffer takes the messages of network 0, as at this one.
pub(crate) fn routes(alloc: Global, receiving: Option<u16>) -> Result<Routes, NoMemory> {
    let network = Network {
        own_path: 0,
        path: 3,
        jitter: 0,
        in_order: false,
    };
    let row = [receiving];
    controller_rows::routes(alloc, &network, &[row.as_slice(), row.as_slice()])
}

// A load of four bytes of a line, by its address, whose second address is one of line 3.
fn request(alloc: Global, address: u64) -> Result<Fields, NoMemory> {
    let values = vec![in alloc;
        Value::Addr(address),
        Value::Addr(200),
        Value::Enum(2, 0),
        Value::Int(4),
    ]?;
    Ok(Fields::of(values))
}

fn load() -> Asked
    ensures { IsRequest result }
{
    Asked {
        line: 1,
        kind: Ask::Load,
        offset: 4,
        size: 4,
        byte: 0,
        issued: 0,
    }
}

// A store of the byte 171.
fn write() -> Asked
    ensures { IsRequest result }
{
    Asked {
        line: 3,
        kind: Ask::Store,
        offset: 5,
        size: 1,
        byte: 171,
        issued: 0,
    }
}

// Whether the requests could be issued, if the machine has a sequencer.
fn are_issued(store: &mut Store, routes: &Routes, now: u64) -> bool
    requires { GoesOn store.old routes.now now }
    ensures { GoesOn store.new routes.now now }
{
    if !store.machine().has_sequencer {
        return true;
    }
    is_issued(store, routes, now, load()) && is_issued(store, routes, now, write())
}

/// The number of the queue of requests.
pub(crate) fn queue(symbols: &Symbols) -> Option<u16> {
    match symbols.machines.get(0) {
        Some(m) => mandatory(m),
        None => None,
    }
}

/// Whether a request for a line, by its address, could come to the queue of this number, which arrives in cycle 1, and what is asked of
/// the sequencer.
pub(crate) fn is_begun(
    alloc: Global,
    store: &mut Store,
    queue: Option<u16>,
    routes: &Routes,
    now: u64,
    address: u64,
) -> bool
    requires { GoesOn store.old routes.now now }
    ensures { GoesOn store.new routes.now now }
{
    let Some(queue) = queue else {
        return false;
    };
    let Ok(fields) = request(alloc, address) else {
        return false;
    };
    let number = MsgNo {
        sender: DRIVER,
        count: 0,
    };
    is_delivered(store, routes, now, message(number, queue, 1, fields))
        && are_issued(store, routes, now)
}

/// The store of the controller of a plan's protocol, as a run begins, in the cycle before this one.
pub(crate) fn store_of(
    alloc: Global,
    plan: &Plan,
    routes: &Routes,
    now: u64,
) -> Result<Option<Store>, NoMemory>
    ensures { IfOk result (λ o. IfSome o (λ s. GoesOn s routes.now (now - 1))) }
{
    match machine(alloc, plan)? {
        Some(machine) => opened(alloc, machine, ME, routes, now.saturating_sub(1)),
        None => Ok(None),
    }
}
