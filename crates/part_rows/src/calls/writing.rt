// Makes the calls, and adds what each answers.
ghost use Rattle.std.specs.Prelude.{IfOk, IfSome};
ghost use Rattle.controller_rows.specs.Prelude.{GoesOn};

use crate::calls::node::{DRIVER, KEPT, KEPT_NUMBERS, ME, PARAMETERS, QUEUE, machine, routes};
use crate::calls::requests::{load, store};
use crate::calls::row::{Call, call_of, values};
use crate::calls::shown::{add_answer, add_arguments};
use acts::set;
use built_in_acts::built_in;
use controller_rows::{is_delivered, is_issued, message, one_field, opened};
use ctl_face::{Local, NoMemory, Routes};
use ctl_store::{Draft, Scratch, Store};
use example_texts::RowText;
use ruby_outside::{Got, Library};
use ruby_value::{MsgNo, Ref, Value};
use std::alloc::Global;

// The file with the calls, and the most bytes that it may have.
const CALLS: &str = "acts/rows";

const CALLS_LIMIT: u64 = 1_048_576;

/// The cycle of the calls.
pub(crate) const NOW: u64 = 10;

// Makes a call with these arguments in a local, and adds its line.
fn add_call<L: Local>(rows: &mut RowText, local: &mut L, call: &Call<'_>, arguments: &[Value]) {
    let answer = built_in(rows.alloc(), local, KEPT, call.number, call.on, arguments);
    rows.show("", &call.number);
    rows.show(" ", &call.name);
    add_arguments(rows, arguments);
    add_answer(rows, &answer);
    drop(answer);
}

fn add_row<L: Local>(rows: &mut RowText, local: &mut L, line: &str) {
    let call = call_of(line);
    match values(rows.alloc(), call.arguments) {
        Ok(arguments) => {
            add_call(rows, local, &call, &arguments);
            drop(arguments);
        }
        Err(NoMemory) => rows.lose(),
    }
}

// Whether the numbers of the machines' controllers could be written.
fn are_kept<L: Local>(local: &mut L) -> bool {
    let r = Ref {
        table: PARAMETERS,
        line: 0,
    };
    for (field, n) in KEPT_NUMBERS {
        if set(local, &r, *field, Value::Int(*n)).is_err() {
            return false;
        }
    }
    true
}

fn add_group<L: Local>(rows: &mut RowText, local: &mut L, group: &str) {
    if !are_kept(local) {
        return rows.lose();
    }
    for line in group.lines() {
        if !line.is_empty() && !line.starts_with('#') {
            add_row(rows, local, line);
        }
    }
}

// The calls between blank lines, on a draft of their own, which is dropped.
fn add_groups(rows: &mut RowText, node: &Store, routes: &Routes, calls: &str)
    requires { GoesOn node.now routes.now NOW }
{
    for group in calls.split("\n\n") {
        let Ok(scratch) = Scratch::new(rows.alloc()) else {
            return rows.lose();
        };
        let mut draft = Draft::on(scratch, node, routes, 42, NOW);
        add_group(rows, &mut draft, group);
        drop(draft);
    }
}

/// Whether a message of the driver, which has the address of line 1, could come to the controller, and the requests.
pub(crate) fn is_begun(alloc: Global, node: &mut Store, routes: &Routes) -> bool
    requires { GoesOn node.old routes.now NOW }
    ensures { GoesOn node.new routes.now NOW }
{
    let Ok(fields) = one_field(alloc, Value::Addr(64)) else {
        return false;
    };
    let number = MsgNo {
        sender: DRIVER,
        count: 0,
    };
    is_delivered(node, routes, NOW, message(number, QUEUE, NOW, fields))
        && is_issued(node, routes, NOW, load())
        && is_issued(node, routes, NOW, store())
}

fn add_on(rows: &mut RowText, node: &mut Store, routes: &Routes, calls: &str)
    requires { GoesOn node.old routes.now NOW }
{
    if !is_begun(rows.alloc(), node, routes) {
        return rows.lose();
    }
    add_groups(rows, node, routes, calls);
}

/// The store of the controller as a run begins.
pub(crate) fn node_of(alloc: Global, routes: &Routes) -> Result<Option<Store>, NoMemory>
    ensures { IfOk result (λ o. IfSome o (λ s. GoesOn s routes.now NOW)) }
{
    let machine = machine(alloc)?;
    opened(alloc, machine, ME, routes, NOW)
}

fn add_by(rows: &mut RowText, routes: &Routes, calls: &str) {
    match node_of(rows.alloc(), routes) {
        Ok(Some(mut node)) => {
            add_on(rows, &mut node, routes, calls);
            drop(node);
        }
        Ok(None) | Err(NoMemory) => rows.lose(),
    }
}

// Adds the lines of calls.
fn add_calls(rows: &mut RowText, calls: &str) {
    match routes(rows.alloc()) {
        Ok(routes) => {
            add_by(rows, &routes, calls);
            drop(routes);
        }
        Err(NoMemory) => rows.lose(),
    }
}

/// Adds the lines of the calls in the file.
pub(crate) fn add<L: Library>(rows: &mut RowText, library: &mut L) {
    let Got::Bytes(calls) = library.read(CALLS, CALLS_LIMIT) else {
        return rows.lose();
    };
    add_calls(rows, str::from_utf8(&calls).unwrap_or(""));
    drop(calls);
}
