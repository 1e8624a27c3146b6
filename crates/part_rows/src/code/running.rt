// Runs bodies, and adds what each ends with.
ghost use Rattle.std.specs.Prelude.{◌≡◌, [], IsTrue, slice_get};
ghost use Rattle.controller_rows.specs.Prelude.{GoesOn};
ghost use Rattle.action_vm.specs.Prelude.{IsCallOf};

use crate::calls::node::routes;
use crate::calls::shown::{add_reference, add_value};
use crate::calls::writing::{NOW, is_begun, node_of};
use crate::code::declared::is_declared;
use crate::code::program::{is_body, verified};
use action_code::Verified;
use action_vm::{CodeEnd, run_code};
use ctl_face::{Local, NoMemory, Routes};
use ctl_store::{Draft, Scratch, Store};
use example_texts::RowText;
use ruby_outside::{Got, Library, MemSink};
use ruby_value::Seq;
use trace_print::{fault_word, write_code};

// The files with the bodies that are listed and with those that are run, and the most bytes that each may have.
const LISTED: &str = "code/listed";

const ROWS: &str = "code/rows";

const LIMIT: u64 = 1_048_576;

fn add_end(rows: &mut RowText, end: &CodeEnd) {
    match end {
        CodeEnd::Nothing => rows.add("done"),
        CodeEnd::Value(v) => add_value(rows, v),
        CodeEnd::Trigger {
            event,
            address,
            entry,
            tbe,
        } => {
            rows.show("trigger ", event);
            rows.show(" Addr ", address);
            add_reference(rows, " Entry", entry);
            add_reference(rows, " Tbe", tbe);
        }
        CodeEnd::Stop(fault) => {
            rows.add("fault ");
            rows.add_bytes(fault_word(fault));
        }
    }
    rows.add("\n");
}

// Whether a body without arguments may be run in a local.
fn may_run<L: Local>(code: &Verified, body: u32, local: &L) -> bool
    ensures { IsTrue result
        → IsCallOf code.now (slice_get code.now.bodies body) [] (L.view local.now) }
{
    let p = code.program();
    match p.bodies.get(body as usize) {
        None => false,
        Some(c) => {
            c.arguments.is_empty()
                && is_declared(p, p.machines.get(usize::from(c.machine)), local.machine())
        }
    }
}

// Runs a body without arguments, and adds a line with its name and its end.
fn add_run<L: Local>(rows: &mut RowText, local: &mut L, code: &Verified, body: u32, name: &str) {
    if !may_run(code, body, local) {
        return;
    }
    match run_code(rows.alloc(), code, body, local, Seq::new(rows.alloc())) {
        Ok(end) => {
            rows.show("", &name);
            rows.add(": ");
            add_end(rows, &end);
            drop(end);
        }
        Err(NoMemory) => rows.lose(),
    }
}

fn add_body(
    rows: &mut RowText,
    node: &Store,
    routes: &Routes,
    code: &Verified,
    body: u32,
    line: &str,
)
    requires { GoesOn node.now routes.now NOW }
{
    let Ok(scratch) = Scratch::new(rows.alloc()) else {
        return rows.lose();
    };
    let (name, _body) = line.split_once(" = ").unwrap_or((line, ""));
    let mut draft = Draft::on(scratch, node, routes, 42, NOW);
    add_run(rows, &mut draft, code, body, name);
    drop(draft);
}

fn add_bodies(rows: &mut RowText, node: &Store, routes: &Routes, code: &Verified, text: &str)
    requires { GoesOn node.now routes.now NOW }
{
    let mut body: u32 = 0;
    for line in text.lines() {
        if is_body(line) {
            add_body(rows, node, routes, code, body, line);
            body = body.wrapping_add(1);
        }
    }
}

fn add_on(rows: &mut RowText, node: &mut Store, routes: &Routes, code: &Verified, text: &str)
    requires { GoesOn node.old routes.now NOW }
{
    if !is_begun(rows.alloc(), node, routes) {
        return rows.lose();
    }
    add_bodies(rows, node, routes, code, text);
}

fn add_by(rows: &mut RowText, routes: &Routes, code: &Verified, text: &str) {
    match node_of(rows.alloc(), routes) {
        Ok(Some(mut node)) => {
            add_on(rows, &mut node, routes, code, text);
            drop(node);
        }
        Ok(None) | Err(NoMemory) => rows.lose(),
    }
}

fn add_ends(rows: &mut RowText, code: &Verified, text: &str) {
    match routes(rows.alloc()) {
        Ok(routes) => {
            add_by(rows, &routes, code, text);
            drop(routes);
        }
        Err(NoMemory) => rows.lose(),
    }
}

// Adds the listing of a program.
fn add_listing(rows: &mut RowText, code: &Verified) {
    match MemSink::new(rows.alloc(), Seq::new(rows.alloc()), LIMIT, LIMIT) {
        Ok(mut sink) => {
            if !write_code(&mut sink, code) {
                rows.lose();
            }
            rows.add_bytes(sink.bytes());
            drop(sink);
        }
        Err(NoMemory) => rows.lose(),
    }
}

// Adds the rows of the program of a file: its listing, or the ends of its bodies.
fn add_file<L: Library>(rows: &mut RowText, library: &mut L, name: &str, is_listed: bool) {
    let Got::Bytes(bytes) = library.read(name, LIMIT) else {
        return rows.lose();
    };
    let text = str::from_utf8(&bytes).unwrap_or("");
    match verified(rows.alloc(), text) {
        Ok(Some(code)) => {
            if is_listed {
                add_listing(rows, &code);
            } else {
                add_ends(rows, &code, text);
            }
            drop(code);
        }
        Ok(None) | Err(NoMemory) => rows.lose(),
    }
    drop(bytes);
}

/// Adds the listing of the bodies in one file, and the ends of those in the other.
pub(crate) fn add<L: Library>(rows: &mut RowText, library: &mut L) {
    add_file(rows, library, LISTED, true);
    add_file(rows, library, ROWS, false);
}
