//! Operations, and ends of bodies.
ghost use Rattle.std.specs.Prelude.{◌≡◌, ◌≤◌, List, drop, length, slice_get, IfOk, OnOk};
ghost use Rattle.ruby_value.specs.declared.value.Value.{Value as AnyValue};
ghost use Rattle.ctl_face.specs.Prelude.{LocalView};
ghost use Rattle.acts.specs.Prelude.{DoesAs, itself};
ghost use Rattle.action_code.specs.Prelude.{machine_of, operands_of, operations, tables_of};
ghost use Rattle.built_in_acts.specs.Prelude.{argument, built_in};
ghost use Rattle.code_meaning.specs.Prelude.{arguments_on, arity, kept_of, kinds_of, operated, returned, stop_of, triggered};
ghost use Rattle.action_vm.specs.Frames.{HasResult, HasResultAfter, NeedsResult, Own, end_of, step_of};
ghost use Rattle.code_frame.specs.Prelude.{IsAddress, IsReference, Over, Rest, SameRest};

use crate::frame::{Ended, Next};
use action_code::{Arguments, Code, OPERATIONS, Operation, Program, TableDecl};
use acts::{Fault, Local, Trouble, Value};
use built_in_acts::{KeptMachines, address_of_line, built_in};
use code_frame::Frame;
use ruby_value::{Kind, line_of};
use std::alloc::Global;

fn kinds_of(p: &Program, structure: u16) -> &[Kind]
    ensures { result.now ≡ kinds_of p.now structure }
{
    match p.structures.get(usize::from(structure)) {
        Some(kinds) => kinds.as_slice(),
        None => &[],
    }
}

// The tables of a body's machine.
fn tables_of<'a>(p: &'a Program, c: &Code) -> &'a [TableDecl]
    ensures { result.now ≡ tables_of (machine_of p.now c.now) }
{
    match p.machines.get(usize::from(c.machine)) {
        Some(m) => m.tables.as_slice(),
        None => &[],
    }
}

// Where the controllers of a body's machine keep the numbers of all machines' controllers.
fn kept_of(p: &Program, c: &Code) -> KeptMachines
    ensures { result ≡ kept_of p.now c.now }
{
    let tables = tables_of(p, c);
    let table = tables.len().saturating_sub(1);
    let fields = match tables.get(table) {
        Some(t) => kinds_of(p, t.structure).len(),
        None => 0,
    };
    let machines = p.machines.len();
    let first = fields.saturating_sub(machines).saturating_sub(machines);
    KeptMachines {
        table: table.min(65_535) as u16,
        first: first.min(255) as u8,
        count: machines.min(255) as u8,
    }
}

#[tactic(auto, unfolding(action_code::specs::Operations::operations))]
fn all_operations() -> &'static [Operation]
    ensures { result.now ≡ operations }
{
    &OPERATIONS
}

// What the operation of this number takes.
fn arguments_of(n: u16) -> Arguments
    ensures { length (operands_of result) ≡ arity (slice_get operations n) }
{
    match all_operations().get(usize::from(n)) {
        None => Arguments::Zero,
        Some(o) => o.arguments,
    }
}

// Takes the arguments off, does the operation, and answers what it gives.
fn asked<T: Local>(
    alloc: Global,
    kept: KeptMachines,
    n: u16,
    on: u16,
    frame: &mut Frame,
    local: &mut T,
) -> Result<Option<Value>, Trouble>
    requires { arity (slice_get operations n) ≤ length frame.old.stack }
    ensures does { let count = arity (slice_get operations n) in
        DoesAs itself (built_in kept n on (arguments_on count frame.old.stack)) result
        (T.view local.old) (T.view local.new) }
    ensures left { OnOk result (frame.new.stack ≡ drop (arity
        (slice_get operations n)) frame.old.stack) }
    ensures rest { OnOk result (SameRest frame.old frame.new) }
{
    match arguments_of(n) {
        Arguments::Zero => built_in(alloc, local, kept, n, on, &[]),
        Arguments::One(_) => {
            let arguments = [frame.pop()];
            built_in(alloc, local, kept, n, on, &arguments)
        }
        Arguments::Two(_, _) => {
            let b = frame.pop();
            let arguments = [frame.pop(), b];
            built_in(alloc, local, kept, n, on, &arguments)
        }
        Arguments::Three(_, _, _) => {
            let d = frame.pop();
            let b = frame.pop();
            let arguments = [frame.pop(), b, d];
            built_in(alloc, local, kept, n, on, &arguments)
        }
        Arguments::Four(_, _, _, _) => {
            let e = frame.pop();
            let d = frame.pop();
            let b = frame.pop();
            let arguments = [frame.pop(), b, d, e];
            built_in(alloc, local, kept, n, on, &arguments)
        }
    }
}

/// Does an operation with the arguments on top, and leaves what it gives in their place.
pub(crate) fn operate<T: Local>(
    alloc: Global,
    p: &Program,
    c: &Code,
    n: u16,
    on: u16,
    frame: &mut Frame,
    local: &mut T,
) -> Result<(), Trouble>
    requires { arity (slice_get operations n) ≤ length frame.old.stack }
    ensures does { DoesAs (λ _. frame.new.stack) (operated p.now c.now n on frame.old.stack) result
        (T.view local.old) (T.view local.new) }
    ensures rest { OnOk result (SameRest frame.old frame.new) }
{
    let given = asked(alloc, kept_of(p, c), n, on, frame, local)?;
    if let Some(v) = given {
        frame.push(v)?;
    }
    Ok(())
}

/// The end of a body that asks for an event, with the address and the references on top.
pub(crate) fn trigger(frame: &mut Frame, event: u16) -> Ended
    requires { Over IsReference (Over IsReference (Over IsAddress Rest)) frame.old.stack }
    ensures end { (s : List AnyValue) → end_of result s ≡ triggered event frame.old.stack }
    ensures rest { SameRest frame.old frame.new }
    ensures value { (s : List AnyValue) → HasResult result s }
{
    let tbe = frame.pop_reference();
    let entry = frame.pop_reference();
    let address = address_of_line(line_of(frame.pop_address()));
    Ended::Trigger {
        event,
        address,
        entry,
        tbe,
    }
}

/// The end of a body that stops with a fault.
pub(crate) fn stop(alloc: Global, fault: &Fault) -> Result<Next, Trouble>
    ensures does { (l : LocalView) (f : Own) → DoesAs (step_of l f)
        (stop_of fault.now) result l l }
    ensures value { (s : List AnyValue) → IfOk result (λ n. HasResultAfter n s) }
{
    let own = Fault::copied(alloc, fault)?;
    match own {
        Fault::Assert | Fault::Error(_) | Fault::Overflow | Fault::Reference => {
            Err(Trouble::Fault(own))
        }
        other => Ok(Next::Over(Ended::Stop(other))),
    }
}

/// The end of a body with this result.
pub(crate) fn ret(kind: Option<Kind>) -> Ended
    ensures end { (s : List AnyValue) → end_of result s ≡ returned kind (argument s 0) }
    ensures value { (s : List AnyValue) → NeedsResult kind s → HasResult result s }
{
    match kind {
        None => Ended::Nothing,
        Some(_) => Ended::Value,
    }
}
