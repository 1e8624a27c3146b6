// What is counted in the bodies of actions before a transition does them, against a number.
ghost use Rattle.std.specs.Prelude.{◌≡◌, flat_map, nat_lt};
ghost use Rattle.ctl_face.specs.Prelude.{sends};
ghost use Rattle.body_meaning.specs.Prelude.{action_names, block_names, body_of_action, counts_for, if_names, is_to, names_in, names_table, of_check, of_enqueue, place_among, reading, sends_for};
ghost use Rattle.statement_walk.specs.Prelude.{count_of, else_if_names, one_less, passes, pick, spend, spent};

use crate::bodies::body_of_action;
use body_meaning::{Scope, port_named};
use ruby_symbols::{MachineSymbols, Named, stands_for};
use ruby_value::BufferPlace;
use slicc_ast::tree::{Block, ElseIf, If, Stmt};

/// What is counted in the bodies of actions.
#[derive(Clone, Copy)]
pub enum Counted {
    /// The free lines that they need of the machine's table of this number.
    Lines(u16),
    /// The messages that they send on the machine's buffer of this number, or to the network that it is to.
    Messages(u16),
}

fn names_table(m: &MachineSymbols, table: u16, name: &[u8]) -> bool
    ensures { result ≡ names_table m.now table name.now }
{
    match stands_for(m, name) {
        Some(Named::Table(number)) => number == table,
        _ => false,
    }
}

fn place_among(m: &MachineSymbols, buffer: u16) -> Option<BufferPlace>
    ensures { result ≡ place_among m.now buffer }
{
    match m.buffers.get(usize::from(buffer)) {
        Some(b) => Some(b.place),
        None => None,
    }
}

/// Whether messages are sent on the machine's buffer of this number.
pub fn is_sent_on(m: &MachineSymbols, buffer: u16) -> bool
    ensures { result ≡ sends (place_among m.now buffer) }
{
    match place_among(m, buffer) {
        Some(BufferPlace::Local | BufferPlace::To { .. }) => true,
        Some(BufferPlace::From { .. }) | None => false,
    }
}

fn is_to(network: u16, place: Option<BufferPlace>) -> bool
    ensures { result ≡ is_to network place }
{
    match place {
        Some(BufferPlace::To { network: other, .. }) => other == network,
        _ => false,
    }
}

fn counts_for(m: &MachineSymbols, buffer: u16, other: u16) -> bool
    ensures { result ≡ counts_for m.now buffer other }
{
    match place_among(m, buffer) {
        Some(BufferPlace::Local) => other == buffer,
        Some(BufferPlace::To { network, .. }) => is_to(network, place_among(m, other)),
        Some(BufferPlace::From { .. }) | None => false,
    }
}

fn sends_for(m: &MachineSymbols, buffer: u16, port: &[u8]) -> bool
    ensures { result ≡ sends_for m.now buffer port.now }
{
    match port_named(m, port) {
        Some(other) => counts_for(m, buffer, other),
        None => false,
    }
}

fn passes(m: &MachineSymbols, counted: Counted, name: &[u8]) -> bool
    ensures { result ≡ passes m.now counted name.now }
{
    match counted {
        Counted::Lines(table) => names_table(m, table, name),
        Counted::Messages(buffer) => sends_for(m, buffer, name),
    }
}

fn one_less(n: u64) -> Option<u64>
    ensures { result ≡ one_less n }
{
    if n == 0 { None } else { Some(n - 1) }
}

fn spend(m: &MachineSymbols, counted: Counted, left: Option<u64>, name: &[u8]) -> Option<u64>
    ensures { result ≡ spend (passes m.now counted) left name.now }
{
    match left {
        None => None,
        Some(n) => {
            if passes(m, counted, name) {
                one_less(n)
            } else {
                Some(n)
            }
        }
    }
}

// What is left after a `check_allocate` of this name.
fn spend_check(m: &MachineSymbols, counted: Counted, left: Option<u64>, name: &[u8]) -> Option<u64>
    ensures { result ≡ spent (passes m.now counted) left (of_check (pick counted) name.now) }
{
    match counted {
        Counted::Lines(_) => spend(m, counted, left, name),
        Counted::Messages(_) => left,
    }
}

// What is left after an `enqueue` on the port of this name, without what its block has.
fn spend_enqueue(
    m: &MachineSymbols,
    counted: Counted,
    left: Option<u64>,
    name: &[u8],
) -> Option<u64>
    ensures { result ≡ spent (passes m.now counted) left (of_enqueue (pick counted) name.now) }
{
    match counted {
        Counted::Lines(_) => left,
        Counted::Messages(_) => spend(m, counted, left, name),
    }
}

// What is left after the statements of a block that count.
#[cycle(spending)]
fn spend_block(m: &MachineSymbols, counted: Counted, left: Option<u64>, b: &Block) -> Option<u64>
    ensures { result
        ≡ spent (passes m.now counted) left (flat_map (names_in (pick counted)) b.now.statements) }
{
    let mut left = left;
    for statement in b.statements.as_slice() {
        left = spend_stmt(m, counted, left, statement);
    }
    left
}

#[cycle(spending)]
fn spend_others(
    m: &MachineSymbols,
    counted: Counted,
    left: Option<u64>,
    others: &[ElseIf],
) -> Option<u64>
    ensures { result
        ≡ spent (passes m.now counted) left (flat_map (else_if_names (pick counted)) others.now) }
{
    let mut left = left;
    for other in others {
        left = spend_block(m, counted, left, &other.then);
    }
    left
}

#[cycle(spending)]
fn spend_if(m: &MachineSymbols, counted: Counted, left: Option<u64>, i: &If) -> Option<u64>
    ensures { result ≡ spent (passes m.now counted) left (if_names (pick counted) i.now) }
{
    let first = spend_block(m, counted, left, &i.then);
    let second = spend_others(m, counted, first, &i.others);
    match &i.otherwise {
        Some(block) => spend_block(m, counted, second, block),
        None => second,
    }
}

#[cycle(spending)]
fn spend_stmt(m: &MachineSymbols, counted: Counted, left: Option<u64>, s: &Stmt) -> Option<u64>
    ensures { result ≡ spent (passes m.now counted) left (names_in (pick counted) s.now) }
{
    match s {
        Stmt::If(inner) => spend_if(m, counted, left, inner),
        Stmt::Peek { body, .. } => spend_block(m, counted, left, body),
        Stmt::Enqueue { port, body, .. } => {
            let after = spend_enqueue(m, counted, left, port.text.as_slice());
            spend_block(m, counted, after, body)
        }
        Stmt::CheckAllocate(name, _) => spend_check(m, counted, left, name.text.as_slice()),
        Stmt::Declare { .. }
        | Stmt::Assign { .. }
        | Stmt::Evaluate(..)
        | Stmt::Return(..)
        | Stmt::StallAndWait { .. }
        | Stmt::Error(..)
        | Stmt::Assert(..)
        | Stmt::Print { .. } => left,
    }
}

fn spend_action(s: Scope<'_>, counted: Counted, left: Option<u64>, number: u16) -> Option<u64>
    ensures { result ≡ spent (passes s.entry.machine.now counted) left
        (block_names (pick counted) (body_of_action (reading s.entry) number)) }
{
    match body_of_action(s, number) {
        None => left,
        Some(block) => spend_block(s.machine, counted, left, block),
    }
}

fn spend_actions(s: Scope<'_>, counted: Counted, left: Option<u64>, actions: &[u16]) -> Option<u64>
    ensures { result ≡ spent (passes s.entry.machine.now counted) left
        (action_names (pick counted) (reading s.entry) actions.now) }
{
    let mut left = left;
    for number in actions {
        left = spend_action(s, counted, left, *number);
    }
    left
}

/// Whether there is more of what is counted in these actions than this.
pub fn has_more(s: Scope<'_>, actions: &[u16], counted: Counted, n: u64) -> bool
    ensures { result ≡ nat_lt n (count_of (reading s.entry) actions.now counted) }
{
    match spend_actions(s, counted, Some(n), actions) {
        None => true,
        Some(_) => false,
    }
}
