//! The buffers that the actions of transitions send on.
ghost use Rattle.std.specs.Prelude.{◌≡◌, ◌++◌, ◌≤◌, IfOk, OnOk, flat_map, length, map, slice_get};
ghost use Rattle.std.specs.List.{count_by};
ghost use Rattle.std.specs.Option.{option_copied};
ghost use Rattle.slicc_plan.specs.Prelude.{machines_of};
ghost use Rattle.slicc_flow.specs.Sends.{action_sends, all_sends, block_sends, buffer_by, counts_for, decl_sends, else_if_sends, if_sends, is_to, machine_sends, one_buffer, port_at, port_sends, sends_from, sends_in, stmt_sends, transition_sends};

use ruby_base::{NoMemory, Seq};
use ruby_symbols::{MachineSymbols, Named, PortSymbol, TransitionSymbol, stands_for};
use ruby_value::BufferPlace;
use slicc_ast::tree::{Block, Decl, ElseIf, If, Machine, Stmt};
use slicc_plan::{Plan, machines_are_few};
use std::alloc::Global;

/// What the transitions of a machine send.
#[derive(Drop)]
pub struct MachineSends {
    /// Where each buffer of the machine comes from or goes to.
    pub places: Seq<BufferPlace>,
    /// By written transitions the buffers that their actions send on, one for each `enqueue`.
    pub sent: Seq<Seq<u16>>,
}

fn port_at(ports: &[PortSymbol], k: u16) -> Option<u16>
    ensures { result ≡ port_at ports.now k }
{
    match ports.get(usize::from(k)) {
        Some(p) => Some(p.buffer),
        None => None,
    }
}

fn buffer_by(own: &MachineSymbols, named: Option<Named>) -> Option<u16>
    ensures { result ≡ buffer_by own.now named }
{
    match named {
        Some(Named::InPort(k)) => port_at(&own.in_ports, k),
        Some(Named::OutPort(k)) => port_at(&own.out_ports, k),
        _ => None,
    }
}

fn add_one(list: &mut Seq<u16>, buffer: Option<u16>) -> Result<(), NoMemory>
    ensures { OnOk result (list.new ≡ list.old ++ one_buffer buffer) }
{
    match buffer {
        None => Ok(()),
        Some(buffer) => list.push(buffer),
    }
}

fn add_port(list: &mut Seq<u16>, own: &MachineSymbols, name: &[u8]) -> Result<(), NoMemory>
    ensures { OnOk result (list.new ≡ list.old ++ port_sends own.now name.now) }
{
    add_one(list, buffer_by(own, stands_for(own, name)))
}

#[cycle(statement_sends)]
fn add_block(list: &mut Seq<u16>, own: &MachineSymbols, b: &Block) -> Result<(), NoMemory>
    ensures { OnOk result (list.new ≡ list.old ++ block_sends own.now b.now) }
{
    for statement in b.statements.as_slice() {
        add_stmt(list, own, statement)?;
    }
    Ok(())
}

#[cycle(statement_sends)]
fn add_others(list: &mut Seq<u16>, own: &MachineSymbols, others: &[ElseIf]) -> Result<(), NoMemory>
    ensures { OnOk result (list.new ≡ list.old ++ flat_map (else_if_sends own.now) others.now) }
{
    for other in others {
        add_block(list, own, &other.then)?;
    }
    Ok(())
}

#[cycle(statement_sends)]
fn add_if(list: &mut Seq<u16>, own: &MachineSymbols, i: &If) -> Result<(), NoMemory>
    ensures { OnOk result (list.new ≡ list.old ++ if_sends own.now i.now) }
{
    add_block(list, own, &i.then)?;
    add_others(list, own, &i.others)?;
    match &i.otherwise {
        Some(block) => add_block(list, own, block),
        None => Ok(()),
    }
}

#[cycle(statement_sends)]
fn add_stmt(list: &mut Seq<u16>, own: &MachineSymbols, s: &Stmt) -> Result<(), NoMemory>
    ensures { OnOk result (list.new ≡ list.old ++ stmt_sends own.now s.now) }
{
    match s {
        Stmt::If(inner) => add_if(list, own, inner),
        Stmt::Peek { body, .. } => add_block(list, own, body),
        Stmt::Enqueue { port, body, .. } => {
            add_port(list, own, port.text.as_slice())?;
            add_block(list, own, body)
        }
        Stmt::Declare { .. }
        | Stmt::Assign { .. }
        | Stmt::Evaluate(..)
        | Stmt::Return(..)
        | Stmt::StallAndWait { .. }
        | Stmt::CheckAllocate(..)
        | Stmt::Error(..)
        | Stmt::Assert(..)
        | Stmt::Print { .. } => Ok(()),
    }
}

fn add_decl(list: &mut Seq<u16>, own: &MachineSymbols, d: Option<&Decl>) -> Result<(), NoMemory>
    ensures { OnOk result (list.new ≡ list.old ++ decl_sends own.now (option_copied d.entry)) }
{
    match d {
        Some(Decl::Action(a)) => add_block(list, own, &a.body),
        _ => Ok(()),
    }
}

// The buffers that the action of this number sends on.
fn add_action(
    list: &mut Seq<u16>,
    own: &MachineSymbols,
    tree: &Machine,
    action: u16,
) -> Result<(), NoMemory>
    ensures { OnOk result
        (list.new ≡ list.old ++ action_sends own.now tree.now (slice_get own.now.actions action)) }
{
    match own.actions.get(usize::from(action)) {
        None => Ok(()),
        Some(a) => add_decl(list, own, tree.declarations.get(a.declaration as usize)),
    }
}

fn transition_sends(
    alloc: Global,
    own: &MachineSymbols,
    tree: &Machine,
    t: &TransitionSymbol,
) -> Result<Seq<u16>, NoMemory>
    ensures { IfOk result (λ r. r ≡ transition_sends own.now tree.now t.now) }
{
    let mut list = Seq::new(alloc);
    for action in t.actions.as_slice() {
        add_action(&mut list, own, tree, *action)?;
    }
    Ok(list)
}

fn places_of(alloc: Global, own: &MachineSymbols) -> Result<Seq<BufferPlace>, NoMemory>
    ensures { IfOk result (λ r. r ≡ map (λ b. b.place) own.now.buffers) }
{
    let mut list = Seq::new(alloc);
    for b in own.buffers.as_slice() {
        list.push(b.place)?;
    }
    Ok(list)
}

fn sent_by(alloc: Global, own: &MachineSymbols, tree: &Machine) -> Result<Seq<Seq<u16>>, NoMemory>
    ensures { IfOk result (λ r. r ≡ map (transition_sends own.now tree.now) own.now.transitions) }
{
    let mut list = Seq::new(alloc);
    for t in own.transitions.as_slice() {
        list.push(transition_sends(alloc, own, tree, t)?)?;
    }
    Ok(list)
}

fn machine_sends(
    alloc: Global,
    own: &MachineSymbols,
    tree: Option<&Machine>,
) -> Result<MachineSends, NoMemory>
    ensures { IfOk result (λ r. r ≡ machine_sends own.now (option_copied tree.entry)) }
{
    match tree {
        None => Ok(MachineSends {
            places: Seq::new(alloc),
            sent: Seq::new(alloc),
        }),
        Some(tree) => {
            let places = places_of(alloc, own)?;
            let sent = sent_by(alloc, own, tree)?;
            Ok(MachineSends { places, sent })
        }
    }
}

// Of machines with these symbols, by their numbers.
fn sends_of(
    alloc: Global,
    plan: &Plan,
    machines: &[MachineSymbols],
) -> Result<Seq<MachineSends>, NoMemory>
    requires { length machines.now ≤ 16 }
    ensures { IfOk result (λ r. r ≡ sends_from (machines_of plan.now) 0 machines.now) }
{
    let mut list = Seq::new(alloc);
    for (number, own) in machines.iter().enumerate() {
        let sends = machine_sends(alloc, own, plan.machine(number as u16))?;
        list.push(sends)?;
    }
    Ok(list)
}

/// What the transitions of a plan's machines send, by the machines' numbers.
pub fn all_sends(alloc: Global, plan: &Plan) -> Result<Seq<MachineSends>, NoMemory>
    ensures { IfOk result (λ r. r ≡ all_sends plan.now) }
{
    let _trees = plan.trees();
    machines_are_few();
    sends_of(alloc, plan, &plan.symbols().machines)
}

fn is_to(network: u16, place: Option<&BufferPlace>) -> bool
    ensures { result ≡ is_to network (option_copied place.entry) }
{
    match place {
        Some(BufferPlace::To { network: other, .. }) => *other == network,
        _ => false,
    }
}

fn counts_for(places: &[BufferPlace], buffer: u16, other: u16) -> bool
    ensures { result ≡ counts_for places.now buffer other }
{
    match places.get(usize::from(buffer)) {
        Some(BufferPlace::Local) => other == buffer,
        Some(BufferPlace::To { network, .. }) => is_to(*network, places.get(usize::from(other))),
        _ => false,
    }
}

fn sent_count(places: &[BufferPlace], buffer: u16, sent: &[u16]) -> u64
    ensures { result ≡ count_by (counts_for places.now buffer) sent.now }
{
    let mut n = 0;
    for other in sent {
        if counts_for(places, buffer, *other) {
            n += 1;
        }
    }
    n
}

/// How many messages a written transition of a machine sends on a buffer or to its network, all by their numbers.
pub fn sends_in(machines: &[MachineSends], machine: u16, transition: u32, buffer: u16) -> u64
    ensures { result ≡ sends_in machines.now machine transition buffer }
{
    match machines.get(usize::from(machine)) {
        None => 0,
        Some(m) => match m.sent.get(transition as usize) {
            None => 0,
            Some(sent) => sent_count(&m.places, buffer, sent),
        },
    }
}
