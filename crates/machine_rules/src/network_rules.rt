//! Two types of messages where there may be one, and two buffers from one network.
ghost use Rattle.std.specs.Prelude.{◌≡◌, ◌≤◌, ◌++◌, [], ◌∷◌, IfOk, OnOk, cond, length, map};
ghost use Rattle.std.specs.List.{list_any};
ghost use Rattle.slicc_plan.specs.Prelude.{are_from_one, buffer_in, buffers_of, differ, differing_after, doubled_after, doubled_in, is_one_network, is_one_own_buffer, is_own, all_ports, networks_broken, port_broken, wrong_networks, first_after, machines_of};
ghost use Rattle.slicc_plan.specs.Buffers as plan;
ghost use Rattle.declared_types.specs.Prelude.{declaration_of};
ghost use Rattle.machine_table.specs.Prelude.{buffer_seen, place_seen, port_seen};
ghost use Rattle.machine_rules.specs.MachinesIn.{IsMachineIn};

use crate::port_rules::{WrongPorts, told_if};
use crate::rule::{MachineIn, MachineRule, first_in_machines};
use body_types::same_type;
use declared_types::{Declared, Scopes};
use machine_table::{BufferIn, Place, PortOn, all_ports, buffer_in};
use ruby_base::{NoMemory, Seq};
use slicc_plan::Broken;
use std::alloc::Global;

fn is_one_network(a: Place, b: Place) -> bool
    ensures { result ≡ is_one_network (place_seen a) (place_seen b) }
{
    match (a, b) {
        (Place::ToNetwork(v), Place::ToNetwork(w)) => v == w,
        (Place::ToNetwork(v), Place::FromNetwork(w)) => v == w,
        (Place::FromNetwork(v), Place::ToNetwork(w)) => v == w,
        (Place::FromNetwork(v), Place::FromNetwork(w)) => v == w,
        _ => false,
    }
}

fn is_own(place: Place) -> bool
    ensures { result ≡ is_own (place_seen place) }
{
    match place {
        Place::Own => true,
        Place::ToNetwork(_) | Place::FromNetwork(_) => false,
    }
}

fn is_one_own_buffer(p: &PortOn<'_>, q: &PortOn<'_>) -> bool
    ensures { result ≡ is_one_own_buffer (port_seen p.now) (port_seen q.now) }
{
    is_own(p.buffer.place)
        && p.machine == q.machine
        && p.buffer.name.text.as_slice() == q.buffer.name.text.as_slice()
}

// Whether the same messages go through two ports, which are of different types.
fn differ(p: &PortOn<'_>, q: &PortOn<'_>) -> bool
    ensures { result ≡ differ (port_seen p.now) (port_seen q.now) }
{
    (is_one_network(p.buffer.place, q.buffer.place) || is_one_own_buffer(p, q))
        && !same_type(p.message, q.message)
}

fn any_differs(p: &PortOn<'_>, before: &[PortOn<'_>]) -> bool
    ensures { result ≡ list_any (differ (port_seen p.now)) (map port_seen before.now) }
{
    for q in before {
        if differ(p, q) {
            return true;
        }
    }
    false
}

fn judge_port(first: Option<Broken>, before: &[PortOn<'_>], p: &PortOn<'_>) -> Option<Broken>
    ensures { result ≡ first_after first (port_broken (list_any (differ (port_seen p.now)) (map port_seen before.now)) (port_seen p.now)) }
{
    told_if(first, any_differs(p, before), p.machine, p.span)
}

// Of ports, each with those before it.
fn judge_types(first: Option<Broken>, ports: &[PortOn<'_>]) -> Option<Broken>
    ensures { result ≡ first_after first (differing_after [] (map port_seen ports.now)) }
{
    let mut found = first;
    for (k, p) in ports.iter().enumerate() {
        found = judge_port(found, &ports[..k], p);
    }
    found
}

fn are_from_one(a: Place, b: Place) -> bool
    ensures { result ≡ are_from_one (place_seen a) (place_seen b) }
{
    match (a, b) {
        (Place::FromNetwork(v), Place::FromNetwork(w)) => v == w,
        _ => false,
    }
}

fn any_from_one(before: &[BufferIn<'_>], place: Place) -> bool
    ensures { result ≡ list_any (λ (a : plan.BufferIn). are_from_one a.place (place_seen place)) (map buffer_seen before.now) }
{
    for a in before {
        if are_from_one(a.place, place) {
            return true;
        }
    }
    false
}

fn judge_buffer(
    first: Option<Broken>,
    number: u16,
    before: &[BufferIn<'_>],
    b: BufferIn<'_>,
) -> Option<Broken>
    ensures { result ≡ first_after first (cond (list_any (λ (a : plan.BufferIn). are_from_one a.place (place_seen b.entry.place)) (map buffer_seen before.now)) (networks_broken number b.entry.span ∷ []) []) }
{
    told_if(first, any_from_one(before, b.place), number, b.span)
}

// Of buffers of the machine of this number, each with those before it.
fn judge_buffers(first: Option<Broken>, number: u16, buffers: &[BufferIn<'_>]) -> Option<Broken>
    ensures { result ≡ first_after first (doubled_after number [] (map buffer_seen buffers.now)) }
{
    let mut found = first;
    for (k, b) in buffers.iter().enumerate() {
        found = judge_buffer(found, number, &buffers[..k], *b);
    }
    found
}

fn add_buffer<'a>(
    list: &mut Seq<BufferIn<'a>>,
    m: MachineIn<'_, 'a>,
    d: Declared<'a>,
) -> Result<(), NoMemory>
    ensures { OnOk result (map buffer_seen list.new ≡ map buffer_seen list.old ++ plan.listed (buffer_in m.entry.scopes.now.trees.now m.entry.machine.now (declaration_of d.entry))) }
{
    match buffer_in(m.scopes, m.machine, d) {
        None => Ok(()),
        Some(b) => list.push(b),
    }
}

// The buffers of a machine, in the order of the text.
fn buffers<'a>(alloc: Global, m: MachineIn<'_, 'a>) -> Result<Seq<BufferIn<'a>>, NoMemory>
    requires { IsMachineIn m }
    ensures { IfOk result (λ list. map buffer_seen list ≡ buffers_of m.entry.scopes.now.trees.now m.entry.machine.now) }
{
    let mut list = Seq::new(alloc);
    for d in m.scopes.declarations(m.scope) {
        add_buffer(&mut list, m, *d)?;
    }
    Ok(list)
}

struct OneBuffer;

impl MachineRule for OneBuffer {
    ghost found_in = { doubled_in };

    fn judge(
        alloc: Global,
        first: Option<Broken>,
        m: MachineIn<'_, '_>,
    ) -> Result<Option<Broken>, NoMemory> {
        let buffers = buffers(alloc, m)?;
        Ok(judge_buffers(first, m.number, &buffers))
    }
}

fn all_types(
    alloc: Global,
    first: Option<Broken>,
    scopes: &Scopes<'_>,
) -> Result<Option<Broken>, NoMemory>
    requires { length (machines_of scopes.now.trees.now) ≤ 16 }
    ensures { IfOk result (λ found. found ≡ first_after first (differing_after [] (all_ports scopes.now.trees.now))) }
{
    let ports = all_ports(alloc, scopes)?;
    Ok(judge_types(first, &ports))
}

/// The first broken rule, after the ports and buffers of all machines and their networks.
pub fn networks(
    alloc: Global,
    first: Option<Broken>,
    scopes: &Scopes<'_>,
) -> Result<Option<Broken>, NoMemory>
    requires { length (machines_of scopes.now.trees.now) ≤ 16 }
    ensures { IfOk result (λ found. found ≡ first_after first (wrong_networks scopes.now.trees.now)) }
{
    let typed = all_types(alloc, first, scopes)?;
    let ported = first_in_machines::<WrongPorts>(alloc, typed, scopes)?;
    first_in_machines::<OneBuffer>(alloc, ported, scopes)
}
