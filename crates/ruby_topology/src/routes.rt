//! Links by numbers, buffers on virtual networks, slots, sizes and seats.
ghost use Rattle.std.specs.Prelude.{◌≡◌, ◌≤◌, ◌++◌, IfOk, OnOk, length, map};
ghost use Rattle.std.specs.List.{filter_map, list_any, position, range_with_len};
ghost use Rattle.ruby_symbols.specs.declared.machine.BufferSymbol.{BufferSymbol};
ghost use Rattle.ruby_topology.specs.declared.forms.Member.{Member};
ghost use Rattle.ruby_topology.specs.Topology.{number_in, value_of};
ghost use Rattle.ruby_topology.specs.Prelude.{cache_of, calls_ordered, can_be_asked, has_ordered, is_from, is_on, is_ordered_on, is_seat, link_in, links_of, receiving_at, receiving_of, seat_of, seats_of, sizes_of, slot_in, slots_from, tbes_of};

use crate::forms::{Link, Member, Statement};
use crate::members::push_some;
use crate::said::{is_member, is_ordered_said};
use crate::topology::Seat;
use ruby_base::{NoMemory, Seq};
use ruby_symbols::{BufferSymbol, MachineSymbols, Symbols, mandatory};
use ruby_value::{BufferPlace, Sizes};
use std::alloc::Global;

// The number of a controller: its place among all.
fn number_in(members: &[Member], c: Member) -> Option<usize>
    ensures { result ≡ number_in members.now c }
{
    members.iter().position(|m| is_member(c, *m))
}

fn link_in(members: &[Member], s: &Statement) -> Option<Link>
    ensures { result ≡ link_in members.now s.now }
{
    match s {
        Statement::Link { one, other, length } => {
            let one = number_in(members, *one)?;
            let other = number_in(members, *other)?;
            Some(Link {
                one,
                other,
                length: *length,
            })
        }
        _ => None,
    }
}

/// The links between controllers by their numbers.
pub fn links(alloc: Global, members: &[Member], said: &[Statement]) -> Result<Seq<Link>, NoMemory>
    ensures { IfOk result (λ links. links ≡ links_of members.now said.now) }
{
    let mut links = Seq::new(alloc);
    for s in said {
        push_some(&mut links, link_in(members, s))?;
    }
    Ok(links)
}

fn is_from(b: &BufferSymbol, network: u16) -> bool
    ensures { result ≡ is_from network b.now.place }
{
    match b.place {
        BufferPlace::From { network: n } => n == network,
        _ => false,
    }
}

fn receiving_place(m: &MachineSymbols, network: u16) -> Option<usize>
    ensures { result ≡ position (λ (b : BufferSymbol). is_from network b.place) m.now.buffers }
{
    m.buffers.iter().position(|b| is_from(b, network))
}

// The number of the buffer that takes the messages of a virtual network at the controllers of a machine.
fn receiving_at(symbols: &Symbols, machine: usize, network: u16) -> Option<u16>
    ensures { result ≡ receiving_at symbols.now machine network }
{
    let m = symbols.machines.get(machine)?;
    let place = receiving_place(m, network)?;
    u16::try_from(place).ok()
}

fn receiving_of(
    alloc: Global,
    symbols: &Symbols,
    machine: usize,
) -> Result<Seq<Option<u16>>, NoMemory>
    ensures { IfOk result (λ buffers. buffers ≡ receiving_of symbols.now machine) }
{
    let mut buffers = Seq::new(alloc);
    for network in 0..16u16 {
        buffers.push(receiving_at(symbols, machine, network))?;
    }
    Ok(buffers)
}

/// The buffers that take the messages of virtual networks, by controller and then network.
pub fn receiving(
    alloc: Global,
    symbols: &Symbols,
    members: &[Member],
) -> Result<Seq<Seq<Option<u16>>>, NoMemory>
    ensures { IfOk result (λ all. all ≡ map (λ (c : Member). receiving_of symbols.now c.machine) members.now) }
{
    let mut all = Seq::new(alloc);
    for c in members {
        let buffers = receiving_of(alloc, symbols, c.machine)?;
        all.push(buffers)?;
    }
    Ok(all)
}

fn is_on(place: BufferPlace, network: u16) -> bool
    ensures { result ≡ is_on network place }
{
    match place {
        BufferPlace::Local => false,
        BufferPlace::To { network: n, .. } => n == network,
        BufferPlace::From { network: n } => n == network,
    }
}

fn calls_ordered(b: &BufferSymbol, network: u16) -> bool
    ensures { result ≡ calls_ordered network b.now }
{
    b.ordered && is_on(b.place, network)
}

fn has_ordered(m: &MachineSymbols, network: u16) -> bool
    ensures { result ≡ has_ordered network m.now }
{
    m.buffers.iter().any(|b| calls_ordered(b, network))
}

fn any_ordered(machines: &[MachineSymbols], network: u16) -> bool
    ensures { result ≡ list_any (has_ordered network) machines.now }
{
    machines.iter().any(|m| has_ordered(m, network))
}

fn keeps_order(symbols: &Symbols, said: &[Statement], network: u16) -> bool
    ensures { result ≡ is_ordered_on symbols.now said.now network }
{
    is_ordered_said(said, network) || any_ordered(symbols.machines.as_slice(), network)
}

/// By virtual network, whether it keeps order.
pub fn ordered(alloc: Global, symbols: &Symbols, said: &[Statement]) -> Result<Seq<bool>, NoMemory>
    ensures { IfOk result (λ ordered. ordered ≡ map (is_ordered_on symbols.now said.now) (range_with_len 0 16)) }
{
    let mut ordered = Seq::new(alloc);
    for network in 0..16u16 {
        ordered.push(keeps_order(symbols, said, network))?;
    }
    Ok(ordered)
}

// The size that a line gives a buffer of a controller of a machine.
fn slot_in(s: &Statement, controller: u32, machine: usize) -> Option<(u32, u16, u64)>
    ensures { result ≡ slot_in controller machine s.now }
{
    match s {
        Statement::Size {
            machine: m,
            buffer,
            slots,
        } => {
            if usize::from(*m) == machine && *slots > 0 {
                Some((controller, *buffer, *slots))
            } else {
                None
            }
        }
        _ => None,
    }
}

fn add_slots(
    all: &mut Seq<(u32, u16, u64)>,
    said: &[Statement],
    controller: u32,
    machine: usize,
) -> Result<(), NoMemory>
    ensures { OnOk result (all.new ≡ all.old ++ filter_map (slot_in controller machine) said.now) }
{
    for s in said {
        push_some(all, slot_in(s, controller, machine))?;
    }
    Ok(())
}

/// The buffers with a size: the controller, the number within its machine, and how many slots each sender has there.
pub fn slots(
    alloc: Global,
    said: &[Statement],
    members: &[Member],
) -> Result<Seq<(u32, u16, u64)>, NoMemory>
    requires { length members.now ≤ 64 }
    ensures { IfOk result (λ slots. slots ≡ slots_from said.now 0 members.now) }
{
    let mut slots = Seq::new(alloc);
    for (number, c) in members.iter().enumerate() {
        add_slots(&mut slots, said, number as u32, c.machine)?;
    }
    Ok(slots)
}

fn cache_of(s: &Statement, machine: usize) -> Option<(u16, u32, u32)>
    ensures { result ≡ cache_of machine s.now }
{
    match s {
        Statement::Cache {
            machine: m,
            table,
            sets,
            ways,
        } => {
            if usize::from(*m) == machine {
                Some((*table, *sets, *ways))
            } else {
                None
            }
        }
        _ => None,
    }
}

fn tbes_of(s: &Statement, machine: usize) -> Option<(u16, u32)>
    ensures { result ≡ tbes_of machine s.now }
{
    match s {
        Statement::Tbes {
            machine: m,
            table,
            entries,
        } => {
            if usize::from(*m) == machine {
                Some((*table, *entries))
            } else {
                None
            }
        }
        _ => None,
    }
}

fn value_of(s: &Statement, machine: usize) -> Option<(u16, i64)>
    ensures { result ≡ value_of machine s.now }
{
    match s {
        Statement::Set {
            machine: m,
            value,
            number,
        } => {
            if usize::from(*m) == machine {
                Some((*value, *number))
            } else {
                None
            }
        }
        _ => None,
    }
}

fn caches_of(
    alloc: Global,
    said: &[Statement],
    machine: usize,
) -> Result<Seq<(u16, u32, u32)>, NoMemory>
    ensures { IfOk result (λ caches. caches ≡ filter_map (cache_of machine) said.now) }
{
    let mut list = Seq::new(alloc);
    for s in said {
        push_some(&mut list, cache_of(s, machine))?;
    }
    Ok(list)
}

fn all_tbes_of(
    alloc: Global,
    said: &[Statement],
    machine: usize,
) -> Result<Seq<(u16, u32)>, NoMemory>
    ensures { IfOk result (λ tbes. tbes ≡ filter_map (tbes_of machine) said.now) }
{
    let mut list = Seq::new(alloc);
    for s in said {
        push_some(&mut list, tbes_of(s, machine))?;
    }
    Ok(list)
}

fn values_of(alloc: Global, said: &[Statement], machine: usize) -> Result<Seq<(u16, i64)>, NoMemory>
    ensures { IfOk result (λ values. values ≡ filter_map (value_of machine) said.now) }
{
    let mut list = Seq::new(alloc);
    for s in said {
        push_some(&mut list, value_of(s, machine))?;
    }
    Ok(list)
}

fn sizes_of(
    alloc: Global,
    ranges: &[(u32, u32)],
    said: &[Statement],
    machine: usize,
) -> Result<Sizes, NoMemory>
    ensures { IfOk result (λ sizes. sizes ≡ sizes_of ranges.now said.now machine) }
{
    let caches = caches_of(alloc, said, machine)?;
    let tbes = all_tbes_of(alloc, said, machine)?;
    let parameters = values_of(alloc, said, machine)?;
    let machines = Seq::copied(alloc, ranges)?;
    Ok(Sizes {
        caches,
        tbes,
        parameters,
        machines,
    })
}

/// The sizes of so many machines.
pub fn sizes(
    alloc: Global,
    ranges: &[(u32, u32)],
    said: &[Statement],
    machines: usize,
) -> Result<Seq<Sizes>, NoMemory>
    ensures { IfOk result (λ sizes. sizes ≡ map (sizes_of ranges.now said.now) (range_with_len 0 machines)) }
{
    let mut sizes = Seq::new(alloc);
    for machine in 0..machines {
        let of_machine = sizes_of(alloc, ranges, said, machine)?;
        sizes.push(of_machine)?;
    }
    Ok(sizes)
}

fn can_be_asked(m: &MachineSymbols) -> bool
    ensures { result ≡ can_be_asked m.now }
{
    m.sequencer.is_some() && mandatory(m).is_some()
}

fn is_seat(symbols: &Symbols, machine: usize) -> bool
    ensures { result ≡ is_seat symbols.now machine }
{
    match symbols.machines.get(machine) {
        None => false,
        Some(m) => can_be_asked(m),
    }
}

fn seat_of(symbols: &Symbols, number: usize, c: Member) -> Option<Seat>
    requires { number ≤ 64 }
    ensures { result ≡ seat_of symbols.now (number, c) }
{
    if is_seat(symbols, c.machine) {
        Some(Seat {
            controller: number as u32,
            sequencer: true,
        })
    } else {
        None
    }
}

/// The controllers that a driver can ask, in increasing number.
pub fn seats(alloc: Global, symbols: &Symbols, members: &[Member]) -> Result<Seq<Seat>, NoMemory>
    requires { length members.now ≤ 64 }
    ensures { IfOk result (λ seats. seats ≡ seats_of symbols.now members.now) }
{
    let mut seats = Seq::new(alloc);
    for (number, c) in members.iter().enumerate() {
        push_some(&mut seats, seat_of(symbols, number, *c))?;
    }
    Ok(seats)
}
