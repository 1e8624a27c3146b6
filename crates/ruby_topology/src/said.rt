//! What the lines so far say.
ghost use Rattle.std.specs.Prelude.{◌≡◌, ◌≤◌, is_some};
ghost use Rattle.ruby_topology.specs.Prelude.{controllers, count_in, count_of, counted, is_buffer_sized, is_linked, is_links, is_member, is_ordered_said, is_said, is_set, is_sized, jitter_in, jitter_said, joins, network_in, network_said, orders, sets_value, sizes_buffer, sizes_table};

use crate::forms::{Member, Network, Statement};

fn count_in(s: &Statement, machine: usize) -> Option<u32>
    ensures { result ≡ count_in machine s.now }
{
    match s {
        Statement::Machine { machine: m, count } => {
            if usize::from(*m) == machine {
                Some(*count)
            } else {
                None
            }
        }
        _ => None,
    }
}

/// How many controllers a machine has.
pub fn count_of(said: &[Statement], machine: usize) -> Option<u32>
    ensures { result ≡ count_of said.now machine }
{
    for s in said {
        if let Some(count) = count_in(s, machine) {
            return Some(count);
        }
    }
    None
}

fn network_in(s: &Statement) -> Option<Network>
    ensures { result ≡ network_in s.now }
{
    match s {
        Statement::Network(network) => Some(*network),
        _ => None,
    }
}

/// The network, where a line says it.
pub fn network_said(said: &[Statement]) -> Option<Network>
    ensures { result ≡ network_said said.now }
{
    for s in said {
        if let Some(network) = network_in(s) {
            return Some(network);
        }
    }
    None
}

fn jitter_in(s: &Statement) -> Option<u64>
    ensures { result ≡ jitter_in s.now }
{
    match s {
        Statement::Jitter(jitter) => Some(*jitter),
        _ => None,
    }
}

/// The jitter, where a line says it.
pub fn jitter_said(said: &[Statement]) -> Option<u64>
    ensures { result ≡ jitter_said said.now }
{
    for s in said {
        if let Some(jitter) = jitter_in(s) {
            return Some(jitter);
        }
    }
    None
}

fn orders(s: &Statement, network: u16) -> bool
    ensures { result ≡ orders network s.now }
{
    match s {
        Statement::Ordered(n) => *n == network,
        _ => false,
    }
}

/// Whether a line says that a virtual network keeps order.
pub fn is_ordered_said(said: &[Statement], network: u16) -> bool
    ensures { result ≡ is_ordered_said said.now network }
{
    said.iter().any(|s| orders(s, network))
}

/// Whether both are one controller.
pub fn is_member(a: Member, b: Member) -> bool
    ensures { result ≡ is_member a b }
{
    a.machine == b.machine && a.index == b.index
}

fn joins(s: &Statement, a: Member, b: Member) -> bool
    ensures { result ≡ joins a b s.now }
{
    match s {
        Statement::Link { one, other, .. } => {
            is_member(*one, a) && is_member(*other, b) || is_member(*one, b) && is_member(*other, a)
        }
        _ => false,
    }
}

fn is_linked(said: &[Statement], a: Member, b: Member) -> bool
    ensures { result ≡ is_linked said.now a b }
{
    said.iter().any(|s| joins(s, a, b))
}

fn sizes_table(s: &Statement, machine: u16, table: u16) -> bool
    ensures { result ≡ sizes_table machine table s.now }
{
    match s {
        Statement::Cache {
            machine: m,
            table: t,
            ..
        } => *m == machine && *t == table,
        Statement::Tbes {
            machine: m,
            table: t,
            ..
        } => *m == machine && *t == table,
        _ => false,
    }
}

fn is_sized(said: &[Statement], machine: u16, table: u16) -> bool
    ensures { result ≡ is_sized said.now machine table }
{
    said.iter().any(|s| sizes_table(s, machine, table))
}

fn sizes_buffer(s: &Statement, machine: u16, buffer: u16) -> bool
    ensures { result ≡ sizes_buffer machine buffer s.now }
{
    match s {
        Statement::Size {
            machine: m,
            buffer: b,
            ..
        } => *m == machine && *b == buffer,
        _ => false,
    }
}

fn is_buffer_sized(said: &[Statement], machine: u16, buffer: u16) -> bool
    ensures { result ≡ is_buffer_sized said.now machine buffer }
{
    said.iter().any(|s| sizes_buffer(s, machine, buffer))
}

fn sets_value(s: &Statement, machine: u16, value: u16) -> bool
    ensures { result ≡ sets_value machine value s.now }
{
    match s {
        Statement::Set {
            machine: m,
            value: v,
            ..
        } => *m == machine && *v == value,
        _ => false,
    }
}

fn is_set(said: &[Statement], machine: u16, value: u16) -> bool
    ensures { result ≡ is_set said.now machine value }
{
    said.iter().any(|s| sets_value(s, machine, value))
}

/// How many controllers a line adds.
pub fn counted(s: &Statement) -> u64
    ensures { result ≡ counted s.now }
{
    match s {
        Statement::Machine { count, .. } => u64::from(*count),
        _ => 0,
    }
}

/// How many controllers there are.
pub fn controllers(said: &[Statement]) -> u64
    requires { controllers said.now ≤ 64 }
    ensures { result ≡ controllers said.now }
{
    let mut total = 0;
    for s in said {
        total += counted(s);
    }
    total
}

/// Whether a network is one of links.
pub fn is_links(network: Option<Network>) -> bool
    ensures { result ≡ is_links network }
{
    matches!(network, Some(Network::Links))
}

/// Whether the lines so far say what this one says.
pub fn is_said(said: &[Statement], s: &Statement) -> bool
    ensures { result ≡ is_said said.now s.now }
{
    match s {
        Statement::Machine { machine, .. } => count_of(said, usize::from(*machine)).is_some(),
        Statement::Network(_) => network_said(said).is_some(),
        Statement::Link { one, other, .. } => is_linked(said, *one, *other),
        Statement::Jitter(_) => jitter_said(said).is_some(),
        Statement::Ordered(network) => is_ordered_said(said, *network),
        Statement::Cache { machine, table, .. } => is_sized(said, *machine, *table),
        Statement::Tbes { machine, table, .. } => is_sized(said, *machine, *table),
        Statement::Size {
            machine,
            buffer,
            ..
        } => is_buffer_sized(said, *machine, *buffer),
        Statement::Set { machine, value, .. } => is_set(said, *machine, *value),
    }
}
