//! How many machines, states, events and pairs a protocol has, counted from its symbols.
ghost use Rattle.std.specs.Prelude.{◌≡◌, ◌<◌, ◌^◌};
ghost use Rattle.slicc_plan.specs.Prelude.{HasCounts, counts_by, events_by, pairs_by};

use crate::row::Counts;
use ruby_symbols::{MachineSymbols, Symbols};

fn events(symbols: &Symbols, machine: &MachineSymbols) -> u64
    ensures { result ≡ events_by symbols.now machine.now }
{
    match symbols.enumerations.get(usize::from(machine.events)) {
        Some(e) => e.members.len() as u64,
        None => 0,
    }
}

fn pairs(machine: &MachineSymbols) -> u64
    requires { pairs_by machine.now < 2 ^ 64 }
    ensures { result ≡ pairs_by machine.now }
{
    let mut pairs = 0;
    for t in machine.transitions.as_slice() {
        pairs += t.states.len() as u64 * t.events.len() as u64;
    }
    pairs
}

/// How many machines, states, events and pairs with a written transition the protocol of these symbols has, summed over its
/// machines. It takes no memory.
pub fn counts_of_symbols(symbols: &Symbols) -> Counts
    requires { HasCounts symbols.now }
    ensures { result ≡ counts_by symbols.now }
{
    let mut counts = Counts {
        machines: symbols.machines.len() as u64,
        states: 0,
        events: 0,
        pairs: 0,
    };
    for machine in symbols.machines.as_slice() {
        counts.states += machine.permissions.len() as u64;
        counts.events += events(symbols, machine);
        counts.pairs += pairs(machine);
    }
    counts
}
