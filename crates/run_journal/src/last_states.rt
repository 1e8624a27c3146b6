ghost use Rattle.std.specs.Prelude.{◌≡◌, map, IfOk};
ghost use Rattle.std.specs.BTreeMap.{IsOrdered};
ghost use Rattle.std.specs.Ordering.{nat_cmp, ordering_then};
ghost use Rattle.run_journal.specs.Prelude.{AreFinals};

use crate::{EntryRef, Final, Journal, NoMemory, Seq};
use std::alloc::Global;
use std::collections::BTreeMap;

/// The final states of a run: for each controller and address that a transition fired for, the next state of the last
/// such transition, by ascending controller and then address. It goes over the journal once, and each transition costs
/// a search in an ordered map.
pub fn finals(alloc: Global, j: &Journal) -> Result<Seq<Final>, NoMemory>
    ensures { IfOk result (λ all. AreFinals j.now all) }
{
    let mut states = BTreeMap::new(alloc);
    for place in 0..j.len() {
        if let EntryRef::Fired {
            controller,
            note,
            ..
        } = j.entry(place)
        {
            let _before = states.insert((controller, note.address), note.next)?;
        }
    }
    listed(alloc, &states)
}

// The states that are kept under a controller and an address, in the order of these.
fn listed(alloc: Global, states: &BTreeMap<(u32, u64), u16>) -> Result<Seq<Final>, NoMemory>
    ensures listed { IfOk result (λ all. all ≡ map (λ e. record { controller = e.0.0; address = e.0.1; state = e.1 }) states.now.entries) }
    ensures ordered { IsOrdered (λ p q. ordering_then (nat_cmp p.0 q.0) (nat_cmp p.1 q.1)) states.now }
{
    let mut all = Seq::new(alloc);
    for (place, state) in states {
        all.push(Final {
            controller: place.0,
            address: place.1,
            state: *state,
        })?;
    }
    Ok(all)
}
