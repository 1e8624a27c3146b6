//! The places of pairs in a machine's table, and the first transition that is written for each of them.
ghost use Rattle.std.specs.Prelude.{◌≡◌, ◌<◌, ◌≤◌, ◌^◌, ◌+◌, ◌*◌, ◌++◌, All, length, map, IfOk, OnOk};
ghost use Rattle.pair_table.specs.Prelude.{AreFirsts, IsAmong, least_at, marked, places_of};

use ruby_base::{NoMemory, Seq};
use slicc_plan::Written;
use std::alloc::Global;

// Adds the places of a state's pairs with these events, where the state's own places start here.
fn add_places(places: &mut Seq<usize>, start: usize, events: &[u16]) -> Result<(), NoMemory>
    requires { start ≤ 2 ^ 40 }
    ensures { OnOk result (places.new ≡ places.old ++ map (λ event. start + event) events.now) }
{
    for event in events {
        places.push(start + *event as usize)?;
    }
    Ok(())
}

// The places of all pairs of a transition.
fn places_of_written(alloc: Global, w: &Written, events: usize) -> Result<Seq<usize>, NoMemory>
    requires { events ≤ 2 ^ 16 }
    ensures { IfOk result (λ places. places ≡ places_of events w.now) }
{
    let mut places = Seq::new(alloc);
    let states = w.states.as_slice();
    for state in states {
        add_places(&mut places, *state as usize * events, &w.events)?;
    }
    Ok(places)
}

fn mark(firsts: &mut Vec<u32>, places: &[usize], number: u32)
    requires { All (λ place. place < length firsts.old.items) places.now }
    ensures { firsts.new.items ≡ marked number places.now firsts.old.items }
{
    for place in places {
        firsts[*place] = number;
    }
}

// Writes the transition's number at the places of all its pairs.
fn mark_written(
    alloc: Global,
    firsts: &mut Vec<u32>,
    w: &Written,
    events: usize,
    number: u32,
) -> Result<(), NoMemory>
    requires few { events ≤ 2 ^ 16 }
    requires there { All (λ place. place < length firsts.old.items) (places_of events w.now) }
    ensures { OnOk result (firsts.new.items ≡ marked number (places_of events w.now) firsts.old.items) }
{
    let places = places_of_written(alloc, w, events)?;
    mark(firsts, &places, number);
    Ok(())
}

/// The number of the first transition for each place of a table, and that of all transitions where none is.
pub fn first_numbers(
    alloc: Global,
    ws: &[Written],
    states: usize,
    events: usize,
) -> Result<Vec<u32>, NoMemory>
    requires few { (states ≤ 2 ^ 16) × (events ≤ 2 ^ 16) × (length ws.now < 2 ^ 32) }
    requires among { All (IsAmong states events) ws.now }
    ensures length { IfOk result (λ found. length found.items ≡ states * events) }
    ensures firsts { IfOk result (λ found. AreFirsts states events ws.now found.items) }
{
    let mut firsts = vec![in alloc; ws.len() as u32; states * events]?;
    let mut number = ws.len();
    while number > 0 {
        number -= 1;
        mark_written(alloc, &mut firsts, &ws[number], events, number as u32)?;
    }
    Ok(firsts)
}

fn least(firsts: &[u32], places: &[usize], most: u32) -> u32
    requires { All (λ place. place < length firsts.now) places.now }
    ensures { result ≡ least_at firsts.now places.now most }
{
    let mut least = most;
    for place in places {
        least = least.min(firsts[*place]);
    }
    least
}

/// The least number at the places of a transition's pairs, but no more than the last argument.
pub fn earliest(
    alloc: Global,
    firsts: &[u32],
    w: &Written,
    events: usize,
    most: u32,
) -> Result<u32, NoMemory>
    requires few { events ≤ 2 ^ 16 }
    requires there { All (λ place. place < length firsts.now) (places_of events w.now) }
    ensures { IfOk result (λ number. number ≡ least_at firsts.now (places_of events w.now) most) }
{
    let places = places_of_written(alloc, w, events)?;
    Ok(least(firsts, &places, most))
}
