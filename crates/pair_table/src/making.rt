//! The table of a machine, made from its written transitions.
ghost use Rattle.std.specs.Prelude.{◌≡◌, ◌<◌, ◌≤◌, ◌^◌, ℕ, [], All, length, IfOk};
ghost use Rattle.slicc_plan.specs.Prelude.{first_after, shared_after};
ghost use Rattle.pair_table.specs.PairPlaces.{IsAmong};
ghost use Rattle.pair_table.specs.Tables.{IsTableOf};

use crate::places::first_numbers;
use crate::rows::table_rows;
use crate::shared::first_shared;
use crate::table::Table;
use ruby_base::NoMemory;
use slicc_plan::{Broken, Row, Written};
use std::alloc::Global;

impl Table {
    ghost use Rattle.std.specs.Option.{option_copied};
    ghost use Rattle.pair_table.specs.Tables.{answer_of};

    /// The row that is written for a state and an event, by their numbers, or `None` where none is. It takes no memory.
    pub fn row(&self, state: u16, event: u16) -> Option<&Row>
        ensures { option_copied result ≡ answer_of state event self.now }
    {
        let event = event as usize;
        if event >= self.events {
            return None;
        }
        match self.rows.get(state as usize * self.events + event) {
            None => None,
            Some(row) => row.as_ref(),
        }
    }
}

/// Of the transitions of the machine of this number that share a pair with an earlier one, where it has so many states and events,
/// and of what was found before, the one that is told.
pub fn shared_of(
    alloc: Global,
    first: Option<Broken>,
    number: u16,
    ws: &[Written],
    states: usize,
    events: usize,
) -> Result<Option<Broken>, NoMemory>
    requires few { (states ≤ 2 ^ 16) × (events ≤ 2 ^ 16) × (length ws.now < 2 ^ 32) }
    requires among { All (IsAmong states events) ws.now }
    ensures { IfOk result (λ found. found ≡ first_after first (shared_after number [] ws.now)) }
{
    let firsts = first_numbers(alloc, ws, states, events)?;
    first_shared(alloc, first, number, ws, &firsts, states, events)
}

/// The table of a machine's written transitions, where it has so many states and events and no pair has two transitions.
pub fn table_of(
    alloc: Global,
    ws: &[Written],
    states: usize,
    events: usize,
) -> Result<Table, NoMemory>
    requires few { (states ≤ 2 ^ 16) × (events ≤ 2 ^ 16) × (length ws.now < 2 ^ 32) }
    requires among { All (IsAmong states events) ws.now }
    requires alone { (number : ℕ) × (shared_after number [] ws.now ≡ []) }
    ensures { IfOk result (IsTableOf ws.now) }
{
    let firsts = first_numbers(alloc, ws, states, events)?;
    let rows = table_rows(alloc, ws, &firsts, states, events)?;
    Ok(Table { events, rows })
}
