//! The rows of a protocol's tables, and their lines.
ghost use Rattle.std.specs.Prelude.{◌≡◌, ◌≤◌, ◌^◌, ◌++◌, ℕ, All, IfOk, OnOk, flat_map, length, map, slice_get};
ghost use Rattle.std.specs.Option.{option_copied};
ghost use Rattle.machine_table.specs.Prelude.{answer, rows_of_found};
ghost use Rattle.ruby_answers.specs.Prelude.{AreTableRows, answered, answered_in_state, machine_rows, table_lines};
ghost use Rattle.slicc_plan.specs.Buffers.{listed};
ghost use Rattle.slicc_plan.specs.Prelude.{HasFewParts, numbers_below, rows};
ghost use Rattle.trace_print.specs.Prelude.{AreLinesPut};

use machine_table::{Tables, event_count, machines, state_count, tables_of};
use ruby_base::{NoMemory, Seq};
use ruby_outside::Sink;
use slicc_ast::tree::Machine;
use slicc_plan::{Plan, Row};
use std::alloc::Global;
use trace_print::write_rows;

// A row once more, where there is one.
fn add_row(alloc: Global, found: &mut Seq<Row>, row: Option<&Row>) -> Result<(), NoMemory>
    ensures { OnOk result (found.new ≡ found.old ++ listed (option_copied row.entry)) }
{
    let Some(row) = row else {
        return Ok(());
    };
    found.push(Row {
        state: row.state,
        event: row.event,
        next: row.next,
        actions: Seq::copied(alloc, row.actions.as_slice())?,
        transition: row.transition,
    })
}

fn add_rows(
    alloc: Global,
    found: &mut Seq<Row>,
    tables: &Tables,
    number: u16,
    state: u16,
    events: usize,
) -> Result<(), NoMemory>
    requires { events ≤ 2 ^ 16 }
    ensures { OnOk result (found.new ≡ found.old ++ answered_in_state tables.now number events state) }
{
    for event in 0..events {
        add_row(alloc, found, tables.row(number, state, event as u16))?;
    }
    Ok(())
}

// What the tables answer for a machine with so many states and events.
fn answered_rows(
    alloc: Global,
    tables: &Tables,
    number: u16,
    states: usize,
    events: usize,
) -> Result<Seq<Row>, NoMemory>
    requires { (states ≤ 2 ^ 16) × (events ≤ 2 ^ 16) }
    ensures { IfOk result (λ found. found ≡ flat_map (answered_in_state tables.now number events) (numbers_below states)) }
{
    let mut found = Seq::new(alloc);
    for state in 0..states {
        add_rows(alloc, &mut found, tables, number, state as u16, events)?;
    }
    Ok(found)
}

fn rows_of(alloc: Global, tables: &Tables, number: u16, m: &Machine) -> Result<Seq<Row>, NoMemory>
    requires few { HasFewParts m.now }
    requires rows { (state event : ℕ) → rows m.now state event ≡ answered tables.now number state event }
    ensures { IfOk result (λ found. found ≡ machine_rows m.now) }
{
    let states = state_count(m);
    let events = event_count(m);
    let rows = answered_rows(alloc, tables, number, states, events)?;
    Ok(rows)
}

fn rows_in(alloc: Global, machines: &[&Machine], tables: &Tables) -> Result<Seq<Seq<Row>>, NoMemory>
    requires few { length machines.now ≤ 16 }
    requires parts { All HasFewParts (map (λ m. m.now) machines.now) }
    requires rows { (n s e : ℕ) → rows_of_found (slice_get (map (λ m. m.now) machines.now) n) s e ≡ answered tables.now n s e }
    ensures { IfOk result (λ found. found ≡ map machine_rows (map (λ m. m.now) machines.now)) }
{
    let mut found = Seq::new(alloc);
    for (place, m) in machines.iter().enumerate() {
        let rows = rows_of(alloc, tables, place as u16, m)?;
        found.push(rows)?;
    }
    Ok(found)
}

/// The rows of a protocol's tables, machine by machine, in the order of its states and their events.
pub fn table_rows(alloc: Global, plan: &Plan) -> Result<Seq<Seq<Row>>, NoMemory>
    ensures { IfOk result (λ tables. AreTableRows plan.now tables) }
{
    let trees = plan.trees();
    let tables = tables_of(alloc, trees)?;
    let machines = machines(alloc, trees)?;
    let rows = rows_in(alloc, machines.as_slice(), &tables)?;
    Ok(rows)
}

/// Writes the lines of tables, machine by machine, up to the first that isn't written whole, and answers whether all were.
pub(crate) fn write_tables<S: Sink>(sink: &mut S, plan: &Plan, tables: &[Seq<Row>]) -> bool
    ensures { AreLinesPut S.writes sink.old (table_lines plan.now tables.now) result sink.new }
{
    for (machine, rows) in tables.iter().enumerate() {
        if !write_rows(sink, plan, machine, rows) {
            return false;
        }
    }
    true
}
