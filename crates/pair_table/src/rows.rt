//! The rows of a machine's table.
ghost use Rattle.std.specs.Prelude.{◌≡◌, ◌≤◌, ◌^◌, ◌*◌, length, IfOk};
ghost use Rattle.pair_table.specs.Prelude.{row_at, rows_at};

use ruby_base::{NoMemory, Seq};
use slicc_plan::{Next, Row, Written};
use std::alloc::Global;

fn row(
    alloc: Global,
    ws: &[Written],
    state: u16,
    event: u16,
    number: u32,
) -> Result<Option<Row>, NoMemory>
    ensures { IfOk result (λ row. row ≡ row_at ws.now state event number) }
{
    match ws.get(number as usize) {
        None => Ok(None),
        Some(w) => {
            let actions = Seq::copied(alloc, &w.actions)?;
            Ok(Some(Row {
                state,
                event,
                next: w.next.unwrap_or(Next::To(state)),
                actions,
                transition: number,
            }))
        }
    }
}

/// The rows of the transitions that are the first at each place.
pub fn table_rows(
    alloc: Global,
    ws: &[Written],
    firsts: &[u32],
    states: usize,
    events: usize,
) -> Result<Seq<Option<Row>>, NoMemory>
    requires few { (states ≤ 2 ^ 16) × (events ≤ 2 ^ 16) }
    requires places { length firsts.now ≡ states * events }
    ensures { IfOk result (λ rows. rows ≡ rows_at ws.now events 0 firsts.now) }
{
    let mut rows = Seq::new(alloc);
    for (place, number) in firsts.iter().enumerate() {
        let row = row(
            alloc,
            ws,
            (place / events) as u16,
            (place % events) as u16,
            *number,
        )?;
        rows.push(row)?;
    }
    Ok(rows)
}
