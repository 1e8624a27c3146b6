//! Machines, of rows for their tables and buffers.
ghost use Rattle.std.specs.Prelude.{◌≡◌, map, IfOk};
ghost use Rattle.controller_rows.specs.Samples.{buffer_setup, initial_fields, machine_setup, table_setup};

use ctl_face::{
    BufferPlace, BufferSetup, Fields, MachineSetup, NoMemory, Seq, TableSetup, TableSize, Value,
};
use ruby_value::Kind;
use std::alloc::Global;

/// A table.
#[derive(Clone, Copy)]
pub struct TableRow {
    pub size: TableSize,
    /// The number of the structure of its lines.
    pub structure: u16,
    pub kinds: &'static [Kind],
    /// The first field of a new line, where that is a number other than 0. Other fields have the defaults of their kinds.
    pub first: Option<i64>,
}

/// A buffer.
#[derive(Clone, Copy)]
pub struct BufferRow {
    pub place: BufferPlace,
    pub ordered: bool,
    /// The kinds of the fields of its messages.
    pub kinds: &'static [Kind],
}

/// A machine.
#[derive(Clone, Copy)]
pub struct MachineRow {
    pub tables: &'static [TableRow],
    pub buffers: &'static [BufferRow],
    pub default_state: Option<u16>,
    pub has_sequencer: bool,
}

fn initial_fields(alloc: Global, row: &TableRow) -> Result<Fields, NoMemory>
    ensures { IfOk result (λ fields. fields ≡ initial_fields row.now.kinds.now row.now.first) }
{
    let mut fields = Fields::of_kinds(alloc, row.kinds)?;
    if let Some(n) = row.first {
        fields.write(0, Value::Int(n));
    }
    Ok(fields)
}

fn table(alloc: Global, row: &TableRow) -> Result<TableSetup, NoMemory>
    ensures { IfOk result (λ table. table ≡ table_setup row.now) }
{
    let kinds = Seq::copied(alloc, row.kinds)?;
    let initial = initial_fields(alloc, row)?;
    Ok(TableSetup {
        size: row.size,
        structure: row.structure,
        kinds,
        initial,
    })
}

fn tables(alloc: Global, rows: &[TableRow]) -> Result<Seq<TableSetup>, NoMemory>
    ensures { IfOk result (λ tables. tables ≡ map table_setup rows.now) }
{
    let mut tables = Vec::with_capacity(alloc, rows.len())?;
    for row in rows {
        tables.push(table(alloc, row)?)?;
    }
    Ok(Seq::of(tables))
}

fn buffers(alloc: Global, rows: &[BufferRow]) -> Result<Seq<BufferSetup>, NoMemory>
    ensures { IfOk result (λ buffers. buffers ≡ map buffer_setup rows.now) }
{
    let mut buffers = Vec::with_capacity(alloc, rows.len())?;
    for row in rows {
        buffers.push(BufferSetup {
            place: row.place,
            ordered: row.ordered,
            kinds: Seq::copied(alloc, row.kinds)?,
        })?;
    }
    Ok(Seq::of(buffers))
}

/// What a machine is to its controllers. That it is one that may be, as `ctl_face::is_machine` tells, is for the rows to see to.
pub fn machine(alloc: Global, row: &MachineRow) -> Result<MachineSetup, NoMemory>
    ensures { IfOk result (λ m. m ≡ machine_setup row.now) }
{
    let tables = tables(alloc, row.tables)?;
    let buffers = buffers(alloc, row.buffers)?;
    Ok(MachineSetup {
        tables,
        buffers,
        default_state: row.default_state,
        has_sequencer: row.has_sequencer,
    })
}
