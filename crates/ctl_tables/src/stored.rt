// A table in the container that keeps it, and what one change does to it.
ghost use Rattle.std.specs.Prelude.{◌≡◌, ◌+◌, ◌≤◌, ◌<◌, ℕ, IfOk, OnOk, Some, is_some, slice_get};
ghost use Rattle.std.specs.Option.{option_and_then, option_copied};
ghost use Rattle.ctl_face.specs.Prelude.{with_line, fields_in, HasPlaces, opening_table, TbeTable as TbeRecord};
ghost use Rattle.ctl_tables.specs.After.{or_same, IsTable};
ghost use Rattle.ctl_tables.specs.Change.{edit_in};
ghost use Rattle.ctl_tables.specs.Frames.{frame_of, keeps_order, loses_lines};
ghost use Rattle.ctl_tables.specs.Container.{HasRoom, table_of};

use crate::change::Edit;
use cache_array::{CacheArray, DirMemory};
use ruby_value::{Fields, NoMemory, TableSetup, TableSize, Value};
use std::alloc::Global;
use tbe_table::TbeTable;

/// A table in the container that keeps it.
#[derive(Drop)]
pub(crate) enum StoredTable {
    Cache(CacheArray),
    Directory(DirMemory),
    Tbe(TbeTable),
    Parameters(Fields),
}

impl StoredTable {
    // The table as a run begins.
    pub(crate) fn opening(alloc: Global, setup: &TableSetup) -> Result<StoredTable, NoMemory>
        requires { HasPlaces setup.now.size }
        ensures { IfOk result (λ t. table_of t ≡ opening_table setup.now.size setup.now.initial) }
    {
        Ok(match setup.size {
            TableSize::Cache { sets, ways } => {
                StoredTable::Cache(CacheArray::new(alloc, sets, ways)?)
            }
            TableSize::Directory => {
                StoredTable::Directory(DirMemory::new(alloc, setup.initial.clone()?))
            }
            TableSize::Tbe { entries } => StoredTable::Tbe(TbeTable::new(alloc, entries)),
            TableSize::Parameters => StoredTable::Parameters(setup.initial.clone()?),
        })
    }

    // The sets of a cache are lawful. It does nothing.
    pub(crate) fn law(&self)
        ensures { IsTable (table_of self.now) }
    {
        if let StoredTable::Cache(cache) = self {
            let _ways = cache.ways();
        }
    }

    // The fields of a line, if it is there.
    pub(crate) fn fields(&self, line: u64) -> Option<&Fields>
        ensures { option_copied result ≡ fields_in (table_of self.now) line }
    {
        match self {
            StoredTable::Cache(cache) => cache.lookup(line),
            StoredTable::Directory(directory) => Some(directory.lookup(line)),
            StoredTable::Tbe(tbes) => tbes.lookup(line),
            StoredTable::Parameters(values) => { if line == 0 { Some(values) } else { None } }
        }
    }

    // The value of a field of a line, if the line is there and has it.
    pub(crate) fn field(&self, line: u64, field: u16) -> Option<&Value>
        ensures { option_copied result ≡ option_and_then (λ fields. slice_get fields field)
            (fields_in (table_of self.now) line) }
    {
        self.fields(line)?.get(field)
    }

    // Whether the line is there.
    pub(crate) fn has_line(&self, line: u64) -> bool
        ensures { result ≡ is_some (fields_in (table_of self.now) line) }
    {
        match self {
            StoredTable::Directory(_) => true,
            _ => self.fields(line).is_some(),
        }
    }

    // Whether lines can be taken out of it.
    pub(crate) fn loses_lines(&self) -> bool
        ensures { result ≡ loses_lines (Some (frame_of (table_of self.now))) }
    {
        matches!(self, StoredTable::Cache(_) | StoredTable::Tbe(_))
    }

    // Whether it keeps an order of use.
    pub(crate) fn keeps_order(&self) -> bool
        ensures { result ≡ keeps_order (Some (frame_of (table_of self.now))) }
    {
        matches!(self, StoredTable::Cache(_))
    }

    // Makes room for so many more lines, where the container needs it.
    pub(crate) fn reserve(&mut self, more: usize) -> Result<(), NoMemory>
        ensures same { table_of self.new ≡ table_of self.old }
        ensures ok { OnOk result (HasRoom more self.new) }
        ensures no_less { (n : ℕ) → HasRoom n self.old → HasRoom n self.new }
    {
        match self {
            StoredTable::Cache(_) => Ok(()),
            StoredTable::Directory(directory) => directory.reserve(more),
            StoredTable::Tbe(tbes) => tbes.reserve(more),
            StoredTable::Parameters(_) => Ok(()),
        }
    }

    // Makes a change of a line, where it can be made. It takes no memory.
    pub(crate) fn edit(&mut self, line: u64, edit: Edit)
        requires { HasRoom 1 self.old }
        ensures after { table_of self.new ≡ or_same (table_of self.old) (edit_in edit line (table_of self.old)) }
        ensures room { (n : ℕ) → HasRoom (n + 1) self.old → HasRoom n self.new }
    {
        match edit {
            Edit::Write(field, value) => self.write(line, field, value),
            Edit::Fill(fields) => self.fill(line, fields),
            Edit::Add(fields) => self.add(line, fields),
            Edit::Remove => self.remove(line),
            Edit::Use => self.make_recent(line),
        }
    }

    fn write(&mut self, line: u64, field: u16, value: Value)
        ensures after { table_of self.new ≡ or_same (table_of self.old) (edit_in (Edit.Write field value) line (table_of self.old)) }
        ensures room { (n : ℕ) → HasRoom (n + 1) self.old → HasRoom n self.new }
    {
        match self {
            StoredTable::Cache(cache) => {
                let _back = cache.set_field(line, field, value);
            }
            StoredTable::Directory(directory) => {
                let _back = directory.set_field(line, field, value);
            }
            StoredTable::Tbe(tbes) => {
                let _back = tbes.set_field(line, field, value);
            }
            StoredTable::Parameters(values) => {
                if line == 0 {
                    values.write(field, value);
                }
            }
        }
    }

    fn fill(&mut self, line: u64, fields: Fields)
        requires { HasRoom 1 self.old }
        ensures after { table_of self.new ≡ or_same (table_of self.old) (edit_in (Edit.Fill fields) line (table_of self.old)) }
        ensures room { (n : ℕ) → HasRoom (n + 1) self.old → HasRoom n self.new }
    {
        if let StoredTable::Directory(directory) = self {
            if directory.write(line, fields).is_err() {
                unreachable!()
            }
        }
    }

    fn add(&mut self, line: u64, fields: Fields)
        requires { HasRoom 1 self.old }
        ensures after { table_of self.new ≡ or_same (table_of self.old) (edit_in (Edit.Add fields) line (table_of self.old)) }
        ensures room { (n : ℕ) → HasRoom (n + 1) self.old → HasRoom n self.new }
    {
        match self {
            StoredTable::Cache(cache) => {
                let _refused = cache.allocate(line, fields);
            }
            StoredTable::Tbe(tbes) => add_to(tbes, line, fields),
            _ => {}
        }
    }

    fn remove(&mut self, line: u64)
        ensures after { table_of self.new ≡ or_same (table_of self.old) (edit_in Edit.Remove line (table_of self.old)) }
        ensures room { (n : ℕ) → HasRoom (n + 1) self.old → HasRoom n self.new }
    {
        match self {
            StoredTable::Cache(cache) => {
                let _gone = cache.deallocate(line);
            }
            StoredTable::Tbe(tbes) => {
                let _gone = tbes.deallocate(line);
            }
            _ => {}
        }
    }

    fn make_recent(&mut self, line: u64)
        ensures after { table_of self.new ≡ or_same (table_of self.old) (edit_in Edit.Use line (table_of self.old)) }
        ensures room { (n : ℕ) → HasRoom (n + 1) self.old → HasRoom n self.new }
    {
        if let StoredTable::Cache(cache) = self {
            let _there = cache.set_mru(line);
        }
    }
}

// Puts a line into a TBE table, where it isn't there yet and may be.
fn add_to(tbes: &mut TbeTable, line: u64, fields: Fields)
    requires { 0 < tbes.old.room }
    ensures after { TbeRecord tbes.new.kept ≡ or_same (TbeRecord tbes.old.kept) (with_line fields line (TbeRecord tbes.old.kept)) }
    ensures room { tbes.old.room ≤ tbes.new.room + 1 }
{
    if tbes.free() > 0 {
        let _refused = tbes.allocate(line, fields);
    }
}
