// The acts of a scan on its tables and states.
ghost use Rattle.std.specs.Prelude.{◌≡◌, Ok, slice_get};
ghost use Rattle.std.specs.Option.{option_copied, option_map};
ghost use Rattle.ruby_value.specs.declared.setup.TableSetup.{TableSetup};
ghost use Rattle.ctl_face.specs.Prelude.{allocate, answered, avail, probe, field_behind, deallocate, Does, DoesWith, Reads, IsLawful, free, get, lookup, reference_to, HasStates, Serves, TakesField, looks_up, set, set_state, state, touch};
ghost use Rattle.ruby_value.specs.Prelude.{IsLine};
ghost use Rattle.ctl_store.specs.Scanned.{local_of};

use crate::scan::Scan;
use ctl_face::{MachineSetup, Trouble};
use ruby_value::{Fields, Ref, Value};

// The fields that a new line of the table has, if the machine has the table.
fn initial_fields(machine: &MachineSetup, table: u16) -> Option<&Fields>
    ensures { option_copied result ≡ option_map (λ (s : TableSetup). s.initial) (slice_get machine.now.tables table) }
{
    match machine.tables.get(usize::from(table)) {
        Some(setup) => Some(&setup.initial),
        None => None,
    }
}

impl<'a> Scan<'a> {
    pub(crate) fn get(&self, r: &Ref, field: u16) -> Result<Value, Trouble>
        ensures { Reads (get (local_of self.now) r.now field) result }
    {
        self.parts.tables.get(&self.changes.tables, r, field)
    }

    pub(crate) fn field(&self, r: &Ref, field: u16) -> Option<&Value>
        ensures { option_copied result ≡ field_behind (local_of self.now) r.now field }
    {
        self.parts
            .tables
            .field(&self.changes.tables, r.table, r.line, field)
    }

    pub(crate) fn set(&mut self, r: &Ref, field: u16, v: Value) -> Result<(), Trouble>
        requires served { TakesField (local_of self.old) r.now.table field v }
        requires line { IsLine r.now.line }
        ensures does { Does (set (local_of self.old) r.now field v) result (local_of self.old) (local_of self.new) }
        ensures lawful { IsLawful (local_of self.new) }
    {
        self.parts.tables.set(&mut self.changes.tables, r, field, v)
    }

    pub(crate) fn lookup(&self, table: u16, line: u64) -> Option<Ref>
        ensures { result ≡ lookup (local_of self.now) table line }
    {
        self.parts.tables.lookup(&self.changes.tables, table, line)
    }

    pub(crate) fn deallocate(&mut self, table: u16, line: u64) -> Result<(), Trouble>
        ensures does { Does (deallocate (local_of self.old) table line) result (local_of self.old) (local_of self.new) }
        ensures lawful { IsLawful (local_of self.new) }
    {
        self.parts
            .tables
            .deallocate(&mut self.changes.tables, table, line)
    }

    pub(crate) fn touch(&mut self, table: u16, line: u64) -> Result<(), Trouble>
        ensures does { Does (touch (local_of self.old) table line) result (local_of self.old) (local_of self.new) }
        ensures lawful { IsLawful (local_of self.new) }
    {
        self.parts
            .tables
            .touch(&mut self.changes.tables, table, line)
    }

    pub(crate) fn state(&self, line: u64) -> u16
        ensures { result ≡ state (local_of self.now) line }
    {
        self.parts.tables.state(&self.changes.tables, line)
    }

    pub(crate) fn avail(&self, table: u16, line: u64) -> bool
        ensures { result ≡ avail (local_of self.now) table line }
    {
        self.parts.tables.avail(&self.changes.tables, table, line)
    }

    pub(crate) fn probe(&self, table: u16, line: u64) -> Result<u64, Trouble>
        ensures { result ≡ answered (probe (local_of self.now) table line) }
    {
        self.parts.tables.probe(&self.changes.tables, table, line)
    }

    pub(crate) fn free(&self, table: u16) -> u64
        ensures { result ≡ free (local_of self.now) table }
    {
        self.parts.tables.free(&self.changes.tables, table)
    }

    pub(crate) fn allocate(&mut self, table: u16, line: u64) -> Result<Ref, Trouble>
        requires served { Serves looks_up (local_of self.old) table }
        requires line { IsLine line }
        ensures does { DoesWith (allocate (local_of self.old) table line) (reference_to table line)
            result (local_of self.old) (local_of self.new) }
        ensures lawful { IsLawful (local_of self.new) }
    {
        let Some(fields) = initial_fields(&self.parts.machine, table) else {
            unreachable!()
        };
        self.parts
            .tables
            .allocate(&mut self.changes.tables, table, line, fields)
    }

    pub(crate) fn set_state(&mut self, line: u64, state: u16) -> Result<(), Trouble>
        requires served { HasStates (local_of self.old) }
        requires line { IsLine line }
        ensures does { Does (Ok (set_state (local_of self.old) line state)) result (local_of self.old) (local_of self.new) }
        ensures lawful { IsLawful (local_of self.new) }
    {
        self.parts
            .tables
            .set_state(&mut self.changes.tables, line, state)
    }
}
