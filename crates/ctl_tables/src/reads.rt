// What a scan reads of a controller's tables, through its changes.
ghost use Rattle.std.specs.Prelude.{◌≡◌, is_some, IfSome};
ghost use Rattle.std.specs.Option.{option_copied, option_and_then, option_map};
ghost use Rattle.std.specs.Prelude.{slice_get};
ghost use Rattle.ctl_face.specs.Prelude.{Reads};
ghost use Rattle.ctl_tables.specs.After.{IsTable};
ghost use Rattle.ctl_tables.specs.Container.{table_of};
ghost use Rattle.ctl_tables.specs.Stored.{AreOf, tables_now, tables_of};
ghost use Rattle.ctl_tables.specs.TableActs.{fields_at, get_from, lookup_from};

use crate::change::TableChanges;
use crate::held::Tables;
use crate::stored::StoredTable;
use ctl_face::Trouble;
use ruby_value::{Fault, Ref, Value};

impl Tables {
    // The table of this number, if there is one.
    #[tactic(auto, using(crate::proofs::Finding::stored_at, crate::proofs::Finding::none_stored))]
    pub(crate) fn stored(&self, table: u16) -> Option<&StoredTable>
        ensures there { option_map table_of (option_copied result) ≡ slice_get (tables_of self.now) table }
        ensures law { IfSome (slice_get (tables_of self.now) table) IsTable }
    {
        match self.tables.get(usize::from(table)) {
            Some(stored) => {
                stored.law();
                Some(stored)
            }
            None => None,
        }
    }

    /// The value of a field of a line, lent, or `None` exactly where the line isn't there or has no such field. It takes no
    /// memory.
    pub fn field<'a>(
        &'a self,
        changes: &'a TableChanges,
        table: u16,
        line: u64,
        field: u16,
    ) -> Option<&'a Value>
        requires { AreOf changes.now self.now }
        ensures { option_copied result ≡ option_and_then (λ fields. slice_get fields field)
            (fields_at (tables_now self.now changes.now) table line) }
    {
        let Some(stored) = self.stored(table) else {
            return None;
        };
        match changes.newest(table, line, Some(field)) {
            Some(change) => change.edit.value(field),
            None => stored.field(line, field),
        }
    }

    /// The value of a field of the line that a reference names. The fault `Reference` comes exactly where the line isn't there
    /// or has no such field.
    pub fn get(&self, changes: &TableChanges, r: &Ref, field: u16) -> Result<Value, Trouble>
        requires { AreOf changes.now self.now }
        ensures { Reads (get_from (tables_now self.now changes.now) r.now field) result }
    {
        match self.field(changes, r.table, r.line, field) {
            Some(value) => match value.clone() {
                Ok(value) => Ok(value),
                Err(_) => Err(Trouble::NoMemory),
            },
            None => Err(Trouble::Fault(Fault::Reference)),
        }
    }

    /// The reference to a line, or `None` exactly where the line isn't there. It takes no memory.
    pub fn lookup(&self, changes: &TableChanges, table: u16, line: u64) -> Option<Ref>
        requires { AreOf changes.now self.now }
        ensures { result ≡ lookup_from (tables_now self.now changes.now) table line }
    {
        if self.has_line(changes, table, line) {
            Some(Ref { table, line })
        } else {
            None
        }
    }

    // Whether the line is there.
    pub(crate) fn has_line(&self, changes: &TableChanges, table: u16, line: u64) -> bool
        requires { AreOf changes.now self.now }
        ensures { result ≡ is_some (fields_at (tables_now self.now changes.now) table line) }
    {
        let Some(stored) = self.stored(table) else {
            return false;
        };
        match changes.newest(table, line, None) {
            Some(change) => change.edit.is_there(),
            None => stored.has_line(line),
        }
    }
}
