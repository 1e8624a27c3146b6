// How a field of a line of a table may be written.
ghost use Rattle.std.specs.Prelude.{◌≡◌};
ghost use Rattle.ctl_tables.specs.Container.{table_of};
ghost use Rattle.ctl_tables.specs.Stored.{tables_now, AreOf};
ghost use Rattle.ctl_tables.specs.Ways.{IsWay, IsWayIn};

use crate::change::TableChanges;
use crate::held::Tables;
use crate::stored::StoredTable;
use ruby_value::Fields;

/// How a field of a line may be written.
#[derive(Clone, Copy)]
pub(crate) enum Way<'a> {
    /// There is no such table, and nothing is written.
    Nowhere,
    /// The line isn't there.
    Absent,
    /// The line's fields are kept, and one of them is written.
    Kept,
    /// It is a line of a directory that was never written. Its fields are these, of which all are written at once.
    Unwritten(&'a Fields),
}

impl StoredTable {
    fn way(&self, line: u64) -> Way<'_>
        ensures { IsWayIn (table_of self.now) line result }
    {
        if let StoredTable::Directory(directory) = self {
            if directory.is_written(line) {
                return Way::Kept;
            }
            return Way::Unwritten(directory.lookup(line));
        }
        if self.fields(line).is_some() {
            Way::Kept
        } else {
            Way::Absent
        }
    }
}

impl Tables {
    // The way to a line as the changes have left it. It takes no memory.
    pub(crate) fn way(&self, changes: &TableChanges, table: u16, line: u64) -> Way<'_>
        requires { AreOf changes.now self.now }
        ensures { IsWay (tables_now self.now changes.now) table line result }
    {
        let Some(stored) = self.stored(table) else {
            return Way::Nowhere;
        };
        match changes.newest(table, line, None) {
            Some(change) => {
                if change.edit.is_there() {
                    Way::Kept
                } else {
                    Way::Absent
                }
            }
            None => stored.way(line),
        }
    }
}
