ghost use Rattle.std.specs.Prelude.{◌≡◌, []};
ghost use Rattle.ctl_tables.specs.Stored.{log_of, state_log_of};

use ruby_value::{Fields, Value};
use std::alloc::Global;

/// What one change does to a line of a table.
#[derive(Drop)]
pub(crate) enum Edit {
    /// Writes the field of this number.
    Write(u16, Value),
    /// Gives a line of a directory all its fields, at its first write.
    Fill(Fields),
    /// Puts the line with these fields into a cache or a TBE table.
    Add(Fields),
    /// Takes the line out of a cache or a TBE table.
    Remove,
    /// Makes the line the most recently used one of its set.
    Use,
}

/// A change of a line of the table of this number.
#[derive(Drop)]
pub(crate) struct TableChange {
    pub(crate) table: u16,
    pub(crate) line: u64,
    pub(crate) edit: Edit,
}

/// What one scan of a controller changes in its tables and states: an entry for each change, in their order, which is written
/// into the tables by `Tables::apply`, or dropped. A call that reads through it walks along the entries, of which a scan makes
/// few.
#[derive(Drop)]
pub struct TableChanges {
    pub(crate) log: Vec<TableChange>,
    pub(crate) states: Vec<(u64, u16)>,
}

impl TableChanges {
    /// No changes. It takes no memory.
    pub fn new(alloc: Global) -> TableChanges
        ensures tables { log_of result ≡ [] }
        ensures states { state_log_of result ≡ [] }
    {
        TableChanges {
            log: Vec::new(alloc),
            states: Vec::new(alloc),
        }
    }

    // Drops all changes. The room for them stays.
    pub(crate) fn clear(&mut self)
        ensures tables { log_of self.new ≡ [] }
        ensures states { state_log_of self.new ≡ [] }
    {
        self.log.clear();
        self.states.clear();
    }
}
