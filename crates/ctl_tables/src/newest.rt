// The newest change of a log that tells of a line, or of one of its fields.
ghost use Rattle.std.specs.Prelude.{◌≡◌, reverse};
ghost use Rattle.std.specs.List.{find};
ghost use Rattle.std.specs.Option.{option_copied};
ghost use Rattle.ctl_tables.specs.Stored.{log_of};
ghost use Rattle.ctl_tables.specs.Told.{edit_tells, is_of_field, tells, told_there, told_value};

use crate::change::{Edit, TableChange, TableChanges};
use ruby_value::Value;

fn is_of_field(field: Option<u16>, written: u16) -> bool
    ensures { result ≡ is_of_field field written }
{
    match field {
        None => true,
        Some(field) => field == written,
    }
}

impl Edit {
    // Whether it tells of that field, or else of the line.
    fn tells(&self, field: Option<u16>) -> bool
        ensures { result ≡ edit_tells field self.now }
    {
        match self {
            Edit::Write(written, _) => is_of_field(field, *written),
            Edit::Fill(_) => true,
            Edit::Add(_) => true,
            Edit::Remove => true,
            Edit::Use => false,
        }
    }

    // The value that it tells of a field.
    pub(crate) fn value(&self, field: u16) -> Option<&Value>
        ensures { option_copied result ≡ told_value self.now field }
    {
        match self {
            Edit::Write(_, value) => Some(value),
            Edit::Fill(fields) => fields.get(field),
            Edit::Add(fields) => fields.get(field),
            Edit::Remove => None,
            Edit::Use => None,
        }
    }

    // Whether it tells that the line is there.
    pub(crate) fn is_there(&self) -> bool
        ensures { result ≡ told_there self.now }
    {
        !matches!(self, Edit::Remove)
    }
}

impl TableChange {
    fn tells(&self, table: u16, line: u64, field: Option<u16>) -> bool
        ensures { result ≡ tells table line field self.now }
    {
        table == self.table && line == self.line && self.edit.tells(field)
    }
}

// The newest change that tells of a field of a line, or else of the line. It takes no memory, and costs a step for each change.
fn newest_in(log: &[TableChange], table: u16, line: u64, field: Option<u16>) -> Option<&TableChange>
    ensures { option_copied result ≡ find (tells table line field) (reverse log.now) }
{
    for i in (0..log.len()).rev() {
        let change = &log[i];
        if change.tells(table, line, field) {
            return Some(change);
        }
    }
    None
}

impl TableChanges {
    // The same of the log of a scan's changes.
    pub(crate) fn newest(&self, table: u16, line: u64, field: Option<u16>) -> Option<&TableChange>
        ensures { option_copied result ≡ find (tells table line field) (log_of self.now) }
    {
        newest_in(&self.log, table, line, field)
    }
}
