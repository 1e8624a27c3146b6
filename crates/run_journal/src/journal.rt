//! The journal of a run.
ghost use Rattle.std.specs.Prelude.{◌≡◌, ◌<◌, length, slice_get, Some};
ghost use Rattle.run_journal.specs.KeptJournal.{IsKeptJournal, entries_of};
ghost use Rattle.run_journal.specs.Prelude.{entry_of};

use crate::EntryRef;
use crate::column::Column;
use crate::columns::{Columns, Row};
use std::marker::Model;

/// The entries of a run, in their order. A contract sees them as the list of entries. A transition costs 48 bytes beside what is in its
/// lists, and 12 more where it stalled, woke or recycled a message; other entries cost 16, but for one that has a list, a text, a finding
/// or a verdict.
#[derive(Drop)]
pub struct Journal {
    rows: Column<Row>,
    columns: Columns,
}

impl Model for Journal {
    ghost use Rattle.std.specs.Prelude.{List};
    ghost use Rattle.std.specs.Coded.{coded_list};
    ghost use Rattle.run_journal.specs.declared.entry.Entry.{Entry};
    ghost use Rattle.run_journal.specs.contracts.entry.Entry as entry;
    ghost use Rattle.run_journal.specs.KeptJournal.{IsKeptJournal, entries_of};

    ghost Value = { List Entry };

    ghost coded = { coded_list entry.the_row.coded };

    ghost view = { λ j. entries_of j.columns j.rows.kept };

    ghost invariant = { λ j. IsKeptJournal j.rows.kept j.columns };
}

impl Journal {
    /// The journal of these rows, with the columns beside them. It takes no memory.
    pub(crate) fn of(rows: Column<Row>, columns: Columns) -> Journal
        requires { IsKeptJournal rows.kept columns }
        ensures { result ≡ entries_of columns rows.kept }
    {
        Journal { rows, columns }
    }

    /// How many entries there are.
    pub fn len(&self) -> u32
        ensures { result ≡ length self.now }
    {
        self.rows.len()
    }

    /// The entry at a place counted from 0, lent.
    pub fn entry(&self, place: u32) -> EntryRef<'_>
        requires { place < length self.now }
        ensures { slice_get self.now place ≡ Some (entry_of result) }
    {
        let row = *self.rows.at(place);
        self.columns.lend(row)
    }
}
