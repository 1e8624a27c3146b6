// The places of a table, and how many of them are left, through the changes of a scan.
ghost use Rattle.std.specs.Prelude.{◌≡◌, ◌<◌, ◌≤◌, ◌+◌, ◌^◌, Some, reverse, slice_get};
ghost use Rattle.ctl_tables.specs.Container.{table_of};
ghost use Rattle.ctl_tables.specs.Frames.{frame_of};
ghost use Rattle.ctl_tables.specs.Places.{lines_after, lines_changed, lines_beside, lines_with, places_of, room_in, share_places};
ghost use Rattle.ctl_tables.specs.Stored.{tables_now, AreOf};
ghost use Rattle.ctl_tables.specs.TableActs.{avail_from, free_from};

use crate::change::{Edit, TableChange, TableChanges};
use crate::held::Tables;
use crate::stored::StoredTable;

impl Edit {
    // How many lines there are after it, where there were so many.
    fn lines_with(&self, lines: u64) -> u64
        requires { lines < 2 ^ 63 }
        ensures { result ≡ lines_with self.now lines }
    {
        match self {
            Edit::Add(_) => lines + 1,
            Edit::Remove => lines.saturating_sub(1),
            _ => lines,
        }
    }
}

impl StoredTable {
    // Whether two lines share places.
    fn share_places(&self, a: u64, b: u64) -> bool
        ensures { result ≡ share_places (Some (frame_of (table_of self.now))) a b }
    {
        match self {
            StoredTable::Cache(cache) => cache.share_set(a, b),
            StoredTable::Tbe(_) => true,
            _ => false,
        }
    }

    // How many places there are for lines that share them.
    fn places(&self) -> u32
        ensures { result ≡ places_of (frame_of (table_of self.now)) }
    {
        match self {
            StoredTable::Cache(cache) => cache.ways(),
            StoredTable::Tbe(tbes) => tbes.entries(),
            _ => 0,
        }
    }

    // How many lines share places with a line.
    fn lines_beside(&self, line: u64) -> u64
        ensures lines { result ≡ lines_beside (table_of self.now) line }
        ensures small { result < 2 ^ 32 }
    {
        match self {
            StoredTable::Cache(cache) => {
                let _most = cache.ways();
                cache.set_len(line) as u64
            }
            StoredTable::Tbe(tbes) => u64::from(tbes.entries()) - tbes.free(),
            _ => 0,
        }
    }

    // How many there are after a change of the tables, in which this one has that number, where there were so many.
    fn lines_with(&self, change: &TableChange, table: u16, line: u64, lines: u64) -> u64
        requires { lines < 2 ^ 63 }
        ensures lines { result
            ≡ lines_changed (Some (frame_of (table_of self.now))) table line change.now lines }
        ensures small { result ≤ lines + 1 }
    {
        if table == change.table && self.share_places(change.line, line) {
            change.edit.lines_with(lines)
        } else {
            lines
        }
    }

    // The same after the changes of a log.
    #[tactic(auto, using(crate::proofs::Counting::none_yet))]
    fn lines_after(&self, log: &[TableChange], table: u16, line: u64) -> u64
        ensures { result ≡ lines_after (Some (frame_of (table_of self.now))) table line
            (lines_beside (table_of self.now) line) (reverse log.now) }
    {
        let mut lines = self.lines_beside(line);
        for change in log {
            lines = self.lines_with(change, table, line, lines);
        }
        lines
    }
}

impl Tables {
    // How many places are left for lines that share them with a line, as the changes have left the tables. It takes no memory.
    pub(crate) fn room(&self, changes: &TableChanges, table: u16, line: u64) -> u64
        requires { AreOf changes.now self.now }
        ensures { result ≡ room_in (slice_get (tables_now self.now changes.now) table) line }
    {
        match self.stored(table) {
            Some(stored) => {
                let lines = stored.lines_after(&changes.log, table, line);
                u64::from(stored.places()).saturating_sub(lines)
            }
            None => 0,
        }
    }

    /// How many more lines a TBE table may hold, and 0 of each other table. It takes no memory.
    pub fn free(&self, changes: &TableChanges, table: u16) -> u64
        requires { AreOf changes.now self.now }
        ensures { result ≡ free_from (tables_now self.now changes.now) table }
    {
        if self.keeps_order(table) {
            0
        } else {
            self.room(changes, table, 0)
        }
    }

    /// Whether the line is in the cache or its set has a free way, and true for each table that is no cache. It takes no memory.
    pub fn avail(&self, changes: &TableChanges, table: u16, line: u64) -> bool
        requires { AreOf changes.now self.now }
        ensures { result ≡ avail_from (tables_now self.now changes.now) table line }
    {
        if !self.keeps_order(table) {
            return true;
        }
        if self.has_line(changes, table, line) {
            return true;
        }
        self.room(changes, table, line) > 0
    }
}
