// The least recently used line of a set of a cache, through the changes of a scan.
ghost use Rattle.std.specs.Prelude.{◌≡◌, ◌&&◌, false, Some, IfNone, IfSome, reverse, slice_get};
ghost use Rattle.std.specs.List.{find, list_any};
ghost use Rattle.ruby_value.specs.Prelude.{set_of};
ghost use Rattle.ctl_face.specs.Prelude.{answered, least_used_in, CacheTable};
ghost use Rattle.ctl_tables.specs.Container.{table_of};
ghost use Rattle.ctl_tables.specs.Frames.{frame_of, keeps_order};
ghost use Rattle.ctl_tables.specs.Recency.{edit_moves, edit_uses, first_used, moves, numbers_of, order_after, stays_in, uses_beside};
ghost use Rattle.ctl_tables.specs.Stored.{tables_now, AreOf};
ghost use Rattle.ctl_tables.specs.TableActs.{probe_from};

use crate::change::{Edit, TableChange, TableChanges};
use crate::held::Tables;
use crate::stored::StoredTable;
use cache_array::CacheArray;
use ctl_face::Trouble;
use ruby_value::Fault;

impl Edit {
    // Whether it takes its line from its place in the order of use.
    fn moves(&self) -> bool
        ensures { result ≡ edit_moves self.now }
    {
        matches!(self, Edit::Add(_) | Edit::Remove | Edit::Use)
    }

    // Whether it makes its line the most recently used one.
    fn uses(&self) -> bool
        ensures { result ≡ edit_uses self.now }
    {
        matches!(self, Edit::Add(_) | Edit::Use)
    }
}

impl TableChange {
    // Whether it takes the line from its place in the order of use.
    fn moves(&self, table: u16, line: u64) -> bool
        ensures { result ≡ moves table line self.now }
    {
        table == self.table && self.edit.moves() && line == self.line
    }

    // Whether it makes its line the most recently used one of the set of a line.
    fn uses_beside(&self, cache: &CacheArray, table: u16, line: u64) -> bool
        ensures { result ≡ uses_beside (Some (frame_of (CacheTable cache.now))) table line self.now }
    {
        table == self.table && self.edit.uses() && cache.share_set(self.line, line)
    }
}

// Whether a change of a log takes the line from its place.
fn moved_by(log: &[TableChange], table: u16, line: u64) -> bool
    ensures { result ≡ list_any (λ change. moves table line change) log.now }
{
    log.iter().any(|change| change.moves(table, line))
}

// Whether none does.
fn stays_in(log: &[TableChange], table: u16, line: u64) -> bool
    ensures { result ≡ stays_in table log.now line }
{
    !moved_by(log, table, line)
}

// The least recently used of the lines of a set that no change of a log takes from their places.
fn first_unmoved(cache: &CacheArray, log: &[TableChange], table: u16, line: u64) -> Option<u64>
    ensures { result ≡ find (stays_in table log.now) (numbers_of (set_of cache.now line)) }
{
    for i in 0..cache.ways() {
        let Some(there) = cache.used(line, i) else {
            return None;
        };
        if stays_in(log, table, there) {
            return Some(there);
        }
    }
    None
}

// Whether a change makes its line the most recently used one of the set of a line, and no later change takes it from there.
fn is_last_use(
    change: &TableChange,
    later: &[TableChange],
    cache: &CacheArray,
    table: u16,
    line: u64,
) -> bool
    ensures { result ≡ (uses_beside (Some (frame_of (CacheTable cache.now))) table line change.now
        && stays_in table later.now change.now.line) }
{
    change.uses_beside(cache, table, line) && stays_in(later, table, change.line)
}

// The first of the lines that a log makes the most recently used ones of a set and that no later change takes from there.
fn first_used(cache: &CacheArray, log: &[TableChange], table: u16, line: u64) -> Option<u64>
    ensures { result ≡ first_used (Some (frame_of (CacheTable cache.now))) table line log.now }
{
    for i in 0..log.len() {
        let change = &log[i];
        if is_last_use(change, &log[i + 1..], cache, table, line) {
            return Some(change.line);
        }
    }
    None
}

// The least recently used line of a set after the changes of a log. It costs a walk along the log for each line up to it.
fn least_used(cache: &CacheArray, log: &[TableChange], table: u16, line: u64) -> Option<u64>
    ensures { result ≡ slice_get (order_after (Some (frame_of (CacheTable cache.now))) table line
        (numbers_of (set_of cache.now line)) (reverse log.now)) 0 }
{
    match first_unmoved(cache, log, table, line) {
        Some(least) => Some(least),
        None => first_used(cache, log, table, line),
    }
}

impl StoredTable {
    fn cache(&self) -> Option<&CacheArray>
        ensures some { IfSome result (λ cache. table_of self.now ≡ CacheTable cache.now) }
        ensures none { IfNone result (keeps_order (Some (frame_of (table_of self.now))) ≡ false) }
    {
        match self {
            StoredTable::Cache(cache) => Some(cache),
            _ => None,
        }
    }
}

impl Tables {
    // The least recently used line of the set of a line in a cache.
    fn least_used(&self, changes: &TableChanges, table: u16, line: u64) -> Option<u64>
        requires { AreOf changes.now self.now }
        ensures { result ≡ least_used_in (slice_get (tables_now self.now changes.now) table) line }
    {
        let Some(stored) = self.stored(table) else {
            return None;
        };
        match stored.cache() {
            Some(cache) => least_used(cache, &changes.log, table, line),
            None => None,
        }
    }

    /// The least recently used line of the set of a line in a cache. The fault `Probe` comes exactly where `avail` is true. It
    /// takes no memory.
    pub fn probe(&self, changes: &TableChanges, table: u16, line: u64) -> Result<u64, Trouble>
        requires { AreOf changes.now self.now }
        ensures { result ≡ answered (probe_from (tables_now self.now changes.now) table line) }
    {
        if self.avail(changes, table, line) {
            return Err(Trouble::Fault(Fault::Probe));
        }
        match self.least_used(changes, table, line) {
            Some(least) => Ok(least),
            None => Err(Trouble::Fault(Fault::Probe)),
        }
    }
}
