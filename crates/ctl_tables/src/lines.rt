// What puts a line into a controller's tables or takes one out, and what changes the order of use.
ghost use Rattle.std.specs.Prelude.{◌≡◌, IfOk, IfSome, slice_get};
ghost use Rattle.ctl_face.specs.Prelude.{reference_to};
ghost use Rattle.ctl_tables.specs.After.{IsTable};
ghost use Rattle.ctl_tables.specs.Frames.{frame_at, keeps_order, loses_lines};
ghost use Rattle.ctl_tables.specs.Logged.{DoesIn};
ghost use Rattle.ctl_tables.specs.Stored.{states_now, tables_now, tables_of, AreOf};
ghost use Rattle.ctl_tables.specs.TableActs.{allocate_in, deallocate_in, touch_in};

use crate::change::{Edit, TableChanges};
use crate::held::Tables;
use ctl_face::Trouble;
use ruby_value::{Fault, Fields, Ref};

impl Tables {
    // Whether lines can be taken out of the table.
    pub(crate) fn loses_lines(&self, table: u16) -> bool
        ensures kind { result ≡ loses_lines (frame_at (tables_of self.now) table) }
        ensures law { IfSome (slice_get (tables_of self.now) table) IsTable }
    {
        match self.stored(table) {
            Some(stored) => stored.loses_lines(),
            None => false,
        }
    }

    // Whether the table keeps an order of use.
    pub(crate) fn keeps_order(&self, table: u16) -> bool
        ensures kind { result ≡ keeps_order (frame_at (tables_of self.now) table) }
        ensures law { IfSome (slice_get (tables_of self.now) table) IsTable }
    {
        match self.stored(table) {
            Some(stored) => stored.keeps_order(),
            None => false,
        }
    }

    // What `allocate` does, without its answer.
    fn add(
        &self,
        changes: &mut TableChanges,
        table: u16,
        line: u64,
        initial: &Fields,
    ) -> Result<(), Trouble>
        requires { AreOf changes.old self.now }
        ensures does { DoesIn (allocate_in (tables_now self.now changes.old) table line initial.now)
            result (tables_now self.now changes.old) (tables_now self.now changes.new) }
        ensures states { states_now self.now changes.new ≡ states_now self.now changes.old }
        ensures replays { AreOf changes.new self.now }
    {
        if !self.loses_lines(table) {
            return Ok(());
        }
        if self.has_line(changes, table, line) {
            return Err(Trouble::Fault(Fault::Present));
        }
        if self.room(changes, table, line) == 0 {
            return Err(Trouble::Fault(Fault::Full));
        }
        match initial.clone() {
            Ok(fields) => changes.log(table, line, Edit::Add(fields)),
            Err(_) => Err(Trouble::NoMemory),
        }
    }

    /// Puts a line with these fields into a cache, as the most recently used one of its set, or into a TBE table, and answers the
    /// reference to it. The fault `Present` comes where the line is there, and else `Full` where there is no place for it.
    /// Another table doesn't change.
    pub fn allocate(
        &self,
        changes: &mut TableChanges,
        table: u16,
        line: u64,
        initial: &Fields,
    ) -> Result<Ref, Trouble>
        requires { AreOf changes.old self.now }
        ensures does { DoesIn (allocate_in (tables_now self.now changes.old) table line initial.now)
            result (tables_now self.now changes.old) (tables_now self.now changes.new) }
        ensures reference { IfOk result (λ r. r ≡ reference_to table line) }
        ensures states { states_now self.now changes.new ≡ states_now self.now changes.old }
        ensures replays { AreOf changes.new self.now }
    {
        match self.add(changes, table, line, initial) {
            Ok(()) => Ok(Ref { table, line }),
            Err(trouble) => Err(trouble),
        }
    }

    /// Takes a line out of a cache or a TBE table. The fault `Absent` comes exactly where it isn't there. Another table doesn't
    /// change.
    pub fn deallocate(
        &self,
        changes: &mut TableChanges,
        table: u16,
        line: u64,
    ) -> Result<(), Trouble>
        requires { AreOf changes.old self.now }
        ensures does { DoesIn (deallocate_in (tables_now self.now changes.old) table line) result
            (tables_now self.now changes.old) (tables_now self.now changes.new) }
        ensures states { states_now self.now changes.new ≡ states_now self.now changes.old }
        ensures replays { AreOf changes.new self.now }
    {
        if self.loses_lines(table) {
            if self.has_line(changes, table, line) {
                changes.log(table, line, Edit::Remove)
            } else {
                Err(Trouble::Fault(Fault::Absent))
            }
        } else {
            Ok(())
        }
    }

    /// Makes a line of a cache the most recently used one of its set. The fault `Absent` comes exactly where it isn't there.
    /// Another table doesn't change.
    pub fn touch(&self, changes: &mut TableChanges, table: u16, line: u64) -> Result<(), Trouble>
        requires { AreOf changes.old self.now }
        ensures does { DoesIn (touch_in (tables_now self.now changes.old) table line) result
            (tables_now self.now changes.old) (tables_now self.now changes.new) }
        ensures states { states_now self.now changes.new ≡ states_now self.now changes.old }
        ensures replays { AreOf changes.new self.now }
    {
        if self.keeps_order(table) {
            if self.has_line(changes, table, line) {
                changes.log(table, line, Edit::Use)
            } else {
                Err(Trouble::Fault(Fault::Absent))
            }
        } else {
            Ok(())
        }
    }
}
