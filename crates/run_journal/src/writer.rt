//! The journal of a run, as it is written.
ghost use Rattle.std.specs.Prelude.{◌≡◌, ◌<◌, ◌≤◌, ◌+◌, ◌-◌, ◌^◌, ◌++◌, ◌∷◌, [], length, OnOk};
ghost use Rattle.std.specs.Bool.{OnTrue};
ghost use Rattle.run_journal.specs.declared.entry.Entry.TheVariants as entry;
ghost use Rattle.run_journal.specs.Journaled.{HasFew, HasRoomFor, KeepsRoom};
ghost use Rattle.run_journal.specs.Prelude.{consumed_numbers, fired_of, numbers_in, sent_numbers};

use crate::column::Column;
use crate::columns::{Columns, Row, What};
use crate::{End, FireLists, FireNote, Journal, MsgNo, NoMemory, Verdict};
use ruby_value::Finding;
use std::alloc::Global;
use std::marker::Model;

/// A journal that is being written: the entries so far, in their order. A contract sees them as the list of entries, and beside it for
/// how many more there is room. There are fewer than 2^32 entries, and fewer numbers and copies in their lists.
#[derive(Drop)]
pub struct JournalWriter {
    rows: Column<Row>,
    columns: Columns,
    // How many messages the entries have as sent or issued, and as consumed.
    sent: u64,
    consumed: u64,
    // For how many more entries, numbers and copies there is room in all columns.
    entry_room: u32,
    number_room: u32,
    sent_room: u32,
}

impl Model for JournalWriter {
    ghost use Rattle.run_journal.specs.Journaled.{Journaled};
    ghost use Rattle.run_journal.specs.KeptJournal.{IsWrittenJournal, entries_of};

    ghost Value = { Journaled };

    ghost view = { λ j. record {
      entries = entries_of j.columns j.rows.kept;
      room = record { entries = j.entry_room; numbers = j.number_room; sents = j.sent_room };
    } };

    ghost invariant = { λ j. IsWrittenJournal j.rows.kept j.columns j.sent j.consumed j.rows.room
        (record { entries = j.entry_room; numbers = j.number_room; sents = j.sent_room }) };
}

impl JournalWriter {
    /// No entries. It takes no memory.
    pub fn new(alloc: Global) -> JournalWriter
        ensures { result.entries ≡ [] }
    {
        JournalWriter {
            rows: Column::new(alloc),
            columns: Columns::new(alloc),
            sent: 0,
            consumed: 0,
            entry_room: 0,
            number_room: 0,
            sent_room: 0,
        }
    }

    /// Makes room for so many more entries, with so many numbers and copies in their lists, or answers that there is none. The entries
    /// stay, and no room is lost.
    pub fn reserve(&mut self, entries: usize, numbers: usize, sents: usize) -> Result<(), NoMemory>
        ensures entries { self.new.entries ≡ self.old.entries }
        ensures ok { OnOk result (HasRoomFor entries numbers sents self.new.room) }
        ensures few { OnOk result (HasFew entries numbers sents) }
        ensures no_less { KeepsRoom 0 0 0 self.old.room self.new.room }
    {
        if self.has_room(entries, numbers, sents) {
            return Ok(());
        }
        self.rows.reserve(entries)?;
        self.columns.reserve(entries, numbers, sents)?;
        self.entry_room = self.rows.room().min(self.columns.entry_room());
        self.number_room = self.columns.numbers.item_room();
        self.sent_room = self.columns.sents.item_room();
        Ok(())
    }

    fn has_room(&self, entries: usize, numbers: usize, sents: usize) -> bool
        ensures room { OnTrue result (HasRoomFor entries numbers sents self.now.room) }
        ensures few { OnTrue result (HasFew entries numbers sents) }
    {
        entries <= self.entry_room as usize
            && numbers <= self.number_room as usize
            && sents <= self.sent_room as usize
    }

    /// How many entries there are.
    pub fn len(&self) -> u32
        ensures { result ≡ length self.now.entries }
    {
        self.rows.len()
    }

    /// How many messages the entries have as sent, requests of the driver included.
    pub fn sent(&self) -> u64
        ensures value { result ≡ length (sent_numbers self.now.entries) }
        ensures few { result ≤ 2 ^ 64 - 2 ^ 32 }
    {
        self.sent
    }

    /// How many messages the entries have as consumed.
    pub fn consumed(&self) -> u64
        ensures value { result ≡ length (consumed_numbers self.now.entries) }
        ensures few { result ≤ 2 ^ 64 - 2 ^ 32 }
    {
        self.consumed
    }
}

impl JournalWriter {
    /// Adds a transition with its lists, for which there is room. It takes no memory.
    pub fn push_fired(&mut self, cycle: u64, controller: u32, note: FireNote, lists: FireLists<'_>)
        requires { HasRoomFor 1 (numbers_in lists) (length lists.sent.now) self.old.room }
        ensures entries { self.new.entries ≡ self.old.entries ++ fired_of cycle controller note lists.entry ∷ [] }
        ensures room { KeepsRoom 1 (numbers_in lists.entry) (length lists.entry.sent.now) self.old.room self.new.room }
    {
        let what = self.columns.keep_fired(controller, note, lists);
        self.rows.push(Row { cycle, what });
        self.sent += lists.sent.len() as u64;
        self.consumed += lists.consumed.len() as u64;
        self.entry_room -= 1;
        self.number_room -= lists.numbers() as u32;
        self.sent_room -= lists.sent.len() as u32;
    }

    /// Adds the end of a wake-up, for which there is room. It takes no memory.
    pub fn push_ended(&mut self, cycle: u64, controller: u32, end: End)
        requires { HasRoomFor 1 0 0 self.old.room }
        ensures entries { self.new.entries ≡ self.old.entries ++ entry.Ended cycle controller end ∷ [] }
        ensures room { KeepsRoom 1 0 0 self.old.room self.new.room }
    {
        let what = self.columns.keep_ended(controller, end);
        self.rows.push(Row { cycle, what });
        self.entry_room -= 1;
    }

    /// Adds a turn with the numbers of the requests that the driver issued, for which there is room. It takes no memory.
    pub fn push_turned(
        &mut self,
        cycle: u64,
        issued: &[MsgNo],
        finding: Option<Finding>,
        verdict: Option<Verdict>,
    )
        requires { HasRoomFor 1 (length issued.now) 0 self.old.room }
        ensures entries { self.new.entries ≡ self.old.entries ++ entry.Turned cycle issued.now finding verdict ∷ [] }
        ensures room { KeepsRoom 1 (length issued.now) 0 self.old.room self.new.room }
    {
        let what = self.columns.keep_turned(issued, finding, verdict);
        self.rows.push(Row { cycle, what });
        self.sent += issued.len() as u64;
        self.entry_room -= 1;
        self.number_room -= issued.len() as u32;
    }

    /// The journal of the entries so far. It takes no memory.
    pub fn into_journal(self) -> Journal
        ensures { result ≡ self.entries }
    {
        Journal::of(self.rows, self.columns)
    }
}
