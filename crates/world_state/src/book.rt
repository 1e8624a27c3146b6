//! What has happened in a run so far.
ghost use Rattle.std.specs.Prelude.{◌≡◌, ◌≤◌, ◌<◌, ◌+◌, ◌-◌, ◌^◌, [], ◌∷◌, ◌++◌, OnOk, length};
ghost use Rattle.run_journal.specs.declared.entry.Entry.TheVariants as entry;
ghost use Rattle.run_journal.specs.declared.event.Event.TheVariants as event;
ghost use Rattle.run_journal.specs.Prelude.{HasFew, HasRoomFor, KeepsRoom, consumed_numbers, fired_of, numbers_in, sent_numbers};

use ruby_value::{Finding, MsgNo, NoMemory, Seq};
use run_journal::{End, Event, FireLists, FireNote, Journal, JournalWriter, Verdict};
use std::alloc::Global;
use std::marker::Model;

/// The events and entries of a run so far. A contract sees them as two lists, and beside them for how many more of each there is
/// room.
#[derive(Drop)]
pub struct Book {
    history: Vec<Event>,
    journal: JournalWriter,
}

impl Model for Book {
    ghost use Rattle.std.specs.Prelude.{◌-◌, vec_capacity, vec_len};
    ghost use Rattle.world_state.specs.Booked.{Booked};

    ghost Value = { Booked };

    ghost view = { λ b. record {
      history = b.history.items;
      journal = b.journal.entries;
      event_room = vec_capacity b.history - vec_len b.history;
      entry_room = b.journal.room;
    } };
}

impl Book {
    /// Nothing has happened yet. It takes no memory.
    pub fn new(alloc: Global) -> Book
        ensures history { result.history ≡ [] }
        ensures journal { result.journal ≡ [] }
    {
        Book {
            history: Vec::new(alloc),
            journal: JournalWriter::new(alloc),
        }
    }

    /// Makes room for so many events, and for so many entries with so many numbers and copies in their lists, or answers that there is
    /// none. No room is lost.
    pub fn reserve(
        &mut self,
        events: usize,
        entries: usize,
        numbers: usize,
        sents: usize,
    ) -> Result<(), NoMemory>
        ensures history { self.new.history ≡ self.old.history }
        ensures journal { self.new.journal ≡ self.old.journal }
        ensures ok { OnOk result (events ≤ self.new.event_room) }
        ensures entry { OnOk result (HasRoomFor entries numbers sents self.new.entry_room) }
        ensures few { OnOk result (HasFew entries numbers sents) }
        ensures no_less { self.old.event_room ≤ self.new.event_room }
        ensures no_fewer { KeepsRoom 0 0 0 self.old.entry_room self.new.entry_room }
    {
        self.history.reserve(events)?;
        self.journal.reserve(entries, numbers, sents)
    }

    /// An event without an entry is written, for which there is room. It takes no memory.
    pub fn note(&mut self, event: Event)
        requires { 0 < self.old.event_room }
        ensures history { self.new.history ≡ self.old.history ++ event ∷ [] }
        ensures journal { self.new.journal ≡ self.old.journal }
        ensures room { self.old.event_room ≡ self.new.event_room + 1 }
        ensures entry_room { self.new.entry_room ≡ self.old.entry_room }
    {
        self.history.push_reserved(event);
    }

    /// A transition and its entry are written, for which there is room. It takes no memory.
    pub fn write_fire(
        &mut self,
        worker: u32,
        controller: u32,
        cycle: u64,
        note: FireNote,
        lists: FireLists<'_>,
    )
        requires event { 0 < self.old.event_room }
        requires entry { HasRoomFor 1 (numbers_in lists) (length lists.sent.now) self.old.entry_room }
        ensures history { self.new.history ≡ self.old.history ++ event.Fire worker controller ∷ [] }
        ensures journal { self.new.journal ≡ self.old.journal ++ fired_of cycle controller note lists.entry ∷ [] }
        ensures room { self.old.event_room ≡ self.new.event_room + 1 }
        ensures entry_room { KeepsRoom 1 (numbers_in lists.entry) (length lists.entry.sent.now) self.old.entry_room self.new.entry_room }
    {
        self.journal.push_fired(cycle, controller, note, lists);
        self.history
            .push_reserved(Event::Fire { worker, controller });
    }

    /// The end of a wake-up and its entry are written, for which there is room. It takes no memory.
    pub fn write_end(&mut self, worker: u32, controller: u32, cycle: u64, end: End)
        requires event { 0 < self.old.event_room }
        requires entry { HasRoomFor 1 0 0 self.old.entry_room }
        ensures history { self.new.history ≡ self.old.history ++ event.Done worker controller ∷ [] }
        ensures journal { self.new.journal ≡ self.old.journal ++ entry.Ended cycle controller end ∷ [] }
        ensures room { self.old.event_room ≡ self.new.event_room + 1 }
        ensures entry_room { KeepsRoom 1 0 0 self.old.entry_room self.new.entry_room }
    {
        self.journal.push_ended(cycle, controller, end);
        self.history
            .push_reserved(Event::Done { worker, controller });
    }

    /// A turn and its entry are written, for which there is room. It takes no memory.
    pub fn write_turn(
        &mut self,
        worker: u32,
        cycle: u64,
        issued: &[MsgNo],
        finding: Option<Finding>,
        verdict: Option<Verdict>,
    )
        requires event { 0 < self.old.event_room }
        requires entry { HasRoomFor 1 (length issued.now) 0 self.old.entry_room }
        ensures history { self.new.history ≡ self.old.history ++ event.Turn worker ∷ [] }
        ensures journal { self.new.journal ≡ self.old.journal ++ entry.Turned cycle issued.now finding verdict ∷ [] }
        ensures room { self.old.event_room ≡ self.new.event_room + 1 }
        ensures entry_room { KeepsRoom 1 (length issued.now) 0 self.old.entry_room self.new.entry_room }
    {
        self.journal.push_turned(cycle, issued, finding, verdict);
        self.history.push_reserved(Event::Turn { worker });
    }

    /// How many entries there are.
    pub fn entries(&self) -> u64
        ensures value { result ≡ length self.now.journal }
        ensures few { result < 2 ^ 32 }
    {
        self.journal.len() as u64
    }

    pub fn history(&self) -> &[Event]
        ensures { result.now ≡ self.now.history }
    {
        &self.history
    }

    /// How many messages were sent, requests of the driver included.
    pub fn sent(&self) -> u64
        ensures value { result ≡ length (sent_numbers self.now.journal) }
        ensures few { result ≤ 2 ^ 64 - 2 ^ 32 }
    {
        self.journal.sent()
    }

    /// How many messages were consumed.
    pub fn consumed(&self) -> u64
        ensures value { result ≡ length (consumed_numbers self.now.journal) }
        ensures few { result ≤ 2 ^ 64 - 2 ^ 32 }
    {
        self.journal.consumed()
    }

    /// The history and the journal. It takes no memory.
    pub fn into_parts(self) -> (Seq<Event>, Journal)
        ensures history { result.0 ≡ self.history }
        ensures journal { result.1 ≡ self.journal }
    {
        (Seq::of(self.history), self.journal.into_journal())
    }
}
