//! What the entries of a journal are kept as: a row for each, and beside the rows columns for what few bytes can't say.
ghost use Rattle.std.specs.Prelude.{◌≡◌, ◌<◌, ◌≤◌, ◌+◌, ◌++◌, ◌∷◌, [], ℕ, length, OnOk};
ghost use Rattle.run_journal.specs.declared.entry.Entry.TheVariants as entry;
ghost use Rattle.run_journal.specs.declared.columns.What.TheVariants as what;
ghost use Rattle.run_journal.specs.Prelude.{entry_of, fired_of, numbers_in};
ghost use Rattle.run_journal.specs.Columns.{entry_at, entry_by, note_of, AreEqualInLength, Extends, Fits, HasColumnRoom, LeavesRoom};

use crate::column::Column;
use crate::lists::Lists;
use crate::{End, EndRef, EntryRef, FireLists, FireNote, MsgNo, NoMemory, StopAt, Verdict};
use ruby_value::{Finding, Sent};
use std::alloc::Global;

/// What an entry is, in 8 bytes. Where a number is said to be a place, it is one in a column.
#[derive(Clone, Copy)]
pub(crate) enum What {
    /// A transition that stalled, woke and recycled nothing, by its place among the transitions.
    Fired(u32),
    /// Another transition, by its place among the transitions.
    Moved(u32),
    /// The end of a wake-up of this controller in which no port fired.
    Idle(u32),
    /// The end of a wake-up of this controller that had fired as many transitions as it may.
    Full(u32),
    /// The end of a wake-up at a fault, by its place among the stops.
    Stopped(u32),
    /// A turn that issued and found nothing, and after which the run goes on.
    Turned,
    /// Such a turn but for what it issued, by the place of that list.
    Issued(u32),
    /// Another turn, by its place among the closings.
    Closed(u32),
}

/// An entry, in 16 bytes.
#[derive(Clone, Copy)]
pub(crate) struct Row {
    pub(crate) cycle: u64,
    pub(crate) what: What,
}

/// A transition. Its copies are the list of its own place; the list that it consumed has the place `lists`, and where it isn't a plain
/// one, those that it stalled, woke and recycled follow.
#[derive(Clone, Copy)]
pub(crate) struct Fire {
    pub(crate) address: u64,
    pub(crate) controller: u32,
    pub(crate) lists: u32,
    pub(crate) state: u16,
    pub(crate) event: u16,
    pub(crate) next: u16,
}

impl Fire {
    fn note(&self) -> FireNote
        ensures { result ≡ note_of self.now }
    {
        FireNote {
            address: self.address,
            state: self.state,
            event: self.event,
            next: self.next,
        }
    }
}

/// A wake-up that met a fault.
#[derive(Drop)]
pub(crate) struct Stop {
    pub(crate) controller: u32,
    pub(crate) at: StopAt,
}

/// A turn that found something, or with which the run ended. What it issued is the list at the place `issued`.
#[derive(Clone, Copy)]
pub(crate) struct Closing {
    pub(crate) issued: u32,
    pub(crate) finding: Option<Finding>,
    pub(crate) verdict: Option<Verdict>,
}

/// The columns beside the rows.
#[derive(Drop)]
pub(crate) struct Columns {
    pub(crate) fires: Column<Fire>,
    pub(crate) numbers: Lists<MsgNo>,
    pub(crate) sents: Lists<Sent>,
    pub(crate) stops: Column<Stop>,
    pub(crate) closings: Column<Closing>,
}

impl Columns {
    /// Empty columns. They take no memory.
    pub(crate) fn new(alloc: Global) -> Columns
        ensures { AreEqualInLength result }
    {
        Columns {
            fires: Column::new(alloc),
            numbers: Lists::new(alloc),
            sents: Lists::new(alloc),
            stops: Column::new(alloc),
            closings: Column::new(alloc),
        }
    }

    /// Makes room for entries with so many numbers and copies in their lists, or answers that there is none. Nothing is taken from
    /// the columns, and no room is lost.
    pub(crate) fn reserve(
        &mut self,
        entries: usize,
        numbers: usize,
        sents: usize,
    ) -> Result<(), NoMemory>
        requires { AreEqualInLength self.old }
        ensures ok { OnOk result (HasColumnRoom entries numbers sents self.new) }
        ensures extends { Extends self.old self.new }
        ensures lengths { AreEqualInLength self.new }
        ensures kept { (e n s : ℕ) → HasColumnRoom e n s self.old → HasColumnRoom e n s self.new }
    {
        let lists = entries.checked_mul(4).ok_or(NoMemory)?;
        self.fires.reserve(entries)?;
        self.numbers.reserve(lists, numbers)?;
        self.sents.reserve(entries, sents)?;
        self.stops.reserve(entries)?;
        self.closings.reserve(entries)?;
        Ok(())
    }

    /// For how many more entries there is room.
    pub(crate) fn entry_room(&self) -> u32
        ensures fits { HasColumnRoom result self.now.numbers.item_room self.now.sents.item_room self.now }
        ensures most { (e n s : ℕ) → HasColumnRoom e n s self.now → e ≤ result }
    {
        let lists = (self.numbers.list_room() / 4).min(self.sents.list_room());
        let rows = self.fires.room().min(self.stops.room());
        lists.min(rows).min(self.closings.room())
    }

    // Keeps the row of a transition whose list of consumed messages has this place.
    fn keep_fire(&mut self, controller: u32, note: FireNote, lists: u32, sent: &[Sent]) -> u32
        requires { (0 < self.old.fires.room) × (0 < self.old.sents.list_room) × (length sent.now ≤ self.old.sents.item_room) }
        ensures fires { self.new.fires.kept ≡ self.old.fires.kept ++ (record { address = note.address; controller = controller; lists = lists; state = note.state; event = note.event; next = note.next }) ∷ [] }
        ensures sents { self.new.sents.lists ≡ self.old.sents.lists ++ sent.now ∷ [] }
        ensures place { result ≡ length self.old.fires.kept }
        ensures numbers { self.new.numbers ≡ self.old.numbers }
        ensures stops { self.new.stops ≡ self.old.stops }
        ensures closings { self.new.closings ≡ self.old.closings }
        ensures fire_room { self.old.fires.room ≤ self.new.fires.room + 1 }
        ensures list_room { self.old.sents.list_room ≤ self.new.sents.list_room + 1 }
        ensures sent_room { self.old.sents.item_room ≤ self.new.sents.item_room + length sent.now }
    {
        let place = self.fires.len();
        self.sents.push(sent);
        self.fires.push(Fire {
            address: note.address,
            controller,
            lists,
            state: note.state,
            event: note.event,
            next: note.next,
        });
        place
    }

    // Keeps a transition that stalled, woke and recycled nothing.
    fn keep_plain(
        &mut self,
        controller: u32,
        note: FireNote,
        consumed: &[MsgNo],
        sent: &[Sent],
    ) -> What
        requires room { HasColumnRoom 1 (length consumed.now) (length sent.now) self.old }
        requires lengths { AreEqualInLength self.old }
        ensures entry { (cycle : ℕ) → entry_by self.new cycle result ≡ entry.Fired cycle controller note consumed.now sent.now [] [] [] }
        ensures fits { Fits self.new result }
        ensures extends { Extends self.old self.new }
        ensures lengths { AreEqualInLength self.new }
        ensures room { LeavesRoom (length consumed.now) (length sent.now) self.old self.new }
    {
        let lists = self.numbers.len();
        self.numbers.push(consumed);
        What::Fired(self.keep_fire(controller, note, lists, sent))
    }
}

impl Columns {
    // Keeps a transition with all its lists.
    fn keep_moved(&mut self, controller: u32, note: FireNote, lists: FireLists<'_>) -> What
        requires room { HasColumnRoom 1 (numbers_in lists) (length lists.sent.now) self.old }
        requires lengths { AreEqualInLength self.old }
        ensures entry { (cycle : ℕ) → entry_by self.new cycle result ≡ fired_of cycle controller note lists.entry }
        ensures fits { Fits self.new result }
        ensures extends { Extends self.old self.new }
        ensures lengths { AreEqualInLength self.new }
        ensures room { LeavesRoom (numbers_in lists.entry) (length lists.entry.sent.now) self.old self.new }
    {
        let place = self.numbers.len();
        self.numbers.push(lists.consumed);
        self.numbers.push(lists.stalled);
        self.numbers.push(lists.woken);
        self.numbers.push(lists.recycled);
        What::Moved(self.keep_fire(controller, note, place, lists.sent))
    }

    /// Keeps a transition, for which there is room. It takes no memory.
    pub(crate) fn keep_fired(
        &mut self,
        controller: u32,
        note: FireNote,
        lists: FireLists<'_>,
    ) -> What
        requires room { HasColumnRoom 1 (numbers_in lists) (length lists.sent.now) self.old }
        requires lengths { AreEqualInLength self.old }
        ensures entry { (cycle : ℕ) → entry_by self.new cycle result ≡ fired_of cycle controller note lists.entry }
        ensures fits { Fits self.new result }
        ensures extends { Extends self.old self.new }
        ensures lengths { AreEqualInLength self.new }
        ensures room { LeavesRoom (numbers_in lists.entry) (length lists.entry.sent.now) self.old self.new }
    {
        if lists.stalled.is_empty() && lists.woken.is_empty() && lists.recycled.is_empty() {
            self.keep_plain(controller, note, lists.consumed, lists.sent)
        } else {
            self.keep_moved(controller, note, lists)
        }
    }

    /// Keeps the end of a wake-up, for which there is room. It takes no memory.
    pub(crate) fn keep_ended(&mut self, controller: u32, end: End) -> What
        requires room { HasColumnRoom 1 0 0 self.old }
        requires lengths { AreEqualInLength self.old }
        ensures entry { (cycle : ℕ) → entry_by self.new cycle result ≡ entry.Ended cycle controller end }
        ensures fits { Fits self.new result }
        ensures extends { Extends self.old self.new }
        ensures lengths { AreEqualInLength self.new }
        ensures room { LeavesRoom 0 0 self.old self.new }
    {
        match end {
            End::Idle => What::Idle(controller),
            End::Full => What::Full(controller),
            End::Stop(at) => {
                let place = self.stops.len();
                self.stops.push(Stop { controller, at });
                What::Stopped(place)
            }
        }
    }

    /// Keeps a turn, for which there is room. It takes no memory.
    pub(crate) fn keep_turned(
        &mut self,
        issued: &[MsgNo],
        finding: Option<Finding>,
        verdict: Option<Verdict>,
    ) -> What
        requires room { HasColumnRoom 1 (length issued.now) 0 self.old }
        requires lengths { AreEqualInLength self.old }
        ensures entry { (cycle : ℕ) → entry_by self.new cycle result ≡ entry.Turned cycle issued.now finding verdict }
        ensures fits { Fits self.new result }
        ensures extends { Extends self.old self.new }
        ensures lengths { AreEqualInLength self.new }
        ensures room { LeavesRoom (length issued.now) 0 self.old self.new }
    {
        let place = self.numbers.len();
        match (finding, verdict) {
            (None, None) if issued.is_empty() => What::Turned,
            (None, None) => {
                self.numbers.push(issued);
                What::Issued(place)
            }
            _ => {
                self.numbers.push(issued);
                let closing = self.closings.len();
                self.closings.push(Closing {
                    issued: place,
                    finding,
                    verdict,
                });
                What::Closed(closing)
            }
        }
    }

    /// The entry of a row, lent.
    pub(crate) fn lend(&self, row: Row) -> EntryRef<'_>
        requires fits { Fits self.now row.what }
        requires lengths { AreEqualInLength self.now }
        ensures { entry_of result ≡ entry_at self.now row }
    {
        let cycle = row.cycle;
        match row.what {
            What::Fired(place) => self.lend_plain(cycle, place),
            What::Moved(place) => self.lend_moved(cycle, place),
            What::Idle(controller) => EntryRef::Ended {
                cycle,
                controller,
                end: EndRef::Idle,
            },
            What::Full(controller) => EntryRef::Ended {
                cycle,
                controller,
                end: EndRef::Full,
            },
            What::Stopped(place) => {
                let stop = self.stops.at(place);
                EntryRef::Ended {
                    cycle,
                    controller: stop.controller,
                    end: EndRef::Stop(&stop.at),
                }
            }
            What::Turned => EntryRef::Turned {
                cycle,
                issued: &[],
                finding: None,
                verdict: None,
            },
            What::Issued(place) => EntryRef::Turned {
                cycle,
                issued: self.numbers.at(place),
                finding: None,
                verdict: None,
            },
            What::Closed(place) => {
                let closing = self.closings.at(place);
                EntryRef::Turned {
                    cycle,
                    issued: self.numbers.at(closing.issued),
                    finding: closing.finding,
                    verdict: closing.verdict,
                }
            }
        }
    }

    fn lend_plain(&self, cycle: u64, place: u32) -> EntryRef<'_>
        requires fits { Fits self.now (what.Fired place) }
        requires lengths { AreEqualInLength self.now }
        ensures { entry_of result ≡ entry_by self.now cycle (what.Fired place) }
    {
        let fire = self.fires.at(place);
        EntryRef::Fired {
            cycle,
            controller: fire.controller,
            note: fire.note(),
            lists: FireLists {
                consumed: self.numbers.at(fire.lists),
                sent: self.sents.at(place),
                stalled: &[],
                woken: &[],
                recycled: &[],
            },
        }
    }

    fn lend_moved(&self, cycle: u64, place: u32) -> EntryRef<'_>
        requires fits { Fits self.now (what.Moved place) }
        requires lengths { AreEqualInLength self.now }
        ensures { entry_of result ≡ entry_by self.now cycle (what.Moved place) }
    {
        let fire = self.fires.at(place);
        EntryRef::Fired {
            cycle,
            controller: fire.controller,
            note: fire.note(),
            lists: FireLists {
                consumed: self.numbers.at(fire.lists),
                sent: self.sents.at(place),
                stalled: self.numbers.at(fire.lists + 1),
                woken: self.numbers.at(fire.lists + 2),
                recycled: self.numbers.at(fire.lists + 3),
            },
        }
    }
}
