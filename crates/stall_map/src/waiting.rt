ghost use Rattle.std.specs.Prelude.{◌≡◌, ◌<◌, ◌≤◌, ◌+◌, ◌^◌, ◌↔◌, [], None, Some, length, slice_get, IfOk, IfErr, IsOk, IsTrue, OnOk, OnErr};
ghost use Rattle.std.specs.List.{find};
ghost use Rattle.std.specs.Option.{option_copied, option_map};
ghost use Rattle.ruby_value.specs.Prelude.{same_number};
ghost use Rattle.stall_map.specs.declared.stalled.Stalled.{Stalled};
ghost use Rattle.stall_map.specs.Stalls.{Ascends, IsNew, messages_of, messages_under, next_after, numbers_under, with_stalled, without_line};

use crate::lane::{Lane, add_number, drop_lane, empty_lanes};
use crate::slots::{Slot, count_up_to, drop_empty, find, first_from, moved_out};
use crate::{Message, MsgNo, NoMemory, Seq, Stalled};
use ruby_value::LineMap;
use std::alloc::Global;
use std::collections::VecDeque;
use std::marker::Model;

/// The messages that wait under lines. A contract sees the list of them, each with its line, in which their numbers ascend, and
/// beside it for how many more there is room. For each line the numbers of its messages are kept, with places for them, so that
/// waking takes no memory and costs what waits under the line.
#[derive(Drop)]
pub struct StallMap {
    alloc: Global,
    slots: VecDeque<Slot>,
    waiting: usize,
    lanes: LineMap<Lane>,
    pool: Vec<Lane>,
    longest: usize,
    room: usize,
}

impl Model for StallMap {
    ghost use Rattle.std.specs.Prelude.{List, ◌-◌};
    ghost use Rattle.std.specs.Coded.{coded_list};
    ghost use Rattle.std.specs.VecDeque.{deque_len, deque_capacity};
    ghost use Rattle.ruby_value.specs.Prelude.{Roomy, roomy_code};
    ghost use Rattle.stall_map.specs.declared.stalled.Stalled.{Stalled};
    ghost use Rattle.stall_map.specs.contracts.stalled.Stalled as row;
    ghost use Rattle.stall_map.specs.Slots.{waiting_of};
    ghost use Rattle.stall_map.specs.Prepared.{IsPrepared};

    ghost Value = { Roomy (List Stalled) };

    ghost coded = { roomy_code (coded_list row.the_row.coded) };

    ghost view = { λ w. record { kept = waiting_of w.slots.items; room = w.room } };

    ghost invariant = { λ w. IsPrepared w.slots.items (deque_capacity w.slots - deque_len w.slots) w.waiting w.lanes.kept w.lanes.room w.pool.items w.longest w.room };
}

impl StallMap {
    /// The map in which no message waits. It takes no memory.
    pub fn new(alloc: Global) -> StallMap
        ensures { result.kept ≡ [] }
    {
        StallMap {
            alloc,
            slots: VecDeque::new(alloc),
            waiting: 0,
            lanes: LineMap::new(alloc),
            pool: Vec::new(alloc),
            longest: 0,
            room: 0,
        }
    }

    /// How many messages wait.
    pub fn len(&self) -> usize
        ensures count { result ≡ length self.now.kept }
        ensures order { Ascends self.now.kept }
        ensures small { result < 2 ^ 63 }
    {
        self.waiting
    }

    /// Whether no message has this number.
    pub fn is_new(&self, number: MsgNo) -> bool
        ensures { IsTrue result ↔ IsNew self.now.kept number }
    {
        find(&self.slots, number).is_none()
    }

    /// The message of this number, with its line, or `None` exactly where there is none.
    pub fn find(&self, number: MsgNo) -> Option<&Stalled>
        ensures { option_copied result ≡ find (λ (s : Stalled). same_number s.message.number number) self.now.kept }
    {
        find(&self.slots, number)
    }

    /// Makes room for so many more messages, under whatever lines, or answers that there is no memory for them. The messages
    /// stay as they are.
    pub fn reserve(&mut self, more: usize) -> Result<(), NoMemory>
        ensures same { self.new.kept ≡ self.old.kept }
        ensures ok { OnOk result (more ≤ self.new.room) }
        ensures no_less { self.old.room ≤ self.new.room }
    {
        if more <= self.room {
            return Ok(());
        }
        self.slots.reserve(more)?;
        self.lanes.reserve(more)?;
        let longest = if self.waiting == 0 { 0 } else { self.longest };
        self.pool = empty_lanes(self.alloc, more, 2 * longest.max(more))?;
        self.longest = longest;
        self.room = more;
        Ok(())
    }

    /// Lets a message with a new number wait under a line, where there is room, and takes no memory.
    pub fn put_reserved(&mut self, line: u64, m: Message)
        requires new { IsNew self.old.kept m.number }
        requires room { 0 < self.old.room }
        ensures after { self.new.kept ≡ with_stalled self.old.kept line m }
        ensures room { self.old.room ≤ self.new.room + 1 }
    {
        let number = m.number;
        let at = count_up_to(&self.slots, number);
        let Some(empty) = self.pool.pop() else {
            unreachable!()
        };
        let count = add_number(&mut self.lanes, line, number, empty);
        self.longest = self.longest.max(count);
        self.room -= 1;
        self.waiting += 1;
        let held = Some(Stalled { line, message: m });
        if self.slots.insert(at, Slot { number, held }).is_err() {
            unreachable!()
        }
    }

    /// Lets a message with a new number wait under a line. Without memory for it the map is as it was, and the message comes
    /// back; where there is room, none is wanted.
    pub fn put(&mut self, line: u64, m: Message) -> Result<(), (NoMemory, Message)>
        requires new { IsNew self.old.kept m.number }
        ensures ok { OnOk result (self.new.kept ≡ with_stalled self.old.kept line m) }
        ensures refused { OnErr result (self.new.kept ≡ self.old.kept) }
        ensures given_back { IfErr result (λ refusal. refusal.1 ≡ m) }
        ensures in_room { 0 < self.old.room → IsOk result }
        ensures room { self.old.room ≤ self.new.room + 1 }
    {
        if self.room == 0 && self.reserve(1).is_err() {
            return Err((NoMemory, m));
        }
        self.put_reserved(line, m);
        Ok(())
    }

    /// Takes out all messages that wait under the line, in increasing number, with their old arrivals and numbers. It takes no
    /// memory.
    pub fn wake(&mut self, line: u64) -> Seq<Message>
        ensures woken { result ≡ messages_under self.old.kept line }
        ensures others { self.new.kept ≡ without_line self.old.kept line }
        ensures room { self.old.room ≤ self.new.room }
    {
        let Some(lane) = self.lanes.remove(line) else {
            return Seq::new(self.alloc);
        };
        let Lane { numbers, places } = lane;
        let woken = moved_out(&mut self.slots, &numbers, places);
        self.waiting -= numbers.len();
        drop_empty(&mut self.slots, self.waiting);
        Seq::of(woken)
    }

    /// The numbers of the messages that wait under the line, in increasing order.
    pub fn under(&self, line: u64) -> &[MsgNo]
        ensures { result.now ≡ numbers_under self.now.kept line }
    {
        match self.lanes.get(line) {
            Some(lane) => &lane.numbers,
            None => &[],
        }
    }

    /// Takes out all messages that wait, in increasing number, with their old arrivals and numbers. Without memory for the list
    /// of them the map is as it was.
    pub fn wake_all(&mut self) -> Result<Seq<Message>, NoMemory>
        ensures woken { IfOk result (λ all. all ≡ messages_of self.old.kept) }
        ensures after { OnOk result (self.new.kept ≡ []) }
        ensures refused { OnErr result (self.new.kept ≡ self.old.kept) }
        ensures room { self.old.room ≤ self.new.room }
    {
        let mut all = Vec::with_capacity(self.alloc, self.waiting)?;
        while let Some(slot) = self.slots.pop_front() {
            if let Some(s) = slot.held {
                drop_lane(&mut self.lanes, s.line);
                all.push_reserved(s.message);
            }
        }
        self.waiting = 0;
        Ok(Seq::of(all))
    }

    /// The message of the least number above the given one, or of the least number, with its line, or `None` exactly where
    /// there is none.
    pub fn next_after(&self, number: Option<MsgNo>) -> Option<(u64, &Message)>
        ensures { option_map (λ r. record { line = r.0; message = r.1.now }) result ≡ next_after self.now.kept number }
    {
        let from = match number {
            Some(n) => count_up_to(&self.slots, n),
            None => 0,
        };
        match first_from(&self.slots, from) {
            Some(s) => Some((s.line, &s.message)),
            None => None,
        }
    }
}
