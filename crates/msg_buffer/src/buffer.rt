ghost use Rattle.std.specs.Prelude.{◌≡◌, ◌<◌, ◌≤◌, ◌+◌, ◌↔◌, [], None, Some, length, count_by, IfOk, IfErr, IfSome, IsOk, IsSome, IsTrue, OnOk, OnErr, insert};
ghost use Rattle.std.specs.List.{find};
ghost use Rattle.std.specs.Option.{option_copied};
ghost use Rattle.std.specs.VecDeque.{deque_len, deque_capacity};
ghost use Rattle.ruby_value.specs.declared.message.Message.{Message};
ghost use Rattle.ruby_value.specs.Prelude.{same_number};
ghost use Rattle.msg_buffer.specs.Queue.{IsFront, IsNew, IsQueue, front, is_after, next_after, with_message, with_recycled, without_message};

use crate::{Message, MsgNo, NoMemory};
use std::alloc::Global;
use std::collections::VecDeque;
use std::marker::Model;

/// There is no message with an arrival up to now.
#[derive(Clone, Copy)]
pub struct NotReady;

/// The messages of one buffer. A contract sees the list of them, ascending by arrival and then by number, in which no number is
/// there twice, and beside it for how many more there is room.
#[derive(Drop)]
pub struct Buffer {
    queue: VecDeque<Message>,
}

impl Model for Buffer {
    ghost use Rattle.std.specs.Prelude.{List, ◌-◌};
    ghost use Rattle.std.specs.Coded.{coded_list};
    ghost use Rattle.std.specs.VecDeque.{deque_len, deque_capacity};
    ghost use Rattle.ruby_value.specs.declared.message.Message.{Message};
    ghost use Rattle.ruby_value.specs.contracts.message.Message as message;
    ghost use Rattle.ruby_value.specs.Prelude.{Roomy, roomy_code};
    ghost use Rattle.msg_buffer.specs.Queue.{IsQueue};

    ghost Value = { Roomy (List Message) };

    ghost coded = { roomy_code (coded_list message.the_row.coded) };

    ghost view = { λ b. record { kept = b.queue.items; room = deque_capacity b.queue - deque_len b.queue } };

    ghost invariant = { λ b. IsQueue b.queue.items };
}

impl Buffer {
    /// The empty buffer. It takes no memory.
    pub fn new(alloc: Global) -> Buffer
        ensures { result.kept ≡ [] }
    {
        Buffer {
            queue: VecDeque::new(alloc),
        }
    }

    /// How many messages there are.
    pub fn len(&self) -> usize
        ensures count { result ≡ length self.now.kept }
        ensures order { IsQueue self.now.kept }
    {
        self.queue.len()
    }

    /// Whether no message has this number.
    pub fn is_new(&self, number: MsgNo) -> bool
        ensures { IsTrue result ↔ IsNew self.now.kept number }
    {
        !self.queue.iter().any(|m| m.number == number)
    }

    /// Makes room for so many more messages, or answers that there is no memory for them. The messages stay as they are.
    pub fn reserve(&mut self, more: usize) -> Result<(), NoMemory>
        ensures same { self.new.kept ≡ self.old.kept }
        ensures ok { OnOk result (more ≤ self.new.room) }
        ensures no_less { self.old.room ≤ self.new.room }
    {
        self.queue.reserve(more)?;
        Ok(())
    }

    /// Puts a message with a new number into its place. Without memory for it the buffer is as it was, and the message
    /// comes back; where there is room, none is wanted.
    pub fn put(&mut self, m: Message) -> Result<(), (NoMemory, Message)>
        requires new { IsNew self.old.kept m.number }
        ensures ok { OnOk result (self.new.kept ≡ with_message self.old.kept m) }
        ensures refused { OnErr result (self.new.kept ≡ self.old.kept) }
        ensures given_back { IfErr result (λ refusal. refusal.1 ≡ m) }
        ensures in_room { 0 < self.old.room → IsOk result }
        ensures room { self.old.room ≤ self.new.room + 1 }
    {
        let at = place_of(&self.queue, &m);
        match self.queue.insert(at, m) {
            Ok(()) => Ok(()),
            Err(refused) => Err((NoMemory, refused.value)),
        }
    }

    /// Puts a message with a new number into its place, where there is room, and takes no memory.
    pub fn put_reserved(&mut self, m: Message)
        requires new { IsNew self.old.kept m.number }
        requires room { 0 < self.old.room }
        ensures after { self.new.kept ≡ with_message self.old.kept m }
        ensures room { self.old.room ≤ self.new.room + 1 }
    {
        if self.put(m).is_err() {
            unreachable!()
        }
    }

    /// Puts a message that was stalled back, in the order that its old arrival and number give, as `put` does.
    pub fn back(&mut self, m: Message) -> Result<(), (NoMemory, Message)>
        requires new { IsNew self.old.kept m.number }
        ensures ok { OnOk result (self.new.kept ≡ with_message self.old.kept m) }
        ensures refused { OnErr result (self.new.kept ≡ self.old.kept) }
        ensures given_back { IfErr result (λ refusal. refusal.1 ≡ m) }
        ensures in_room { 0 < self.old.room → IsOk result }
        ensures room { self.old.room ≤ self.new.room + 1 }
    {
        self.put(m)
    }

    /// The front at a cycle: the least message by arrival and number among those with an arrival up to it, or `None` exactly
    /// where there is none.
    pub fn front(&self, now: u64) -> Option<&Message>
        ensures value { option_copied result ≡ front self.now.kept now }
        ensures first { IsFront self.now.kept now (option_copied result) }
    {
        match self.queue.front() {
            Some(m) if m.arrival <= now => Some(m),
            _ => None,
        }
    }

    /// Takes the front out, or answers `NotReady` exactly where there is none, and then the buffer is as it was.
    pub fn pop(&mut self, now: u64) -> Result<Message, NotReady>
        ensures value { IfOk result (λ m. front self.old.kept now ≡ Some m) }
        ensures after { IfOk result (λ m. self.new.kept ≡ without_message self.old.kept m.number) }
        ensures not_ready { OnErr result (front self.old.kept now ≡ None) }
        ensures refused { OnErr result (self.new.kept ≡ self.old.kept) }
        ensures more_room { IfOk result (λ m. self.new.room ≡ self.old.room + 1) }
        ensures room { self.old.room ≤ self.new.room }
    {
        if self.front(now).is_none() {
            return Err(NotReady);
        }
        self.queue.pop_front().ok_or(NotReady)
    }

    /// Gives the front another arrival, with which it takes its place again, and counts as recycled; its number, which stays,
    /// is the answer. It is `NotReady` exactly where there is no front, and then the buffer is as it was. It takes no memory.
    pub fn recycle(&mut self, now: u64, arrival: u64) -> Result<MsgNo, NotReady>
        ensures number { IfOk result (λ n. IfSome (front self.old.kept now) (λ m. n ≡ m.number)) }
        ensures after { OnOk result (IfSome (front self.old.kept now) (λ m. self.new.kept ≡ with_recycled self.old.kept m arrival)) }
        ensures not_ready { OnErr result (front self.old.kept now ≡ None) }
        ensures ready { IsOk result ↔ IsSome (front self.old.kept now) }
        ensures refused { OnErr result (self.new.kept ≡ self.old.kept) }
        ensures room { self.old.room ≤ self.new.room }
    {
        match self.pop(now) {
            Ok(mut m) => {
                let number = m.number;
                m.arrival = arrival;
                m.recycled = true;
                self.put_reserved(m);
                Ok(number)
            }
            Err(NotReady) => Err(NotReady),
        }
    }

    /// The least message by arrival and number that comes after the given pair and has an arrival up to `now`, or `None`
    /// exactly where there is none.
    pub fn next_after(&self, now: u64, arrival: u64, number: MsgNo) -> Option<&Message>
        ensures { option_copied result ≡ next_after self.now.kept now arrival number }
    {
        let at = self
            .queue
            .partition_point(|m| !is_after(m, arrival, number));
        match self.queue.get(at) {
            Some(m) if m.arrival <= now => Some(m),
            _ => None,
        }
    }

    /// The message of this number, or `None` exactly where there is none. It looks from the front.
    pub fn find(&self, number: MsgNo) -> Option<&Message>
        ensures { option_copied result ≡ find (λ (m : Message). same_number m.number number) self.now.kept }
    {
        self.queue.iter().find(|m| m.number == number)
    }

    /// How many of the messages were recycled at any time.
    pub fn count_recycled(&self) -> usize
        ensures { result ≡ count_by (λ (m : Message). m.recycled) self.now.kept }
    {
        self.queue.iter().filter(|m| m.recycled).count()
    }
}

// Whether the message comes after this arrival and number.
fn is_after(m: &Message, arrival: u64, number: MsgNo) -> bool
    ensures { result ≡ is_after arrival number m.now }
{
    arrival < m.arrival || (arrival == m.arrival && number.is_before(m.number))
}

// Where a message goes: behind the last one that doesn't come after it. It looks at the back first, since a new message mostly is the
// last one, and else costs what the logarithm of their number does.
fn place_of(queue: &VecDeque<Message>, m: &Message) -> usize
    requires queue { IsQueue queue.now.items }
    requires new { IsNew queue.now.items m.now.number }
    ensures bound { result ≤ deque_len queue.now }
    ensures place { insert queue.now.items result m.now ≡ with_message queue.now.items m.now }
{
    let at = queue.len();
    if at == 0 || !is_after(&queue[at - 1], m.arrival, m.number) {
        return at;
    }
    queue.partition_point(|x| !is_after(x, m.arrival, m.number))
}
