// Messages that wait, in the order of their numbers.
ghost use Rattle.std.specs.Prelude.{◌≡◌, ◌<◌, ◌≤◌, ◌+◌, ◌↔◌, ℕ, not, [], None, Some, IfSome, IsTrue, drop, filter, length, slice_get, vec_capacity};
ghost use Rattle.std.specs.List.{find};
ghost use Rattle.std.specs.Option.{option_copied};
ghost use Rattle.std.specs.VecDeque.{deque_len, deque_capacity};
ghost use Rattle.ruby_value.specs.Prelude.{same_number};
ghost use Rattle.stall_map.specs.declared.slots.Slot.{Slot};
ghost use Rattle.stall_map.specs.declared.stalled.Stalled.{Stalled};
ghost use Rattle.stall_map.specs.Prelude.{IsFirstEmpty, IsOrder, IsSlotOf, IsSplit, SameWaiting, messages_under, numbers_under, waiting_of, without_line};

use crate::{Message, MsgNo, Stalled};
use std::collections::VecDeque;

/// A number in the order of numbers, with the message that waits, or with none where it waits no longer.
#[derive(Drop)]
pub(crate) struct Slot {
    pub(crate) number: MsgNo,
    pub(crate) held: Option<Stalled>,
}

/// How many slots have a number up to the given one.
pub(crate) fn count_up_to(slots: &VecDeque<Slot>, number: MsgNo) -> usize
    requires order { IsOrder slots.now.items }
    ensures { IsSplit (λ (s : Slot). s.number) number slots.now.items result }
{
    slots.partition_point(|s| !number.is_before(s.number))
}

/// The place of the slot that may hold the message of this number, the only one that may.
fn slot_of(slots: &VecDeque<Slot>, number: MsgNo) -> Option<usize>
    requires order { IsOrder slots.now.items }
    ensures { IsSlotOf slots.now.items number result }
{
    let count = count_up_to(slots, number);
    if count > 0 && slots[count - 1].number == number {
        return Some(count - 1);
    }
    None
}

/// The message of this number, with its line, or `None` exactly where there is none.
pub(crate) fn find(slots: &VecDeque<Slot>, number: MsgNo) -> Option<&Stalled>
    requires order { IsOrder slots.now.items }
    ensures { option_copied result ≡ find (λ (s : Stalled). same_number s.message.number number) (waiting_of slots.now.items) }
{
    match slot_of(slots, number) {
        Some(at) => slots[at].held.as_ref(),
        None => None,
    }
}

/// The first message from a slot on.
pub(crate) fn first_from(slots: &VecDeque<Slot>, from: usize) -> Option<&Stalled>
    ensures { option_copied result ≡ slice_get (waiting_of (drop from slots.now.items)) 0 }
{
    for i in from..slots.len() {
        if let Some(s) = &slots[i].held {
            return Some(s);
        }
    }
    None
}

// Takes the message of this number out, if there is one. Its slot stays, empty.
fn take_out(slots: &mut VecDeque<Slot>, number: MsgNo) -> Option<Stalled>
    requires order { IsOrder slots.old.items }
    ensures order { IsOrder slots.new.items }
    ensures found { result ≡ find (λ (s : Stalled). same_number s.message.number number) (waiting_of slots.old.items) }
    ensures others { waiting_of slots.new.items ≡ filter (λ (s : Stalled). not (same_number s.message.number number)) (waiting_of slots.old.items) }
    ensures len { deque_len slots.new ≡ deque_len slots.old }
    ensures capacity { deque_capacity slots.new ≡ deque_capacity slots.old }
{
    match slot_of(slots, number) {
        Some(at) => slots[at].held.take(),
        None => None,
    }
}

/// Moves the messages under a line, which have these numbers, out into an empty list that has places for them. The others stay.
pub(crate) fn moved_out(
    slots: &mut VecDeque<Slot>,
    numbers: &[MsgNo],
    mut woken: Vec<Message>,
) -> Vec<Message>
    requires order { IsOrder slots.old.items }
    requires empty { woken.items ≡ [] }
    requires enough { length numbers.now ≤ vec_capacity woken }
    ensures order { IsOrder slots.new.items }
    ensures woken { (line : ℕ) → numbers.now ≡ numbers_under (waiting_of slots.old.items) line
        → result.items ≡ messages_under (waiting_of slots.old.items) line }
    ensures others { (line : ℕ) → numbers.now ≡ numbers_under (waiting_of slots.old.items) line
        → waiting_of slots.new.items ≡ without_line (waiting_of slots.old.items) line }
    ensures len { deque_len slots.new ≡ deque_len slots.old }
    ensures capacity { deque_capacity slots.new ≡ deque_capacity slots.old }
{
    for number in numbers {
        if let Some(s) = take_out(slots, *number) {
            woken.push_reserved(s.message);
        }
    }
    woken
}

// Whether the first slot is empty.
fn is_first_empty(slots: &VecDeque<Slot>) -> bool
    ensures { IsTrue result ↔ IsFirstEmpty slots.now.items }
{
    match slots.front() {
        Some(slot) => slot.held.is_none(),
        None => false,
    }
}

/// Drops the empty slots before the first message that waits, and all empty ones once they are more than half, so that dropping
/// them costs no more than emptying them did.
pub(crate) fn drop_empty(slots: &mut VecDeque<Slot>, waiting: usize)
    requires order { IsOrder slots.old.items }
    ensures same { SameWaiting slots.old.items slots.new.items }
    ensures len { deque_len slots.new ≤ deque_len slots.old }
    ensures capacity { deque_capacity slots.new ≡ deque_capacity slots.old }
{
    while is_first_empty(slots) {
        let _empty = slots.pop_front();
    }
    if slots.len() / 2 > waiting {
        slots.retain(|s| s.held.is_some());
    }
}
