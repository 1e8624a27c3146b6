// How many slots are left on a buffer that a machine sends on, as a scan has left them.
ghost use Rattle.std.specs.Prelude.{◌≡◌, ◌≤◌, ℕ, count_by, map, if◌then◌else◌};
ghost use Rattle.std.specs.List.{All, filter};
ghost use Rattle.ctl_face.specs.Prelude.{AreWithinLimits, buffer_place, free_of, is_buffer, leads_to, least_of, most_slots, slot_size};
ghost use Rattle.ctl_mail.specs.Prelude.{AreOf, actor_of, mail_after, told_by};
ghost use Rattle.ctl_mail.specs.Slots.{is_lend, lesser, slots_in};

use crate::{MailAct, MailChanges, MailStore, credits, lent};
use ctl_face::Routes;
use ruby_value::{BufferPlace, MachineSetup};

// Where the messages of a buffer come from or go to, if the machine has it.
fn place_of(machine: &MachineSetup, buffer: u16) -> Option<BufferPlace>
    ensures { result ≡ buffer_place machine.now buffer }
{
    match machine.buffers.get(usize::from(buffer)) {
        Some(s) => Some(s.place),
        None => None,
    }
}

// Whether it is this buffer.
fn is_buffer(buffer: u16, other: Option<u16>) -> bool
    ensures { result ≡ is_buffer buffer other }
{
    match other {
        Some(b) => b == buffer,
        None => false,
    }
}

// Whether what is sent on a buffer of this sort comes to a buffer with a size.
fn leads_to(
    place: Option<BufferPlace>,
    me: u32,
    routes: &Routes,
    buffer: u16,
    slot: (u32, u16, u64),
) -> bool
    ensures { (seed : ℕ) → result ≡ leads_to (actor_of me seed routes.now) buffer place slot }
{
    match place {
        Some(BufferPlace::Local) => slot.0 == me && slot.1 == buffer,
        Some(BufferPlace::To { network, .. }) => {
            is_buffer(slot.1, routes.receiving_buffer(slot.0, network))
        }
        _ => false,
    }
}

impl MailAct {
    pub(crate) fn is_lend(&self, receiver: u32, buffer: u16) -> bool
        ensures { result ≡ is_lend receiver buffer self.now }
    {
        match self {
            MailAct::Lend(to, at) => *to == receiver && *at == buffer,
            _ => false,
        }
    }
}

// How many slots of a buffer with a size are free. The credits of the scan itself come later.
fn free_at(store: &MailStore, changes: &MailChanges, slot: (u32, u16, u64)) -> u64
    requires changes { AreOf store.now (told_by changes.now) }
    requires size { slot.2 ≤ 65536 }
    ensures { result ≡ free_of (mail_after store.now changes.now) changes.now.cycle slot }
{
    let arrived = credits::arrived(&store.credits, slot.0, slot.1, changes.cycle);
    let before = lent::count_at(&store.lent, slot.0, slot.1);
    let since = changes.log.count_lends(slot.0, slot.1);
    (slot.2 + arrived as u64)
        .saturating_sub(before)
        .saturating_sub(since as u64)
}

// The lesser of a number, if there is one, and another.
fn lesser(least: Option<u64>, other: u64) -> Option<u64>
    ensures { result ≡ lesser least other }
{
    match least {
        Some(n) => Some(n.min(other)),
        None => Some(other),
    }
}

// The lesser of a number, if there is one, and what is free of a buffer with a size, if what is sent on a buffer of this sort comes
// there.
fn with_slot(
    least: Option<u64>,
    store: &MailStore,
    changes: &MailChanges,
    place: Option<BufferPlace>,
    me: u32,
    routes: &Routes,
    buffer: u16,
    slot: (u32, u16, u64),
) -> Option<u64>
    requires changes { AreOf store.now (told_by changes.now) }
    requires size { slot.2 ≤ 65536 }
    ensures { (seed : ℕ) → let actor = actor_of me seed routes.now in
        let free = free_of (mail_after store.now changes.now) changes.now.cycle slot in
        result ≡ (if leads_to actor buffer place slot then lesser least free else least) }
{
    if leads_to(place, me, routes, buffer, slot) {
        return lesser(least, free_at(store, changes, slot));
    }
    least
}

// The least that is free at any of some buffers with a size to which what is sent on a buffer of this sort comes.
fn least_free(
    slots: &[(u32, u16, u64)],
    store: &MailStore,
    changes: &MailChanges,
    place: Option<BufferPlace>,
    me: u32,
    routes: &Routes,
    buffer: u16,
) -> Option<u64>
    requires changes { AreOf store.now (told_by changes.now) }
    requires sizes { All (λ s. slot_size s ≤ most_slots) slots.now }
    ensures { (seed : ℕ) → let actor = actor_of me seed routes.now in
        let free = free_of (mail_after store.now changes.now) changes.now.cycle in
        result ≡ least_of (map free (filter (leads_to actor buffer place) slots.now)) }
{
    let mut least = None;
    for slot in slots {
        least = with_slot(least, store, changes, place, me, routes, buffer, *slot);
    }
    least
}

/// How many slots are left on a buffer that the machine sends on: the least that is free at any receiver whose buffer there has a
/// size, or `None` exactly where none has one. It takes no memory.
pub fn slots(
    store: &MailStore,
    changes: &MailChanges,
    machine: &MachineSetup,
    me: u32,
    routes: &Routes,
    buffer: u16,
) -> Option<u64>
    requires changes { AreOf store.now (told_by changes.now) }
    requires limits { AreWithinLimits routes.now }
    ensures { (seed : ℕ) → let actor = actor_of me seed routes.now in
        result
        ≡ slots_in (mail_after store.now changes.now) machine.now actor buffer changes.now.cycle }
{
    if routes.slots.is_empty() {
        return None;
    }
    let place = place_of(machine, buffer);
    least_free(&routes.slots, store, changes, place, me, routes, buffer)
}
