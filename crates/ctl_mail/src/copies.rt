// The copies of a send, kept as changes of a scan, where there is room.
ghost use Rattle.std.specs.Prelude.{◌≡◌, ◌≤◌, ◌+◌, ◌*◌, ◌^◌, ℕ, All, IfOk, length};
ghost use Rattle.ctl_face.specs.Prelude.{AreWithinLimits, local_copy};
ghost use Rattle.ctl_mail.specs.Prelude.{AreNext, HaveNext, MaySend, actor_of, copies_to_all, mail_after, view_after, view_with_copies, view_with_network_copy, HasSpace, AreOf, told_by};

use crate::arrivals::{local_arrival, network_arrival, next_jitter, to_be_kept, words_from};
use crate::{MailAct, MailChanges, MailStore};
use ctl_face::Routes;
use pcg_words::Words;
use ruby_value::{Fields, NetDest, NoMemory};
use std::alloc::Global;

// Keeps one copy to a receiver on a network, where there is room.
fn copy_to(
    store: &MailStore,
    changes: &mut MailChanges,
    words: &mut Option<Words>,
    me: u32,
    seed: u64,
    routes: &Routes,
    network: u16,
    latency: u64,
    receiver: u32,
    fields: Fields,
)
    requires changes { AreOf store.now (told_by changes.old) }
    requires limits { AreWithinLimits routes.now }
    requires cycle { changes.old.cycle ≤ 10 ^ 12 }
    requires latency { (1 ≤ latency) × latency ≤ 1000000 }
    requires may { MaySend me changes.old.cycle 1 (mail_after store.now changes.old) }
    requires space { HasSpace changes.old 4 1 }
    requires words { AreNext (actor_of me seed routes.now) changes.old.counts.drawn words.old }
    ensures after { let actor = actor_of me seed routes.now in
        let old = view_after store.now changes.old in
        view_after store.now changes.new
        ≡ view_with_network_copy actor network latency fields changes.old.cycle old receiver }
    ensures changes { AreOf store.now (told_by changes.new) }
    ensures may { (more : ℕ)
        → MaySend me changes.old.cycle (more + 1) (mail_after store.now changes.old)
        → MaySend me changes.old.cycle more (mail_after store.now changes.new) }
    ensures space { (more : ℕ)
        → HasSpace changes.old (4 * (more + 1)) (more + 1)
        → HasSpace changes.new (4 * more) more }
    ensures words { AreNext (actor_of me seed routes.now) changes.new.counts.drawn words.new }
    ensures cycle { changes.new.cycle ≡ changes.old.cycle }
{
    let drawn = words.is_some();
    let jitter = next_jitter(words, seed, me, routes, changes.counts.drawn);
    let due = changes.cycle + latency + routes.path_to(me, receiver) + jitter;
    let ordered = routes.is_ordered(network);
    let arrival = network_arrival(store, changes, ordered, network, receiver, due);
    let buffer = routes.receiving_buffer(receiver, network).unwrap_or(0);
    changes.keep_copy(me, routes, receiver, buffer, arrival, drawn, fields);
    if ordered {
        changes.keep_act(MailAct::NetworkLast(network, receiver, arrival));
    }
}

// Keeps one copy to each of the receivers on a network, where there is room. All but the last take one of the clones.
fn copy_to_each(
    store: &MailStore,
    changes: &mut MailChanges,
    words: &mut Option<Words>,
    me: u32,
    seed: u64,
    routes: &Routes,
    network: u16,
    latency: u64,
    members: &NetDest,
    mut clones: Vec<Fields>,
    fields: Fields,
)
    requires changes { AreOf store.now (told_by changes.old) }
    requires limits { AreWithinLimits routes.now }
    requires cycle { changes.old.cycle ≤ 10 ^ 12 }
    requires latency { (1 ≤ latency) × latency ≤ 1000000 }
    requires next { HaveNext members.now }
    requires count { length clones.items + 1 ≡ length members.now }
    requires clones { All (λ f. f ≡ fields) clones.items }
    requires may { MaySend me changes.old.cycle (length members.now)
        (mail_after store.now changes.old) }
    requires space { HasSpace changes.old (4 * length members.now) (length members.now) }
    requires words { AreNext (actor_of me seed routes.now) changes.old.counts.drawn words.old }
    ensures after { let actor = actor_of me seed routes.now in
        let old = view_after store.now changes.old in
        view_after store.now changes.new ≡ view_with_copies me old
        (copies_to_all actor network latency fields changes.old.cycle old.mail members.now) }
    ensures changes { AreOf store.now (told_by changes.new) }
    ensures words { AreNext (actor_of me seed routes.now) changes.new.counts.drawn words.new }
    ensures cycle { changes.new.cycle ≡ changes.old.cycle }
{
    let _count = members.count();
    let mut from = 0;
    while let Some(clone) = clones.pop() {
        let Some(receiver) = members.least_from(from) else {
            return;
        };
        copy_to(
            store, changes, words, me, seed, routes, network, latency, receiver, clone,
        );
        from = receiver + 1;
    }
    if let Some(receiver) = members.least_from(from) {
        copy_to(
            store, changes, words, me, seed, routes, network, latency, receiver, fields,
        );
    }
}

/// Keeps one copy to each of the receivers on a network, where there is room, and the words that come after them. All copies but the
/// last take one of the clones.
pub(crate) fn copy_to_all(
    store: &MailStore,
    changes: &mut MailChanges,
    me: u32,
    seed: u64,
    routes: &Routes,
    network: u16,
    latency: u64,
    members: &NetDest,
    clones: Vec<Fields>,
    fields: Fields,
)
    requires changes { AreOf store.now (told_by changes.old) }
    requires limits { AreWithinLimits routes.now }
    requires cycle { changes.old.cycle ≤ 10 ^ 12 }
    requires latency { (1 ≤ latency) × latency ≤ 1000000 }
    requires next { HaveNext members.now }
    requires count { length clones.items + 1 ≡ length members.now }
    requires clones { All (λ f. f ≡ fields) clones.items }
    requires may { MaySend me changes.old.cycle (length members.now)
        (mail_after store.now changes.old) }
    requires space { HasSpace changes.old (4 * length members.now) (length members.now) }
    ensures after { let actor = actor_of me seed routes.now in
        let old = view_after store.now changes.old in
        view_after store.now changes.new ≡ view_with_copies me old
        (copies_to_all actor network latency fields changes.old.cycle old.mail members.now) }
    ensures changes { AreOf store.now (told_by changes.new) }
    ensures cycle { changes.new.cycle ≡ changes.old.cycle }
{
    let drawn = changes.counts.drawn;
    let mut words = words_from(&mut changes.words, seed, me, routes, drawn);
    copy_to_each(
        store, changes, &mut words, me, seed, routes, network, latency, members, clones, fields,
    );
    changes.words = to_be_kept(words, seed, me, routes, changes.counts.drawn);
}

/// Keeps one copy in a buffer of the controller's own, where there is room.
pub(crate) fn copy_to_itself(
    store: &MailStore,
    changes: &mut MailChanges,
    me: u32,
    routes: &Routes,
    ordered: bool,
    buffer: u16,
    latency: u64,
    fields: Fields,
)
    requires changes { AreOf store.now (told_by changes.old) }
    requires cycle { changes.old.cycle ≤ 10 ^ 12 }
    requires latency { (1 ≤ latency) × latency ≤ 1000000 }
    requires may { MaySend me changes.old.cycle 1 (mail_after store.now changes.old) }
    requires space { HasSpace changes.old 4 1 }
    ensures after { (seed : ℕ) → let actor = actor_of me seed routes.now in
        let old = view_after store.now changes.old in
        view_after store.now changes.new ≡ view_with_copies me old
        (local_copy actor ordered old.mail buffer latency fields changes.old.cycle) }
    ensures changes { AreOf store.now (told_by changes.new) }
    ensures cycle { changes.new.cycle ≡ changes.old.cycle }
{
    let due = changes.cycle + latency;
    let arrival = local_arrival(store, changes, ordered, buffer, due);
    changes.keep_copy(me, routes, me, buffer, arrival, false, fields);
    if ordered {
        changes.keep_act(MailAct::LocalLast(buffer, arrival));
    }
}

/// So many clones of the fields. Where none is wanted, it takes no memory.
pub(crate) fn clones_of(
    alloc: Global,
    fields: &Fields,
    count: usize,
) -> Result<Vec<Fields>, NoMemory>
    ensures count { IfOk result (λ clones. length clones.items ≡ count) }
    ensures clones { IfOk result (λ clones. All (λ f. f ≡ fields.now) clones.items) }
{
    let mut clones = Vec::with_capacity(alloc, count)?;
    for _ in 0..count {
        clones.push(fields.clone()?)?;
    }
    Ok(clones)
}
