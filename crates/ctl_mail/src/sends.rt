// The sends of a scan, kept as its changes.
ghost use Rattle.std.specs.Prelude.{◌≡◌, ◌≤◌, ◌+◌, ◌^◌, ℕ, [], IfOk, true, unwrap_or};
ghost use Rattle.std.specs.List.{fold, list_all};
ghost use Rattle.ruby_value.specs.declared.setup.BufferPlace.TheVariants as place;
ghost use Rattle.ruby_value.specs.Prelude.{with_member};
ghost use Rattle.ctl_face.specs.Prelude.{FitsMail, AreWithinLimits, network_copies, receivers_of, sending_on};
ghost use Rattle.ctl_mail.specs.Prelude.{MailDoes, HaveNext, MaySend, actor_of, is_routed, mail_after, view_after, view_after_sending, view_sent, AreOf, told_by};

use crate::copies::{clones_of, copy_to_all, copy_to_itself};
use crate::scan::latency_of;
use crate::{MailChanges, MailStore};
use ctl_face::{Fault, Routes, Trouble};
use ruby_value::{BufferPlace, Fields, MachineSetup, NetDest, NoMemory, Value};

// Whether each of the receivers has a buffer that takes the network's messages. A number that is no controller's has none.
fn reaches_all(routes: &Routes, network: u16, members: &NetDest) -> bool
    requires { AreWithinLimits routes.now }
    ensures value { result ≡ list_all (is_routed routes.now network) members.now }
    ensures next { result ≡ true → HaveNext members.now }
{
    let controllers = routes.receiving.len();
    let _count = members.count();
    if members.least_from(controllers as u32).is_some() {
        return false;
    }
    let mut from = 0;
    while let Some(receiver) = members.least_from(from) {
        if routes.receiving_buffer(receiver, network).is_none() {
            return false;
        }
        from = receiver + 1;
    }
    true
}

// The members of a set: each once, in increasing order.
fn named(members: &NetDest) -> Result<Option<NetDest>, NoMemory>
    ensures { IfOk result (λ named. unwrap_or named [] ≡ fold with_member [] members.now) }
{
    let _count = members.count();
    Ok(Some(members.clone()?))
}

// The controllers that the fields name, if there is a field for them.
fn receivers(fields: &Fields, destination: Option<u16>) -> Result<Option<NetDest>, NoMemory>
    ensures { IfOk result (λ members. unwrap_or members [] ≡ receivers_of destination fields.now) }
{
    let Some(place) = destination else {
        return Ok(None);
    };
    match fields.get(place) {
        Some(Value::Dest(members)) => named(members),
        _ => Ok(None),
    }
}

// Sends a copy to each of the receivers on a network.
fn send_to_all(
    store: &MailStore,
    changes: &mut MailChanges,
    me: u32,
    seed: u64,
    routes: &Routes,
    network: u16,
    latency: u64,
    members: &NetDest,
    fields: Fields,
) -> Result<(), Trouble>
    requires changes { AreOf store.now (told_by changes.old) }
    requires limits { AreWithinLimits routes.now }
    requires cycle { changes.old.cycle ≤ 10 ^ 12 }
    requires latency { (1 ≤ latency) × latency ≤ 1000000 }
    requires may { MaySend me changes.old.cycle 0 (mail_after store.now changes.old) }
    ensures does { let actor = actor_of me seed routes.now in
        let old = view_after store.now changes.old in
        let now = changes.old.cycle in
        let sent = network_copies actor network members.now old.mail latency fields now in
        MailDoes (view_after_sending me old sent) result old (view_after store.now changes.new) }
    ensures changes { AreOf store.now (told_by changes.new) }
    ensures cycle { changes.new.cycle ≡ changes.old.cycle }
{
    if !reaches_all(routes, network, members) {
        return Err(Trouble::Fault(Fault::Route));
    }
    let count = members.count();
    if count > 4096 - changes.counts.copies {
        return Err(Trouble::Fault(Fault::Copies));
    }
    if count == 0 {
        return Ok(());
    }
    changes.reserve_copies(count as usize)?;
    let clones = clones_of(changes.alloc, &fields, count as usize - 1)?;
    copy_to_all(
        store, changes, me, seed, routes, network, latency, members, clones, fields,
    );
    Ok(())
}

// Sends a copy into a buffer of the controller's own.
fn send_to_itself(
    store: &MailStore,
    changes: &mut MailChanges,
    me: u32,
    routes: &Routes,
    ordered: bool,
    buffer: u16,
    latency: u64,
    fields: Fields,
) -> Result<(), Trouble>
    requires changes { AreOf store.now (told_by changes.old) }
    requires cycle { changes.old.cycle ≤ 10 ^ 12 }
    requires latency { (1 ≤ latency) × latency ≤ 1000000 }
    requires may { MaySend me changes.old.cycle 0 (mail_after store.now changes.old) }
    ensures does { (seed : ℕ) → let actor = actor_of me seed routes.now in
        let old = view_after store.now changes.old in
        let now = changes.old.cycle in
        let sent = sending_on place.Local ordered actor old.mail buffer latency fields now in
        MailDoes (view_after_sending me old sent) result old (view_after store.now changes.new) }
    ensures changes { AreOf store.now (told_by changes.new) }
    ensures cycle { changes.new.cycle ≡ changes.old.cycle }
{
    if changes.counts.copies == 4096 {
        return Err(Trouble::Fault(Fault::Copies));
    }
    changes.reserve_copies(1)?;
    copy_to_itself(store, changes, me, routes, ordered, buffer, latency, fields);
    Ok(())
}

/// Sends a message: one copy into a buffer of the controller's own, or on a buffer to a network one copy to each receiver that
/// the message names. The fault `Latency` comes where that is outside 1 to 1,000,000; else `Route` where a receiver has no
/// buffer for it; else `Copies` where the controller would send more than 4,096 copies in this cycle. After a fault or want of
/// memory the changes are as they were. One copy takes the fields as they are, each other one a clone.
pub fn send(
    store: &MailStore,
    changes: &mut MailChanges,
    machine: &MachineSetup,
    me: u32,
    seed: u64,
    routes: &Routes,
    buffer: u16,
    latency: i64,
    fields: Fields,
) -> Result<(), Trouble>
    requires changes { AreOf store.now (told_by changes.old) }
    requires fits { FitsMail machine.now.buffers me (mail_after store.now changes.old)
        changes.old.cycle }
    requires limits { AreWithinLimits routes.now }
    requires cycle { changes.old.cycle ≤ 10 ^ 12 }
    ensures does { let actor = actor_of me seed routes.now in
        let old = view_after store.now changes.old in
        let sent = view_sent old machine.now actor buffer latency fields changes.old.cycle in
        MailDoes sent result old (view_after store.now changes.new) }
    ensures changes { AreOf store.now (told_by changes.new) }
    ensures cycle { changes.new.cycle ≡ changes.old.cycle }
{
    let Some(later) = latency_of(latency) else {
        return Err(Trouble::Fault(Fault::Latency));
    };
    let Some(setup) = machine.buffers.get(usize::from(buffer)) else {
        return Ok(());
    };
    match setup.place {
        BufferPlace::Local => {
            send_to_itself(
                store,
                changes,
                me,
                routes,
                setup.ordered,
                buffer,
                later,
                fields,
            )
        }
        BufferPlace::To {
            network,
            destination,
        } => match receivers(&fields, destination)? {
            Some(members) => send_to_all(
                store, changes, me, seed, routes, network, later, &members, fields,
            ),
            None => Ok(()),
        },
        BufferPlace::From { .. } => Ok(()),
    }
}
