// The acts on mail of a scan, kept as its changes.
ghost use Rattle.std.specs.Prelude.{◌≡◌, ◌≤◌, ◌^◌, ℕ, None, Ok, Some, IfSome, OnOk, OnErr, nat_abs, if◌then◌else◌};
ghost use Rattle.ctl_face.specs.Prelude.{had_slot, is_latency};
ghost use Rattle.ctl_mail.specs.Prelude.{IsMail, mail_of, MailDoes, actor_of, told_dequeued, view_again, view_popped, view_recycled, AreOf, changed_view, told_by};

use crate::{MailChanges, MailStore, peek};
use ctl_face::{Credit, Fault, Routes, Trouble};
use ruby_value::{MsgNo, NoMemory};

// Whether a message of this number had a slot in a buffer of the controller's own.
fn had_slot(me: u32, routes: &Routes, buffer: u16, number: MsgNo) -> bool
    ensures { (seed : ℕ) → result ≡ had_slot (actor_of me seed routes.now) buffer number }
{
    routes.size_of(me, buffer).is_some() && (number.sender as usize) < routes.receiving.len()
}

// Keeps that the front of a buffer, of this number, is consumed, and the credit for it.
fn keep_dequeued(
    changes: &mut MailChanges,
    me: u32,
    routes: &Routes,
    buffer: u16,
    number: MsgNo,
) -> Result<(), NoMemory>
    requires { (told_by changes.old).cycle ≤ 10 ^ 12 }
    ensures ok { (seed : ℕ) → let actor = actor_of me seed routes.now in
        OnOk result (told_by changes.new ≡ told_dequeued actor buffer number (told_by changes.old)) }
    ensures err { OnErr result (told_by changes.new ≡ told_by changes.old) }
{
    if !had_slot(me, routes, buffer, number) {
        return changes.keep_pop(buffer, number);
    }
    let credit = Credit {
        receiver: me,
        buffer,
        arrival: changes.cycle + 1,
    };
    let sender = number.sender;
    if sender == me {
        return changes.keep_own_credit(buffer, number, credit);
    }
    changes.keep_posted_credit(buffer, number, sender, credit)
}

/// Consumes the front of a buffer, for which a credit goes to its sender where it had a slot: into the mail where the controller
/// itself is the sender, and else it is posted. The fault `Front` comes exactly where there is none. After a fault or want of memory
/// the changes are as they were.
pub fn pop(
    store: &MailStore,
    changes: &mut MailChanges,
    me: u32,
    routes: &Routes,
    buffer: u16,
) -> Result<(), Trouble>
    requires mail { IsMail store.now }
    requires changes { AreOf store.now (told_by changes.old) }
    requires cycle { (told_by changes.old).cycle ≤ 10 ^ 12 }
    ensures does { (seed : ℕ) → let actor = actor_of me seed routes.now in
        let old = changed_view (mail_of store.now) (told_by changes.old) in
        let popped = view_popped actor old buffer (told_by changes.old).cycle in
        MailDoes popped result old (changed_view (mail_of store.now) (told_by changes.new)) }
    ensures changes { AreOf store.now (told_by changes.new) }
    ensures cycle { (told_by changes.new).cycle ≡ (told_by changes.old).cycle }
{
    let Some(m) = peek(store, changes, buffer) else {
        return Err(Trouble::Fault(Fault::Front));
    };
    keep_dequeued(changes, me, routes, buffer, m.number)?;
    Ok(())
}

// The latency as a number of cycles, if it is one that a message may be given.
pub(crate) fn latency_of(latency: i64) -> Option<u64>
    ensures value { result ≡ (if is_latency latency then Some (nat_abs latency) else None) }
    ensures bound { IfSome result (λ n. (1 ≤ n) × n ≤ 1000000) }
{
    if latency < 1 || latency > 1_000_000 {
        return None;
    }
    Some(latency.unsigned_abs())
}

/// Gives the front of a buffer a later arrival, which is this cycle and a latency; it counts as recycled from then on. The
/// fault `Latency` comes where that is outside 1 to 1,000,000, and else `Front` where there is no front. After a fault or want
/// of memory the changes are as they were.
pub fn recycle(
    store: &MailStore,
    changes: &mut MailChanges,
    buffer: u16,
    latency: i64,
) -> Result<(), Trouble>
    requires mail { IsMail store.now }
    requires changes { AreOf store.now (told_by changes.old) }
    requires cycle { (told_by changes.old).cycle ≤ 10 ^ 12 }
    ensures does { let old = changed_view (mail_of store.now) (told_by changes.old) in
        MailDoes (view_recycled old buffer latency (told_by changes.old).cycle) result old (changed_view (mail_of store.now) (told_by changes.new)) }
    ensures changes { AreOf store.now (told_by changes.new) }
    ensures cycle { (told_by changes.new).cycle ≡ (told_by changes.old).cycle }
{
    let Some(later) = latency_of(latency) else {
        return Err(Trouble::Fault(Fault::Latency));
    };
    let Some(m) = peek(store, changes, buffer) else {
        return Err(Trouble::Fault(Fault::Front));
    };
    let arrival = changes.cycle + later;
    changes.keep_recycle(buffer, arrival, m.number)?;
    Ok(())
}

/// Sees to it that the controller wakes in the next cycle. No fault comes. Without memory the changes are as they were.
pub fn again(store: &MailStore, changes: &mut MailChanges) -> Result<(), Trouble>
    requires mail { IsMail store.now }
    requires changes { AreOf store.now (told_by changes.old) }
    requires cycle { (told_by changes.old).cycle ≤ 10 ^ 12 }
    ensures does { let old = changed_view (mail_of store.now) (told_by changes.old) in
        MailDoes (Ok (view_again old (told_by changes.old).cycle)) result old (changed_view (mail_of store.now) (told_by changes.new)) }
    ensures changes { AreOf store.now (told_by changes.new) }
    ensures cycle { (told_by changes.new).cycle ≡ (told_by changes.old).cycle }
{
    let next = changes.cycle + 1;
    changes.keep_again(next)?;
    Ok(())
}
