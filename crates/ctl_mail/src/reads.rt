// What a scan reads of a controller's mail, through what it has changed.
ghost use Rattle.std.specs.Prelude.{◌≡◌, ◌↔◌, None, Some, IsTrue, is_some, slice_get};
ghost use Rattle.std.specs.Option.{ok_or, option_copied};
ghost use Rattle.ruby_value.specs.declared.fault.Fault.TheVariants as fault;
ghost use Rattle.ctl_face.specs.Prelude.{Reads, front};
ghost use Rattle.msg_buffer.specs.Prelude.{comes_before};
ghost use Rattle.ctl_mail.specs.Prelude.{IsBackAmong, IsBackNow, IsBackOf, IsEither, IsFirstWith, IsLeast, IsLeftIn, first_of_two, is_nearer, IsMail, mail_of, queue_of, AreOf, IsOut, changed_mail, told_by};

use crate::{MailChanges, MailStore};
use ctl_face::{Fault, Trouble};
use msg_buffer::{Buffer, Message};
use ruby_value::MsgNo;
use stall_map::{StallMap, Stalled};

// The first of the messages of a buffer that have arrived and aren't out.
fn first_left<'a>(queue: &'a Buffer, changes: &MailChanges) -> Option<&'a Message>
    ensures { let told = told_by changes.now in
        IsLeast (IsLeftIn queue.now.kept told.cycle (IsOut told)) (option_copied result) }
{
    let mut next = queue.front(changes.cycle);
    while let Some(m) = next {
        if !changes.is_out(m.number) {
            return Some(m);
        }
        next = queue.next_after(changes.cycle, m.arrival, m.number);
    }
    None
}

// The buffer of this number, if there is one.
pub(crate) fn buffer_at(buffers: &[Buffer], buffer: u16) -> Option<&Buffer>
    ensures { option_copied result ≡ slice_get buffers.now buffer }
{
    buffers.get(usize::from(buffer))
}

// The first of the messages of the buffer of this number that have arrived and aren't out.
fn first_of<'a>(buffers: &'a [Buffer], changes: &MailChanges, buffer: u16) -> Option<&'a Message>
    ensures { let told = told_by changes.now in
        IsLeast (IsLeftIn (queue_of buffers.now buffer) told.cycle (IsOut told)) (option_copied result) }
{
    match buffer_at(buffers, buffer) {
        Some(queue) => first_left(queue, changes),
        None => None,
    }
}

// Whether a message comes before another.
fn comes_before(y: &Message, x: &Message) -> bool
    ensures { result ≡ comes_before y.now x.now }
{
    y.arrival < x.arrival || (y.arrival == x.arrival && y.number.is_before(x.number))
}

// The first of two messages.
fn first_of_two<'a>(a: Option<&'a Message>, b: Option<&'a Message>) -> Option<&'a Message>
    ensures { option_copied result ≡ first_of_two (option_copied a.entry) (option_copied b.entry) }
{
    match (a, b) {
        (Some(x), Some(y)) => { if comes_before(y, x) { b } else { a } }
        (Some(_), None) => a,
        (None, _) => b,
    }
}

// Whether what was stalled before the scan is ready in the buffer now.
fn is_back(changes: &MailChanges, s: &Stalled, buffer: u16) -> bool
    ensures { IsTrue result ↔ IsBackNow (told_by changes.now) buffer s.now }
{
    let m = &s.message;
    m.buffer == buffer && m.arrival <= changes.cycle && changes.is_free(m.number, Some(s.line))
}

// Whether a message comes before another one, if there is one.
fn is_nearer(m: &Message, first: Option<&Message>) -> bool
    ensures { result ≡ is_nearer m.now (option_copied first.entry) }
{
    match first {
        Some(x) => comes_before(m, x),
        None => true,
    }
}

// The first of a message, if there is one, and the one of a number of those that were stalled before the scan, if that is ready in the
// buffer now. What doesn't come first isn't looked at further.
fn with_back<'a>(
    first: Option<&'a Message>,
    stalls: &'a StallMap,
    changes: &MailChanges,
    buffer: u16,
    number: MsgNo,
) -> Option<&'a Message>
    ensures { let back = IsBackOf stalls.now.kept (told_by changes.now) buffer number in
        IsFirstWith back (option_copied first.entry) (option_copied result) }
{
    // Their numbers ascend, so that there is one of this number alone.
    let _waiting = stalls.len();
    let Some(s) = stalls.find(number) else {
        return first;
    };
    if !is_nearer(&s.message, first) {
        return first;
    }
    if !is_back(changes, s, buffer) {
        return first;
    }
    Some(&s.message)
}

// The first of the messages of some numbers that were stalled before the scan and are ready in the buffer now.
fn first_among<'a>(
    numbers: &[MsgNo],
    stalls: &'a StallMap,
    changes: &MailChanges,
    buffer: u16,
) -> Option<&'a Message>
    ensures { let told = told_by changes.now in
        IsLeast (IsBackAmong numbers.now stalls.now.kept told buffer) (option_copied result) }
{
    let mut first = None;
    for number in numbers {
        first = with_back(first, stalls, changes, buffer, *number);
    }
    first
}

// The first of the messages that are ready in the buffer now.
pub(crate) fn first_ready<'a>(
    store: &'a MailStore,
    changes: &MailChanges,
    buffer: u16,
) -> Option<&'a Message>
    requires { AreOf store.now (told_by changes.now) }
    ensures { IsLeast (IsEither store.now.buffers.items store.now.stalls.kept (told_by changes.now) buffer)
        (option_copied result) }
{
    let queued = first_of(&store.buffers, changes, buffer);
    if changes.woken.is_empty() {
        return queued;
    }
    let back = first_among(&changes.woken, &store.stalls, changes, buffer);
    first_of_two(queued, back)
}

/// The front of a buffer in the changed mail, lent, or `None` exactly where there is none. It takes no memory.
pub fn peek<'a>(store: &'a MailStore, changes: &MailChanges, buffer: u16) -> Option<&'a Message>
    requires mail { IsMail store.now }
    requires changes { AreOf store.now (told_by changes.now) }
    ensures { let told = told_by changes.now in
        option_copied result ≡ front (changed_mail (mail_of store.now) told) buffer told.cycle }
{
    first_ready(store, changes, buffer)
}

/// Whether a buffer has a front in the changed mail.
pub fn ready(store: &MailStore, changes: &MailChanges, buffer: u16) -> bool
    requires mail { IsMail store.now }
    requires changes { AreOf store.now (told_by changes.now) }
    ensures { let told = told_by changes.now in
        result ≡ is_some (front (changed_mail (mail_of store.now) told) buffer told.cycle) }
{
    peek(store, changes, buffer).is_some()
}

/// The front of a buffer in the changed mail. The fault `Front` comes exactly where there is none.
pub fn front(store: &MailStore, changes: &MailChanges, buffer: u16) -> Result<Message, Trouble>
    requires mail { IsMail store.now }
    requires changes { AreOf store.now (told_by changes.now) }
    ensures { let told = told_by changes.now in
        Reads (ok_or (front (changed_mail (mail_of store.now) told) buffer told.cycle) fault.Front) result }
{
    let Some(m) = peek(store, changes, buffer) else {
        return Err(Trouble::Fault(Fault::Front));
    };
    match m.clone() {
        Ok(cloned) => Ok(cloned),
        Err(_) => Err(Trouble::NoMemory),
    }
}
