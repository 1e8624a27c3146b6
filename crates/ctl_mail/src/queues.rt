// The buffers of a controller, each by its number.
ghost use Rattle.std.specs.Prelude.{◌≡◌, ◌<◌, ◌≤◌, ℕ, [], IfOk, IfSome, IfNone, OnOk, length};
ghost use Rattle.msg_buffer.specs.Prelude.{IsNew, front, with_message, without_message};
ghost use Rattle.ctl_mail.specs.Prelude.{LosesNoRoom, LosesOneRoom, Replaces, queue_of, room_of};

use msg_buffer::{Buffer, Message};
use ruby_value::NoMemory;
use std::alloc::Global;

/// Takes the front of a buffer out, if it has one.
pub(crate) fn pop(buffers: &mut Vec<Buffer>, buffer: u16, now: u64) -> Option<Message>
    ensures value { result ≡ front (queue_of buffers.old.items buffer) now }
    ensures taken { IfSome result (λ m. Replaces buffers.old.items buffers.new.items buffer
        (without_message (queue_of buffers.old.items buffer) m.number)) }
    ensures place { IfSome result (λ m. 0 < room_of buffers.new.items buffer) }
    ensures none { IfNone result (Replaces buffers.old.items buffers.new.items buffer
        (queue_of buffers.old.items buffer)) }
    ensures room { LosesNoRoom buffers.old.items buffers.new.items }
    ensures count { length buffers.new.items ≡ length buffers.old.items }
{
    match buffers.get_mut(usize::from(buffer)) {
        Some(queue) => queue.pop(now).ok(),
        None => None,
    }
}

/// Puts a message with a new number into its buffer, where there is room. It takes no memory.
pub(crate) fn put(buffers: &mut Vec<Buffer>, m: Message)
    requires room { 0 < room_of buffers.old.items m.buffer }
    requires new { IsNew (queue_of buffers.old.items m.buffer) m.number }
    ensures after { Replaces buffers.old.items buffers.new.items m.buffer
        (with_message (queue_of buffers.old.items m.buffer) m) }
    ensures room { LosesOneRoom buffers.old.items buffers.new.items }
    ensures count { length buffers.new.items ≡ length buffers.old.items }
{
    match buffers.get_mut(usize::from(m.buffer)) {
        Some(queue) => queue.put_reserved(m),
        None => {}
    }
}

/// Makes room for so many more messages in each buffer, or answers that there is no memory for them.
pub(crate) fn reserve(buffers: &mut Vec<Buffer>, more: usize) -> Result<(), NoMemory>
    ensures same { (buffer : ℕ) → queue_of buffers.new.items buffer ≡ queue_of buffers.old.items buffer }
    ensures ok { OnOk result ((buffer : ℕ) → buffer < length buffers.old.items → more ≤ room_of buffers.new.items buffer) }
    ensures room { LosesNoRoom buffers.old.items buffers.new.items }
    ensures count { length buffers.new.items ≡ length buffers.old.items }
{
    for i in 0..buffers.len() {
        buffers[i].reserve(more)?;
    }
    Ok(())
}

/// So many empty buffers.
pub(crate) fn empty_buffers(alloc: Global, count: usize) -> Result<Vec<Buffer>, NoMemory>
    ensures empty { IfOk result (λ buffers. (buffer : ℕ) → queue_of buffers.items buffer ≡ []) }
    ensures count { IfOk result (λ buffers. length buffers.items ≡ count) }
{
    let mut buffers = Vec::new(alloc);
    for _ in 0..count {
        buffers.push(Buffer::new(alloc))?;
    }
    Ok(buffers)
}

/// Makes room for so many more messages in one buffer, or answers that there is no memory for them, or not this buffer.
pub(crate) fn reserve_at(
    buffers: &mut Vec<Buffer>,
    buffer: u16,
    more: usize,
) -> Result<(), NoMemory>
    ensures same { (other : ℕ) → queue_of buffers.new.items other ≡ queue_of buffers.old.items other }
    ensures ok { OnOk result (more ≤ room_of buffers.new.items buffer) }
    ensures room { LosesNoRoom buffers.old.items buffers.new.items }
    ensures count { length buffers.new.items ≡ length buffers.old.items }
{
    match buffers.get_mut(usize::from(buffer)) {
        Some(queue) => queue.reserve(more),
        None => Err(NoMemory),
    }
}
