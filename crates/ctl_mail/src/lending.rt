// What a scan lends of a controller's mail: where the front of a buffer is, and the message at a place.
ghost use Rattle.std.specs.Prelude.{◌≡◌, Some, IfSome, IsSome, is_some};
ghost use Rattle.std.specs.List.{find};
ghost use Rattle.std.specs.Option.{option_copied};
ghost use Rattle.ruby_value.specs.declared.message.Message.{Message};
ghost use Rattle.ruby_value.specs.Prelude.{same_number};
ghost use Rattle.ctl_face.specs.Prelude.{front, message_in};
ghost use Rattle.ctl_mail.specs.Prelude.{AreOf, IsMail, changed_mail, mail_of, queue_of, told_by};

use crate::reads::{buffer_at, first_ready};
use crate::{MailChanges, MailStore};
use ctl_face::MessageAt;
use msg_buffer::{Buffer, Message};

/// Where the front of a buffer in the changed mail is, in the mail as it is kept, or `None` exactly where there is none. It takes
/// no memory.
pub fn front_at(store: &MailStore, changes: &MailChanges, buffer: u16) -> Option<MessageAt>
    requires mail { IsMail store.now }
    requires changes { AreOf store.now (told_by changes.now) }
    ensures there { let told = told_by changes.now in
        is_some result ≡ is_some (front (changed_mail (mail_of store.now) told) buffer told.cycle) }
    ensures front { let told = told_by changes.now in
        IfSome result (λ at. message_in (mail_of store.now) at ≡ front (changed_mail (mail_of store.now) told) buffer told.cycle) }
{
    match first_ready(store, changes, buffer) {
        Some(m) => Some(MessageAt {
            buffer,
            number: m.number,
        }),
        None => None,
    }
}

// The message of a number in the buffer of a number, if there is one.
fn queued<'a>(buffers: &'a [Buffer], at: MessageAt) -> Option<&'a Message>
    ensures { option_copied result ≡ find (λ (m : Message). same_number m.number at.number) (queue_of buffers.now at.buffer) }
{
    match buffer_at(buffers, at.buffer) {
        Some(queue) => queue.find(at.number),
        None => None,
    }
}

/// The message at a place of the mail as it is kept, whether it waits or not. It takes no memory.
pub fn message(store: &MailStore, at: MessageAt) -> &Message
    requires mail { IsMail store.now }
    requires place { IsSome (message_in (mail_of store.now) at) }
    ensures { message_in (mail_of store.now) at ≡ Some result.now }
{
    if let Some(m) = queued(&store.buffers, at) {
        return m;
    }
    match store.stalls.find(at.number) {
        Some(s) => &s.message,
        None => unreachable!(),
    }
}
