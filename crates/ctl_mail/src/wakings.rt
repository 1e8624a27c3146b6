// Messages that wait are woken in the mail as it is kept. It takes no memory.
ghost use Rattle.std.specs.Prelude.{◌≡◌, ◌≢◌, ◌⊎◌, ◌↔◌, ◌≤◌, ◌+◌, [], ℕ, IfSome, IfNone, Contains, length, is_some};
ghost use Rattle.std.specs.List.{All, AllPairs};
ghost use Rattle.ruby_value.specs.declared.message.Message.{Message};
ghost use Rattle.stall_map.specs.Prelude.{without_line};
ghost use Rattle.msg_buffer.specs.Prelude.{IsNew};
ghost use Rattle.ctl_face.specs.Prelude.{InboxMessage, is_under, woken_mail};
ghost use Rattle.ctl_mail.specs.Prelude.{IsMail, buffer_count, mail_of, queue_of, room_of, HasPlacesToWake, LosesPlaces, mark_room};

use crate::{MailStore, queues};
use msg_buffer::{Buffer, Message};
use stall_map::StallMap;

// Puts messages with new numbers back into their buffers.
fn put_back(buffers: &mut Vec<Buffer>, mut woken: Vec<Message>)
    requires apart { AllPairs (λ (a b : Message). a.number ≢ b.number) woken.items }
    requires new { All (λ (m : Message). IsNew (queue_of buffers.old.items m.buffer) m.number) woken.items }
    requires room { All (λ (m : Message). length woken.items ≤ room_of buffers.old.items m.buffer) woken.items }
    ensures queues { (buffer : ℕ) (m : Message)
        → Contains (queue_of buffers.new.items buffer) m
        ↔ (Contains (queue_of buffers.old.items buffer) m ⊎ (Contains woken.items m × (m.buffer ≡ buffer))) }
    ensures count { length buffers.new.items ≡ length buffers.old.items }
    ensures room { (buffer : ℕ)
        → room_of buffers.old.items buffer ≤ room_of buffers.new.items buffer + length woken.items }
{
    while let Some(m) = woken.pop() {
        queues::put(buffers, m);
    }
}

/// The mail in which the messages under a line wait no longer.
pub(crate) fn make_wake(store: &mut MailStore, line: u64)
    requires mail { IsMail store.old }
    requires places { HasPlacesToWake store.old 0 }
    ensures after { mail_of store.new ≡ woken_mail (mail_of store.old) (λ (o : InboxMessage). is_under line o.waiting) }
    ensures mail { IsMail store.new }
    ensures buffers { buffer_count store.new ≡ buffer_count store.old }
    ensures stalled { store.new.stalls.kept ≡ without_line store.old.stalls.kept line }
    ensures room { mark_room store.old ≤ mark_room store.new }
    ensures waits { store.old.stalls.room ≤ store.new.stalls.room }
    ensures places { LosesPlaces store.old store.new 0 }
{
    // Their numbers ascend, so that each comes back once.
    let _waiting = store.stalls.len();
    let woken = store.stalls.wake(line);
    put_back(&mut store.buffers, woken.into_vec());
}

// The line of the first message that waits, or `None` exactly where none does.
fn first_line(stalls: &StallMap) -> Option<u64>
    ensures some { IfSome result (λ line. (m : Message) × Contains stalls.now.kept (record { line = line; message = m })) }
    ensures none { IfNone result (stalls.now.kept ≡ []) }
{
    match stalls.next_after(None) {
        Some(next) => Some(next.0),
        None => None,
    }
}

/// The mail in which no message waits any longer.
pub(crate) fn make_wake_all(store: &mut MailStore)
    requires mail { IsMail store.old }
    requires places { HasPlacesToWake store.old 0 }
    ensures after { mail_of store.new ≡ woken_mail (mail_of store.old) (λ (o : InboxMessage). is_some o.waiting) }
    ensures mail { IsMail store.new }
    ensures buffers { buffer_count store.new ≡ buffer_count store.old }
    ensures room { mark_room store.old ≤ mark_room store.new }
    ensures waits { store.old.stalls.room ≤ store.new.stalls.room }
    ensures places { LosesPlaces store.old store.new 0 }
{
    while let Some(line) = first_line(&store.stalls) {
        make_wake(store, line);
    }
}
