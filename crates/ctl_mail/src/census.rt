// How many messages a mail has.
ghost use Rattle.std.specs.Prelude.{◌≡◌, List, count_by, not, sum_by};
ghost use Rattle.std.specs.List.{All};
ghost use Rattle.ruby_value.specs.declared.message.Message.{Message};
ghost use Rattle.ruby_value.specs.Prelude.{Roomy};
ghost use Rattle.msg_buffer.specs.Prelude.{IsQueue};
ghost use Rattle.ctl_mail.specs.Census.{capped, is_queued, is_recycled, is_stalled};
ghost use Rattle.ctl_mail.specs.MailOf.{IsMail, mail_of};

use crate::MailStore;
use msg_buffer::Buffer;

// How many messages of a buffer weren't recycled, and how many were.
fn count_buffer(queue: &Buffer) -> (u64, u64)
    ensures order { IsQueue queue.now.kept }
    ensures queued { result.0 ≡ count_by (λ (m : Message). not m.recycled) queue.now.kept }
    ensures recycled { result.1 ≡ count_by (λ (m : Message). m.recycled) queue.now.kept }
{
    let all = queue.len();
    let recycled = queue.count_recycled();
    ((all - recycled) as u64, recycled as u64)
}

// How many messages of some buffers weren't recycled, and how many were.
fn count_buffers(buffers: &[Buffer]) -> (u64, u64)
    ensures order { All (λ (q : Roomy (List Message)). IsQueue q.kept) buffers.now }
    ensures queued { result.0 ≡ capped (sum_by (λ (q : Roomy (List Message)). count_by (λ (m : Message). not m.recycled) q.kept) buffers.now) }
    ensures recycled { result.1 ≡ capped (sum_by (λ (q : Roomy (List Message)). count_by (λ (m : Message). m.recycled) q.kept) buffers.now) }
{
    let mut queued: u64 = 0;
    let mut recycled: u64 = 0;
    for queue in buffers {
        let counts = count_buffer(queue);
        queued = queued.saturating_add(counts.0);
        recycled = recycled.saturating_add(counts.1);
    }
    (queued, recycled)
}

impl MailStore {
    /// How many messages are queued, stalled and recycled: a message that waits is stalled, and of the others those are recycled
    /// that were at any time. A count beyond 64 bits is told as the greatest number of 64 bits. It takes no memory.
    pub fn census(&self) -> (u64, u64, u64)
        requires { IsMail self.now }
        ensures queued { result.0 ≡ capped (count_by is_queued (mail_of self.now).inbox) }
        ensures stalled { result.1 ≡ count_by is_stalled (mail_of self.now).inbox }
        ensures recycled { result.2 ≡ capped (count_by is_recycled (mail_of self.now).inbox) }
    {
        let stalled = self.stalls.len();
        let counts = count_buffers(&self.buffers);
        (counts.0, stalled as u64, counts.1)
    }
}
