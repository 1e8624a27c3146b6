// The copies that a scan sends, kept as its changes. Where there is room for a copy, it takes no memory to keep it.
ghost use Rattle.std.specs.Prelude.{◌≡◌, ◌<◌, ◌≤◌, ◌+◌, ◌++◌, ◌*◌, ◌^◌, ℕ, OnOk};
ghost use Rattle.ctl_mail.specs.Sent.{HasSpace, lend_acts, copy_at, counts_after, told_with_act, told_with_copy};
ghost use Rattle.ctl_mail.specs.Told.{told_by};

use crate::{MailAct, MailChanges};
use ctl_face::{Parcel, Routes};
use ruby_value::{Delivery, Fields, Message, MsgNo, NoMemory, Sent};

/// How many messages a controller has sent, how many words it has drawn, and how many copies it has sent in this cycle.
#[derive(Clone, Copy)]
pub struct SendCounts {
    pub sent: u64,
    pub drawn: u64,
    pub copies: u64,
}

// The counts after one copy more.
fn counts_after(counts: SendCounts, drawn: bool) -> SendCounts
    requires sent { counts.sent + 1 < 2 ^ 64 }
    requires drawn { counts.drawn + 1 < 2 ^ 64 }
    requires copies { counts.copies + 1 < 2 ^ 64 }
    ensures { result ≡ counts_after drawn counts }
{
    SendCounts {
        sent: counts.sent + 1,
        drawn: if drawn {
            counts.drawn + 1
        } else {
            counts.drawn
        },
        copies: counts.copies + 1,
    }
}

impl MailChanges {
    // Makes room for so many more copies, or answers that there is no memory for them.
    #[inline(always)]
    pub(crate) fn reserve_copies(&mut self, copies: usize) -> Result<(), NoMemory>
        requires { copies ≤ 4096 }
        ensures same { told_by self.new ≡ told_by self.old }
        ensures ok { OnOk result (HasSpace self.new (4 * copies) copies) }
    {
        self.log.reserve(4 * copies)?;
        self.sent.reserve(copies)?;
        self.posted.reserve(copies)?;
        Ok(())
    }

    // Keeps that a slot more is in use, where the buffer at the receiver has a size and there is room.
    #[inline(always)]
    fn keep_lend(&mut self, routes: &Routes, receiver: u32, buffer: u16)
        requires { HasSpace self.old 1 0 }
        ensures after { let old = told_by self.old in
            told_by self.new ≡ record old { log = old.log ++ lend_acts routes.now receiver buffer } }
        ensures room { (acts copies : ℕ)
            → HasSpace self.old (acts + 1) copies
            → HasSpace self.new acts copies }
        ensures cycle { self.new.cycle ≡ self.old.cycle }
    {
        if routes.size_of(receiver, buffer).is_some() {
            self.log.push_reserved(MailAct::Lend(receiver, buffer));
        }
    }

    // Keeps a copy with the controller's next number, where there is room. One to the controller itself comes into its mail, and one
    // to a buffer with a size takes a slot.
    #[inline(always)]
    pub(crate) fn keep_copy(
        &mut self,
        me: u32,
        routes: &Routes,
        receiver: u32,
        buffer: u16,
        arrival: u64,
        drawn: bool,
        fields: Fields,
    )
        requires room { HasSpace self.old 3 1 }
        requires sent { (told_by self.old).counts.sent + 1 < 2 ^ 64 }
        requires drawn { (told_by self.old).counts.drawn + 1 < 2 ^ 64 }
        requires copies { (told_by self.old).counts.copies + 1 < 2 ^ 64 }
        ensures after { let old = told_by self.old in
            let copy = copy_at me old.counts.sent receiver buffer arrival fields in
            told_by self.new ≡ told_with_copy me routes.now drawn copy old }
        ensures room { (acts copies : ℕ)
            → HasSpace self.old (acts + 3) (copies + 1)
            → HasSpace self.new acts copies }
        ensures cycle { self.new.cycle ≡ self.old.cycle }
    {
        let number = MsgNo {
            sender: me,
            count: self.counts.sent,
        };
        self.counts = counts_after(self.counts, drawn);
        self.sent.push_reserved(Sent {
            number,
            receiver,
            buffer,
            arrival,
        });
        self.log.push_reserved(MailAct::Count(drawn));
        let message = Message {
            number,
            buffer,
            arrival,
            recycled: false,
            fields,
        };
        if receiver == me {
            self.log.push_reserved(MailAct::Arrive(message));
        } else {
            self.posted.push_reserved(Delivery {
                receiver,
                message: Parcel::Message(message),
            });
        }
        self.keep_lend(routes, receiver, buffer);
    }

    // Keeps an act, where there is room.
    #[inline(always)]
    pub(crate) fn keep_act(&mut self, act: MailAct)
        requires { HasSpace self.old 1 0 }
        ensures after { told_by self.new ≡ told_with_act act (told_by self.old) }
        ensures room { (acts copies : ℕ)
            → HasSpace self.old (acts + 1) copies
            → HasSpace self.new acts copies }
        ensures cycle { self.new.cycle ≡ self.old.cycle }
    {
        self.log.push_reserved(act);
    }
}
