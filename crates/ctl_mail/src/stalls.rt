// The front of a buffer is stalled: kept as a change, and made in the mail.
ghost use Rattle.std.specs.Prelude.{◌≡◌, ◌<◌, ◌≤◌, ◌+◌, ◌++◌, [], ◌∷◌, ℕ, Some, OnOk, OnErr, length};
ghost use Rattle.ctl_mail.specs.declared.act.MailAct.TheVariants as act;
ghost use Rattle.ctl_mail.specs.MailOf.{IsMail, buffer_count, mail_of};
ghost use Rattle.ctl_mail.specs.MailView.{MailDoes, view_stalled};
ghost use Rattle.ctl_mail.specs.Moves.{with_move};
ghost use Rattle.ctl_mail.specs.Queues.{room_of};
ghost use Rattle.ctl_mail.specs.Room.{LosesPlaces, mark_room};
ghost use Rattle.ctl_mail.specs.Told.{AreOf, after_act, changed_view, told_by};

use crate::{MailAct, MailChanges, MailStore, make, peek};
use ctl_face::{Fault, Trouble};
use ruby_value::{MsgNo, NoMemory};

/// Stalls the front of a buffer under a line. The fault `Front` comes exactly where there is none. After a fault or want of
/// memory the changes are as they were.
pub fn stall(
    store: &MailStore,
    changes: &mut MailChanges,
    buffer: u16,
    line: u64,
) -> Result<(), Trouble>
    requires mail { IsMail store.now }
    requires changes { AreOf store.now (told_by changes.old) }
    ensures does { let old = changed_view (mail_of store.now) (told_by changes.old) in
        MailDoes (view_stalled old buffer line (told_by changes.old).cycle) result old (changed_view (mail_of store.now) (told_by changes.new)) }
    ensures changes { AreOf store.now (told_by changes.new) }
    ensures cycle { (told_by changes.new).cycle ≡ (told_by changes.old).cycle }
{
    let Some(m) = peek(store, changes, buffer) else {
        return Err(Trouble::Fault(Fault::Front));
    };
    changes.keep_stall(buffer, line, m.number)?;
    Ok(())
}

impl MailChanges {
    // Keeps that the front of a buffer, of this number, waits under a line.
    fn keep_stall(&mut self, buffer: u16, line: u64, number: MsgNo) -> Result<(), NoMemory>
        ensures ok { OnOk result (let old = told_by self.old in told_by self.new ≡ record old {
          log = old.log ++ act.Stall buffer line ∷ [];
          acts = record old.acts { stalled = old.acts.stalled ++ number ∷ [] };
          moves = with_move old.moves number (Some line);
        }) }
        ensures err { OnErr result (told_by self.new ≡ told_by self.old) }
    {
        self.stalled.reserve(1)?;
        self.moves.reserve(1)?;
        self.log.push(MailAct::Stall(buffer, line))?;
        self.stalled.push_reserved(number);
        self.moves.put_reserved(number, Some(line));
        Ok(())
    }
}

/// The mail in which the front of a buffer, if it has one, waits under a line. It takes no memory.
pub(crate) fn make_stall(store: &mut MailStore, now: u64, buffer: u16, line: u64)
    requires mail { IsMail store.old }
    requires room { 0 < store.old.stalls.room }
    ensures after { mail_of store.new ≡ after_act now (mail_of store.old) (act.Stall buffer line) }
    ensures mail { IsMail store.new }
    ensures buffers { buffer_count store.new ≡ buffer_count store.old }
    ensures room { mark_room store.old ≤ mark_room store.new }
    ensures waits { store.old.stalls.room ≤ store.new.stalls.room + 1 }
    ensures places { LosesPlaces store.old store.new 1 }
{
    let Some(m) = make::take(store, now, buffer) else {
        return;
    };
    store.stalls.put_reserved(line, m);
}
