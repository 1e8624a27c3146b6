ghost use Rattle.std.specs.Prelude.{◌≡◌, ◌++◌, [], ◌∷◌, ◌↔◌, true, OnOk, OnErr, Contains, IsTrue};
ghost use Rattle.ruby_value.specs.declared.message.MsgNo.{MsgNo};
ghost use Rattle.ctl_face.specs.Prelude.{no_acts};
ghost use Rattle.ctl_mail.specs.Dequeued.{credit_to};
ghost use Rattle.ctl_mail.specs.declared.act.MailAct.TheVariants as act;
ghost use Rattle.ctl_mail.specs.MailOf.{IsMail, mail_of};
ghost use Rattle.ctl_mail.specs.Told.{AreOf, IsGone, counts_in, told_by};

use crate::MailStore;
use crate::act::MailAct;
use crate::kept_words::KeptWords;
use crate::log::ActLog;
use crate::moved::Moves;
use crate::sent::SendCounts;
use ctl_face::{Credit, Parcel};
use ruby_value::{Delivery, MsgNo, NoMemory, Sent, Seq};
use std::alloc::Global;
use std::mem;

/// What a scan changes in the mail of a controller, kept beside the mail until it is made or dropped. Beside it the words of the
/// controller's stream are kept as its last send has left them.
#[derive(Drop)]
pub struct MailChanges {
    pub(crate) cycle: u64,
    pub(crate) counts: SendCounts,
    pub(crate) log: ActLog,
    pub(crate) consumed: Vec<MsgNo>,
    pub(crate) stalled: Vec<MsgNo>,
    pub(crate) woken: Vec<MsgNo>,
    pub(crate) recycled: Vec<MsgNo>,
    pub(crate) sent: Vec<Sent>,
    pub(crate) posted: Vec<Delivery<Parcel>>,
    pub(crate) again: bool,
    pub(crate) moves: Moves,
    pub(crate) words: Option<KeptWords>,
    pub(crate) alloc: Global,
}

impl MailChanges {
    /// Forgets what the changes are, so that they are none of this mail yet, of a scan in this cycle. It takes no memory, and the
    /// room that they have stays.
    pub fn begin(&mut self, store: &MailStore, cycle: u64)
        requires { IsMail store.now }
        ensures none { let counts = counts_in (mail_of store.now) in
            told_by self.new
            ≡ record { cycle = cycle; counts = counts; log = []; acts = no_acts; moves = [] } }
        ensures changes { AreOf store.now (told_by self.new) }
    {
        let counts = SendCounts {
            sent: store.sent,
            drawn: store.drawn,
            copies: store.copies,
        };
        self.clear(cycle, counts);
    }

    /// The cycle of the scan.
    pub fn cycle(&self) -> u64
        ensures { result ≡ (told_by self.now).cycle }
    {
        self.cycle
    }

    /// The messages that the scan consumed, in the order of its acts, as those of the next lists.
    pub fn consumed(&self) -> &[MsgNo]
        ensures { result.now ≡ (told_by self.now).acts.consumed }
    {
        &self.consumed
    }

    /// The messages that it stalled.
    pub fn stalled_numbers(&self) -> &[MsgNo]
        ensures { result.now ≡ (told_by self.now).acts.stalled }
    {
        &self.stalled
    }

    /// The messages that it woke.
    pub fn woken(&self) -> &[MsgNo]
        ensures { result.now ≡ (told_by self.now).acts.woken }
    {
        &self.woken
    }

    /// The messages that it recycled.
    pub fn recycled(&self) -> &[MsgNo]
        ensures { result.now ≡ (told_by self.now).acts.recycled }
    {
        &self.recycled
    }

    /// The copies that it sent.
    pub fn sent(&self) -> &[Sent]
        ensures { result.now ≡ (told_by self.now).acts.sent }
    {
        &self.sent
    }

    /// What it sent to other controllers, copies and credits, each with its receiver, in the order in which it was sent.
    pub fn posted(&self) -> &[Delivery<Parcel>]
        ensures { result.now ≡ (told_by self.now).acts.posted }
    {
        &self.posted
    }

    /// Moves out what is for other controllers, copies and credits, each with its receiver, in the order in which it was sent.
    pub fn take_posted(&mut self) -> Seq<Delivery<Parcel>>
        ensures posted { result ≡ (told_by self.old).acts.posted }
        ensures left { let old = told_by self.old in
            told_by self.new ≡ record old { acts = record old.acts { posted = [] } } }
    {
        // The room of a list stays where nothing was posted.
        if self.posted.is_empty() {
            return Seq::new(self.alloc);
        }
        Seq::of(mem::replace(&mut self.posted, Vec::new(self.alloc)))
    }

    // Drops all changes, and is for a scan in this cycle. The room for them stays.
    fn clear(&mut self, cycle: u64, counts: SendCounts)
        ensures { told_by self.new
            ≡ record { cycle = cycle; counts = counts; log = []; acts = no_acts; moves = [] } }
    {
        self.cycle = cycle;
        self.counts = counts;
        self.log.clear();
        self.consumed.clear();
        self.stalled.clear();
        self.woken.clear();
        self.recycled.clear();
        self.sent.clear();
        self.posted.clear();
        self.again = false;
        self.moves.clear();
    }

    /// Changes of no mail, which `begin` makes those of one. It takes no memory.
    pub fn new(alloc: Global) -> MailChanges {
        let counts = SendCounts {
            sent: 0,
            drawn: 0,
            copies: 0,
        };
        MailChanges {
            cycle: 0,
            counts,
            log: ActLog::new(alloc),
            consumed: Vec::new(alloc),
            stalled: Vec::new(alloc),
            woken: Vec::new(alloc),
            recycled: Vec::new(alloc),
            sent: Vec::new(alloc),
            posted: Vec::new(alloc),
            again: false,
            moves: Moves::new(alloc),
            words: None,
            alloc,
        }
    }

    /// Whether the scan was told to wake the controller again.
    pub fn stalled(&self) -> bool
        ensures { result ≡ (told_by self.now).acts.again }
    {
        self.again
    }

    // Whether the message of this number is consumed, or arrives again in a later cycle, since the scan began.
    pub(crate) fn is_gone(&self, number: MsgNo) -> bool
        ensures { IsTrue result ↔ IsGone (told_by self.now).acts number }
    {
        contains(&self.consumed, number) || contains(&self.recycled, number)
    }

    // Keeps that the front of a buffer, of this number, is consumed.
    pub(crate) fn keep_pop(&mut self, buffer: u16, number: MsgNo) -> Result<(), NoMemory>
        ensures ok { OnOk result (let old = told_by self.old in told_by self.new ≡ record old {
          log = old.log ++ act.Pop buffer ∷ [];
          acts = record old.acts { consumed = old.acts.consumed ++ number ∷ [] };
        }) }
        ensures err { OnErr result (told_by self.new ≡ told_by self.old) }
    {
        self.consumed.reserve(1)?;
        self.log.push(MailAct::Pop(buffer))?;
        self.consumed.push_reserved(number);
        Ok(())
    }

    // Keeps that the front of a buffer, of this number, is consumed, for which the controller itself gets a credit.
    pub(crate) fn keep_own_credit(
        &mut self,
        buffer: u16,
        number: MsgNo,
        credit: Credit,
    ) -> Result<(), NoMemory>
        ensures ok { OnOk result (let old = told_by self.old in told_by self.new ≡ record old {
          log = old.log ++ act.Pop buffer ∷ act.Credit credit ∷ [];
          acts = record old.acts { consumed = old.acts.consumed ++ number ∷ [] };
        }) }
        ensures err { OnErr result (told_by self.new ≡ told_by self.old) }
    {
        self.consumed.reserve(1)?;
        self.log.reserve(2)?;
        self.log.push_reserved(MailAct::Pop(buffer));
        self.log.push_reserved(MailAct::Credit(credit));
        self.consumed.push_reserved(number);
        Ok(())
    }

    // Keeps that the front of a buffer, of this number, is consumed, for which another controller gets a credit.
    pub(crate) fn keep_posted_credit(
        &mut self,
        buffer: u16,
        number: MsgNo,
        receiver: u32,
        credit: Credit,
    ) -> Result<(), NoMemory>
        ensures ok { OnOk result (let old = told_by self.old in told_by self.new ≡ record old {
          log = old.log ++ act.Pop buffer ∷ [];
          acts = record old.acts {
            consumed = old.acts.consumed ++ number ∷ [];
            posted = old.acts.posted ++ credit_to receiver credit ∷ [];
          };
        }) }
        ensures err { OnErr result (told_by self.new ≡ told_by self.old) }
    {
        self.consumed.reserve(1)?;
        self.posted.reserve(1)?;
        self.log.push(MailAct::Pop(buffer))?;
        self.consumed.push_reserved(number);
        self.posted.push_reserved(Delivery {
            receiver,
            message: Parcel::Credit(credit),
        });
        Ok(())
    }

    // Keeps that the front of a buffer, of this number, arrives again.
    pub(crate) fn keep_recycle(
        &mut self,
        buffer: u16,
        arrival: u64,
        number: MsgNo,
    ) -> Result<(), NoMemory>
        ensures ok { OnOk result (let old = told_by self.old in told_by self.new ≡ record old {
          log = old.log ++ act.Recycle buffer arrival ∷ [];
          acts = record old.acts { recycled = old.acts.recycled ++ number ∷ [] };
        }) }
        ensures err { OnErr result (told_by self.new ≡ told_by self.old) }
    {
        self.recycled.reserve(1)?;
        self.log.push(MailAct::Recycle(buffer, arrival))?;
        self.recycled.push_reserved(number);
        Ok(())
    }

    // Keeps that the controller must wake in this cycle, and that it was told to wake again.
    pub(crate) fn keep_again(&mut self, cycle: u64) -> Result<(), NoMemory>
        ensures ok { OnOk result (let old = told_by self.old in told_by self.new ≡ record old {
          log = old.log ++ act.Mark cycle ∷ [];
          acts = record old.acts { again = true };
        }) }
        ensures err { OnErr result (told_by self.new ≡ told_by self.old) }
    {
        self.log.push(MailAct::Mark(cycle))?;
        self.again = true;
        Ok(())
    }
}

fn contains(numbers: &[MsgNo], number: MsgNo) -> bool
    ensures { IsTrue result ↔ Contains numbers.now number }
{
    numbers.iter().any(|n| *n == number)
}
