ghost use Rattle.std.specs.Prelude.{◌≡◌, []};
ghost use Rattle.ruby_value.specs.Prelude.{Requests};
ghost use Rattle.ctl_face.specs.Prelude.{no_acts};
ghost use Rattle.ctl_mail.specs.MailOf.{IsMail, mail_of};
ghost use Rattle.ctl_mail.specs.Told as mail;
ghost use Rattle.ctl_tables.specs.Stored as tables;
ghost use Rattle.sequencer.specs.Prelude.{FitCallbacks, after_callbacks};

use crate::parts::Parts;
use ctl_mail::MailChanges;
use ctl_tables::TableChanges;
use sequencer::Callbacks;
use std::alloc::Global;

/// What a scan changes: in tables and states, in the mail, and in the requests of the sequencer.
#[derive(Drop)]
pub struct Changes {
    pub(crate) tables: TableChanges,
    pub(crate) mail: MailChanges,
    pub(crate) calls: Callbacks,
    pub(crate) alloc: Global,
}

impl Changes {
    /// Forgets what the changes are, so that they are none of these parts yet, of a scan in this cycle. It takes no memory, and the
    /// room that they have stays.
    pub(crate) fn begin(&mut self, parts: &Parts, now: u64)
        requires { IsMail parts.now.mail }
        ensures replays { tables.AreOf self.new.tables parts.now.tables }
        ensures tables { tables.tables_now parts.now.tables self.new.tables ≡ tables.tables_of parts.now.tables }
        ensures states { tables.states_now parts.now.tables self.new.tables ≡ tables.states_of parts.now.tables }
        ensures told { let counts = mail.counts_in (mail_of parts.now.mail) in
            mail.told_by self.new.mail
            ≡ record { cycle = now; counts = counts; log = []; acts = no_acts; moves = [] } }
        ensures mail { mail.AreOf parts.now.mail (mail.told_by self.new.mail) }
        ensures calls { self.new.calls ≡ [] }
        ensures fit { (r : Requests) → FitCallbacks self.new.calls r }
        ensures unchanged { (r : Requests) → after_callbacks self.new.calls r ≡ r }
    {
        parts.tables.begin(&mut self.tables);
        self.mail.begin(&parts.mail, now);
        self.calls = Callbacks::new(self.alloc);
    }
}
