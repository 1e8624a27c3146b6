// Where messages wait that a scan has stalled or woken. What became of a message last counts.
ghost use Rattle.std.specs.Prelude.{◌≡◌, ◌↔◌, IsTrue};
ghost use Rattle.ctl_mail.specs.Moves.{is_woken, waiting_after};
ghost use Rattle.ctl_mail.specs.Told.{IsFreeNow, IsOut, IsWoken, told_by};

use crate::MailChanges;
use ruby_value::MsgNo;

/// That a message waits under a line from now on, or waits no longer.
#[derive(Clone, Copy)]
pub(crate) struct Move {
    pub(crate) number: MsgNo,
    pub(crate) line: Option<u64>,
}

/// Which of the messages that wait are woken: those under a line, or all.
#[derive(Clone, Copy)]
pub(crate) enum Waking {
    Line(u64),
    All,
}

impl Waking {
    // Whether a message is woken that waits under this line, if it waits.
    pub(crate) fn wakes(self, waiting: Option<u64>) -> bool
        ensures { result ≡ is_woken self waiting }
    {
        match (self, waiting) {
            (Waking::Line(line), Some(l)) => l == line,
            (Waking::All, Some(_)) => true,
            (_, None) => false,
        }
    }
}

impl MailChanges {
    // The line under which a message waits now, if it does, that waited so before the scan.
    fn waiting(&self, number: MsgNo, before: Option<u64>) -> Option<u64>
        ensures { result ≡ waiting_after number (told_by self.now).moves before }
    {
        self.moves.waiting(number, before)
    }

    // Whether a message is no longer ready that could be before the scan.
    pub(crate) fn is_out(&self, number: MsgNo) -> bool
        ensures { IsTrue result ↔ IsOut (told_by self.now) number }
    {
        self.is_gone(number) || self.waiting(number, None).is_some()
    }

    // Whether a message waits no longer that waited under this line before the scan, and isn't gone.
    pub(crate) fn is_free(&self, number: MsgNo, before: Option<u64>) -> bool
        ensures { IsTrue result ↔ IsFreeNow (told_by self.now) number before }
    {
        self.waiting(number, before).is_none() && !self.is_gone(number)
    }

    // Whether a message is woken now that waited under this line before the scan, if it waited.
    pub(crate) fn is_woken(&self, waking: Waking, number: MsgNo, before: Option<u64>) -> bool
        ensures { IsTrue result ↔ IsWoken (told_by self.now) waking number before }
    {
        waking.wakes(self.waiting(number, before)) && !self.is_gone(number)
    }
}
