// How many acts of some sorts there are.
ghost use Rattle.std.specs.Prelude.{◌≡◌, ◌+◌, ◌<◌, ◌^◌};
ghost use Rattle.ctl_mail.specs.Log.{counted_if, counts_with, is_local_last, is_placed, is_stall, is_wake};

use crate::MailAct;

/// How many of the acts of a scan stall a message, how many wake some, how many write something for which there must be a place
/// beside a mark, and how many write a last arrival in a buffer of the controller's own.
#[derive(Clone, Copy)]
pub(crate) struct ActCounts {
    pub(crate) stalls: usize,
    pub(crate) wakes: usize,
    pub(crate) placed: usize,
    pub(crate) locals: usize,
}

impl MailAct {
    fn is_stall(&self) -> bool
        ensures { result ≡ is_stall self.now }
    {
        matches!(self, MailAct::Stall(_, _))
    }

    fn is_wake(&self) -> bool
        ensures { result ≡ is_wake self.now }
    {
        matches!(self, MailAct::Wake(_) | MailAct::WakeAll)
    }

    fn is_placed(&self) -> bool
        ensures { result ≡ is_placed self.now }
    {
        matches!(
            self,
            MailAct::Arrive(_)
                | MailAct::NetworkLast(_, _, _)
                | MailAct::LocalLast(_, _)
                | MailAct::Lend(_, _)
                | MailAct::Credit(_)
        )
    }

    fn is_local_last(&self) -> bool
        ensures { result ≡ is_local_last self.now }
    {
        matches!(self, MailAct::LocalLast(_, _))
    }
}

// The count, with one more if that is so.
fn counted_if(so: bool, count: usize) -> usize
    requires { count + 1 < 2 ^ 64 }
    ensures { result ≡ counted_if so count }
{
    if so { count + 1 } else { count }
}

/// The counts of no acts.
pub(crate) const NO_COUNTS: ActCounts = ActCounts {
    stalls: 0,
    wakes: 0,
    placed: 0,
    locals: 0,
};

/// The counts with one act more.
#[inline(always)]
pub(crate) fn counts_with(counts: ActCounts, act: &MailAct) -> ActCounts
    requires stalls { counts.stalls + 1 < 2 ^ 64 }
    requires wakes { counts.wakes + 1 < 2 ^ 64 }
    requires placed { counts.placed + 1 < 2 ^ 64 }
    requires locals { counts.locals + 1 < 2 ^ 64 }
    ensures { result ≡ counts_with counts act.now }
{
    ActCounts {
        stalls: counted_if(act.is_stall(), counts.stalls),
        wakes: counted_if(act.is_wake(), counts.wakes),
        placed: counted_if(act.is_placed(), counts.placed),
        locals: counted_if(act.is_local_last(), counts.locals),
    }
}
