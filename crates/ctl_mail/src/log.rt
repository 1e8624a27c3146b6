ghost use Rattle.std.specs.Prelude.{◌≡◌, ◌<◌, ◌≤◌, ◌+◌, ◌++◌, ◌^◌, [], ◌∷◌, None, OnOk, OnErr, count_by, length, slice_get, Some};
ghost use Rattle.std.specs.List.{fold};
ghost use Rattle.ctl_mail.specs.Log.{is_placed, is_stall, is_wake, newer_local, newer_network};
ghost use Rattle.ctl_mail.specs.Slots.{is_lend};

use crate::MailAct;
use crate::act_counts::{ActCounts, NO_COUNTS, counts_with};
use crate::last_arrivals::{LastArrival, keep_act, kept_at};
use ruby_value::NoMemory;
use std::alloc::Global;
use std::collections::VecDeque;
use std::marker::Model;
use std::mem;

/// The acts of a scan on mail, in their order. A contract sees the list of them, and beside it for how many more there is room. How
/// many there are of some sorts, and which last arrivals they write on networks, is kept beside them, so that nobody walks along them
/// to find that out.
#[derive(Drop)]
pub(crate) struct ActLog {
    acts: VecDeque<MailAct>,
    counts: ActCounts,
    arrivals: Vec<LastArrival>,
}

impl Model for ActLog {
    ghost use Rattle.std.specs.Prelude.{List, ◌-◌, min, vec_capacity, vec_len};
    ghost use Rattle.std.specs.Coded.{coded_list};
    ghost use Rattle.std.specs.VecDeque.{deque_len, deque_capacity};
    ghost use Rattle.ruby_value.specs.Prelude.{Roomy, roomy_code};
    ghost use Rattle.ctl_mail.specs.contracts.act.MailAct as row;
    ghost use Rattle.ctl_mail.specs.declared.act.MailAct.{MailAct};
    ghost use Rattle.ctl_mail.specs.Log.{IsLog};

    ghost Value = { Roomy (List MailAct) };

    ghost coded = { roomy_code (coded_list row.the_row.coded) };

    ghost view = { λ w. record {
      kept = w.acts.items;
      room = min (deque_capacity w.acts - deque_len w.acts) (vec_capacity w.arrivals - vec_len w.arrivals);
    } };

    ghost invariant = { λ w. IsLog w.acts.items w.counts w.arrivals.items };
}

// The last arrival, or the one that an act writes for the buffer.
fn newer_local(found: Option<u64>, act: &MailAct, buffer: u16) -> Option<u64>
    ensures { result ≡ newer_local buffer found act.now }
{
    match act {
        MailAct::LocalLast(other, arrival) if *other == buffer => Some(*arrival),
        _ => found,
    }
}

impl ActLog {
    /// No acts. It takes no memory.
    pub(crate) fn new(alloc: Global) -> ActLog
        ensures { result.kept ≡ [] }
    {
        ActLog {
            acts: VecDeque::new(alloc),
            counts: NO_COUNTS,
            arrivals: Vec::new(alloc),
        }
    }

    /// Drops all acts. The room for them stays.
    pub(crate) fn clear(&mut self)
        ensures { self.new.kept ≡ [] }
    {
        if self.acts.is_empty() {
            return;
        }
        self.acts.clear();
        self.counts = NO_COUNTS;
        self.arrivals.clear();
    }

    /// How many acts there are.
    pub(crate) fn len(&self) -> usize
        ensures count { result ≡ length self.now.kept }
        ensures small { result < 2 ^ 63 }
    {
        self.acts.len()
    }

    /// Makes room for so many more acts, or answers that there is no memory for them.
    #[inline(always)]
    pub(crate) fn reserve(&mut self, more: usize) -> Result<(), NoMemory>
        ensures same { self.new.kept ≡ self.old.kept }
        ensures ok { OnOk result (more ≤ self.new.room) }
    {
        self.acts.reserve(more)?;
        self.arrivals.reserve(more)?;
        Ok(())
    }

    /// Adds an act, where there is room. It takes no memory. Most calls know which act it is, so that little is left to do.
    #[inline(always)]
    pub(crate) fn push_reserved(&mut self, act: MailAct)
        requires { 0 < self.old.room }
        ensures after { self.new.kept ≡ self.old.kept ++ act ∷ [] }
        ensures room { self.old.room ≤ self.new.room + 1 }
    {
        self.counts = counts_with(self.counts, &act);
        keep_act(&mut self.arrivals, &act);
        self.acts.push_back_reserved(act);
    }

    /// Adds an act, or answers that there is no memory for it.
    #[inline(always)]
    pub(crate) fn push(&mut self, act: MailAct) -> Result<(), NoMemory>
        ensures ok { OnOk result (self.new.kept ≡ self.old.kept ++ act ∷ []) }
        ensures err { OnErr result (self.new.kept ≡ self.old.kept) }
    {
        self.reserve(1)?;
        self.push_reserved(act);
        Ok(())
    }

    /// How many of the acts stall a message.
    pub(crate) fn stall_count(&self) -> usize
        ensures { result ≡ count_by is_stall self.now.kept }
    {
        self.counts.stalls
    }

    /// How many of the acts wake messages.
    pub(crate) fn wake_count(&self) -> usize
        ensures { result ≡ count_by is_wake self.now.kept }
    {
        self.counts.wakes
    }

    /// How many of the acts write something for which there must be a place beside a mark.
    pub(crate) fn placed_count(&self) -> usize
        ensures { result ≡ count_by is_placed self.now.kept }
    {
        self.counts.placed
    }

    /// The act at a place.
    pub(crate) fn at(&self, place: usize) -> &MailAct
        requires { place < length self.now.kept }
        ensures { slice_get self.now.kept place ≡ Some result.now }
    {
        &self.acts[place]
    }

    /// The last arrival at the receiver on the network that the acts have written, if they have.
    pub(crate) fn network_last(&self, network: u16, receiver: u32) -> Option<u64>
        ensures { result ≡ fold (newer_network network receiver) None self.now.kept }
    {
        kept_at(&self.arrivals, network, receiver)
    }

    /// The last arrival in the buffer that the acts have written, if they have.
    pub(crate) fn local_last(&self, buffer: u16) -> Option<u64>
        ensures { result ≡ fold (newer_local buffer) None self.now.kept }
    {
        if self.counts.locals == 0 {
            return None;
        }
        self.acts
            .iter()
            .fold(None, |found, act| newer_local(found, act, buffer))
    }

    /// How many of the acts take a slot of a buffer at a receiver.
    pub(crate) fn count_lends(&self, receiver: u32, buffer: u16) -> usize
        ensures { result ≡ count_by (is_lend receiver buffer) self.now.kept }
    {
        self.acts
            .iter()
            .filter(|act| act.is_lend(receiver, buffer))
            .count()
    }

    /// Moves all acts out. The room that they have goes with them, and comes back by `give_back`.
    pub(crate) fn take(&mut self) -> VecDeque<MailAct>
        ensures acts { result.items ≡ self.old.kept }
        ensures left { self.new.kept ≡ [] }
    {
        self.counts = NO_COUNTS;
        self.arrivals.clear();
        let alloc = *self.acts.allocator();
        mem::replace(&mut self.acts, VecDeque::new(alloc))
    }

    /// Takes the room of acts back that are made, where no others are kept.
    pub(crate) fn give_back(&mut self, acts: VecDeque<MailAct>)
        requires left { self.old.kept ≡ [] }
        requires made { acts.items ≡ [] }
        ensures { self.new.kept ≡ [] }
    {
        self.acts = acts;
    }
}
