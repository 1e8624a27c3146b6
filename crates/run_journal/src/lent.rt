//! Entries of a journal as the journal lends them, with its lists as slices.
ghost use Rattle.std.specs.Prelude.{◌≡◌, ◌-◌, ◌^◌, IfOk, min};
ghost use Rattle.run_journal.specs.Prelude.{is_of, end_of, entry_of, numbers_in};

use crate::{End, Entry, FireNote, MsgNo, NoMemory, Seq, StopAt, Verdict};
use ruby_value::{Finding, Sent};
use std::alloc::Global;

/// The lists of a transition, in the order of its acts.
#[derive(Clone, Copy)]
pub struct FireLists<'a> {
    /// The messages that its actions removed from a buffer.
    pub consumed: &'a [MsgNo],
    /// The copies that its actions sent.
    pub sent: &'a [Sent],
    /// The messages that its actions took aside under an address.
    pub stalled: &'a [MsgNo],
    /// The messages that its actions put back from under an address, those of one call in increasing number.
    pub woken: &'a [MsgNo],
    /// The messages that its actions gave another arrival by `recycle`.
    pub recycled: &'a [MsgNo],
}

impl FireLists<'_> {
    /// How many numbers are in the lists, beside those that were sent, or the greatest number of 64 bits where there are more.
    pub fn numbers(self) -> usize
        ensures { result ≡ min (numbers_in self.entry) (2 ^ 64 - 1) }
    {
        let kept = self.consumed.len().saturating_add(self.stalled.len());
        kept.saturating_add(self.woken.len())
            .saturating_add(self.recycled.len())
    }
}

/// How a wake-up of a controller ended, as a journal lends it.
#[derive(Clone, Copy)]
pub enum EndRef<'a> {
    /// No port fired.
    Idle,
    /// The controller has fired as many transitions in this cycle as it may.
    Full,
    /// A scan met a fault.
    Stop(&'a StopAt),
}

/// An entry as a journal lends it: `Entry` says what each is.
#[derive(Clone, Copy)]
pub enum EntryRef<'a> {
    /// A controller fired a transition.
    Fired {
        cycle: u64,
        controller: u32,
        note: FireNote,
        lists: FireLists<'a>,
    },
    /// A wake-up of a controller ended.
    Ended {
        cycle: u64,
        controller: u32,
        end: EndRef<'a>,
    },
    /// The driver acted, unless a controller had stopped, and the cycle or the run ended.
    Turned {
        cycle: u64,
        issued: &'a [MsgNo],
        finding: Option<Finding>,
        verdict: Option<Verdict>,
    },
}

impl EndRef<'_> {
    /// The same end with a stop of its own.
    pub fn to_end(self, alloc: Global) -> Result<End, NoMemory>
        ensures { IfOk result (λ e. e ≡ end_of self.entry) }
    {
        Ok(match self {
            EndRef::Idle => End::Idle,
            EndRef::Full => End::Full,
            EndRef::Stop(stop) => End::Stop(StopAt::copied(alloc, stop)?),
        })
    }
}

impl EntryRef<'_> {
    /// Whether the entry is one of this controller: a transition that it fired, or the end of a wake-up of it.
    pub fn is_of(self, controller: u32) -> bool
        ensures { result ≡ is_of controller (entry_of self.entry) }
    {
        match self {
            EntryRef::Fired { controller: c, .. } => c == controller,
            EntryRef::Ended { controller: c, .. } => c == controller,
            EntryRef::Turned { .. } => false,
        }
    }

    /// The same entry with lists and an end of its own.
    pub fn to_entry(self, alloc: Global) -> Result<Entry, NoMemory>
        ensures { IfOk result (λ e. e ≡ entry_of self.entry) }
    {
        Ok(match self {
            EntryRef::Fired {
                cycle,
                controller,
                note,
                lists,
            } => Entry::Fired {
                cycle,
                controller,
                note,
                consumed: Seq::copied(alloc, lists.consumed)?,
                sent: Seq::copied(alloc, lists.sent)?,
                stalled: Seq::copied(alloc, lists.stalled)?,
                woken: Seq::copied(alloc, lists.woken)?,
                recycled: Seq::copied(alloc, lists.recycled)?,
            },
            EntryRef::Ended {
                cycle,
                controller,
                end,
            } => Entry::Ended {
                cycle,
                controller,
                end: end.to_end(alloc)?,
            },
            EntryRef::Turned {
                cycle,
                issued,
                finding,
                verdict,
            } => Entry::Turned {
                cycle,
                issued: Seq::copied(alloc, issued)?,
                finding,
                verdict,
            },
        })
    }
}
