ghost use Rattle.turn_lock.specs.Tickets.{Rule, dealer};

use crate::Kept;
use atomic_table::TableRule;
use std::collections::LinkedList;
use std::snapshot::Snapshot;

/// What a seat is doing.
pub enum Stage {
    /// It makes the passes, and is none itself.
    Deals,
    /// It is a pass outside the lock.
    Out,
    /// It has a ticket, and waits for its turn.
    Waits,
    /// It has its turn, and the value.
    Inside,
}

/// What a seat knows. No value of it is made.
pub struct View<P> {
    pub stage: Stage,
    /// How many passes it stands for, none once another has met it. While it deals, how many are still to be made.
    pub parts: u64,
    /// Its number as a pass. While it deals, the number of the next pass.
    pub number: u64,
    pub plan: Option<P>,
    /// The history as it was last seen, and the pass's own entries in it.
    pub seen: LinkedList<u64>,
    pub mine: LinkedList<u64>,
    /// The numbers of the passes that it met, each with its own entries.
    pub others: LinkedList<(u64, LinkedList<u64>)>,
    /// Right after a meeting, what the other had seen.
    pub told: LinkedList<u64>,
    pub ticket: u64,
    /// While it is inside, the history with which it entered.
    pub entered: LinkedList<u64>,
}

/// What the table is told once: how many passes there are, and the value as it was. Passes point to it.
#[derive(Drop)]
pub struct Start<V> {
    pub passes: u32,
    pub first: Snapshot<V>,
}

/// The rule of tickets and turns.
pub struct Turns;

impl<V: Kept> TableRule<Option<V>, View<V::Plan>, Start<V>> for Turns {
    ghost holds = { λ k. Rule V.plan V.history k.passes (V.plan k.first.value) };

    ghost first = { λ k. dealer k.passes (V.plan k.first.value) };
}
