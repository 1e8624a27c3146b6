ghost use Rattle.std.specs.Prelude.{◌≡◌, ◌<◌};

use crate::Kept;
use crate::view::{Start, View};
use atomic_table::Seat;
use std::marker::Model;
use std::snapshot::Snapshot;

/// The right to enter a lock, for one thread at a time. A contract sees which lock it is of, its number, and what it has seen of
/// the history; a running program sees its number and how many passes it stands for.
#[derive(Drop)]
pub struct Pass<V: Kept> {
    pub(crate) seat: Seat<Option<V>, View<V::Plan>>,
    pub(crate) number: u32,
    pub(crate) met: u32,
    pub(crate) start: Snapshot<Start<V>>,
}

impl<V: Kept> Model for Pass<V> {
    ghost use Rattle.turn_lock.specs.Standing.{Standing};

    ghost Value = { Standing V.Plan };

    ghost use Rattle.turn_lock.specs.Tickets.{standing, IsWhole};

    ghost view = { λ p. standing (V.plan p.start.value.first.value) p.seat.table_id p.seat.me.0 };

    ghost invariant = { λ p. IsWhole (V.plan p.start.value.first.value) p.number p.met p.seat.me };
}

impl<V: Kept> Pass<V> {
    /// Its number among the passes of its lock, counted from 0.
    pub fn number(&self) -> u32
        ensures value { result ≡ self.now.number }
        ensures few { result < 64 }
    {
        self.number
    }
}
