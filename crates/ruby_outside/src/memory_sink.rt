ghost use Rattle.std.specs.Prelude.{◌≡◌, ◌≤◌, ◌-◌, [], ℕ, List, Option, Some, None, IfOk, length, min};
ghost use Rattle.ruby_outside.specs.Plan.{begun};
ghost use Rattle.ruby_outside.specs.Lawful.{planned_write, whole_write};
ghost use Rattle.ruby_outside.specs.Sink.{IsPlannedWrite, share_of};
ghost use Rattle.ruby_outside.specs.declared.sink.Wrote.TheVariants.{Took};

use crate::plan::Plan;
use crate::{Sink, Wrote};
use ruby_base::{NoMemory, Seq};
use std::alloc::Global;
use std::marker::Model;

/// A sink in memory that fails at planned writes, takes a bounded number of bytes at a time, and has bounded room. It
/// tells its bytes. A contract sees its bytes, its two bounds in bytes and its plan, with two counts that
/// stand still at 2^64 - 1.
#[derive(Drop)]
pub struct MemSink {
    held: Vec<u8>,
    most: u64,
    room: u64,
    plan: Plan,
}

impl Model for MemSink {
    ghost use Rattle.std.specs.Prelude.{◌≡◌, ◌≤◌, vec_len};
    ghost use Rattle.std.specs.Vec.{vec_capacity};
    ghost use Rattle.ruby_outside.specs.Sink.{SinkState};

    ghost Value = { SinkState };

    ghost view = { λ s. record {
      written = s.held.items;
      most = s.most;
      room = s.room;
      plan = s.plan;
    } };

    ghost invariant = { λ s. (vec_len s.held ≤ s.room) × (s.room ≤ vec_capacity s.held) };
}

impl MemSink {
    /// An empty sink. The writes with the numbers in `fails`, counted from 1, fail; each other takes at most `most`
    /// bytes, and at most what is left of `room` bytes. It reserves that room, so that no write takes memory.
    pub fn new(alloc: Global, fails: Seq<u64>, most: u64, room: u64) -> Result<MemSink, NoMemory>
        ensures { IfOk result (λ sink. sink ≡ record {
          written = [];
          most = most;
          room = room;
          plan = begun fails;
        }) }
    {
        let held = Vec::with_capacity(alloc, room as usize)?;
        Ok(MemSink {
            held,
            most,
            room,
            plan: Plan::new(fails),
        })
    }

    /// All the bytes that were written, in their order, lent.
    pub fn bytes(&self) -> &[u8]
        ensures { result.now ≡ self.now.written }
    {
        self.held.as_slice()
    }

    /// How many bytes of a piece of `piece` bytes are taken by a write that doesn't fail.
    fn share(&self, piece: u64) -> u64
        ensures { result ≡ min (min piece self.now.most) (self.now.room - length self.now.written) }
    {
        piece.min(self.most).min(self.room - self.held.len() as u64)
    }
}

impl Sink for MemSink {
    ghost written = { λ sink. Some sink.written };

    ghost faults = { λ sink. sink.plan.faults };

    ghost writes = { IsPlannedWrite };

    fn write(&mut self, piece: &[u8]) -> Wrote
        ensures write { IsPlannedWrite self.old piece.now result self.new }
    {
        if self.plan.fails_next() {
            return Wrote::Failed;
        }
        let count = self.share(piece.len() as u64);
        self.held
            .extend_from_slice(&piece[..count as usize])
            .unwrap();
        if count == 0 && !piece.is_empty() {
            self.plan.add_fault();
        }
        Wrote::Took(count)
    }

    ghost lawful = { planned_write };
}

/// A sink that takes each piece whole and keeps none of its bytes. It tells nothing and never fails, so its count of
/// faults is always 0.
#[derive(Clone, Copy)]
pub struct SureSink;

impl SureSink {
    /// A sink that takes everything. It needs no memory.
    pub fn new() -> SureSink
        ensures tells_nothing { ⟦<SureSink as Sink>⟧.written result ≡ None }
        ensures no_fault { ⟦<SureSink as Sink>⟧.faults result ≡ 0 }
    {
        SureSink
    }
}

impl Sink for SureSink {
    ghost written = { λ _. None };

    ghost faults = { λ _. 0 };

    ghost writes = { λ _ piece wrote _. wrote ≡ Took (length piece) };

    fn write(&mut self, piece: &[u8]) -> Wrote
        ensures { result ≡ Wrote.Took (length piece.now) }
    {
        Wrote::Took(piece.len() as u64)
    }

    ghost lawful = { λ _ piece wrote _ all. whole_write piece wrote all };
}
