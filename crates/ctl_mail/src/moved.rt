ghost use Rattle.std.specs.Prelude.{◌≡◌, ◌<◌, ◌≤◌, ◌+◌, [], OnOk};
ghost use Rattle.stall_map.specs.Prelude.{IsSplit};
ghost use Rattle.ctl_mail.specs.declared.moves.Move.{Move};
ghost use Rattle.ctl_mail.specs.Moves.{MovesRise, waiting_after, with_move};

use crate::moves::Move;
use ruby_value::{MsgNo, NoMemory};
use std::alloc::Global;
use std::collections::VecDeque;
use std::marker::Model;

/// What became last of each message that a scan has stalled or woken, in the order of their numbers. A contract sees the list of
/// these, and beside it for how many more there is room. To find one costs what the logarithm of their number does.
#[derive(Drop)]
pub(crate) struct Moves {
    moves: VecDeque<Move>,
}

impl Model for Moves {
    ghost use Rattle.std.specs.Prelude.{List, ◌-◌};
    ghost use Rattle.std.specs.Coded.{coded_list};
    ghost use Rattle.std.specs.VecDeque.{deque_len, deque_capacity};
    ghost use Rattle.ruby_value.specs.Prelude.{Roomy, roomy_code};
    ghost use Rattle.ctl_mail.specs.contracts.moves.Move as row;
    ghost use Rattle.ctl_mail.specs.declared.moves.Move.{Move};
    ghost use Rattle.ctl_mail.specs.Moves.{MovesRise};

    ghost Value = { Roomy (List Move) };

    ghost coded = { roomy_code (coded_list row.the_row.coded) };

    ghost view = { λ m. record { kept = m.moves.items; room = deque_capacity m.moves - deque_len m.moves } };

    ghost invariant = { λ m. MovesRise m.moves.items };
}

// How many of the moves are of messages with numbers up to this one.
fn count_up_to(moves: &VecDeque<Move>, number: MsgNo) -> usize
    requires { MovesRise moves.now.items }
    ensures { IsSplit (λ (m : Move). m.number) number moves.now.items result }
{
    moves.partition_point(|m| !number.is_before(m.number))
}

impl Moves {
    /// No moves. It takes no memory.
    pub(crate) fn new(alloc: Global) -> Moves
        ensures { result.kept ≡ [] }
    {
        Moves {
            moves: VecDeque::new(alloc),
        }
    }

    /// Drops all of them. The room for them stays.
    pub(crate) fn clear(&mut self)
        ensures { self.new.kept ≡ [] }
    {
        self.moves.clear();
    }

    /// Makes room for so many more, or answers that there is no memory for them.
    pub(crate) fn reserve(&mut self, more: usize) -> Result<(), NoMemory>
        ensures same { self.new.kept ≡ self.old.kept }
        ensures ok { OnOk result (more ≤ self.new.room) }
    {
        self.moves.reserve(more)?;
        Ok(())
    }

    /// Keeps that a message waits so from now on, where there is room. It takes no memory.
    pub(crate) fn put_reserved(&mut self, number: MsgNo, line: Option<u64>)
        requires { 0 < self.old.room }
        ensures after { self.new.kept ≡ with_move self.old.kept number line }
        ensures room { self.old.room ≤ self.new.room + 1 }
    {
        let at = count_up_to(&self.moves, number);
        if at > 0 && self.moves[at - 1].number == number {
            self.moves[at - 1] = Move { number, line };
            return;
        }
        if self.moves.insert(at, Move { number, line }).is_err() {
            unreachable!()
        }
    }

    /// The line under which a message waits after these moves, if it does, that waited so before them.
    pub(crate) fn waiting(&self, number: MsgNo, before: Option<u64>) -> Option<u64>
        ensures { result ≡ waiting_after number self.now.kept before }
    {
        if self.moves.is_empty() {
            return before;
        }
        let at = count_up_to(&self.moves, number);
        if at > 0 && self.moves[at - 1].number == number {
            return self.moves[at - 1].line;
        }
        before
    }
}
