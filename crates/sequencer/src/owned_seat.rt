ghost use Rattle.std.specs.Prelude.{◌≡◌, ◌≤◌, ◌+◌, ◌↔◌, ℕ, IfSome, IsNone, IsTrue, OnOk, false};
ghost use Rattle.std.specs.Option.{option_and_then};
ghost use Rattle.sequencer.specs.OwnedSeats.{HasRoom, seat_of};
ghost use Rattle.sequencer.specs.Reads.{next_after};
ghost use Rattle.ruby_value.specs.Prelude.{IsRequest, first_of, request_for, with_request, without_first_answer};
ghost use Rattle.sequencer.specs.Seats.{FitsSeat, changed_seat};

use crate::{Answer, Asked, IssueFault, NoMemory, Sequencer};

/// A seat that owns its sequencer, or has none.
#[derive(Drop)]
pub struct OwnedSeat {
    /// The number of the seat's controller.
    pub controller: u32,
    pub sequencer: Option<Sequencer>,
}

impl OwnedSeat {
    // The requests are such as a sequencer may have. The call does nothing but say so.
    pub(crate) fn fits(&self)
        ensures { FitsSeat (seat_of self.now) }
    {
        match &self.sequencer {
            Some(sequencer) => sequencer.fits(),
            None => {}
        }
    }

    /// Takes the first answer of the least line, as at a seat.
    pub(crate) fn take_done(&mut self) -> Option<Answer>
        ensures value { result
            ≡ option_and_then (λ r. first_of r.finished) (seat_of self.old).requests }
        ensures request { IfSome result (λ a. IsRequest a.asked) }
        ensures seat { seat_of self.new ≡ changed_seat without_first_answer (seat_of self.old) }
        ensures room { (n : ℕ) → HasRoom n self.old → HasRoom n self.new }
    {
        match &mut self.sequencer {
            Some(sequencer) => sequencer.take_done(),
            None => None,
        }
    }

    /// The outstanding request of the least line above the given one, as at a seat.
    pub(crate) fn next_after(&self, line: Option<u64>) -> Option<Asked>
        ensures value { result ≡ option_and_then (λ r. next_after r line) (seat_of self.now).requests }
        ensures request { IfSome result (λ a. IsRequest a) }
    {
        match &self.sequencer {
            Some(sequencer) => sequencer.next_after(line).copied(),
            None => None,
        }
    }

    /// Makes room for so many more requests.
    pub(crate) fn reserve(&mut self, requests: u32) -> Result<(), NoMemory>
        ensures same { seat_of self.new ≡ seat_of self.old }
        ensures ok { OnOk result (HasRoom requests self.new) }
        ensures no_less { (n : ℕ) → HasRoom n self.old → HasRoom n self.new }
    {
        match &mut self.sequencer {
            Some(sequencer) => sequencer.reserve(requests),
            None => Ok(()),
        }
    }

    /// Issues a request, where there is room. It answers false exactly where its line is outstanding.
    pub(crate) fn issue(&mut self, a: Asked) -> bool
        requires request { IsRequest a }
        requires room { HasRoom 1 self.old }
        ensures free { IsTrue result
            ↔ IsNone (option_and_then (λ r. request_for r a.line) (seat_of self.old).requests) }
        ensures issued { IsTrue result
            → seat_of self.new ≡ changed_seat (λ r. with_request r a) (seat_of self.old) }
        ensures refused { result ≡ false → seat_of self.new ≡ seat_of self.old }
        ensures room { (n : ℕ) → HasRoom (n + 1) self.old → HasRoom n self.new }
        ensures refused_room { result ≡ false → (n : ℕ) → HasRoom n self.old → HasRoom n self.new }
    {
        match &mut self.sequencer {
            Some(sequencer) => match sequencer.issue(a) {
                Ok(()) => true,
                Err(IssueFault::Outstanding) => false,
                Err(IssueFault::NoMemory) => unreachable!(),
            },
            None => true,
        }
    }
}
