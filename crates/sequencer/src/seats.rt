ghost use Rattle.std.specs.Prelude.{◌≡◌, ◌≤◌, ◌<◌, ◌+◌, Some, IfSome, IsNone, IsTrue, OnOk, length, ◌↔◌, false};
ghost use Rattle.ruby_value.specs.Prelude.{Roomy, IsRequest};
ghost use Rattle.sequencer.specs.Seats.{Seating, controller_at, first_answer_at, next_at, outstanding_at, with_issued, without_answer_at};

use crate::{Answer, Asked, NoMemory};

/// The controllers at which a driver issues requests and takes answers, by the numbers of their seats, from 0. A contract sees
/// them as a `Seating`, which has each seat's controller and the requests of its sequencer, if it has one, and the requests
/// that were issued so far; and beside it for how many more requests there is room. No call changes how many seats there are,
/// or their controllers. A seat that a call names is there.
pub trait Seats {
    ghost view: { Self → Roomy Seating };

    /// How many seats there are.
    fn count(&self) -> u32
        ensures { result ≡ length (view self.now).kept.seats };

    /// The number of a seat's controller.
    fn controller(&self, k: u32) -> u32
        requires { k < length (view self.now).kept.seats }
        ensures { controller_at (view self.now).kept.seats k ≡ Some result };

    /// Takes the first answer of the least line out of a seat's sequencer, or answers `None` exactly where it has none. It takes
    /// no memory.
    fn take_done(&mut self, k: u32) -> Option<Answer>
        requires { k < length (view self.old).kept.seats }
        ensures value { result ≡ first_answer_at (view self.old).kept.seats k }
        ensures request { IfSome result (λ a. IsRequest a.asked) }
        ensures seats { (view self.new).kept.seats
            ≡ without_answer_at (view self.old).kept.seats k }
        ensures count { length (view self.new).kept.seats ≡ length (view self.old).kept.seats }
        ensures issued { (view self.new).kept.issued ≡ (view self.old).kept.issued }
        ensures room { (view self.old).room ≤ (view self.new).room };

    /// The outstanding request of a seat's sequencer of the least line above the given one, or of the least line, or `None`
    /// exactly where there is none.
    fn next_after(&self, k: u32, line: Option<u64>) -> Option<Asked>
        requires { k < length (view self.now).kept.seats }
        ensures value { result ≡ next_at (view self.now).kept.seats k line }
        ensures request { IfSome result (λ a. IsRequest a) };

    /// Makes room for so many more requests, at whatever seats, or answers that there is no memory for them. The seats stay as
    /// they are.
    fn reserve(&mut self, requests: u32) -> Result<(), NoMemory>
        ensures same { (view self.new).kept ≡ (view self.old).kept }
        ensures ok { OnOk result (requests ≤ (view self.new).room) }
        ensures no_less { (view self.old).room ≤ (view self.new).room };

    /// Issues a request, whose bytes are within a line below 2^58, at a seat, where there is room. It answers false exactly where
    /// its line is outstanding there, and then all is as it was. It takes no memory.
    fn issue(&mut self, k: u32, a: Asked) -> bool
        requires seat { k < length (view self.old).kept.seats }
        requires request { IsRequest a }
        requires room { 0 < (view self.old).room }
        ensures free { IsTrue result
            ↔ IsNone (outstanding_at (view self.old).kept.seats k a.line) }
        ensures issued { IsTrue result
            → (view self.new).kept
            ≡ with_issued (view self.old).kept (record { seat = k; asked = a }) }
        ensures refused { result ≡ false → (view self.new).kept ≡ (view self.old).kept }
        ensures count { length (view self.new).kept.seats ≡ length (view self.old).kept.seats }
        ensures room { (view self.old).room ≤ (view self.new).room + 1 };
}
