ghost use Rattle.std.specs.Prelude.{◌≡◌, ◌≢◌, ◌≤◌, ◌<◌, ◌+◌, ◌↔◌, None, Some, Err, IfSome, IsSome, OnOk, OnErr};
ghost use Rattle.std.specs.Option.{option_copied};
ghost use Rattle.sequencer.specs.Back.{Finishes};
ghost use Rattle.ruby_value.specs.Prelude.{block_after_write, read_back, write_back, FitsRequests, IsRequest, first_of, no_requests, request_for, requests_with_answer, with_request, without_first_answer};
ghost use Rattle.sequencer.specs.Reads.{IsOldest, next_after, oldest};

use crate::back::{is_store, stored_block};
use crate::order::{next_in, oldest_of, put_answer, put_request, request_in, take_request};
use crate::{Answer, Asked, BackFault, Block, IssueFault, NoMemory};
use std::alloc::Global;
use std::collections::VecDeque;
use std::marker::Model;

/// The requests of a processor: those that are outstanding, at most one for a line, and the finished answers that nobody has
/// taken yet. A contract sees them as `Requests`, and beside them for how many more requests there is room. Room for the
/// answer to a request is made by the call that issues it.
#[derive(Drop)]
pub struct Sequencer {
    outstanding: Vec<Asked>,
    finished: VecDeque<Answer>,
    room: usize,
}

impl Model for Sequencer {
    ghost use Rattle.std.specs.Prelude.{vec_capacity};
    ghost use Rattle.std.specs.VecDeque.{deque_capacity};
    ghost use Rattle.ruby_value.specs.Prelude.{Roomy, roomy_code, Requests, requests_code};
    ghost use Rattle.sequencer.specs.Kept.{IsKept};
    ghost use Rattle.sequencer.specs.Outstanding.{outstanding_of};

    ghost Value = { Roomy Requests };

    ghost coded = { roomy_code requests_code };

    ghost view = { λ s. record { kept = record { outstanding = outstanding_of s.outstanding.items; finished = s.finished.items }; room = s.room } };

    ghost invariant = { λ s. IsKept s.outstanding.items (vec_capacity s.outstanding) s.finished.items (deque_capacity s.finished) s.room };
}

impl Sequencer {
    /// The sequencer without requests and answers. It takes no memory.
    pub fn new(alloc: Global) -> Sequencer
        ensures { result.kept ≡ no_requests }
    {
        Sequencer {
            outstanding: Vec::new(alloc),
            finished: VecDeque::new(alloc),
            room: 0,
        }
    }

    /// What always holds of a sequencer's requests, which makes a seat fit for a driver. The call does nothing but say so.
    pub fn fits(&self)
        ensures { FitsRequests self.now.kept }
    {
        let _ = &self.outstanding;
    }

    /// The outstanding request of a line, or `None` exactly where it has none.
    pub fn request(&self, line: u64) -> Option<Asked>
        ensures value { result ≡ request_for self.now.kept line }
        ensures request { IfSome result (λ a. (a.line ≡ line) × IsRequest a) }
    {
        request_in(&self.outstanding, line)
    }

    /// Makes room for so many more requests and their answers, or answers that there is no memory for them. Requests and answers
    /// stay as they are.
    pub fn reserve(&mut self, requests: u32) -> Result<(), NoMemory>
        ensures same { self.new.kept ≡ self.old.kept }
        ensures ok { OnOk result (requests ≤ self.new.room) }
        ensures no_less { self.old.room ≤ self.new.room }
    {
        let requests = requests as usize;
        if requests <= self.room {
            return Ok(());
        }
        let answers = self.outstanding.len() + requests;
        self.outstanding.reserve(requests)?;
        self.finished.reserve(answers)?;
        self.room = requests;
        Ok(())
    }

    // Issues a request of a line that has none, where there is room.
    fn issue_in_room(&mut self, a: Asked)
        requires request { IsRequest a }
        requires none { request_for self.old.kept a.line ≡ None }
        requires room { 0 < self.old.room }
        ensures after { self.new.kept ≡ with_request self.old.kept a }
        ensures room { self.old.room ≤ self.new.room + 1 }
    {
        self.room -= 1;
        put_request(&mut self.outstanding, a);
    }

    /// Issues a request, whose bytes are within a line below 2^58. `Outstanding` comes exactly where the line has an outstanding
    /// request, and `NoMemory` only where it has none and there is no room; after either all is as before, and no room is used up.
    pub fn issue(&mut self, a: Asked) -> Result<(), IssueFault>
        requires { IsRequest a }
        ensures ok { OnOk result (self.new.kept ≡ with_request self.old.kept a) }
        ensures refused { OnErr result (self.new.kept ≡ self.old.kept) }
        ensures outstanding { (result ≡ Err IssueFault.Outstanding)
            ↔ IsSome (request_for self.old.kept a.line) }
        ensures in_room { 0 < self.old.room → result ≢ Err IssueFault.NoMemory }
        ensures room { self.old.room ≤ self.new.room + 1 }
        ensures refused_room { OnErr result (self.old.room ≤ self.new.room) }
    {
        if self.request(a.line).is_some() {
            return Err(IssueFault::Outstanding);
        }
        if self.room == 0 && self.reserve(1).is_err() {
            return Err(IssueFault::NoMemory);
        }
        self.issue_in_room(a);
        Ok(())
    }

    // Takes the request of the answer out, and puts the answer after those of its line.
    pub(crate) fn finish(&mut self, a: Answer)
        requires { request_for self.old.kept a.asked.line ≡ Some a.asked }
        ensures after { self.new.kept ≡ requests_with_answer self.old.kept a.asked.line a }
        ensures room { self.new.room ≡ self.old.room }
    {
        let _asked = take_request(&mut self.outstanding, a.asked.line);
        put_answer(&mut self.finished, a);
    }

    /// Finishes the load or the fetch of a line with the block that it reads. `NoRequest` comes exactly where the line has no
    /// request, and `WrongKind` exactly where it has a store; after either all is as before. It takes no memory.
    pub fn read_back(&mut self, line: u64, b: &Block) -> Result<(), BackFault>
        ensures does { Finishes (read_back self.old.kept line b.now) tt result self.old.kept
            self.new.kept }
        ensures room { self.old.room ≤ self.new.room }
    {
        let Some(asked) = self.request(line) else {
            return Err(BackFault::NoRequest);
        };
        if is_store(asked.kind) {
            return Err(BackFault::WrongKind);
        }
        self.finish(Answer { asked, block: *b });
        Ok(())
    }

    /// Finishes the store to a line, and answers the block in which its byte is written. `NoRequest` comes exactly where the
    /// line has no request, and `WrongKind` exactly where it has a load or a fetch; after either all is as before. It takes no
    /// memory.
    pub fn write_back(&mut self, line: u64, b: Block) -> Result<Block, BackFault>
        ensures does { Finishes (write_back self.old.kept line b)
            (block_after_write self.old.kept line b) result self.old.kept self.new.kept }
        ensures room { self.old.room ≤ self.new.room }
    {
        let Some(asked) = self.request(line) else {
            return Err(BackFault::NoRequest);
        };
        if !is_store(asked.kind) {
            return Err(BackFault::WrongKind);
        }
        let block = stored_block(&asked, &b);
        self.finish(Answer { asked, block });
        Ok(block)
    }

    /// The outstanding request of the least issue cycle, and of those the one of the least line, or `None` exactly where none is
    /// outstanding.
    pub fn oldest(&self) -> Option<&Asked>
        ensures value { option_copied result ≡ oldest self.now.kept }
        ensures first { IsOldest self.now.kept (option_copied result) }
    {
        oldest_of(&self.outstanding)
    }

    /// The outstanding request of the least line above the given one, or of the least line, or `None` exactly where there is
    /// none.
    pub fn next_after(&self, line: Option<u64>) -> Option<&Asked>
        ensures value { option_copied result ≡ next_after self.now.kept line }
        ensures request { IfSome result (λ a. IsRequest a.now) }
    {
        next_in(&self.outstanding, line)
    }

    /// Takes the first answer of the least line, or answers `None` exactly where no answer is left. It takes no memory.
    pub fn take_done(&mut self) -> Option<Answer>
        ensures value { result ≡ first_of self.old.kept.finished }
        ensures after { self.new.kept ≡ without_first_answer self.old.kept }
        ensures request { IfSome result (λ a. IsRequest a.asked) }
        ensures room { self.old.room ≤ self.new.room }
    {
        self.finished.pop_front()
    }
}
