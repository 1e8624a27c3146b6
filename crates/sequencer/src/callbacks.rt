ghost use Rattle.std.specs.Prelude.{◌≡◌, ◌≤◌, ◌==◌, Some, [], ◌∷◌, ◌++◌, IfSome, OnOk, OnErr};
ghost use Rattle.std.specs.List.{list_any};
ghost use Rattle.ruby_value.specs.declared.asked.Answer.{Answer};
ghost use Rattle.ruby_value.specs.Prelude.{block_after_write, read_back, write_back, IsRequest, Requests, request_for, requests_with_answer};
ghost use Rattle.sequencer.specs.Callbacks.{CallsBack, FitCallbacks, after_callbacks};

use crate::back::{is_store, stored_block};
use crate::{Answer, Asked, BackFault, Block, CallbackFault, NoMemory, Sequencer};
use std::alloc::Global;
use std::marker::Model;

/// What the callbacks of a scan have done to a sequencer, which stays as it is until they are applied. A contract sees the answers
/// with which they finished requests, in their order; `after_callbacks` says what they make of the sequencer's requests. That
/// they fit a sequencer holds of the empty ones, and each call keeps it.
#[derive(Drop)]
pub struct Callbacks {
    log: Vec<Answer>,
}

impl Model for Callbacks {
    ghost use Rattle.std.specs.Prelude.{List};
    ghost use Rattle.ruby_value.specs.declared.asked.Answer.{Answer};

    ghost Value = { List Answer };

    ghost view = { λ c. c.log.items };
}

impl Callbacks {
    /// No callbacks, which fit each sequencer and change none. It takes no memory.
    #[tactic(auto, using(crate::proofs::CallbackLog::fit_none, crate::proofs::CallbackLog::after_none))]
    pub fn new(alloc: Global) -> Callbacks
        ensures none { result ≡ [] }
        ensures fit { (r : Requests) → FitCallbacks result r }
        ensures unchanged { (r : Requests) → after_callbacks result r ≡ r }
    {
        Callbacks {
            log: Vec::new(alloc),
        }
    }

    /// The request of a line that is outstanding after the callbacks, or `None` exactly where there is none.
    pub fn request(&self, sequencer: &Sequencer, line: u64) -> Option<Asked>
        ensures value { result ≡ request_for (after_callbacks self.now sequencer.now.kept) line }
        ensures request { IfSome result (λ a. (a.line ≡ line) × IsRequest a) }
    {
        if has_line(&self.log, line) {
            return None;
        }
        sequencer.request(line)
    }

    fn push(&mut self, a: Answer) -> Result<(), NoMemory>
        ensures ok { OnOk result (self.new ≡ self.old ++ a ∷ []) }
        ensures refused { OnErr result (self.new ≡ self.old) }
    {
        self.log.push(a)?;
        Ok(())
    }

    // Finishes a request that is outstanding after the callbacks.
    fn finish(&mut self, sequencer: &Sequencer, a: Answer) -> Result<(), NoMemory>
        requires { request_for (after_callbacks self.old sequencer.now.kept) a.asked.line
            ≡ Some a.asked }
        ensures ok { OnOk result (after_callbacks self.new sequencer.now.kept
            ≡ requests_with_answer (after_callbacks self.old sequencer.now.kept) a.asked.line a) }
        ensures refused { OnErr result (self.new ≡ self.old) }
        ensures fit { FitCallbacks self.old sequencer.now.kept
            → FitCallbacks self.new sequencer.now.kept }
    {
        let _sequencer = sequencer;
        self.push(a)?;
        Ok(())
    }

    /// Finishes the load or the fetch of a line with the block that it reads, as `Sequencer::read_back` would after the
    /// callbacks. Without memory for it, as after a fault, all is as before.
    pub fn read_back(
        &mut self,
        sequencer: &Sequencer,
        line: u64,
        b: &Block,
    ) -> Result<(), CallbackFault>
        ensures does { CallsBack (read_back (after_callbacks self.old sequencer.now.kept) line b.now)
            tt result (after_callbacks self.old sequencer.now.kept)
            (after_callbacks self.new sequencer.now.kept) }
        ensures refused { OnErr result (self.new ≡ self.old) }
        ensures fit { FitCallbacks self.old sequencer.now.kept
            → FitCallbacks self.new sequencer.now.kept }
    {
        let Some(asked) = self.request(sequencer, line) else {
            return Err(CallbackFault::Refused(BackFault::NoRequest));
        };
        if is_store(asked.kind) {
            return Err(CallbackFault::Refused(BackFault::WrongKind));
        }
        if self.finish(sequencer, Answer { asked, block: *b }).is_err() {
            return Err(CallbackFault::NoMemory);
        }
        Ok(())
    }

    /// Finishes the store to a line, and answers the block in which its byte is written, as `Sequencer::write_back` would after
    /// the callbacks. Without memory for it, as after a fault, all is as before.
    pub fn write_back(
        &mut self,
        sequencer: &Sequencer,
        line: u64,
        b: Block,
    ) -> Result<Block, CallbackFault>
        ensures does { CallsBack (write_back (after_callbacks self.old sequencer.now.kept) line b)
            (block_after_write (after_callbacks self.old sequencer.now.kept) line b)
            result (after_callbacks self.old sequencer.now.kept)
            (after_callbacks self.new sequencer.now.kept) }
        ensures refused { OnErr result (self.new ≡ self.old) }
        ensures fit { FitCallbacks self.old sequencer.now.kept
            → FitCallbacks self.new sequencer.now.kept }
    {
        let Some(asked) = self.request(sequencer, line) else {
            return Err(CallbackFault::Refused(BackFault::NoRequest));
        };
        if !is_store(asked.kind) {
            return Err(CallbackFault::Refused(BackFault::WrongKind));
        }
        let block = stored_block(&asked, &b);
        if self.finish(sequencer, Answer { asked, block }).is_err() {
            return Err(CallbackFault::NoMemory);
        }
        Ok(block)
    }

    /// Applies the callbacks to the sequencer that they fit, which makes it what `after_callbacks` says. It takes no memory: room
    /// for each answer was made as its request was issued.
    pub fn apply(self, sequencer: &mut Sequencer)
        requires { FitCallbacks self sequencer.old.kept }
        ensures after { sequencer.new.kept ≡ after_callbacks self sequencer.old.kept }
        ensures room { sequencer.old.room ≤ sequencer.new.room }
    {
        finish_all(&self.log, sequencer);
    }
}

// Whether one of the answers is of this line.
fn has_line(answers: &[Answer], line: u64) -> bool
    ensures { result ≡ list_any (λ (a : Answer). a.asked.line == line) answers.now }
{
    answers.iter().any(|a| a.asked.line == line)
}

// Finishes requests one after another.
fn finish_all(answers: &[Answer], sequencer: &mut Sequencer)
    requires { FitCallbacks answers.now sequencer.old.kept }
    ensures after { sequencer.new.kept ≡ after_callbacks answers.now sequencer.old.kept }
    ensures room { sequencer.old.room ≤ sequencer.new.room }
{
    for a in answers {
        sequencer.finish(*a);
    }
}
