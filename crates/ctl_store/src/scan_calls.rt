// The callbacks of a scan.
ghost use Rattle.std.specs.Prelude.{◌≡◌};
ghost use Rattle.ctl_face.specs.Prelude.{block_after_write, read_back, write_back, Does, DoesWith, IsLawful};
ghost use Rattle.ctl_store.specs.Answered.{as_trouble};
ghost use Rattle.ctl_store.specs.Scanned.{local_of};

use crate::scan::Scan;
use ctl_face::Trouble;
use ruby_value::{Block, Fault};
use sequencer::CallbackFault;

// The answer of a callback as that of a local.
fn answer_of<A: Drop>(called: Result<A, CallbackFault>) -> Result<A, Trouble>
    ensures { result ≡ as_trouble called }
{
    match called {
        Ok(answer) => Ok(answer),
        Err(CallbackFault::Refused(_)) => Err(Trouble::Fault(Fault::Callback)),
        Err(CallbackFault::NoMemory) => Err(Trouble::NoMemory),
    }
}

impl<'a> Scan<'a> {
    pub(crate) fn read_back(&mut self, line: u64, block: &Block) -> Result<(), Trouble>
        ensures does { Does (read_back (local_of self.old) line block.now) result (local_of self.old) (local_of self.new) }
        ensures lawful { IsLawful (local_of self.new) }
    {
        let Some(sequencer) = &self.parts.sequencer else {
            return Err(Trouble::Fault(Fault::Callback));
        };
        answer_of(self.changes.calls.read_back(sequencer, line, block))
    }

    pub(crate) fn write_back(&mut self, line: u64, block: Block) -> Result<Block, Trouble>
        ensures does { DoesWith (write_back (local_of self.old) line block) (block_after_write (local_of self.old) line block)
            result (local_of self.old) (local_of self.new) }
        ensures lawful { IsLawful (local_of self.new) }
    {
        let Some(sequencer) = &self.parts.sequencer else {
            return Err(Trouble::Fault(Fault::Callback));
        };
        answer_of(self.changes.calls.write_back(sequencer, line, block))
    }
}
