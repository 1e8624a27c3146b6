ghost use Rattle.std.specs.Prelude.{◌≡◌, ℕ, None, is_some};
ghost use Rattle.std.specs.Borrow.{sem};
ghost use Rattle.std.specs.Option.{option_copied, option_copied_mut};
ghost use Rattle.ctl_store.specs.Kept.{ctl_of, requests_of};
ghost use Rattle.ctl_store.specs.Lending.{LendsSequencer};
ghost use Rattle.ctl_store.specs.Room.{HasRoomForParcels, IsSameStore, KeepsRoom};

use crate::scratch::Scratch;
use crate::store::Store;
use ruby_value::NoMemory;
use sequencer::Sequencer;
use std::alloc::Global;

impl Store {
    /// The controller's sequencer, or `None` exactly where it has none, as it is of a machine without one. It takes no memory.
    pub fn sequencer(&mut self) -> Option<&mut Sequencer>
        ensures* lends { sem 𝓛 (LendsSequencer self.entry result) }
        ensures there { is_some result ≡ is_some (ctl_of self.old).sequencer }
        ensures value { requests_of (option_copied_mut result) ≡ (ctl_of self.old).sequencer }
    {
        self.parts.sequencer.as_mut()
    }

    /// The same sequencer, to be read, or `None` exactly where there is none.
    pub fn requests(&self) -> Option<&Sequencer>
        ensures requests { requests_of (option_copied result) ≡ (ctl_of self.now).sequencer }
    {
        self.parts.sequencer.as_ref()
    }

    /// Moves the controller's sequencer out, so that the controller has none until one is put there. It takes no memory.
    pub fn take_sequencer(&mut self) -> Option<Sequencer>
        ensures taken { requests_of result ≡ (ctl_of self.old).sequencer }
        ensures after { ctl_of self.new ≡ record (ctl_of self.old) { sequencer = None } }
        ensures store { IsSameStore self.old self.new }
        ensures room { (messages : ℕ) → HasRoomForParcels self.old messages
            → HasRoomForParcels self.new messages }
    {
        self.parts.sequencer.take()
    }

    /// Puts a sequencer, or none, in the place of the controller's. It takes no memory.
    pub fn put_sequencer(&mut self, sequencer: Option<Sequencer>)
        ensures after { ctl_of self.new ≡ record (ctl_of self.old) { sequencer = requests_of sequencer } }
        ensures store { IsSameStore self.old self.new }
        ensures room { (messages : ℕ) → HasRoomForParcels self.old messages
            → HasRoomForParcels self.new messages }
    {
        self.parts.sequencer = sequencer;
    }

    /// Moves out the lists that the last scan has left, for the next one to use. Where it has left none they are new ones, or there
    /// is no memory for their place.
    pub fn take_scratch(&mut self, alloc: Global) -> Result<Scratch, NoMemory>
        ensures same { ctl_of self.new ≡ ctl_of self.old }
        ensures store { IsSameStore self.old self.new }
        ensures kept { KeepsRoom self.old self.new }
    {
        match self.parts.scratch.take() {
            Some(scratch) => Ok(scratch),
            None => Scratch::new(alloc),
        }
    }

    /// Puts lists back that a scan has left which wasn't applied. It takes no memory.
    pub fn put_scratch(&mut self, scratch: Scratch)
        ensures same { ctl_of self.new ≡ ctl_of self.old }
        ensures store { IsSameStore self.old self.new }
        ensures kept { KeepsRoom self.old self.new }
    {
        self.parts.scratch = Some(scratch);
    }
}
