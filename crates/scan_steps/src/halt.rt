// Where a scan ends before its end, and how it ends.
ghost use Rattle.std.specs.Prelude.{◌≡◌};
ghost use Rattle.scan_steps.specs.TriesAs.{IsEndOf, told};

use acts::{NoMemory, Trouble};
use body_meaning::{Known, RoundEnd, Tried};
use run_journal::StopAt;

/// Why a scan wasn't done to its end.
#[derive(Drop)]
pub enum Halt {
    /// The protocol's own fault, with what is known of its transition.
    Stop(StopAt),
    /// There was no memory for it.
    NoMemory,
}

impl From<NoMemory> for Halt {
    ghost use Rattle.std.specs.Prelude.{◌≡◌};
    ghost use Rattle.scan_steps.specs.declared.halt.Halt.TheVariants.{NoMemory as NoRoom};

    ghost from_gives = { λ none halt. halt ≡ NoRoom };

    fn from(_none: NoMemory) -> Halt {
        Halt::NoMemory
    }
}

/// What a body answers, where this is known of the transition.
pub fn told<R>(k: Known, r: Result<R, Trouble>) -> Result<R, Halt>
    ensures { result ≡ told k r }
{
    match r {
        Ok(x) => Ok(x),
        Err(Trouble::Fault(fault)) => Err(Halt::Stop(StopAt {
            address: k.address,
            state: k.state,
            event: k.event,
            fault,
        })),
        Err(Trouble::NoMemory) => Err(Halt::NoMemory),
    }
}

/// How a scan ends whose ports answer this.
pub fn round_of(tried: Result<Tried, Halt>) -> Result<RoundEnd, NoMemory>
    ensures { IsEndOf tried result }
{
    match tried {
        Ok(Tried::Fires(note)) => Ok(RoundEnd::Fired(note)),
        Ok(Tried::Waits) => Ok(RoundEnd::Idle),
        Err(Halt::Stop(at)) => Ok(RoundEnd::Stop(at)),
        Err(Halt::NoMemory) => Err(NoMemory),
    }
}
