// The messages that `peek` and `enqueue` open.
ghost use Rattle.acts.specs.declared.body_fault.BodyFault.TheVariants as own;
ghost use Rattle.acts.specs.Prelude.{found, DoesAs, itself};
ghost use Rattle.body_meaning.specs.Prelude.{message_of, new_message, reading};

use acts::{Local, Trouble};
use body_meaning::{Scope, Thing, message_of};
use body_walk::new_message;
use plain_walk::found;
use std::alloc::Global;

/// The structure of a buffer's messages.
pub(crate) fn structure<T: Local>(s: Scope<'_>, buffer: u16, local: &T) -> Result<u16, Trouble>
    ensures { DoesAs itself (found own.Reference (message_of (reading s.entry).machine buffer))
        result (T.view local.now) (T.view local.now) }
{
    found(message_of(s.machine, buffer), local)
}

/// A message of a structure, as it is before anything is written to it.
pub(crate) fn opened<T: Local>(
    alloc: Global,
    s: Scope<'_>,
    structure: u16,
    local: &T,
) -> Result<Thing, Trouble>
    ensures { DoesAs itself (found own.Reference (new_message (reading s.entry) structure)) result
        (T.view local.now) (T.view local.now) }
{
    let t = new_message(alloc, s, structure)?;
    found(t, local)
}
