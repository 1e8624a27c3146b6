// The changes of a scan, made in the parts of a store.
ghost use Rattle.std.specs.Prelude.{◌≡◌};
ghost use Rattle.ctl_store.specs.Prelude.{FitCalls, FitChanges, acts_of, after_calls, changed_ctl, IsKept, ctl_of, requests_of, HasRoomForChanges, HasRoomForMark, IsSameStore};

use crate::changes::Changes;
use crate::parts::Parts;
use crate::scratch::Scratch;
use ctl_face::Parcel;
use ruby_value::{Delivery, Seq};
use sequencer::{Callbacks, Sequencer};
use std::mem;

// Finishes the requests that the callbacks have, which are empty then.
fn finish(changes: &mut Changes, sequencer: &mut Option<Sequencer>)
    requires { FitCalls changes.old.calls (requests_of sequencer.old) }
    ensures after { requests_of sequencer.new ≡ after_calls changes.old.calls (requests_of sequencer.old) }
    ensures mail { changes.new.mail ≡ changes.old.mail }
{
    let calls = mem::replace(&mut changes.calls, Callbacks::new(changes.alloc));
    if let Some(sequencer) = sequencer {
        calls.apply(sequencer);
    }
}

// Makes the changes, for which there is room. It takes no memory.
pub(crate) fn apply(parts: &mut Parts, mut changes: Box<Changes>) -> Seq<Delivery<Parcel>>
    requires kept { IsKept parts.old }
    requires fit { FitChanges changes.value (ctl_of parts.old) }
    requires room { HasRoomForChanges parts.old changes.value }
    ensures after { ctl_of parts.new ≡ changed_ctl changes.value (ctl_of parts.old) }
    ensures kept { IsKept parts.new }
    ensures store { IsSameStore parts.old parts.new }
    ensures room { HasRoomForMark parts.new }
    ensures posted { result ≡ (acts_of changes.value).posted }
    ensures rest { (parts.new.fired ≡ parts.old.fired) × (parts.new.stopped ≡ parts.old.stopped) }
{
    parts.tables.apply(&mut changes.tables);
    parts.mail.apply(&mut changes.mail);
    finish(&mut changes, &mut parts.sequencer);
    let posted = changes.mail.take_posted();
    parts.scratch = Some(Scratch { changes });
    posted
}
