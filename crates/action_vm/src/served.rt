//! Acts that the machine of a body is known to serve, since verification has seen to it, so that none tests it.
ghost use Rattle.std.specs.Prelude.{IfOk};
ghost use Rattle.ctl_face.specs.Prelude.{IsPlace};
ghost use Rattle.acts.specs.Act.{Front, Get, Send, Set};
ghost use Rattle.acts.specs.Prelude.{DoesAs, act, itself, lent, message_there};
ghost use Rattle.action_vm.specs.Served.{IsServed};

use acts::{Fault, Fields, Local, MessageAt, Ref, Trouble, Value};

/// Does `Get`, lent.
#[tactic(auto, using(acts::proofs::Calls::calls_of_acts))]
pub(crate) fn field<'a, T: Local>(local: &'a T, r: &Ref, field: u16) -> Result<&'a Value, Trouble>
    requires { IsServed (T.view local.now) (Get r.now field) }
    ensures { DoesAs lent (act (Get r.now field)) result (T.view local.now) (T.view local.now) }
{
    match local.field(r, field) {
        Some(value) => Ok(value),
        None => Err(Trouble::Fault(Fault::Reference)),
    }
}

/// Does `Set`.
#[tactic(auto, using(acts::proofs::Calls::calls_of_acts))]
pub(crate) fn set<T: Local>(local: &mut T, r: &Ref, field: u16, value: Value) -> Result<(), Trouble>
    requires { IsServed (T.view local.old) (Set r.now field value) }
    ensures { DoesAs itself (act (Set r.now field value)) result (T.view local.old)
        (T.view local.new) }
{
    local.set(r, field, value)
}

/// Does `Front`, by the place of the message.
#[tactic(auto, using(acts::proofs::Calls::calls_of_acts))]
pub(crate) fn front_at<T: Local>(local: &T, buffer: u16) -> Result<MessageAt, Trouble>
    requires { IsServed (T.view local.now) (Front buffer) }
    ensures does { DoesAs (message_there (T.view local.now)) (act (Front buffer)) result
        (T.view local.now) (T.view local.now) }
    ensures place { IfOk result (IsPlace (T.view local.now)) }
{
    match local.front_at(buffer) {
        Some(at) => Ok(at),
        None => Err(Trouble::Fault(Fault::Front)),
    }
}

/// Does `Send`.
#[tactic(auto, using(acts::proofs::Calls::calls_of_acts))]
pub(crate) fn send<T: Local>(
    local: &mut T,
    buffer: u16,
    latency: i64,
    fields: Fields,
) -> Result<(), Trouble>
    requires { IsServed (T.view local.old) (Send buffer latency fields) }
    ensures { DoesAs itself (act (Send buffer latency fields)) result (T.view local.old)
        (T.view local.new) }
{
    local.send(buffer, latency, fields)
}
