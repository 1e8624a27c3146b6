// Acts on a controller's messages, each done where the machine serves it.
ghost use Rattle.std.specs.Prelude.{IfOk};
ghost use Rattle.ctl_face.specs.Prelude.{IsPlace};
ghost use Rattle.acts.specs.Lent.{message_there};
ghost use Rattle.acts.specs.Prelude.{Front, Pop, Ready, Recycle, Send, Slots, Stall, Wake, WakeAll, act, DoesAs, itself};

use crate::serving::{is_line, not_served, serves_send};
use ctl_face::{Fault, Fields, Local, Message, MessageAt, Trouble, receives, sends};

/// Does `Ready`: whether a buffer has a front.
pub fn ready<T: Local>(local: &T, buffer: u16) -> Result<bool, Trouble>
    ensures { DoesAs itself (act (Ready buffer)) result (T.view local.now) (T.view local.now) }
{
    if !receives(local.machine(), buffer) {
        return Err(not_served());
    }
    Ok(local.ready(buffer))
}

/// Does `Front`: the front of a buffer.
pub fn front<T: Local>(local: &T, buffer: u16) -> Result<Message, Trouble>
    ensures { DoesAs itself (act (Front buffer)) result (T.view local.now) (T.view local.now) }
{
    if !receives(local.machine(), buffer) {
        return Err(not_served());
    }
    local.front(buffer)
}

/// Does `Front` without taking memory: where the front of a buffer is. `Local::message` lends it, in the rest of the scan too.
pub fn front_at<T: Local>(local: &T, buffer: u16) -> Result<MessageAt, Trouble>
    ensures does { DoesAs (message_there (T.view local.now)) (act (Front buffer)) result (T.view local.now) (T.view local.now) }
    ensures place { IfOk result (IsPlace (T.view local.now)) }
{
    if !receives(local.machine(), buffer) {
        return Err(not_served());
    }
    match local.front_at(buffer) {
        Some(at) => Ok(at),
        None => Err(Trouble::Fault(Fault::Front)),
    }
}

/// Does `Pop`: consumes the front of a buffer.
pub fn pop<T: Local>(local: &mut T, buffer: u16) -> Result<(), Trouble>
    ensures { DoesAs itself (act (Pop buffer)) result (T.view local.old) (T.view local.new) }
{
    if !receives(local.machine(), buffer) {
        return Err(not_served());
    }
    local.pop(buffer)
}

/// Does `Stall`: stalls the front of a buffer under a line.
pub fn stall<T: Local>(local: &mut T, buffer: u16, line: u64) -> Result<(), Trouble>
    ensures { DoesAs itself (act (Stall buffer line)) result (T.view local.old) (T.view local.new) }
{
    if !is_line(line) || !receives(local.machine(), buffer) {
        return Err(not_served());
    }
    local.stall(buffer, line)
}

/// Does `Wake`: puts the messages back that wait under a line.
pub fn wake<T: Local>(local: &mut T, line: u64) -> Result<(), Trouble>
    ensures { DoesAs itself (act (Wake line)) result (T.view local.old) (T.view local.new) }
{
    if !is_line(line) {
        return Err(not_served());
    }
    local.wake(line)
}

/// Does `WakeAll`: puts all messages back that wait.
pub fn wake_all<T: Local>(local: &mut T) -> Result<(), Trouble>
    ensures { DoesAs itself (act WakeAll) result (T.view local.old) (T.view local.new) }
{
    local.wake_all()
}

/// Does `Recycle`: gives the front of a buffer a later arrival.
pub fn recycle<T: Local>(local: &mut T, buffer: u16, latency: i64) -> Result<(), Trouble>
    ensures { DoesAs itself (act (Recycle buffer latency)) result (T.view local.old) (T.view local.new) }
{
    if !receives(local.machine(), buffer) {
        return Err(not_served());
    }
    local.recycle(buffer, latency)
}

/// Does `Slots`: how many slots are left on a buffer that the machine sends on, where any receiver's buffer there has a size.
pub fn slots<T: Local>(local: &T, buffer: u16) -> Result<Option<u64>, Trouble>
    ensures { DoesAs itself (act (Slots buffer)) result (T.view local.now) (T.view local.now) }
{
    if !sends(local.machine(), buffer) {
        return Err(not_served());
    }
    Ok(local.slots(buffer))
}

/// Does `Send`: sends a message with these fields.
pub fn send<T: Local>(
    local: &mut T,
    buffer: u16,
    latency: i64,
    fields: Fields,
) -> Result<(), Trouble>
    ensures { DoesAs itself (act (Send buffer latency fields)) result (T.view local.old) (T.view local.new) }
{
    if !serves_send(local.machine(), buffer, latency, &fields) {
        return Err(not_served());
    }
    local.send(buffer, latency, fields)
}
