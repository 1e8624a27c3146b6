use ctl_face::Credit;
use ruby_value::Message;

/// An act on the mail of a controller.
#[derive(Drop)]
pub enum MailAct {
    /// The front of a buffer is consumed.
    Pop(u16),
    /// The front of a buffer arrives again at a cycle, and counts as recycled from then on.
    Recycle(u16, u64),
    /// The controller must wake in a cycle.
    Mark(u64),
    /// The front of a buffer waits under a line.
    Stall(u16, u64),
    /// The messages that wait under a line wait no longer.
    Wake(u64),
    /// No message waits any longer.
    WakeAll,
    /// A message with a new number comes in, with a mark for its arrival.
    Arrive(Message),
    /// A copy more is counted as sent, and a word more as drawn, if one was drawn for it.
    Count(bool),
    /// The last copy on a network to a receiver arrives at a cycle.
    NetworkLast(u16, u32, u64),
    /// The last copy in a buffer of the controller's own arrives at a cycle.
    LocalLast(u16, u64),
    /// A slot more is in use in a buffer with a size at a receiver.
    Lend(u32, u16),
    /// A credit comes in, with a mark for its arrival.
    Credit(Credit),
}
