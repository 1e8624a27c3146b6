ghost use Rattle.std.specs.Prelude.{◌≡◌, ◌↔◌, IsTrue};
ghost use Rattle.ruby_value.specs.IsBefore.{IsBefore};
ghost use Rattle.ruby_value.specs.NumberBefore.{number_before};

use crate::Fields;
use std::alloc::AllocError;

/// The number of a message copy: the actor that sent it, and how many copies that actor had sent before. Numbers
/// are ordered by their sender and then by their count, which is this project's own rule.
#[derive(Clone, Copy, PartialEq, Eq, PartialOrd)]
pub struct MsgNo {
    pub sender: u32,
    pub count: u64,
}

impl MsgNo {
    /// Whether this number comes before the other one.
    pub fn is_before(self, other: MsgNo) -> bool
        ensures order { IsTrue result ↔ IsBefore self other }
        ensures test { result ≡ number_before self other }
    {
        self < other
    }
}

/// A message copy in a buffer of a controller.
#[derive(Drop)]
pub struct Message {
    pub number: MsgNo,
    /// The number of the buffer within its machine.
    pub buffer: u16,
    /// The cycle from which on the message is ready.
    pub arrival: u64,
    /// Whether `recycle` has put it off, at any time since it was sent.
    pub recycled: bool,
    /// The fields of the buffer's message type.
    pub fields: Fields,
}

impl Clone for Message {
    ghost is_clone = { λ old new. new ≡ old };

    fn clone(&self) -> Result<Message, AllocError> {
        Ok(Message {
            number: self.number,
            buffer: self.buffer,
            arrival: self.arrival,
            recycled: self.recycled,
            fields: self.fields.clone()?,
        })
    }
}

/// A message with the controller that gets it, which may be its sender.
#[derive(Drop)]
pub struct Delivery<M> {
    pub receiver: u32,
    pub message: M,
}

/// That a copy of a message was sent.
#[derive(Clone, Copy)]
pub struct Sent {
    pub number: MsgNo,
    /// The controller that gets the copy, which is the sender where the buffer is one of its own.
    pub receiver: u32,
    /// The number of the buffer within the receiver's machine.
    pub buffer: u16,
    /// The cycle from which on the copy is ready, later than the one in which it was sent.
    pub arrival: u64,
}
