use ruby_value::Message;

/// What a controller sends back for a message that it has consumed from one of its buffers with a size: the message's sender
/// may send one more there from the arrival on.
#[derive(Clone, Copy)]
pub struct Credit {
    /// The controller that has consumed the message, and so receives the next one.
    pub receiver: u32,
    /// The number of the buffer within its machine.
    pub buffer: u16,
    /// The cycle from which on the credit counts.
    pub arrival: u64,
}

/// How many slots of a buffer with a size at a receiver a sender has in use.
#[derive(Clone, Copy)]
pub struct Lent {
    pub receiver: u32,
    /// The number of the buffer within the receiver's machine.
    pub buffer: u16,
    pub count: u64,
}

/// What goes from one controller to another: a copy of a message, or a credit.
#[derive(Drop)]
pub enum Parcel {
    Message(Message),
    Credit(Credit),
}
