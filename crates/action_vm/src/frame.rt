use crate::stack::Stack;
use acts::{Fault, Fields, MessageAt, Ref};

/// The messages that a run of a body has open.
#[derive(Drop)]
pub(crate) struct Messages {
    /// Where those are that it looks at, the innermost on top.
    pub inner: Stack<MessageAt>,
    /// The fields of those that it makes, likewise.
    pub made: Stack<Fields>,
}

/// How a body ends.
#[derive(Drop)]
pub(crate) enum Ended {
    /// With the value on top of the stack.
    Value,
    Nothing,
    /// It asks for an event, for the line of this byte address.
    Trigger {
        event: u16,
        address: u64,
        entry: Option<Ref>,
        tbe: Option<Ref>,
    },
    Stop(Fault),
}

/// Where a run goes on after an instruction, if it does.
#[derive(Drop)]
pub(crate) enum Next {
    On,
    To(u32),
    Over(Ended),
}
