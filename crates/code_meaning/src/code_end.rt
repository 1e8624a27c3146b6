use acts::{Fault, Ref, Value};

/// How a body of action code ends.
#[derive(Drop)]
pub enum CodeEnd {
    /// With a result.
    Value(Value),
    /// Without one.
    Nothing,
    /// It asks for an event.
    Trigger {
        /// The event's number among those of the machine.
        event: u16,
        /// The byte address of the line.
        address: u64,
        /// The references to the line's entry and to its TBE, or to nothing.
        entry: Option<Ref>,
        tbe: Option<Ref>,
    },
    /// It stops with a fault.
    Stop(Fault),
}
