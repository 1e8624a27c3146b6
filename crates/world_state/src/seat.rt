/// A seat of a driver in a world.
#[derive(Clone, Copy)]
pub struct SeatAt {
    /// The number of the seat's controller.
    pub controller: u32,
    /// Whether the controller's sequencer is the seat's.
    pub has_sequencer: bool,
    /// The number of the buffer `mandatoryQueue` in the controller's machine.
    pub queue: u16,
}
