/// A step of a run. A run's history is the list of its events, and what a world becomes follows from that list. A
/// worker is the number of a thread, and a controller is its actor number; both are counted from 0. gem5 has one queue
/// of events in their place; these are this project's own.
#[derive(Clone, Copy)]
pub enum Event {
    /// The worker takes a controller that is due and that nobody holds.
    Take { worker: u32, controller: u32 },
    /// The worker holds the controller, and one scan of it fired a transition, whose copies are in the inboxes of
    /// their receivers.
    Fire { worker: u32, controller: u32 },
    /// The worker holds the controller, and its wake-up ended. The controller is finished in this cycle and no longer
    /// held.
    Done { worker: u32, controller: u32 },
    /// The worker gives the controller back before its wake-up ended, with the transitions that it has fired.
    Release { worker: u32, controller: u32 },
    /// Nobody is held and no controller is due: the driver acts, unless a controller has stopped, and the next cycle begins
    /// or the run ends.
    Turn { worker: u32 },
}
