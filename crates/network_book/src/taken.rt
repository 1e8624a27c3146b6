use ruby_world::Held;

/// What a worker gets where it asks for something to do.
#[derive(Drop)]
pub enum Taken {
    /// A controller, which the worker now holds.
    Held(Held),
    /// A turn was made.
    Turned,
    /// There is nothing to do now: each due controller is held, and at least one is.
    Rest,
    /// The run has ended.
    Ended,
}
