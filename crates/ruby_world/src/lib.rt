//! A world of all controllers of a protocol's topology: its opening, the events that happen in it, each a step of its run, while any
//! number of its controllers is held; what is read off it; and a whole run by one worker, from the opening of a world to a verdict, and
//! its record.
#![tactic(auto)]

mod accounting;
mod alone;
mod events;
mod laws;
mod opening;
mod recording;
mod scanning;
mod waking;
mod whole;
mod world;

pub use alone::run_alone;
pub use laws::{held_controllers_stay, runs_from_the_opening_are_alone};
pub use protocol_meaning::RunRecord;
pub use recording::into_record;
pub use scanning::{Scanned, scan};
pub use whole::run_whole;
pub use world::{Held, RunLimits, World};
