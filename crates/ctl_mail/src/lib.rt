//! The mail of a controller as it is kept, and what a scan changes in it: messages in buffers and stalled ones, the cycles at
//! which the controller must wake, and what its sends go by, slots in use and credits among it. A scan reads through to the
//! mail and keeps its changes beside it, which are dropped or made.
#![tactic(auto)]

mod act;
mod act_counts;
mod arrivals;
mod census;
mod changes;
mod copies;
mod credits;
mod kept_words;
mod last_arrivals;
mod lasts;
mod lending;
mod lent;
mod log;
mod make;
mod marks;
mod moved;
mod moves;
mod numbers;
mod queues;
mod reads;
mod scan;
mod sends;
mod sent;
mod slots_left;
mod stalls;
mod store;
mod wakes;
mod wakings;

pub use act::MailAct;
pub use changes::MailChanges;
pub use lending::{front_at, message};
pub use reads::{front, peek, ready};
pub use scan::{again, pop, recycle};
pub use sends::send;
pub use sent::SendCounts;
pub use slots_left::slots;
pub use stalls::stall;
pub use store::MailStore;
pub use wakes::{wake, wake_all};
