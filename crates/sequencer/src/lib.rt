//! The sequencer, in which the requests of a processor wait for their answers, and the drivers that issue them.
#![tactic(auto)]

mod back;
mod callbacks;
mod driver;
mod fault;
mod issued;
mod order;
mod owned_seat;
mod owned_seats;
mod plain_driver;
mod seats;
mod sequencer;

pub use callbacks::Callbacks;
pub use driver::{Driver, DriverEnd};
pub use fault::{CallbackFault, IssueFault};
pub use issued::Issued;
pub use owned_seat::OwnedSeat;
pub use owned_seats::OwnedSeats;
pub use plain_driver::PlainDriver;
pub use ruby_base::NoMemory;
pub use ruby_value::{Answer, Ask, Asked, BackFault, Block, Finding};
pub use seats::Seats;
pub use sequencer::Sequencer;
