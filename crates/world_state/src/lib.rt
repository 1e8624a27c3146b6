//! A world's data: the places of its controllers, what waits for them, its driver, and what has happened in it. A controller that a worker
//! holds is out of its place. At the turn of a cycle the run ends with a controller that has stopped, or the driver acts and the run ends
//! or goes on; for this the sequencers of the driver's seats are moved out of their stores, and back.
#![tactic(auto)]

mod all_seats;
mod book;
mod driving;
mod ends;
mod laws;
mod place;
mod reads;
mod ready;
mod requests;
mod seat;
mod seat_laws;
mod state;
mod turns;
mod waiting;

pub use book::Book;
pub use ends::{end_store, verdict_after};
pub use laws::{
    closes_are_steps, drives_are_lawful, places_stay_home, reads_are_of_places,
    requests_can_arrive, runs_open, seats_are_put_back, seats_are_ready, turned_data_are_steps,
};
pub use place::{Keeper, Kept, Place, begin_all, end_at, put_back, take_out};
pub use reads::{any_held, first_free, is_free_at, least_stopped, next_cycle};
pub use requests::{deliver, room_for_all};
pub use seat::SeatAt;
pub use seat_laws::turns_serve_the_places;
pub use state::State;
pub use turns::turn;
pub use waiting::{no_waiting, post, room_to_post, settle_all, settle_at};
