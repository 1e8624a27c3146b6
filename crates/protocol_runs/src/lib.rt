//! What a run is: worlds, events, steps, verdicts and accounts, over any controllers, messages and driver, and the laws of every run.
//! What a run of a protocol is, over whatever its scans do and over any driver: an instance of these rules, with its premises and laws.
//! There is no code here: the definitions stand in `specs/`, and the functions do nothing, and their contracts are the laws.
#![tactic(auto)]

mod held_laws;
mod laws;
mod sample_run;

pub use held_laws::{
    copies_may_come, held_controllers_grow, runs_are_framed, workers_go_on_with_what_they_hold,
};
pub use laws::{
    accounts_for_each_message, controllers_fit, invalid_comes_exactly,
    machines_of_controllers_are_found, no_mark_is_lost, numbers_are_fresh,
    one_worker_makes_one_run, protocols_meet_the_premises, seats_fit_the_driver,
    turns_end_or_go_on, turns_serve_their_seats, wakes_once,
};
pub use sample_run::a_sample_meets_the_premises;
