//! That every schedule of a run has one answer, over whatever the scans of its protocol do and over any driver.
#![tactic(auto)]

mod laws;

pub use laws::{acts_exchange, arrivals_swap, ended_runs_answer_alike};
