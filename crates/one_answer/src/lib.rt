//! That the record of a run has the one answer of its setting, whoever made the run and in whatever order.
#![tactic(auto)]

mod laws;

pub use laws::records_are_one_answer;
