//! What every way to do scans of controllers has in common: why a scan ends before its end, how it ends by what its ports answer, what is
//! known of a transition by what was triggered, and what a stall does.
#![tactic(auto)]

mod halt;
mod steps;

pub use halt::{Halt, round_of, told};
pub use steps::{about, is_among, is_stall_among, known, nothing_known, split, waiting};
