//! The tables of a controller and the states of its lines, and what one scan changes in them. Tables and fields have numbers from
//! 0, and lines are byte addresses divided by 64.
#![tactic(auto)]

mod acts;
mod change;
mod held;
mod lines;
mod newest;
mod places;
mod reads;
mod recency;
mod states;
mod stored;
mod tables;
mod ways;

pub use change::TableChanges;
pub use held::Tables;
