//! A journal in cycle order: between two turns its entries stand by controllers, and not as workers happened to come.
#![tactic(auto)]

mod laws;
mod slot;
mod sorter;

pub use laws::cycle_order_keeps_parts;
pub use slot::Slot;
pub use sorter::in_order;
