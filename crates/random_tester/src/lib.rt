//! The random tester: a driver that stores bytes, loads them again and compares them, at lines and seats that it draws.
#![tactic(auto)]

mod late;
mod slot;
mod tester;

pub use tester::Tester;
