//! The store of a controller, and the draft of one of its scans, which reads through to the store, keeps what the scan
//! changes, and is dropped or sealed. What is sealed can be applied to the store.
#![tactic(auto)]

mod applying;
mod changes;
mod draft;
mod draft_local;
mod lending;
mod opening;
mod outcome;
mod parts;
mod scan;
mod scan_calls;
mod scan_tables;
mod scratch;
mod store;

pub use draft::Draft;
pub use outcome::Outcome;
pub use scratch::Scratch;
pub use store::Store;
