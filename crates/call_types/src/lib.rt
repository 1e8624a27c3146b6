//! What calls stand for in the bodies of a protocol, and the first that is broken in them, where their parts are known. A call that needs
//! no declaration is found by its name and by what it is called on.
#![tactic(auto, using(crate::proofs::Firsts::rules_of_first))]

mod arguments;
mod called;
mod declared;
mod methods;
mod wanted;

pub use called::{Called, call_on, plain, plain_call};
pub use declared::named_call;
pub use methods::{index_call, method_call};
pub use wanted::{is_told, may_write, not_writable};
