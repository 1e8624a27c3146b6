//! The machine of action code: it runs a body of verified code in a local. It tests no operand, no kind and no jump, and not whether a
//! machine serves what an instruction asks; the operations still test that.
#![tactic(auto, using(acts::proofs::Walk::walk_steps))]

mod frame;
mod operating;
mod plain;
mod reading;
mod running;
mod served;
mod stack;
mod turning;

pub use action_code::Verified;
pub use acts::{Local, NoMemory, Value};
pub use code_meaning::CodeEnd;
pub use running::run_code;
