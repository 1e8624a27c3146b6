//! Action code: the bodies of a protocol's machines as instructions for a machine with a stack, with the declarations that are read to
//! verify them; and their verification, after which no instruction has to test an operand, a kind or a jump.
#![tactic(auto)]

mod arrivals;
mod checking;
mod instr;
mod laws;
mod operand;
mod operations;
mod program;
mod rules;
mod shape;
mod sign;
mod stack;
mod tables;
mod values;
mod verified;

pub use checking::verify;
pub use instr::{Code, Instr};
pub use laws::fits_at_each_place;
pub use operand::Operand;
pub use operations::{Answer, Arguments, OPERATIONS, Operation, Receiver};
pub use program::{BufferDecl, MachineDecl, Place, Program, TableDecl, TableSort};
pub use ruby_base::{NoMemory, Seq, Text};
pub use verified::{CodeFault, Verified};
