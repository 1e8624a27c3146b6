//! The numbers of a protocol's enumerations and structures, the kinds of values, the fields of structures, and what messages the
//! buffers of machines have.
#![tactic(auto)]

mod buffers;
mod fields;
mod members;
mod numbering;
mod numbers;

pub use buffers::{buffer_place, is_ordered, message_type};
pub use fields::{Field, structure_fields};
pub use members::{kept_or, own_default};
pub use numbering::{Scoped, TypeNumbers, number_types};
pub use numbers::{declared_number, kept, plain_kind, structure_number, type_number};
pub use ruby_base::NoMemory;
