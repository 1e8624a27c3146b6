//! Reads tokens as the declarations of SLICC that hold no statements, or finds the first token with which they can't go on.
#![tactic(auto)]

mod heads;
mod machine_heads;
mod members;
mod parameters;
mod ports;
mod signatures;
mod skipped_functions;
mod structures;
mod transitions;

pub use heads::{
    ReadBoth, begins_ended_pairs, ended_by, ended_name, ended_pairs, head, include,
    optional_protocol,
};
pub use machine_heads::{MachineHead, machine_head, parameter_list};
pub use members::{enumeration, states};
pub use parameters::{literal, parameter};
pub use ports::{PortHead, out_port, plain_object, port_head, starred_object};
pub use signatures::{formals, names, starred_type};
pub use skipped_functions::{is_skipped_name, skipped};
pub use structures::{plain_member, structure};
pub use transitions::transition;
