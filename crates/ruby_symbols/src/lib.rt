//! The symbols of a protocol: what it declares, as plain names and numbers, and what a name stands for. Whatever runs, prints or
//! compiles a protocol stands on them, and resolves no name of a declaration again. All is numbered from 0, by its place.
#![tactic(auto)]

mod kinds;
mod machine;
mod names;
mod numbers;
mod states;
mod symbols;
mod types;

pub use kinds::{kind_named, kind_of_enumeration, kind_of_reference};
pub use machine::{
    ActionSymbol, BufferSymbol, FormalSymbol, FunctionSymbol, MachineSymbols, Next, PortSymbol,
    TableSort, TableSymbol, TransitionSymbol,
};
pub use names::{
    Named, action_among, action_named, buffer_among, buffer_named, function_among, function_named,
    machine_named, mandatory, stands_for, takes_requests,
};
pub use ruby_base::{NoMemory, Seq, Text};
pub use states::{
    StateArgument, get_state_arguments, set_permission_arguments, set_state_arguments,
};
pub use symbols::Symbols;
pub use types::{
    EnumerationSymbol, FieldSymbol, StructureSymbol, enumeration_named, enumeration_of,
    field_named, member_named, request, structure_named, structure_of,
};
