//! What a protocol means once its names are resolved: the rules that its declarations, bodies and machines keep, and which of the broken
//! ones is told. Laws of the symbols of every accepted protocol: its lists are short, its tables have room, its virtual networks are
//! numbered, carry one type of messages each, and are received from once at most by a machine; tables, functions, actions and
//! transitions are counted in one way; and machines, states, events and pairs with a transition are counted from the symbols.
#![tactic(auto)]

mod answer;
mod broken;
mod built_in;
mod counting;
mod laws;
mod machine;
mod part;
mod plan;
mod refusal;
mod row;
mod setup;
mod spans;
mod symbol_laws;

pub use answer::{answer_is_one, phases_answer, told_is_first_of_all};
pub use broken::{Broken, Rule, Subject, earlier_broken, earlier_of_two, first_broken, refused};
pub use built_in::BuiltInType;
pub use counting::counts_of_symbols;
pub use laws::{first_is_found, first_is_one};
pub use machine::machine_at;
pub use part::{Body, Part};
pub use plan::{Plan, copy_plan, counts, same_plan};
pub use refusal::Refusal;
pub use row::{Counts, Row, Written};
pub use ruby_base::{NoMemory, Seq, Text};
pub use ruby_symbols::Next;
pub use setup::{
    initial_fields_have_their_kinds, network_has_one_type, networks_are_numbered,
    no_field_is_a_reference, parameters_are_last, receivers_are_sets, setup_has_its_parts,
    tables_have_room,
};
pub use slicc_ast::tree::Span;
pub use spans::span_of;
pub use symbol_laws::{
    counts_are_of_symbols, lists_have_numbers, machines_are_few, names_have_one_numbering,
    needs_are_of_symbols, networks_are_received_once, networks_carry_one_message,
    networks_have_numbers, rows_are_of_symbols, symbols_have_counts, tables_have_entries,
    types_have_numbers,
};
