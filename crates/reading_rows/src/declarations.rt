// Texts that are read as declarations and their parts.
use crate::forms::{Form, Reading};
use example_texts::RowText;
use slicc_decl::{
    enumeration, formals, include, literal, machine_head, names, optional_protocol, out_port,
    parameter, states, structure, transition,
};
use slicc_lex::Token;
use slicc_reading::Fault;
use std::alloc::Global;

// How many tokens are left behind what was read.
fn left<T: Drop>(read: Result<(T, &[Token]), Fault>) -> Result<usize, Fault> {
    match read {
        Ok((tree, left)) => {
            drop(tree);
            Ok(left.len())
        }
        Err(fault) => Err(fault),
    }
}

fn form_left(alloc: Global, form: Form, room: u32, from: &[Token]) -> Result<usize, Fault> {
    match form {
        Form::Enumeration => left(enumeration(alloc, room, from)),
        Form::Formals => left(formals(alloc, room, from)),
        Form::Include => left(include(alloc, room, from)),
        Form::Literal => left(literal(alloc, room, from)),
        Form::MachineHead => left(machine_head(alloc, room, from)),
        Form::Names => left(names(alloc, room, from)),
        Form::OutPort => left(out_port(alloc, room, from)),
        Form::Parameter => left(parameter(alloc, room, from)),
        Form::Protocol => left(optional_protocol(alloc, room, from)),
        Form::States => left(states(alloc, room, from)),
        Form::Structure => left(structure(alloc, room, from)),
        _ => left(transition(alloc, room, from)),
    }
}

/// Adds how many tokens are left behind the form, the end token counted, or the fault.
pub(crate) fn add_form(rows: &mut RowText, reading: Reading, tokens: &[Token]) {
    match form_left(rows.alloc(), reading.form, reading.depth, tokens) {
        Ok(left) => rows.show("", &left),
        Err(fault) => rows.debug("", &fault),
    }
}
