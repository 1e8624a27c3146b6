// The machines of a protocol.
use crate::lists::show_all;
use crate::symbols::list::{Declared, add_list, add_named};
use example_texts::RowText;
use ruby_symbols::{
    ActionSymbol, BufferSymbol, FormalSymbol, FunctionSymbol, MachineSymbols, Next, PortSymbol,
    TableSort, TableSymbol, TransitionSymbol,
};
use ruby_value::BufferPlace;

// Numbers that may not be there, each after a word.
fn add_numbers(rows: &mut RowText, numbers: &[(&str, Option<u16>)]) {
    for (word, number) in numbers {
        rows.debug(word, number);
    }
}

fn add_sort(rows: &mut RowText, sort: TableSort) {
    match sort {
        TableSort::Cache => rows.add(" cache\n"),
        TableSort::Directory => rows.add(" directory\n"),
        TableSort::Tbe { entries } => {
            rows.show(" of ", &entries);
            rows.add(" entries\n");
        }
    }
}

impl Declared for TableSymbol {
    fn add(&self, rows: &mut RowText, word: &str, number: usize) {
        add_named(rows, word, number, &self.name);
        rows.show(" structure ", &self.structure);
        add_sort(rows, self.sort);
    }
}

fn add_place(rows: &mut RowText, place: BufferPlace) {
    match place {
        BufferPlace::Local => rows.add(" local"),
        BufferPlace::To {
            network,
            destination,
        } => {
            rows.show(" to ", &network);
            rows.debug(" by ", &destination);
        }
        BufferPlace::From { network } => rows.show(" from ", &network),
    }
}

impl Declared for BufferSymbol {
    fn add(&self, rows: &mut RowText, word: &str, number: usize) {
        add_named(rows, word, number, &self.name);
        rows.debug(" message ", &self.message);
        rows.show(" ordered ", &self.ordered);
        add_place(rows, self.place);
        rows.add("\n");
    }
}

impl Declared for PortSymbol {
    fn add(&self, rows: &mut RowText, word: &str, number: usize) {
        add_named(rows, word, number, &self.name);
        rows.show(" on ", &self.buffer);
        rows.show(" at ", &self.declaration);
        rows.add("\n");
    }
}

fn add_formal(rows: &mut RowText, formal: &FormalSymbol) {
    if let Some(name) = &formal.name {
        rows.add(" ");
        rows.add_bytes(name);
    }
    rows.debug(" ", &formal.kind);
}

impl Declared for FunctionSymbol {
    fn add(&self, rows: &mut RowText, word: &str, number: usize) {
        add_named(rows, word, number, &self.name);
        rows.show(" at ", &self.declaration);
        rows.debug(" gives ", &self.result);
        rows.add(" takes");
        for formal in &self.formals {
            add_formal(rows, formal);
        }
        rows.add("\n");
    }
}

impl Declared for ActionSymbol {
    fn add(&self, rows: &mut RowText, word: &str, number: usize) {
        add_named(rows, word, number, &self.name);
        rows.show(" at ", &self.declaration);
        rows.add("\n");
    }
}

// The state after a transition: one that it names, a star where it is asked for, or none.
fn add_next(rows: &mut RowText, next: Option<Next>) {
    match next {
        None => rows.add(" to None"),
        Some(Next::To(state)) => rows.debug(" to ", &Some(state)),
        Some(Next::Asked) => rows.add(" to *"),
    }
}

impl Declared for TransitionSymbol {
    fn add(&self, rows: &mut RowText, word: &str, number: usize) {
        rows.show(word, &number);
        rows.add(" from");
        show_all(rows, " ", self.states.as_slice());
        rows.add(" on");
        show_all(rows, " ", self.events.as_slice());
        add_next(rows, self.next);
        rows.add(" does");
        show_all(rows, " ", self.actions.as_slice());
        rows.add("\n");
    }
}

fn add_objects(rows: &mut RowText, m: &MachineSymbols) {
    add_list(rows, "  table ", m.tables.as_slice());
    add_list(rows, "  value ", m.values.as_slice());
    add_list(rows, "  reference ", m.references.as_slice());
    add_list(rows, "  buffer ", m.buffers.as_slice());
    if let Some(sequencer) = &m.sequencer {
        rows.add("  sequencer ");
        rows.add_bytes(sequencer);
        rows.add("\n");
    }
}

fn add_bodies(rows: &mut RowText, m: &MachineSymbols) {
    add_list(rows, "  in port ", m.in_ports.as_slice());
    add_list(rows, "  out port ", m.out_ports.as_slice());
    add_list(rows, "  function ", m.functions.as_slice());
    add_list(rows, "  action ", m.actions.as_slice());
    add_list(rows, "  transition ", m.transitions.as_slice());
}

// The numbers that a machine has of its structures, and of its functions and its action with a meaning of their own.
fn add_structures(rows: &mut RowText, m: &MachineSymbols) {
    let structures = [
        ("\n  entry ", m.entry),
        (" directory ", m.directory),
        (" TBE ", m.tbe),
    ];
    add_numbers(rows, &structures);
    rows.add("\n");
}

fn add_calls(rows: &mut RowText, m: &MachineSymbols) {
    let calls = [
        ("  getState ", m.get_state),
        (" setState ", m.set_state),
        (" setAccessPermission ", m.set_permission),
        (" getNextState ", m.get_next_state),
        (" z_stall ", m.stall),
    ];
    add_numbers(rows, &calls);
    rows.add("\n");
}

impl Declared for MachineSymbols {
    fn add(&self, rows: &mut RowText, word: &str, number: usize) {
        add_named(rows, word, number, &self.name);
        rows.show(" states ", &self.states);
        rows.show(" events ", &self.events);
        rows.add("\n  permissions");
        show_all(rows, " ", self.permissions.as_slice());
        add_structures(rows, self);
        add_objects(rows, self);
        add_bodies(rows, self);
        add_calls(rows, self);
    }
}
