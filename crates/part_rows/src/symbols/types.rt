// The types of a protocol.
use crate::lists::add_names;
use crate::symbols::list::{Declared, add_list, add_named};
use example_texts::RowText;
use ruby_symbols::{EnumerationSymbol, FieldSymbol, StructureSymbol};
use ruby_value::Value;

impl Declared for EnumerationSymbol {
    fn add(&self, rows: &mut RowText, word: &str, number: usize) {
        add_named(rows, word, number, &self.name);
        rows.debug(" of ", &self.machine);
        rows.show(" default ", &self.default);
        rows.add(":");
        add_names(rows, self.members.as_slice());
        rows.add("\n");
    }
}

// A value that isn't empty by its kind, with the end of the line.
fn add_value(rows: &mut RowText, value: &Value) {
    match value {
        Value::Bool(b) => rows.show(" = ", b),
        Value::Int(n) => rows.show(" = ", n),
        Value::Enum(_, member) => rows.show(" = ", member),
        Value::Addr(address) => rows.show(" = ", address),
        Value::Machine(controller) => rows.show(" = ", controller),
        Value::Dest(_) | Value::Block(_) | Value::Entry(_) | Value::Tbe(_) => {}
    }
    rows.add("\n");
}

impl Declared for FieldSymbol {
    fn add(&self, rows: &mut RowText, word: &str, number: usize) {
        add_named(rows, word, number, &self.name);
        rows.debug(" ", &self.kind);
        add_value(rows, &self.initial);
    }
}

impl Declared for StructureSymbol {
    fn add(&self, rows: &mut RowText, word: &str, number: usize) {
        add_named(rows, word, number, &self.name);
        rows.debug(" of ", &self.machine);
        rows.add("\n");
        add_list(rows, "  field ", self.fields.as_slice());
    }
}
