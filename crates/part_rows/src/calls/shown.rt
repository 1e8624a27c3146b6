// Values and answers as text: a value is its kind's name and its numbers, a block is 128 hexadecimal digits.
use ctl_face::Trouble;
use example_texts::RowText;
use ruby_value::{Block, NetDest, Ref, Value};
use std::fmt;
use trace_print::fault_word;

fn add_controllers(rows: &mut RowText, members: &NetDest) {
    for number in 0..64_u32 {
        if members.contains(number) {
            rows.show(" ", &number);
        }
    }
}

// Two hexadecimal digits.
#[derive(Clone, Copy)]
struct Hexadecimal(u8);

impl fmt::Display for Hexadecimal {
    fn fmt<W: fmt::Write>(&self, f: &mut fmt::Formatter<W>) -> fmt::Result {
        write!(f, "{:02x}", self.0)
    }
}

fn add_block(rows: &mut RowText, block: &Block) {
    rows.add("Block ");
    for byte in &block.bytes {
        rows.show("", &Hexadecimal(*byte));
    }
}

/// Adds a word, and the numbers of a line that a reference names, if it names one.
pub(crate) fn add_reference(rows: &mut RowText, word: &str, r: &Option<Ref>) {
    rows.add(word);
    match r {
        Some(r) => {
            rows.show(" ", &r.table);
            rows.show(" ", &r.line);
        }
        None => rows.add(" none"),
    }
}

/// Adds a value.
pub(crate) fn add_value(rows: &mut RowText, value: &Value) {
    match value {
        Value::Bool(b) => rows.show("Bool ", b),
        Value::Int(n) => rows.show("Int ", n),
        Value::Enum(enumeration, member) => {
            rows.show("Enum ", enumeration);
            rows.show(" ", member);
        }
        Value::Addr(address) => rows.show("Addr ", address),
        Value::Machine(number) => rows.show("Machine ", number),
        Value::Dest(members) => {
            rows.add("Dest");
            add_controllers(rows, members);
        }
        Value::Block(block) => add_block(rows, block),
        Value::Entry(r) => add_reference(rows, "Entry", r),
        Value::Tbe(r) => add_reference(rows, "Tbe", r),
    }
}

/// Adds what a call answers, with the end of the line: its value, `done` where it has none, or its fault.
pub(crate) fn add_answer(rows: &mut RowText, answer: &Result<Option<Value>, Trouble>) {
    match answer {
        Ok(Some(v)) => add_value(rows, v),
        Ok(None) => rows.add("done"),
        Err(Trouble::Fault(fault)) => {
            rows.add("fault ");
            rows.add_bytes(fault_word(fault));
        }
        Err(Trouble::NoMemory) => rows.add("no memory"),
    }
    rows.add("\n");
}

/// Adds the arguments of a call, in parentheses.
pub(crate) fn add_arguments(rows: &mut RowText, values: &[Value]) {
    let mut before = "(";
    for v in values {
        rows.add(before);
        add_value(rows, v);
        before = ", ";
    }
    rows.add(if values.is_empty() { "(): " } else { "): " });
}
