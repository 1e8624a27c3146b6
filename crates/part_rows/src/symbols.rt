// The symbols of protocols, so that the files in the folder `symbols` and what is written of them are rows of a table: each says what a
// protocol declares, by its names and numbers. What is expected was worked out by hand.
mod list;
mod machines;
mod types;

use crate::protocols::plan_in;
use example_texts::RowText;
use list::add_list;
use ruby_outside::Library;
use ruby_symbols::Symbols;

// The protocols, in the folder `symbols`.
const FILES: &[&str] = &["tick.sm", "msi.sm", "tables.sm", "values.sm", "shared.sm"];

fn add_symbols(rows: &mut RowText, symbols: &Symbols) {
    add_list(rows, "enumeration ", symbols.enumerations.as_slice());
    add_list(rows, "structure ", symbols.structures.as_slice());
    add_list(rows, "machine ", symbols.machines.as_slice());
}

fn add_file<L: Library>(rows: &mut RowText, library: &mut L, file: &str) {
    rows.show("== ", &file);
    rows.add("\n");
    match plan_in(rows, library, "symbols", file) {
        Some(plan) => {
            add_symbols(rows, plan.symbols());
            drop(plan);
        }
        None => rows.add("no plan\n"),
    }
}

/// Adds the symbols of all protocols.
pub(crate) fn add<L: Library>(rows: &mut RowText, library: &mut L) {
    for file in FILES {
        add_file(rows, library, file);
    }
}
