// Names by their numbers, rows of tables and lines that transitions need, of the two protocols of the rows.
ghost use Rattle.std.specs.Prelude.{◌≤◌, length};
ghost use Rattle.slicc_parse.specs.Prelude.{AreEndedOnce};
ghost use Rattle.slicc_plan.specs.Prelude.{HasFewMachines};

use example_texts::RowText;
use machine_table::build_of_trees;
use ruby_base::{Seq, Text};
use slicc_ast::tree::Tree;
use slicc_flow::flow_of_trees;
use slicc_lex::Token;
use slicc_names::{Names, collect};
use slicc_parse::parse;
use slicc_plan::{Next, Row, machine_at};
use std::alloc::Global;

// Scopes and names in them. The protocol is scope 0.
const NAMES: &[(u16, &str)] = &[
    (0, "Lamp"),
    (1, "State"),
    (1, "Event"),
    (1, "b"),
    (0, "State"),
    (1, "Off"),
    (2, "State"),
];

// States and events.
const PAIRS: &[(u16, u16)] = &[(0, 0), (1, 0), (1, 1), (0, 1), (2, 0), (0, 2)];

// Machines, transitions and tables.
const NEEDS: &[(u16, u32, u16)] = &[
    // an action that is listed twice counts twice
    (0, 0, 1),
    // in both branches and in a block inside of one of them
    (0, 0, 2),
    // caches are tables
    (0, 0, 0),
    // a name that no action has
    (0, 1, 1),
    (0, 1, 2),
    // no actions, no such transition, no such table
    (0, 2, 1),
    (0, 3, 1),
    (0, 0, 3),
    // another machine's tables are numbered anew
    (1, 0, 0),
    (2, 0, 0),
];

fn trees_of(alloc: Global, tokens: &Seq<Token>) -> Option<Seq<Tree>>
    requires once { AreEndedOnce tokens.now }
    requires size { length tokens.now ≤ 1048577 }
{
    let Ok(tree) = parse(alloc, tokens) else {
        return None;
    };
    let mut trees = Seq::new(alloc);
    match trees.push(tree) {
        Ok(()) => Some(trees),
        Err(_) => {
            drop(trees);
            None
        }
    }
}

fn add_name(rows: &mut RowText, names: &Names, scope: u16, name: &str) {
    rows.show("", &scope);
    rows.show(" ", &name);
    match &Text::copied(rows.alloc(), name.as_bytes()) {
        Ok(text) => match names.find(scope, text) {
            Some(number) => rows.show(" ", &number),
            None => rows.add(" none"),
        },
        Err(_) => rows.lose(),
    }
    rows.add("; ");
}

// Adds the next state, or a star where the machine is asked for it, the transition, how many actions there are, and the first of
// them or 0.
fn add_row(rows: &mut RowText, row: Option<&Row>) {
    match row {
        Some(row) => {
            match row.next {
                Next::To(state) => rows.show(" ", &state),
                Next::Asked => rows.add(" *"),
            }
            rows.show(" ", &row.transition);
            rows.show(" ", &row.actions.len());
            rows.show(" ", row.actions.first().unwrap_or(&0));
        }
        None => rows.add(" none"),
    }
}

fn add_rows(rows: &mut RowText, trees: &[Tree])
    requires { HasFewMachines trees.now }
{
    match &build_of_trees(rows.alloc(), trees) {
        Ok(tables) => {
            let mut before = "";
            for (state, event) in PAIRS {
                rows.show(before, state);
                rows.show(" ", event);
                add_row(rows, tables.row(0, *state, *event));
                before = "; ";
            }
        }
        Err(_) => rows.lose(),
    }
}

// Adds the numbers of names, and the rows of the first machine, of a protocol whose declarations keep all rules.
fn add_found(rows: &mut RowText, trees: &Seq<Tree>) {
    match &collect(rows.alloc(), trees) {
        Ok(names) => {
            for (scope, name) in NAMES {
                add_name(rows, names, *scope, name);
            }
            add_rows(rows, trees);
        }
        Err(_) => rows.lose(),
    }
}

/// Adds the numbers of names, and the rows of the first machine.
pub(crate) fn add_numbers(rows: &mut RowText, tokens: &Seq<Token>)
    requires once { AreEndedOnce tokens.now }
    requires size { length tokens.now ≤ 1048577 }
{
    match trees_of(rows.alloc(), tokens) {
        Some(trees) => {
            add_found(rows, &trees);
            drop(trees);
        }
        None => rows.lose(),
    }
}

fn add_lines(rows: &mut RowText, trees: &[Tree]) {
    // A protocol within its limits has 16 machines at most.
    let None = machine_at(trees, 16) else {
        return rows.lose();
    };
    match &flow_of_trees(rows.alloc(), trees) {
        Ok(flow) => {
            let mut before = "";
            for (machine, transition, table) in NEEDS {
                rows.show(before, machine);
                rows.show(" ", transition);
                rows.show(" ", table);
                rows.show(" ", &flow.needs(*machine, *transition, *table));
                before = "; ";
            }
        }
        Err(_) => rows.lose(),
    }
}

/// Adds how many lines transitions need in tables.
pub(crate) fn add_needs(rows: &mut RowText, tokens: &Seq<Token>)
    requires once { AreEndedOnce tokens.now }
    requires size { length tokens.now ≤ 1048577 }
{
    match trees_of(rows.alloc(), tokens) {
        Some(trees) => {
            add_lines(rows, &trees);
            drop(trees);
        }
        None => rows.lose(),
    }
}
