// Which protocols are the same: of each pair of files in the folders `pairs` and `symbols` whether they are one protocol, as they are where they
// differ in blanks and comments alone, and not where a file includes what the other has. What is expected was worked out by hand.
use crate::protocols::plan_in;
use example_texts::RowText;
use ruby_outside::Library;
use slicc_plan::{Plan, same_plan};

// A folder and a file in it.
type File = (&'static str, &'static str);

const TICK: File = ("pairs", "tick.sm");

const SPACED: File = ("pairs", "spaced.sm");

const HALF: File = ("pairs", "half.sm");

const INCLUDING: File = ("pairs", "including.sm");

const MSI: File = ("symbols", "msi.sm");

const PAIRS: &[(File, File)] = &[
    (TICK, TICK),
    (MSI, MSI),
    (TICK, SPACED),
    (TICK, HALF),
    (TICK, MSI),
    (INCLUDING, INCLUDING),
    (INCLUDING, TICK),
];

fn add_name(rows: &mut RowText, file: File, after: &str) {
    rows.add(file.0);
    rows.add("/");
    rows.add(file.1);
    rows.add(after);
}

// Adds whether a plan is that of a file.
fn add_answer<L: Library>(rows: &mut RowText, library: &mut L, plan: &Plan, other: File) {
    match plan_in(rows, library, other.0, other.1) {
        Some(other) => {
            let is_same = same_plan(plan, &other);
            drop(other);
            rows.add(if is_same {
                "the same\n"
            } else {
                "not the same\n"
            });
        }
        None => rows.lose(),
    }
}

fn add_pair<L: Library>(rows: &mut RowText, library: &mut L, first: File, second: File) {
    add_name(rows, first, " ");
    add_name(rows, second, ": ");
    match plan_in(rows, library, first.0, first.1) {
        Some(plan) => {
            add_answer(rows, library, &plan, second);
            drop(plan);
        }
        None => rows.lose(),
    }
}

/// Adds which of the pairs are the same.
pub(crate) fn add<L: Library>(rows: &mut RowText, library: &mut L) {
    for (first, second) in PAIRS {
        add_pair(rows, library, *first, *second);
    }
}
