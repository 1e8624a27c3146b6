// The rows of the table.
use crate::protocols::plan_in;
use crate::topologies::answer::add_answer;
use example_texts::RowText;
use ruby_outside::Library;
use ruby_topology::{TopoFault, Topology, plain, read_topology};
use slicc_plan::Plan;
use std::alloc::Global;

// The most bytes that a topology may have.
const LARGEST: usize = 1_048_576;

// The byte that a byte of a row stands for: a semicolon is a line feed, and a tilde a tab.
fn meant(b: u8) -> u8 {
    match b {
        b';' => b'\n',
        b'~' => b'\t',
        _ => b,
    }
}

// Adds the file of a row: a topology, or one comment of the greatest size.
fn add_file(file: &mut RowText, row: &str) {
    if row == "comment" {
        for _ in 0..LARGEST {
            file.add("#");
        }
    } else {
        for b in row.as_bytes() {
            file.add_bytes(&[meant(*b)]);
        }
    }
}

fn read(alloc: Global, file: &RowText, plan: &Plan) -> Result<Topology, TopoFault> {
    let bytes = file.bytes();
    if LARGEST < bytes.len() || !file.is_whole() {
        return Err(TopoFault::NoMemory);
    }
    read_topology(alloc, bytes, plan)
}

// The answer for a row: a plain run, or what the topology of its file is.
fn answer(alloc: Global, row: &str, plan: &Plan) -> Result<Topology, TopoFault> {
    if row == "plain" {
        return plain(alloc, plan);
    }
    let mut file = RowText::new(alloc);
    add_file(&mut file, row);
    let topology = read(alloc, &file, plan);
    drop(file);
    topology
}

// Adds the line of a row, for the protocol of the file of this name.
fn add_line<L: Library>(rows: &mut RowText, library: &mut L, protocol: &str, row: &str) {
    match plan_in(rows, library, "topologies", protocol) {
        Some(plan) => {
            let answer = answer(rows.alloc(), row, &plan);
            add_answer(rows, &answer);
            drop(answer);
            drop(plan);
        }
        None => rows.add("no plan\n"),
    }
}

/// Adds the line of each row, which names the file of its protocol, and after a colon has its topology.
pub(crate) fn add_rows<L: Library>(rows: &mut RowText, library: &mut L, list: &str) {
    for row in list.lines() {
        match row.split_once(':') {
            Some((protocol, topology)) => add_line(rows, library, protocol, topology),
            None => rows.add("no row\n"),
        }
    }
}
