// What is told of a topology, or of its fault.
use crate::lists::{add_names, show_all};
use example_texts::RowText;
use ruby_base::Seq;
use ruby_topology::{Routes, Seat, Sizes, TopoFault, Topology};

// More controllers than these have their paths printed as a sum and a number that tells two tables apart.
const FEW: usize = 4;

fn add_paths(rows: &mut RowText, paths: &[Seq<u64>]) {
    rows.add("; paths");
    for row in paths {
        rows.add(" /");
        show_all(rows, " ", row.as_slice());
    }
}

// The sum of paths, and a number from all of them in their order.
fn mixed(row: &[u64], mut all: (u64, u64)) -> (u64, u64) {
    for path in row {
        all.0 = all.0.wrapping_add(*path);
        all.1 = all.1.wrapping_mul(31).wrapping_add(*path) % 1_000_003;
    }
    all
}

fn add_sums(rows: &mut RowText, paths: &[Seq<u64>]) {
    let mut all = (0, 0);
    for row in paths {
        all = mixed(row.as_slice(), all);
    }
    rows.show("; sum ", &all.0);
    rows.show(" mixed ", &all.1);
}

fn add_receivers(rows: &mut RowText, controller: usize, buffers: &[Option<u16>]) {
    for (network, buffer) in buffers.iter().enumerate() {
        if let Some(number) = buffer {
            rows.show(" ", &controller);
            rows.show(".", &network);
            rows.show(".", number);
        }
    }
}

fn add_routes(rows: &mut RowText, routes: &Routes) {
    if routes.paths.len() <= FEW {
        add_paths(rows, &routes.paths);
    } else {
        add_sums(rows, &routes.paths);
    }
    rows.show("; jitter ", &routes.jitter);
    rows.add("; ordered");
    for (network, keeps) in routes.ordered.iter().enumerate() {
        if *keeps {
            rows.show(" ", &network);
        }
    }
    rows.add("; receiving");
    for (controller, buffers) in routes.receiving.iter().enumerate() {
        if routes.paths.len() <= FEW {
            add_receivers(rows, controller, buffers.as_slice());
        }
    }
    for (controller, buffer, size) in &routes.slots {
        rows.show("; size ", controller);
        rows.show(".", buffer);
        rows.show(" ", size);
    }
}

fn add_sizes(rows: &mut RowText, sizes: &Sizes) {
    rows.add("; sizes");
    for (first, count) in &sizes.machines {
        rows.show(" ", first);
        rows.show("+", count);
    }
    for (table, sets, ways) in &sizes.caches {
        rows.show(" cache ", table);
        rows.show(" ", sets);
        rows.show(" ", ways);
    }
    for (table, entries) in &sizes.tbes {
        rows.show(" tbes ", table);
        rows.show(" ", entries);
    }
    for (value, number) in &sizes.parameters {
        rows.show(" set ", value);
        rows.show(" ", &number.unsigned_abs());
    }
}

fn add_seats(rows: &mut RowText, seats: &[Seat]) {
    rows.add("; seats");
    for seat in seats {
        rows.show(" ", &seat.controller);
        if !seat.sequencer {
            rows.add(" without");
        }
    }
}

fn add_topology(rows: &mut RowText, topology: &Topology) {
    rows.add("counts");
    show_all(rows, " ", topology.counts.as_slice());
    if topology.names().len() <= FEW {
        rows.add("; names");
        add_names(rows, topology.names().as_slice());
    }
    add_routes(rows, &topology.routes);
    for sizes in &topology.sizes {
        add_sizes(rows, sizes);
    }
    add_seats(rows, &topology.seats);
}

/// Adds what is told of an answer: a topology's parts, or the line and the rule that it breaks.
pub(crate) fn add_answer(rows: &mut RowText, answer: &Result<Topology, TopoFault>) {
    match answer {
        Ok(topology) => add_topology(rows, topology),
        Err(TopoFault::NoMemory) => rows.lose(),
        Err(TopoFault::Line { rule, line }) => {
            rows.show("", line);
            rows.show(" T", rule);
        }
    }
    rows.add("\n");
}
