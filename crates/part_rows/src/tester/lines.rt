// The lines that are told of a run.
use crate::tester::play::Run;
use example_texts::RowText;
use sequencer::{Ask, Finding, Issued};

/// The line of a run, above those of its requests.
pub(crate) fn add_head(rows: &mut RowText, run: &Run) {
    rows.show("seed ", &run.seed);
    rows.show(" seats ", &run.seats);
    rows.show(" ", &run.script.name());
    rows.show(" checks ", &run.checks);
    rows.show(" deadlock ", &run.deadlock);
    rows.add("\n");
}

fn add_request(rows: &mut RowText, now: u64, issued: &Issued) {
    rows.show("", &now);
    rows.show(" ", &issued.seat);
    rows.show(" ", &issued.asked.line);
    rows.add(match issued.asked.kind {
        Ask::Load => " LD",
        Ask::Store => " ST",
        Ask::Fetch => " IFETCH",
    });
    rows.show(" ", &issued.asked.byte);
    rows.add("\n");
}

/// A line for each request that was issued in a cycle.
pub(crate) fn add_requests(rows: &mut RowText, now: u64, issued: &[Issued]) {
    for i in issued {
        add_request(rows, now, i);
    }
}

/// The line of what was found in a cycle.
pub(crate) fn add_finding(rows: &mut RowText, now: u64, finding: &Finding) {
    rows.show("", &now);
    match finding {
        Finding::Incoherent {
            controller,
            line,
            offset,
            expected,
            found,
        } => {
            rows.show(" incoherent ", controller);
            rows.show(" ", line);
            rows.show(" ", offset);
            rows.show(" ", expected);
            rows.show(" ", found);
        }
        Finding::Deadlock {
            controller,
            line,
            issued,
        } => {
            rows.show(" deadlock ", controller);
            rows.show(" ", line);
            rows.show(" ", issued);
        }
        Finding::Passed { checks } => rows.show(" passed ", checks),
    }
    rows.add("\n");
}
