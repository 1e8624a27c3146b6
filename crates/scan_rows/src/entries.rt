// The lines of a journal: of each entry what a trace has of it, and below it what a trace leaves out, which is the lists of messages of a
// transition. The end of a wake-up and a turn have a line of their own.
use example_texts::RowText;
use ruby_base::{Seq, Text};
use ruby_outside::{Sink, put};
use run_journal::{EndRef, EntryRef, Finding, Journal, MsgNo, Sent, Verdict};
use slicc_plan::Plan;
use std::alloc::Global;
use trace_print::write_entry;

// Numbers of messages after a word, as `SENDER.COUNT` with commas between them, or `-` where there is none.
fn add_numbers(rows: &mut RowText, word: &str, numbers: &[MsgNo]) {
    let mut before = word;
    for number in numbers {
        rows.show(before, &number.sender);
        rows.show(".", &number.count);
        before = ",";
    }
    if numbers.is_empty() {
        rows.show(word, &"-");
    }
}

// Copies that were sent, as `SENDER.COUNT>RECEIVER:BUFFER@ARRIVAL`, in the same way.
fn add_copies(rows: &mut RowText, word: &str, copies: &[Sent]) {
    let mut before = word;
    for sent in copies {
        rows.show(before, &sent.number.sender);
        rows.show(".", &sent.number.count);
        rows.show(">", &sent.receiver);
        rows.show(":", &sent.buffer);
        rows.show("@", &sent.arrival);
        before = ",";
    }
    if copies.is_empty() {
        rows.show(word, &"-");
    }
}

fn finding_word(finding: &Option<Finding>) -> &'static str {
    match finding {
        None => "-",
        Some(Finding::Incoherent { .. }) => "incoherent",
        Some(Finding::Deadlock { .. }) => "deadlock",
        Some(Finding::Passed { .. }) => "passed",
    }
}

fn verdict_word(verdict: &Option<Verdict>) -> &'static str {
    match verdict {
        None => "-",
        Some(Verdict::Stop { .. }) => "stop",
        Some(Verdict::Incoherent { .. }) => "incoherent",
        Some(Verdict::Deadlock { .. }) => "deadlock",
        Some(Verdict::Passed { .. }) => "passed",
        Some(Verdict::Quiet { .. }) => "quiet",
        Some(Verdict::Cycles { .. }) => "cycles",
        Some(Verdict::Journal { .. }) => "journal",
        Some(Verdict::Mail { .. }) => "mail",
    }
}

// The line of the end of a wake-up that no trace has.
fn add_end(rows: &mut RowText, names: &[Text], cycle: u64, controller: u32, end: EndRef<'_>) {
    let word = match end {
        EndRef::Idle => "idle ",
        EndRef::Full => "full ",
        EndRef::Stop(_) => return,
    };
    rows.show(word, &cycle);
    rows.add(" ");
    match names.get(controller as usize) {
        Some(name) => rows.add_bytes(name),
        None => rows.lose(),
    }
    rows.add("\n");
}

// What a trace leaves out of an entry.
fn add_rest(rows: &mut RowText, names: &[Text], e: EntryRef<'_>) {
    match e {
        EntryRef::Fired { lists, .. } => {
            add_numbers(rows, "  consumed ", lists.consumed);
            add_copies(rows, " sent ", lists.sent);
            add_numbers(rows, " stalled ", lists.stalled);
            add_numbers(rows, " woken ", lists.woken);
            add_numbers(rows, " recycled ", lists.recycled);
            rows.add("\n");
        }
        EntryRef::Ended {
            cycle,
            controller,
            end,
        } => add_end(rows, names, cycle, controller, end),
        EntryRef::Turned {
            cycle,
            issued,
            finding,
            verdict,
        } => {
            rows.show("turned ", &cycle);
            add_numbers(rows, " issued ", issued);
            rows.show(" finding ", &finding_word(&finding));
            rows.show(" verdict ", &verdict_word(&verdict));
            rows.add("\n");
        }
    }
}

// Writes the lines of an entry, and answers whether they were written whole.
fn write_lines<S: Sink>(
    alloc: Global,
    sink: &mut S,
    plan: &Plan,
    names: &Seq<Text>,
    e: EntryRef<'_>,
) -> bool {
    let mut rest = RowText::new(alloc);
    add_rest(&mut rest, names.as_slice(), e);
    write_entry(sink, plan, names, e) && put(sink, rest.bytes()) && rest.is_whole()
}

/// Writes the lines of a journal until one isn't written whole, and answers whether all were.
pub fn write_entries<S: Sink>(
    alloc: Global,
    sink: &mut S,
    plan: &Plan,
    names: &Seq<Text>,
    journal: &Journal,
) -> bool {
    for place in 0..journal.len() {
        if !write_lines(alloc, sink, plan, names, journal.entry(place)) {
            return false;
        }
    }
    true
}
