// How a scan ended, what it did to messages, and values, as text.
use controller_rows::ScanEnd;
use ctl_store::Outcome;
use example_texts::RowText;
use ruby_value::{Block, MsgNo, NetDest, Sent, Value};
use run_journal::{FireNote, StopAt};
use trace_print::fault_word;

/// The name of a state.
pub(crate) fn state_name(state: u16) -> &'static str {
    match state {
        0 => "A",
        1 => "B",
        _ => "?",
    }
}

fn event_name(event: u16) -> &'static str {
    match event {
        0 => "Go",
        1 => "Other",
        _ => "?",
    }
}

// A transition that fired.
fn add_fire(rows: &mut RowText, note: &FireNote) {
    rows.show("fired ", &note.address);
    rows.show(" ", &state_name(note.state));
    rows.show(" ", &event_name(note.event));
    rows.show(" ", &state_name(note.next));
}

// The messages of a list, where it has some, by their senders and numbers.
fn add_list(rows: &mut RowText, word: &str, numbers: &[MsgNo]) {
    if numbers.is_empty() {
        return;
    }
    rows.add(word);
    for n in numbers {
        rows.show(" ", &n.sender);
        rows.show(":", &n.count);
    }
}

fn add_sent(rows: &mut RowText, sent: &[Sent]) {
    for s in sent {
        rows.show(", sent ", &s.number.sender);
        rows.show(":", &s.number.count);
        rows.show(" to ", &s.receiver);
        rows.show(" for ", &s.arrival);
    }
}

// What a scan that fired has done to messages: those that it has consumed, stalled, woken and recycled, and each copy that it has sent,
// with its receiver and its arrival.
fn add_acts(rows: &mut RowText, outcome: &Outcome) {
    add_list(rows, ", consumed", outcome.consumed());
    add_list(rows, ", stalled", outcome.stalled());
    add_list(rows, ", woken", outcome.woken());
    add_list(rows, ", recycled", outcome.recycled());
    add_sent(rows, outcome.sent());
}

// Where a scan stopped: what is known of its transition, and `-` for what isn't.
fn add_stop(rows: &mut RowText, at: &StopAt) {
    match at.address {
        Some(address) => rows.show("stop ", &address),
        None => rows.add("stop -"),
    }
    rows.add(" ");
    rows.add(match at.state {
        Some(state) => state_name(state),
        None => "-",
    });
    rows.add(" ");
    rows.add(match at.event {
        Some(event) => event_name(event),
        None => "-",
    });
    rows.add(" ");
    rows.add_bytes(fault_word(&at.fault));
}

/// Adds the name of a scan, and how it ended.
pub(crate) fn add_end(rows: &mut RowText, name: &str, end: &ScanEnd) {
    rows.add(name);
    rows.add(": ");
    match end {
        ScanEnd::Fired(outcome) => {
            add_fire(rows, &outcome.note());
            add_acts(rows, outcome);
        }
        ScanEnd::Idle { stalled: true } => rows.add("idle, stalled"),
        ScanEnd::Idle { stalled: false } => rows.add("idle"),
        ScanEnd::Full => rows.add("full"),
        ScanEnd::Stop(at) => add_stop(rows, at),
    }
}

// The members, separated by `+`.
fn add_members(rows: &mut RowText, members: &NetDest) {
    let mut before = "";
    for number in 0..64_u32 {
        if members.contains(number) {
            rows.show(before, &number);
            before = "+";
        }
    }
}

/// Adds the bytes of a block that aren't 0, each after its place.
pub(crate) fn add_block(rows: &mut RowText, block: &Block) {
    let mut before = "";
    for (place, byte) in block.bytes.iter().enumerate() {
        if *byte != 0 {
            rows.show(before, &place);
            rows.show(":", byte);
            before = "+";
        }
    }
    if before.is_empty() {
        rows.add("zero");
    }
}

/// Adds a value.
pub(crate) fn add_value(rows: &mut RowText, value: &Value) {
    match value {
        Value::Bool(b) => rows.show("", b),
        Value::Int(n) => rows.show("", n),
        Value::Enum(_, member) => rows.show("", member),
        Value::Addr(address) => rows.show("", address),
        Value::Machine(number) => rows.show("", number),
        Value::Dest(members) => add_members(rows, members),
        Value::Block(block) => add_block(rows, block),
        Value::Entry(Some(r)) | Value::Tbe(Some(r)) => rows.show("", &r.line),
        Value::Entry(None) | Value::Tbe(None) => rows.add("nothing"),
    }
}
