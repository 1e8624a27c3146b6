// What is left of a controller after its scan: the cycles at which it must wake, how many messages it has, the states of its lines, the
// lines of its tables, what its scan has sent to another controller, and the requests that its scan has finished.
use crate::shown::{add_block, add_value, state_name};
use acts::{Local, Ref, Value, get, lookup, state};
use ctl_face::{Fields, MachineSetup, Message, NoMemory, Parcel};
use ctl_store::Store;
use example_texts::RowText;
use ruby_value::{Answer, Ask, Delivery};

// The lines that the rows speak of, of 64 bytes each.
const LINES: [u64; 3] = [0, 1, 3];

// The tables of the protocol of the rows by their numbers: each with its name, whether it has all lines, and its fields.
const TABLES: &[(&str, bool, &[&str])] = &[
    (
        "cache",
        false,
        &[
            "Count", "Sharers", "DataBlk", "Dirty", "Where", "Owner", "Kept",
        ],
    ),
    ("dir", true, &["Count"]),
    ("tbes", false, &["Count", "DataBlk"]),
];

// The fields of its messages.
const MESSAGE: &[&str] = &["Destination", "Count", "DataBlk", "Where"];

// Adds something that is left: a line of a table by its byte address, a copy by its receiver, or a finished request by the byte address of
// its line.
fn add_thing(rows: &mut RowText, what: &str, number: u64) {
    rows.add("; ");
    rows.add(what);
    rows.show(" ", &number);
}

// Adds a field, if it differs from what it began with.
fn add_field(rows: &mut RowText, name: &str, value: &Value, first: Option<&Value>) {
    if first != Some(value) {
        rows.add(" ");
        rows.add(name);
        rows.add(" ");
        add_value(rows, value);
    }
}

fn add_count(rows: &mut RowText, word: &str, n: u64) {
    if n > 0 {
        rows.show(word, &n);
    }
}

/// Adds the cycles at which a controller must wake, from a cycle on, and how many messages are queued, stalled and recycled.
pub(crate) fn add_mail(rows: &mut RowText, store: &Store, now: u64) {
    let mut from = now;
    let mut word = "; marks ";
    for _ in 0..u64::MAX {
        let Some(mark) = store.next_mark(from) else {
            break;
        };
        rows.show(word, &mark);
        word = " ";
        from = mark.saturating_add(1);
    }
    let (queued, stalled, recycled) = store.census();
    add_count(rows, "; queued ", queued);
    add_count(rows, "; stalled ", stalled);
    add_count(rows, "; recycled ", recycled);
}

// Adds the state of a line in the built-in map, where it isn't the default.
fn add_state<L: Local>(rows: &mut RowText, local: &L, line: u64) {
    if let Ok(now) = state(local, line) {
        if local.machine().default_state != Some(now) {
            rows.show("; ", &line.wrapping_mul(64));
            rows.add(" in ");
            rows.add(state_name(now));
        }
    }
}

// Whether a field has this value.
fn has<L: Local>(local: &L, r: &Ref, field: u16, value: &Value) -> bool {
    match get(local, r, field) {
        Ok(now) => now == *value,
        Err(_) => false,
    }
}

// Whether all fields of a line have the values that they began with.
fn is_initial<L: Local>(local: &L, r: &Ref, initial: &Fields) -> bool {
    for (field, first) in (0..u16::MAX).zip(initial.as_slice()) {
        if !has(local, r, field, first) {
            return false;
        }
    }
    true
}

// Adds the fields of a line that differ from a new line's.
fn add_fields<L: Local>(rows: &mut RowText, local: &L, r: &Ref, names: &[&str], initial: &Fields) {
    for (field, name) in (0..u16::MAX).zip(names) {
        match get(local, r, field) {
            Ok(value) => add_field(rows, name, &value, initial.get(field)),
            Err(_) => rows.lose(),
        }
    }
}

// Adds a line of a table, if the table has it, and of a table that has all lines, if it was written.
fn add_line<L: Local>(rows: &mut RowText, local: &L, table: u16, line: u64) {
    let (Some((what, has_all, names)), Some(setup)) = (
        TABLES.get(usize::from(table)),
        local.machine().tables.get(usize::from(table)),
    ) else {
        return;
    };
    let Ok(Some(r)) = lookup(local, table, line) else {
        return;
    };
    if *has_all && is_initial(local, &r, &setup.initial) {
        return;
    }
    add_thing(rows, what, line.wrapping_mul(64));
    add_fields(rows, local, &r, names, &setup.initial);
}

/// Adds the states of lines and the lines of tables, by a local of the controller.
pub(crate) fn add_lines<L: Local>(rows: &mut RowText, local: &L) {
    for line in LINES {
        add_state(rows, local, line);
    }
    for table in 0..3 {
        for line in LINES {
            add_line(rows, local, table, line);
        }
    }
}

// Adds the fields of a copy that differ from what they began with.
fn add_message(rows: &mut RowText, message: &Message, initial: &Fields) {
    for (field, name) in (0..u16::MAX).zip(MESSAGE) {
        if let Some(value) = message.fields.get(field) {
            add_field(rows, name, value, initial.get(field));
        }
    }
}

fn add_copy(rows: &mut RowText, machine: &MachineSetup, receiver: u32, message: &Message) {
    add_thing(rows, "copy for", u64::from(receiver));
    let Some(buffer) = machine.buffers.get(usize::from(message.buffer)) else {
        return rows.lose();
    };
    match Fields::of_kinds(rows.alloc(), &buffer.kinds) {
        Ok(initial) => {
            add_message(rows, message, &initial);
            drop(initial);
        }
        Err(NoMemory) => rows.lose(),
    }
}

/// Adds the copies and credits that were sent to another controller of the machine.
pub(crate) fn add_copies(rows: &mut RowText, machine: &MachineSetup, copies: &[Delivery<Parcel>]) {
    for copy in copies {
        match &copy.message {
            Parcel::Message(message) => add_copy(rows, machine, copy.receiver, message),
            Parcel::Credit(_) => add_thing(rows, "credit for", u64::from(copy.receiver)),
        }
    }
}

// Takes the next request that was finished out of the controller's sequencer, if there is one.
fn take_answer(store: &mut Store) -> Option<Answer> {
    match store.sequencer() {
        Some(sequencer) => sequencer.take_done(),
        None => None,
    }
}

/// Adds the requests that were finished, which it takes out of the sequencer; a controller had two.
pub(crate) fn add_requests(rows: &mut RowText, store: &mut Store) {
    for _ in 0..2 {
        if let Some(answer) = take_answer(store) {
            let what = match answer.asked.kind {
                Ask::Load => "load",
                Ask::Store => "store",
                Ask::Fetch => "fetch",
            };
            add_thing(rows, what, answer.asked.line.wrapping_mul(64));
            rows.add(" DataBlk ");
            add_block(rows, &answer.block);
        }
    }
}
