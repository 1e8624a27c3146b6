// The lines of a machine's table, and names by their numbers.
ghost use Rattle.std.specs.Prelude.{Some, map, ◌≡◌, ◌==◌, ◌<◌, IfSome, length, position, slice_get};
ghost use Rattle.std.specs.Option.{option_copied};
ghost use Rattle.ruby_outside.specs.Prelude.{IsWritten};
ghost use Rattle.slicc_plan.specs.Prelude.{symbols_of};
ghost use Rattle.trace_print.specs.Prelude.{IsAdded, spaced, action_word, AreLinesPut, IsLinePut, text_of, action_words, row_line, row_lines, or_dash, action_name, controller_machine, controller_word, event_word, machine_at, machine_of, machine_part, machine_word, member_name, next_word, state_word};

use crate::Word;
use crate::line::{Held, add_spaced, begin_line, end_line};
use arrayvec::ArrayVec;
use ruby_base::{Seq, Text};
use ruby_outside::Sink;
use ruby_symbols::{MachineSymbols, Next, Symbols, machine_named};
use slicc_plan::{Plan, Row};

fn add_each<S: Sink>(
    sink: &mut S,
    line: &mut Held,
    m: Option<&MachineSymbols>,
    actions: &[u16],
) -> bool
    ensures { IsAdded S.writes sink.old line.old.items
        (spaced (map (action_word (option_copied m.entry)) actions.now)) result sink.new
        line.new.items }
{
    for action in actions {
        if !add_spaced(sink, line, &Word::Bytes(action_word(m, *action))) {
            return false;
        }
    }
    true
}

fn add_actions<S: Sink>(
    sink: &mut S,
    line: &mut Held,
    m: Option<&MachineSymbols>,
    actions: &[u16],
) -> bool
    ensures { IsAdded S.writes sink.old line.old.items
        (spaced (action_words (option_copied m.entry) actions.now)) result sink.new line.new.items }
{
    if actions.is_empty() {
        return add_spaced(sink, line, &Word::Bytes(b"-"));
    }
    add_each(sink, line, m, actions)
}

fn next_word<'a>(symbols: &'a Symbols, m: Option<&MachineSymbols>, next: Next) -> &'a [u8]
    ensures { result.now ≡ next_word symbols.now (option_copied m.entry) next }
{
    match next {
        Next::To(state) => state_word(symbols, m, state),
        Next::Asked => b"*",
    }
}

fn write_row<S: Sink>(
    sink: &mut S,
    symbols: &Symbols,
    m: Option<&MachineSymbols>,
    row: &Row,
) -> bool
    ensures { IsLinePut S.writes sink.old (row_line symbols.now (option_copied m.entry) row.now)
        result sink.new }
{
    let mut line = ArrayVec::new();
    let state = Word::Bytes(state_word(symbols, m, row.state));
    let event = Word::Bytes(event_word(symbols, m, row.event));
    let next = Word::Bytes(next_word(symbols, m, row.next));
    if !begin_line(sink, &mut line, machine_word(m), &[state, event, next]) {
        return false;
    }
    if !add_actions(sink, &mut line, m, &row.actions) {
        return false;
    }
    end_line(sink, &mut line)
}

fn write_each<S: Sink>(
    sink: &mut S,
    symbols: &Symbols,
    m: Option<&MachineSymbols>,
    rows: &[Row],
) -> bool
    ensures { AreLinesPut S.writes sink.old (map (row_line symbols.now (option_copied m.entry))
        rows.now) result sink.new }
{
    for row in rows {
        if !write_row(sink, symbols, m, row) {
            return false;
        }
    }
    true
}

/// Writes the lines of rows of a machine's table, each with the machine, its state, its event, the state after it and its actions, and
/// answers whether all were written whole. It writes nothing after one that wasn't, of which a beginning is written. The machine is
/// given by its number.
pub fn write_rows<S: Sink>(sink: &mut S, plan: &Plan, machine: usize, rows: &Seq<Row>) -> bool
    ensures pieces { AreLinesPut S.writes sink.old
        (row_lines (symbols_of plan.now) machine rows.now) result sink.new }
    ensures written { IsWritten (S.written sink.old) (S.faults sink.old)
        (text_of (row_lines (symbols_of plan.now) machine rows.now)) result (S.written sink.new)
        (S.faults sink.new) }
{
    let symbols = plan.symbols();
    write_each(sink, symbols, symbols.machines.get(machine), rows)
}

fn word_at(names: &[Text], number: usize) -> &[u8]
    ensures { result.now ≡ or_dash (slice_get names.now number) }
{
    match names.get(number) {
        None => b"-",
        Some(name) => name.as_slice(),
    }
}

/// The name of a controller.
pub(crate) fn controller_word(names: &[Text], controller: u32) -> &[u8]
    ensures { result.now ≡ controller_word names.now controller }
{
    word_at(names, controller as usize)
}

fn dash_in(name: &[u8]) -> Option<usize>
    ensures value { result ≡ position (λ byte. byte == 45) name.now }
    ensures within { IfSome result (λ place. place < length name.now) }
{
    name.iter().position(|byte| *byte == b'-')
}

fn machine_part(name: &[u8]) -> &[u8]
    ensures { result.now ≡ machine_part name.now }
{
    match dash_in(name) {
        None => name,
        Some(place) => &name[..place],
    }
}

// The machine with a number.
fn machine_at(symbols: &Symbols, number: Option<u16>) -> Option<&MachineSymbols>
    ensures { option_copied result ≡ machine_at symbols.now number }
{
    match number {
        None => None,
        Some(number) => symbols.machines.get(number as usize),
    }
}

fn machine_of<'a>(symbols: &'a Symbols, name: &[u8]) -> Option<&'a MachineSymbols>
    ensures { option_copied result ≡ machine_of symbols.now name.now }
{
    machine_at(symbols, machine_named(symbols, machine_part(name)))
}

/// The machine of a controller, where it has one: that whose name its own begins with. The names are those of the controllers, by
/// number. It takes no memory.
pub fn controller_machine<'a>(
    symbols: &'a Symbols,
    names: &[Text],
    controller: u32,
) -> Option<&'a MachineSymbols>
    ensures { option_copied result ≡ controller_machine symbols.now names.now controller }
{
    match names.get(controller as usize) {
        None => None,
        Some(name) => machine_of(symbols, name.as_slice()),
    }
}

/// The name of a machine.
pub(crate) fn machine_word(m: Option<&MachineSymbols>) -> &[u8]
    ensures { result.now ≡ machine_word (option_copied m.entry) }
{
    match m {
        None => b"-",
        Some(m) => m.name.as_slice(),
    }
}

fn member_word(symbols: &Symbols, enumeration: u16, number: u16) -> &[u8]
    ensures { result.now ≡ or_dash (member_name symbols.now enumeration number) }
{
    match symbols.enumerations.get(enumeration as usize) {
        None => b"-",
        Some(e) => word_at(&e.members, number as usize),
    }
}

/// The name of a state of a machine, and a dash where there is none. It takes no memory.
pub fn state_word<'a>(symbols: &'a Symbols, m: Option<&MachineSymbols>, state: u16) -> &'a [u8]
    ensures { result.now ≡ state_word symbols.now (option_copied m.entry) state }
{
    match m {
        None => b"-",
        Some(m) => member_word(symbols, m.states, state),
    }
}

/// The name of an event of a machine.
pub(crate) fn event_word<'a>(
    symbols: &'a Symbols,
    m: Option<&MachineSymbols>,
    event: u16,
) -> &'a [u8]
    ensures { result.now ≡ event_word symbols.now (option_copied m.entry) event }
{
    match m {
        None => b"-",
        Some(m) => member_word(symbols, m.events, event),
    }
}

fn action_name(m: &MachineSymbols, action: u16) -> Option<&[u8]>
    ensures { option_copied result ≡ action_name m.now action }
{
    match m.actions.get(action as usize) {
        None => None,
        Some(a) => Some(a.name.as_slice()),
    }
}

/// The name of an action of a machine.
pub(crate) fn action_word(m: Option<&MachineSymbols>, action: u16) -> &[u8]
    ensures { result.now ≡ action_word (option_copied m.entry) action }
{
    match m {
        None => b"-",
        Some(m) => action_name(m, action).unwrap_or(b"-"),
    }
}
