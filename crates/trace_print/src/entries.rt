// The lines of a run's journal.
ghost use Rattle.std.specs.Prelude.{◌≡◌, ◌∷◌, []};
ghost use Rattle.std.specs.Option.{option_copied};
ghost use Rattle.ruby_outside.specs.Prelude.{IsWritten};
ghost use Rattle.run_journal.specs.Prelude.{end_of, entry_of};
ghost use Rattle.slicc_plan.specs.Prelude.{symbols_of};
ghost use Rattle.trace_print.specs.Prelude.{end_lines, entry_lines, fault_word, fired_line, stop_line, hexadecimal, known, event_word, state_word, AreLinesPut, IsLinePut, text_of, word_bytes};

use crate::line::{Word, write_line};
use crate::rows::{controller_machine, controller_word, event_word, state_word};
use itoa::Buffer;
use ruby_base::{Seq, Text};
use ruby_outside::Sink;
use ruby_symbols::{MachineSymbols, Symbols};
use ruby_value::Fault;
use run_journal::{EndRef, EntryRef, FireNote, StopAt};
use slicc_plan::Plan;

fn write_fired<'a, S: Sink>(
    sink: &mut S,
    symbols: &'a Symbols,
    m: Option<&MachineSymbols>,
    cycle: u64,
    name: &'a [u8],
    note: &FireNote,
) -> bool
    ensures { IsLinePut S.writes sink.old (fired_line symbols.now (option_copied m.entry) cycle
        name.now note.now) result sink.new }
{
    let mut digits = Buffer::new();
    write_line(
        sink,
        digits.format(cycle).as_bytes(),
        &[
            Word::Bytes(name),
            Word::Address(note.address),
            Word::Bytes(state_word(symbols, m, note.state)),
            Word::Bytes(event_word(symbols, m, note.event)),
            Word::Bytes(state_word(symbols, m, note.next)),
        ],
    )
}

/// The word of a fault.
pub fn fault_word(fault: &Fault) -> &[u8]
    ensures { result.now ≡ fault_word fault.now }
{
    match fault {
        Fault::Invalid => b"invalid",
        Fault::Assert => b"assert",
        Fault::Error(_) => b"error",
        Fault::Overflow => b"overflow",
        Fault::Latency => b"latency",
        Fault::Reference => b"reference",
        Fault::Front => b"front",
        Fault::Full => b"full",
        Fault::Present => b"present",
        Fault::Absent => b"absent",
        Fault::Probe => b"probe",
        Fault::Callback => b"callback",
        Fault::Route => b"route",
        Fault::Copies => b"copies",
    }
}

fn known_address<'a>(address: Option<u64>) -> Word<'a>
    ensures { word_bytes result ≡ known hexadecimal address }
{
    match address {
        None => Word::Bytes(b"-"),
        Some(address) => Word::Address(address),
    }
}

fn known_state<'a>(symbols: &'a Symbols, m: Option<&MachineSymbols>, state: Option<u16>) -> Word<'a>
    ensures { word_bytes result ≡ known (state_word symbols.now (option_copied m.entry)) state }
{
    match state {
        None => Word::Bytes(b"-"),
        Some(state) => Word::Bytes(state_word(symbols, m, state)),
    }
}

fn known_event<'a>(symbols: &'a Symbols, m: Option<&MachineSymbols>, event: Option<u16>) -> Word<'a>
    ensures { word_bytes result ≡ known (event_word symbols.now (option_copied m.entry)) event }
{
    match event {
        None => Word::Bytes(b"-"),
        Some(event) => Word::Bytes(event_word(symbols, m, event)),
    }
}

fn write_stop<'a, S: Sink>(
    sink: &mut S,
    symbols: &'a Symbols,
    m: Option<&MachineSymbols>,
    cycle: u64,
    name: &'a [u8],
    at: &'a StopAt,
) -> bool
    ensures { IsLinePut S.writes sink.old (stop_line symbols.now (option_copied m.entry) cycle
        name.now at.now) result sink.new }
{
    let cycle = Word::Number(cycle);
    let name = Word::Bytes(name);
    let address = known_address(at.address);
    let state = known_state(symbols, m, at.state);
    let event = known_event(symbols, m, at.event);
    let fault = Word::Bytes(fault_word(&at.fault));
    let Fault::Error(given) = &at.fault else {
        return write_line(sink, b"stop", &[cycle, name, address, state, event, fault]);
    };
    let given = Word::Bytes(given.as_slice());
    write_line(
        sink,
        b"stop",
        &[cycle, name, address, state, event, fault, given],
    )
}

fn write_end<S: Sink>(
    sink: &mut S,
    symbols: &Symbols,
    m: Option<&MachineSymbols>,
    cycle: u64,
    name: &[u8],
    end: EndRef<'_>,
) -> bool
    ensures { AreLinesPut S.writes sink.old (end_lines symbols.now (option_copied m.entry) cycle
        name.now (end_of end.entry)) result sink.new }
{
    match end {
        EndRef::Idle => true,
        EndRef::Full => true,
        EndRef::Stop(at) => write_stop(sink, symbols, m, cycle, name, at),
    }
}

/// Writes the line of an entry that a run's journal lends, which a fired transition and a fault have and other entries haven't, and answers
/// whether it was written whole. Where it wasn't, a beginning of it was. The names are those of the controllers, by number.
pub fn write_entry<S: Sink>(sink: &mut S, plan: &Plan, names: &Seq<Text>, e: EntryRef<'_>) -> bool
    ensures pieces { AreLinesPut S.writes sink.old
        (entry_lines (symbols_of plan.now) names.now (entry_of e.entry)) result sink.new }
    ensures written { IsWritten (S.written sink.old) (S.faults sink.old)
        (text_of (entry_lines (symbols_of plan.now) names.now (entry_of e.entry))) result
        (S.written sink.new) (S.faults sink.new) }
{
    let symbols = plan.symbols();
    match e {
        EntryRef::Fired {
            cycle,
            controller,
            note,
            ..
        } => {
            let m = controller_machine(symbols, names, controller);
            let name = controller_word(names, controller);
            write_fired(sink, symbols, m, cycle, name, &note)
        }
        EntryRef::Ended {
            cycle,
            controller,
            end,
        } => {
            let m = controller_machine(symbols, names, controller);
            let name = controller_word(names, controller);
            write_end(sink, symbols, m, cycle, name, end)
        }
        EntryRef::Turned { .. } => true,
    }
}
