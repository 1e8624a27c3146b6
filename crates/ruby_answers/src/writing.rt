//! The text of an answer, written to a sink.
ghost use Rattle.std.specs.Prelude.{◌≡◌, [], ◌∷◌, IfOk, codes};
ghost use Rattle.ruby_outside.specs.Prelude.{IsWritten};
ghost use Rattle.ruby_answers.specs.Prelude.{accepted_line, lines_of, refused_line, text_journal, text_of, unfit_line, usage_line};
ghost use Rattle.trace_print.specs.Prelude.{line_of, AreLinesPut, IsLinePut};

use crate::Answer;
use crate::runs::{reordered, write_generated, write_run};
use crate::tables::write_tables;
use ruby_base::NoMemory;
use ruby_outside::Sink;
use run_journal::Journal;
use slicc_front::Refused;
use slicc_plan::Counts;
use std::alloc::Global;
use trace_print::{Word, write_line};

fn write_accepted<S: Sink>(sink: &mut S, counts: Counts) -> bool
    ensures { IsLinePut S.writes sink.old (accepted_line counts) result sink.new }
{
    write_line(
        sink,
        b"accepted",
        &[
            Word::Bytes(b"machines"),
            Word::Number(counts.machines),
            Word::Bytes(b"states"),
            Word::Number(counts.states),
            Word::Bytes(b"events"),
            Word::Number(counts.events),
            Word::Bytes(b"pairs"),
            Word::Number(counts.pairs),
        ],
    )
}

// How the program is called.
fn write_usage<S: Sink>(sink: &mut S) -> bool
    ensures { IsLinePut S.writes sink.old usage_line result sink.new }
{
    write_line(
        sink,
        b"usage: ruby run PROTOCOL TOPOLOGY, check PROTOCOL, table PROTOCOL, code PROTOCOL, gen N",
        &[],
    )
}

fn write_refused<S: Sink>(sink: &mut S, refused: &Refused) -> bool
    ensures { IsLinePut S.writes sink.old (refused_line refused.now) result sink.new }
{
    let place = Word::Place(refused.file.as_slice(), refused.line, refused.column);
    let code = Word::Bytes(refused.code.as_slice());
    match &refused.other {
        None => write_line(sink, b"refused", &[place, code]),
        Some((file, line, column)) => {
            let second = Word::Place(file.as_slice(), *line, *column);
            write_line(
                sink,
                b"refused",
                &[place, code, Word::Bytes(b"also"), second],
            )
        }
    }
}

fn write_unfit<S: Sink>(sink: &mut S, rule: u8, line: u32) -> bool
    ensures { IsLinePut S.writes sink.old (unfit_line rule line) result sink.new }
{
    let line = Word::Number(u64::from(line));
    write_line(
        sink,
        b"topology",
        &[line, Word::Numbered(b"T", u64::from(rule))],
    )
}

// A line of one word and the name of a file.
fn write_named<S: Sink>(sink: &mut S, word: &[u8], name: &[u8]) -> bool
    ensures { IsLinePut S.writes sink.old (line_of (word.now ∷ name.now ∷ [])) result sink.new }
{
    write_line(sink, word, &[Word::Bytes(name)])
}

// A line of two words and the name of a file.
fn write_named_by_two<S: Sink>(sink: &mut S, first: &[u8], second: &[u8], name: &[u8]) -> bool
    ensures { IsLinePut S.writes sink.old (line_of (first.now ∷ second.now ∷ name.now ∷ [])) result sink.new }
{
    write_line(sink, first, &[Word::Bytes(second), Word::Bytes(name)])
}

/// The journal of an answer in the order of its text, where it is another one than its own: what `write_answer` wants beside the answer.
pub fn text_journal(alloc: Global, answer: &Answer) -> Result<Option<Journal>, NoMemory>
    ensures { IfOk result (λ o. o ≡ text_journal answer.now) }
{
    match answer {
        Answer::Ran(record) => reordered(alloc, record),
        _ => Ok(None),
    }
}

fn write_lines<S: Sink>(sink: &mut S, answer: &Answer, ordered: &Option<Journal>) -> bool
    requires { ordered.now ≡ text_journal answer.now }
    ensures { AreLinesPut S.writes sink.old (lines_of answer.now) result sink.new }
{
    match answer {
        Answer::Ran(record) => write_run(sink, record, ordered),
        Answer::Generated(record) => write_generated(sink, record),
        Answer::Accepted(counts) => write_accepted(sink, *counts),
        Answer::Tabled(plan, tables) => write_tables(sink, plan, tables.as_slice()),
        Answer::Usage => write_usage(sink),
        Answer::Refused(refused) => write_refused(sink, refused),
        Answer::Unfit { rule, line } => write_unfit(sink, *rule, *line),
        Answer::Absent(name) => write_named(sink, b"absent", name.as_slice()),
        Answer::TooLarge(name) => write_named_by_two(sink, b"too", b"large", name.as_slice()),
        Answer::ReadFault(name) => write_named_by_two(sink, b"library", b"fault", name.as_slice()),
    }
}

/// Writes the text of an answer, line by line, and answers whether it was written whole. It writes nothing after a line that wasn't, of
/// which a beginning is written. It takes no memory: where a run's text has another order than its journal's own, the journal in that
/// order is given, as `text_journal` answers it.
pub fn write_answer<S: Sink>(sink: &mut S, answer: &Answer, ordered: &Option<Journal>) -> bool
    requires { ordered.now ≡ text_journal answer.now }
    ensures lines { AreLinesPut S.writes sink.old (lines_of answer.now) result sink.new }
    ensures written { IsWritten (S.written sink.old) (S.faults sink.old) (text_of answer.now) result (S.written sink.new) (S.faults sink.new) }
{
    write_lines(sink, answer, ordered)
}
