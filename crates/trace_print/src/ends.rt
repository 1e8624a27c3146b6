// The lines that follow a run's journal.
ghost use Rattle.std.specs.Prelude.{[], ◌∷◌, ◌++◌, decimal, map};
ghost use Rattle.ruby_outside.specs.Prelude.{IsWritten};
ghost use Rattle.slicc_plan.specs.Prelude.{symbols_of};
ghost use Rattle.trace_print.specs.Adding.{IsAdded};
ghost use Rattle.trace_print.specs.Ends.{account_line, final_line, rest_lines, verdict_words};
ghost use Rattle.trace_print.specs.Lines.{line_of, spaced};
ghost use Rattle.trace_print.specs.Pieces.{AreLinesPut, IsLinePut, text_of};
ghost use Rattle.trace_print.specs.Words.{word_bytes};

use crate::line::{Held, Word, add_words, begin_line, end_line, write_line};
use crate::rows::{controller_machine, controller_word, state_word};
use arrayvec::ArrayVec;
use ruby_base::{Seq, Text};
use ruby_outside::Sink;
use ruby_symbols::Symbols;
use run_journal::{Account, Final, Verdict};
use slicc_plan::Plan;

/// What is printed of a run after its journal.
#[derive(Clone, Copy)]
pub struct RunText<'a> {
    pub plan: &'a Plan,
    /// The controllers' names, by number.
    pub names: &'a Seq<Text>,
    /// The final states, in the order in which they are printed.
    pub finals: &'a Seq<Final>,
    pub account: &'a Account,
    pub verdict: &'a Verdict,
}

fn write_final<'a, S: Sink>(
    sink: &mut S,
    symbols: &'a Symbols,
    names: &'a [Text],
    last: &Final,
) -> bool
    ensures { IsLinePut S.writes sink.old (final_line symbols.now names.now last.now) result
        sink.new }
{
    let m = controller_machine(symbols, names, last.controller);
    write_line(
        sink,
        b"final",
        &[
            Word::Bytes(controller_word(names, last.controller)),
            Word::Address(last.address),
            Word::Bytes(state_word(symbols, m, last.state)),
        ],
    )
}

fn write_finals<S: Sink>(sink: &mut S, symbols: &Symbols, names: &[Text], finals: &[Final]) -> bool
    ensures { AreLinesPut S.writes sink.old (map (final_line symbols.now names.now) finals.now)
        result sink.new }
{
    for last in finals {
        if !write_final(sink, symbols, names, last) {
            return false;
        }
    }
    true
}

fn write_account<S: Sink>(sink: &mut S, account: &Account) -> bool
    ensures { IsLinePut S.writes sink.old (account_line account.now) result sink.new }
{
    write_line(
        sink,
        b"messages",
        &[
            Word::Number(account.sent),
            Word::Bytes(b"consumed"),
            Word::Number(account.consumed),
            Word::Bytes(b"queued"),
            Word::Number(account.queued),
            Word::Bytes(b"stalled"),
            Word::Number(account.stalled),
            Word::Bytes(b"recycled"),
            Word::Number(account.recycled),
        ],
    )
}

// The words of a verdict that has a cycle alone.
fn add_cycle<S: Sink>(sink: &mut S, line: &mut Held, word: &[u8], cycle: u64) -> bool
    ensures { IsAdded S.writes sink.old line.old.items (spaced (word.now ∷ decimal cycle ∷ []))
        result sink.new line.new.items }
{
    add_words(sink, line, &[Word::Bytes(word), Word::Number(cycle)])
}

// The words of a verdict that has a number beside its cycle.
fn add_numbers<S: Sink>(sink: &mut S, line: &mut Held, word: &[u8], cycle: u64, number: u64) -> bool
    ensures { IsAdded S.writes sink.old line.old.items
        (spaced (word.now ∷ decimal cycle ∷ decimal number ∷ [])) result sink.new line.new.items }
{
    add_words(
        sink,
        line,
        &[Word::Bytes(word), Word::Number(cycle), Word::Number(number)],
    )
}

fn add_verdict<S: Sink>(sink: &mut S, line: &mut Held, names: &[Text], verdict: &Verdict) -> bool
    ensures { IsAdded S.writes sink.old line.old.items
        (spaced (verdict_words names.now verdict.now)) result sink.new line.new.items }
{
    match *verdict {
        Verdict::Stop { cycle, controller } => add_words(
            sink,
            line,
            &[
                Word::Bytes(b"stop"),
                Word::Number(cycle),
                Word::Bytes(controller_word(names, controller)),
            ],
        ),
        Verdict::Incoherent {
            cycle,
            controller,
            address,
            offset,
            expected,
            found,
        } => add_words(
            sink,
            line,
            &[
                Word::Bytes(b"incoherent"),
                Word::Number(cycle),
                Word::Bytes(controller_word(names, controller)),
                Word::Address(address),
                Word::Number(u64::from(offset)),
                Word::Number(u64::from(expected)),
                Word::Number(u64::from(found)),
            ],
        ),
        Verdict::Deadlock {
            cycle,
            controller,
            address,
            issued,
        } => add_words(
            sink,
            line,
            &[
                Word::Bytes(b"deadlock"),
                Word::Number(cycle),
                Word::Bytes(controller_word(names, controller)),
                Word::Address(address),
                Word::Number(issued),
            ],
        ),
        Verdict::Passed { cycle, checks } => add_numbers(sink, line, b"passed", cycle, checks),
        Verdict::Quiet { cycle } => add_cycle(sink, line, b"quiet", cycle),
        Verdict::Cycles { cycle } => add_cycle(sink, line, b"cycles", cycle),
        Verdict::Journal { cycle, entries } => add_numbers(sink, line, b"journal", cycle, entries),
        Verdict::Mail { cycle, messages } => add_numbers(sink, line, b"mail", cycle, messages),
    }
}

/// Writes a line of words that ends with those of a verdict, and answers whether it was written whole. Where it wasn't, a beginning of
/// it was. The names are those of the controllers, by number. It takes no memory.
pub fn write_verdict<S: Sink>(
    sink: &mut S,
    first: &[u8],
    others: &[Word<'_>],
    names: &[Text],
    verdict: &Verdict,
) -> bool
    ensures { IsLinePut S.writes sink.old (line_of
        (first.now ∷ map word_bytes others.now ++ verdict_words names.now verdict.now)) result
        sink.new }
{
    let mut line = ArrayVec::new();
    if !begin_line(sink, &mut line, first, others) {
        return false;
    }
    if !add_verdict(sink, &mut line, names, verdict) {
        return false;
    }
    end_line(sink, &mut line)
}

/// Writes the lines of a run that follow its journal: the final states, where the messages are, and the verdict. It answers whether all
/// were written whole, and writes nothing after one that wasn't, of which a beginning is written.
pub fn write_rest<S: Sink>(sink: &mut S, r: &RunText<'_>) -> bool
    ensures pieces { AreLinesPut S.writes sink.old
        (rest_lines (symbols_of r.now.plan.now) r.now.names.now r.now.finals.now r.now.account.now
        r.now.verdict.now) result sink.new }
    ensures written { IsWritten (S.written sink.old) (S.faults sink.old)
        (text_of (rest_lines (symbols_of r.now.plan.now) r.now.names.now r.now.finals.now
        r.now.account.now r.now.verdict.now)) result (S.written sink.new) (S.faults sink.new) }
{
    if !write_finals(sink, r.plan.symbols(), r.names, r.finals) {
        return false;
    }
    if !write_account(sink, r.account) {
        return false;
    }
    write_verdict(sink, b"verdict", &[], r.names, r.verdict)
}
