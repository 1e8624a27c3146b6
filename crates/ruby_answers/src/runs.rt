//! The lines of runs.
ghost use Rattle.std.specs.Prelude.{◌≡◌, ◌≤◌, IfOk, cond, count_by, flat_map, slice_get};
ghost use Rattle.run_journal.specs.Prelude.{entry_of};
ghost use Rattle.ruby_answers.specs.Prelude.{final_word, generated_line, in_text_order, is_fired, reordered, run_lines, traced_lines};
ghost use Rattle.slicc_plan.specs.Prelude.{symbols_of};
ghost use Rattle.trace_print.specs.Prelude.{entry_lines, AreLinesPut, IsLinePut};

use cycle_order::in_order;
use protocol_meaning::RunRecord;
use ruby_base::{NoMemory, Seq, Text};
use ruby_options::Order;
use ruby_outside::Sink;
use run_journal::{EntryRef, Journal};
use slicc_plan::{Plan, counts};
use std::alloc::Global;
use trace_print::{
    RunText, Word, controller_machine, state_word, write_entry, write_rest, write_verdict,
};

fn write_journal<S: Sink>(sink: &mut S, plan: &Plan, names: &Seq<Text>, journal: &Journal) -> bool
    ensures { AreLinesPut S.writes sink.old (flat_map (entry_lines (symbols_of plan.now) names.now) journal.now) result sink.new }
{
    for place in 0..journal.len() {
        if !write_entry(sink, plan, names, journal.entry(place)) {
            return false;
        }
    }
    true
}

/// The journal of a run in the order of its text, where it is another one than its own.
pub(crate) fn reordered(alloc: Global, run: &RunRecord) -> Result<Option<Journal>, NoMemory>
    ensures { IfOk result (λ o. o ≡ reordered run.now.options.order run.now.journal) }
{
    match run.options.order {
        Order::Journal => Ok(None),
        Order::Cycle => Ok(Some(in_order(alloc, &run.journal)?)),
    }
}

// The journal that the text of a run goes over.
fn traced_journal<'a>(run: &'a RunRecord, ordered: &'a Option<Journal>) -> &'a Journal
    requires { ordered.now ≡ reordered run.now.options.order run.now.journal }
    ensures { result.now ≡ in_text_order run.now.options.order run.now.journal }
{
    match ordered {
        None => &run.journal,
        Some(journal) => journal,
    }
}

fn write_traced<S: Sink>(sink: &mut S, run: &RunRecord, ordered: &Option<Journal>) -> bool
    requires { ordered.now ≡ reordered run.now.options.order run.now.journal }
    ensures { AreLinesPut S.writes sink.old (traced_lines run.now) result sink.new }
{
    if !run.options.trace {
        return true;
    }
    let names = &run.topology.names;
    write_journal(sink, &run.plan, names, traced_journal(run, ordered))
}

/// Writes the lines of a run, up to the first that isn't written whole, and answers whether all were. Where the text has another order
/// than the journal's own, the journal in that order is given.
pub(crate) fn write_run<S: Sink>(sink: &mut S, run: &RunRecord, ordered: &Option<Journal>) -> bool
    requires { ordered.now ≡ reordered run.now.options.order run.now.journal }
    ensures { AreLinesPut S.writes sink.old (run_lines run.now) result sink.new }
{
    if !write_traced(sink, run, ordered) {
        return false;
    }
    write_rest(
        sink,
        &RunText {
            plan: &run.plan,
            names: &run.topology.names,
            finals: &run.finals,
            account: &run.account,
            verdict: &run.verdict,
        },
    )
}

// What an entry adds to how many transitions fired.
fn counted(entry: EntryRef<'_>) -> u64
    ensures value { result ≡ cond (is_fired (entry_of entry.entry)) 1 0 }
    ensures bound { result ≤ 1 }
{
    match entry {
        EntryRef::Fired { .. } => 1,
        EntryRef::Ended { .. } => 0,
        EntryRef::Turned { .. } => 0,
    }
}

fn fired(journal: &Journal) -> u64
    ensures { result ≡ count_by is_fired journal.now }
{
    let mut count = 0;
    for place in 0..journal.len() {
        count += counted(journal.entry(place));
    }
    count
}

// The name of the first final state.
fn final_word(run: &RunRecord) -> &[u8]
    ensures { result.now ≡ final_word (symbols_of run.now.plan) run.now.topology.names (slice_get run.now.finals 0) }
{
    let symbols = run.plan.symbols();
    match run.finals.get(0) {
        None => b"-",
        Some(f) => {
            let m = controller_machine(symbols, &run.topology.names, f.controller);
            state_word(symbols, m, f.state)
        }
    }
}

/// Writes the line of a generated protocol's run, and answers whether it was written whole.
pub(crate) fn write_generated<S: Sink>(sink: &mut S, run: &RunRecord) -> bool
    ensures { IsLinePut S.writes sink.old (generated_line run.now) result sink.new }
{
    let counts = counts(&run.plan);
    write_verdict(
        sink,
        b"gen",
        &[
            Word::Number(run.options.count),
            Word::Bytes(b"states"),
            Word::Number(counts.states),
            Word::Bytes(b"fired"),
            Word::Number(fired(&run.journal)),
            Word::Bytes(b"final"),
            Word::Bytes(final_word(run)),
        ],
        &run.topology.names,
        &run.verdict,
    )
}
