// A controller's parts: of each a line says what no whole run shows, by calls that no whole run makes. Words are those of the demonstration
// that comes with PCG's C code, whose second round begins at word 155; the rest was worked out by hand.
ghost use Rattle.std.specs.Prelude.{◌≡◌};
ghost use Rattle.ruby_value.specs.Prelude.{IsRequest};

use crate::messages::{message, number_of, one_field};
use cache_array::{CacheArray, CacheFault, DirMemory};
use example_texts::RowText;
use msg_buffer::{Buffer, Fields, Message, MsgNo};
use pcg_words::Words;
use ruby_value::{NetDest, Value};
use run_journal::{End, Journal, JournalWriter, NoMemory, part};
use sequencer::{Ask, Asked, BackFault, Block, IssueFault, Sequencer};
use stall_map::StallMap;
use std::alloc::Global;
use tbe_table::{TbeFault, TbeTable};

// Whether a call did what it was asked.
fn is_done<T: Drop, E: Drop>(answer: Result<T, E>) -> bool {
    answer.is_ok()
}

// Whether a line was refused with this fault.
fn is_refused<F: PartialEq + Drop>(answer: Result<(), (F, Fields)>, fault: F) -> bool {
    match answer {
        Ok(()) => false,
        Err((found, _back)) => found == fault,
    }
}

fn no_fields(alloc: Global) -> Fields {
    Fields::of(Vec::new(alloc))
}

fn add_words(rows: &mut RowText, before: &str, mut words: Words) {
    rows.add(before);
    for _ in 0..6 {
        let word = words.next();
        match format!(in rows.alloc(); " {word:08x}") {
            Ok(text) => rows.add(text.as_str()),
            Err(_) => rows.lose(),
        }
    }
}

fn add_numbers(rows: &mut RowText, mut words: Words) {
    rows.add("\nnumbers below 4:");
    for _ in 0..6 {
        rows.show(" ", &words.below(4));
    }
}

fn add_cache(rows: &mut RowText, before: &str, cache: Result<CacheArray, NoMemory>) {
    let Ok(mut cache) = cache else {
        return rows.lose();
    };
    let alloc = rows.alloc();
    rows.add(before);
    rows.show(" 0 ", &is_done(cache.allocate(0, no_fields(alloc))));
    rows.show(", 64 ", &is_done(cache.allocate(64, no_fields(alloc))));
    rows.show(", 0 used ", &is_done(cache.set_mru(0)));
    rows.show(", 64 there ", &cache.lookup(64).is_some());
    rows.debug(", in place of ", &cache.probe(128));
    let answer = cache.allocate(128, no_fields(alloc));
    rows.show(", full ", &is_refused(answer, CacheFault::SetFull));
    let answer = cache.allocate(0, no_fields(alloc));
    rows.show(", twice ", &is_refused(answer, CacheFault::AlreadyThere));
    rows.show(", 64 gone ", &is_done(cache.deallocate(64)));
    rows.show(", there ", &cache.is_tag_present(64));
    rows.show(", 128 available ", &cache.avail(128));
    rows.debug(", in place of ", &cache.probe(128));
}

fn add_directory(rows: &mut RowText, initial: Result<Fields, NoMemory>) {
    let Ok(initial) = initial else {
        return rows.lose();
    };
    let directory = DirMemory::new(rows.alloc(), initial);
    rows.debug("\ndirectory: ", &number_of(directory.lookup(0x80)));
}

fn add_table(rows: &mut RowText, mut table: TbeTable) {
    let alloc = rows.alloc();
    let is_allocated = is_done(table.allocate(7, no_fields(alloc)));
    rows.show("\nTBE table: ", &is_allocated);
    let answer = table.allocate(8, no_fields(alloc));
    rows.show(", full ", &is_refused(answer, TbeFault::Full));
}

fn add_fields(rows: &mut RowText, fields: Result<Fields, NoMemory>) {
    let Ok(mut fields) = fields else {
        return rows.lose();
    };
    match fields.set(0, Value::Int(5)) {
        Err(Value::Int(n)) => rows.show("\nfields: given back ", &n),
        _ => rows.lose(),
    }
}

fn add_set(rows: &mut RowText, mut members: NetDest) {
    rows.show("\nset: ", &is_done(members.add(100)));
    rows.show(", members ", &members.count());
    members.clear();
    rows.show(", left ", &members.count());
}

fn copy(alloc: Global, number: MsgNo) -> Message
    ensures { result.number ≡ number }
{
    message(number, 0, 1, no_fields(alloc))
}

fn add_buffer(rows: &mut RowText, mut buffer: Buffer, number: MsgNo) {
    let alloc = rows.alloc();
    let is_put = buffer.is_new(number) && is_done(buffer.put(copy(alloc, number)));
    rows.show("\nbuffer: ", &is_put);
    rows.show(", taken ", &is_done(buffer.pop(1)));
    let is_back = buffer.is_new(number) && is_done(buffer.back(copy(alloc, number)));
    rows.show(", back ", &is_back);
    rows.show(", recycled ", &is_done(buffer.recycle(1, 11)));
    rows.show(", ready in 10 ", &is_done(buffer.pop(10)));
    rows.show(", in 11 ", &is_done(buffer.pop(11)));
}

fn add_stalls(rows: &mut RowText, mut stalls: StallMap, number: MsgNo) {
    let alloc = rows.alloc();
    let is_put = stalls.is_new(number) && is_done(stalls.put(7, copy(alloc, number)));
    rows.show("\nstall map: ", &is_put);
    rows.show(", first ", &stalls.next_after(None).is_some());
    rows.show(", second ", &stalls.next_after(Some(number)).is_some());
    rows.show(", woken ", &is_done(stalls.wake_all()));
    rows.show(", left ", &stalls.len());
}

fn load() -> Asked
    ensures { IsRequest result }
{
    Asked {
        line: 4,
        kind: Ask::Load,
        offset: 1,
        size: 4,
        byte: 0,
        issued: 1,
    }
}

fn add_sequencer(rows: &mut RowText, mut sequencer: Sequencer) {
    rows.show("\nsequencer: ", &is_done(sequencer.issue(load())));
    let is_outstanding = matches!(sequencer.issue(load()), Err(IssueFault::Outstanding));
    rows.show(", outstanding ", &is_outstanding);
    let answer = sequencer.write_back(4, Block { bytes: [0; 64] });
    rows.show(", no store ", &matches!(answer, Err(BackFault::WrongKind)));
    rows.show(", oldest ", &sequencer.oldest().is_some());
}

// Adds how many entries of a journal are a controller's.
fn add_part(rows: &mut RowText, journal: &Journal, controller: u32) {
    match part(rows.alloc(), journal, controller) {
        Ok(entries) => rows.show(" ", &entries.len()),
        Err(NoMemory) => rows.lose(),
    }
}

fn add_journal(rows: &mut RowText, mut writer: JournalWriter) {
    let room = writer.reserve(1, 0, 0);
    rows.show("\njournal: ", &room.is_ok());
    if room.is_ok() {
        writer.push_ended(1, 1, End::Idle);
    }
    let journal = writer.into_journal();
    add_part(rows, &journal, 0);
    add_part(rows, &journal, 1);
}

/// Adds the lines.
pub fn add_controllers(rows: &mut RowText) {
    let alloc = rows.alloc();
    add_words(rows, "words:", Words::new(42, 54));
    add_words(rows, "\nwords from 155 on:", Words::at(42, 54, 155));
    add_numbers(rows, Words::new(42, 54));
    add_cache(rows, "\ntwo ways:", CacheArray::new(alloc, 1, 2));
    add_cache(rows, "\n65536 sets:", CacheArray::new(alloc, 65536, 1));
    add_cache(rows, "\n65536 ways:", CacheArray::new(alloc, 1, 65536));
    add_directory(rows, one_field(alloc, Value::Int(7)));
    add_table(rows, TbeTable::new(alloc, 1));
    add_fields(rows, one_field(alloc, Value::Bool(true)));
    add_set(rows, NetDest::new(alloc));
    let number = MsgNo {
        sender: 1,
        count: 0,
    };
    add_buffer(rows, Buffer::new(alloc), number);
    add_stalls(rows, StallMap::new(alloc), number);
    add_sequencer(rows, Sequencer::new(alloc));
    add_journal(rows, JournalWriter::new(alloc));
    rows.add("\n");
}
