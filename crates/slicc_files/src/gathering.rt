//! Gathering a protocol's files, one after the other.
ghost use Rattle.std.specs.Prelude.{◌≡◌, ◌<◌, ◌≤◌, ◌∷◌, length, All, IfNone, IfOk, IsSomeAnd, IsUtf8, MatchOption, codes};
ghost use Rattle.std.specs.List.{slice_get};
ghost use Rattle.slicc_files.specs.Prelude.{AreAllowed, AreShort, IsGatheredBy, IsNext, folder_of, AreSound, EndsBy, GoesOnBy, IsBegun, IsRefusalOf, IsRefusedFor, IsShort, IsSound, IsTakenIn, in_order, steps_left};

use crate::gathered::{Gathered, Source, refuse};
use crate::reading::{TextFault, code, read_text};
use crate::state::{State, Wanted, folder, is_seen};
use ruby_base::{NoMemory, Seq, Text};
use ruby_outside::{Got, Library};
use std::alloc::Global;

// The most bytes of a file.
const FILE_LIMIT: u64 = 1_048_576;

// How many files a protocol may have.
const MOST_FILES: usize = 64;

// The refusal of a file by the rule of this code, or the lack of memory for it.
fn refusal(alloc: Global, source: &Source, offset: u32, code: &str) -> Gathered
    requires { length source.now.bytes ≤ 1048576 }
    ensures { IsRefusalOf source.now offset code.now result }
{
    match refuse(alloc, source, offset, code.as_bytes()) {
        Ok(refused) => Gathered::Refused(refused),
        Err(NoMemory) => Gathered::NoMemory,
    }
}

// The refusal of a file that is one too many, at its include line.
fn one_too_many(alloc: Global, sources: &[Source], next: &Wanted) -> Gathered
    requires named { next.now.file < length sources.now }
    requires sizes { All IsShort sources.now }
    ensures { IsSomeAnd (slice_get sources.now next.now.file)
        (λ s. IsRefusalOf s next.now.offset (codes "R3") result) }
{
    refusal(alloc, &sources[next.file as usize], next.offset, "R3")
}

// Takes in a file that was read, or answers that it is refused.
fn take_in(alloc: Global, folder: &[u8], state: &mut State, source: Source) -> Option<Gathered>
    requires room { length state.old.sources < 64 }
    requires size { IsShort source }
    ensures { MatchOption result
        (IsTakenIn folder.now state.old source state.new)
        (IsRefusedFor (length state.old.sources) source) }
{
    let file = state.sources.len() as u16;
    match read_text(alloc, file, source.bytes.as_slice()) {
        Ok(tree) => match state.add(alloc, folder, source, tree) {
            Ok(()) => None,
            Err(NoMemory) => Some(Gathered::NoMemory),
        },
        Err(TextFault::Broken(broken)) => {
            let code = code(broken.rule);
            Some(refusal(alloc, &source, broken.offset, code))
        }
        Err(TextFault::NoMemory) => Some(Gathered::NoMemory),
    }
}

// Reads the next file and takes it in, or ends with an answer.
fn read_next<L: Library>(
    alloc: Global,
    library: &mut L,
    folder: &[u8],
    state: &mut State,
    next: Wanted,
) -> Option<Gathered>
    requires folder { IsUtf8 folder.now }
    requires is_next { IsNext state.old.sources next }
    requires next { IsSound (length state.old.sources) next }
    requires sound { AreSound state.old }
    ensures reads { GoesOnBy L.reads folder.now state.old (next ∷ in_order state.old) state.new
        library.old library.new result }
    ensures sound { IfNone result (AreSound state.new) }
    ensures fewer { IfNone result (steps_left state.new ≤ steps_left state.old) }
{
    let name = str::from_utf8(next.name.as_slice()).unwrap();
    match library.read(name, FILE_LIMIT) {
        Got::Bytes(bytes) if bytes.len() as u64 <= FILE_LIMIT => {
            let name = next.name;
            take_in(alloc, folder, state, Source { name, bytes })
        }
        Got::Bytes(_) => Some(Gathered::TooLarge(next.name)),
        Got::TooLarge => Some(Gathered::TooLarge(next.name)),
        Got::Absent => Some(Gathered::Absent(next.name)),
        Got::Failed => Some(Gathered::ReadFault(next.name)),
        Got::NoMemory => Some(Gathered::NoMemory),
    }
}

// Goes on with the next file, which may have been seen already, or ends with an answer.
fn enter<L: Library>(
    alloc: Global,
    library: &mut L,
    folder: &[u8],
    state: &mut State,
    next: Wanted,
) -> Option<Gathered>
    requires folder { IsUtf8 folder.now }
    requires next { IsSound (length state.old.sources) next }
    requires sound { AreSound state.old }
    ensures reads { GoesOnBy L.reads folder.now state.old (next ∷ in_order state.old) state.new
        library.old library.new result }
    ensures sound { IfNone result (AreSound state.new) }
    ensures fewer { IfNone result (steps_left state.new ≤ steps_left state.old) }
{
    if is_seen(next.name.as_slice(), state.sources.as_slice()) {
        return None;
    }
    if MOST_FILES <= state.sources.len() {
        return Some(one_too_many(alloc, state.sources.as_slice(), &next));
    }
    read_next(alloc, library, folder, state, next)
}

// Goes on until nothing is wanted any more, or an answer ends it.
fn follow<L: Library>(alloc: Global, library: &mut L, folder: &[u8], mut state: State) -> Gathered
    requires folder { IsUtf8 folder.now }
    requires sound { AreSound state }
    ensures { EndsBy L.reads folder.now state (in_order state) library.old library.new result }
{
    while let Some(next) = state.left.pop() {
        if let Some(answer) = enter(alloc, library, folder, &mut state, next) {
            return answer;
        }
    }
    Gathered::Files(state.sources, state.trees)
}

// What is wanted at first: the protocol's own file.
fn begun(alloc: Global, name: &[u8]) -> Result<State, NoMemory>
    ensures { IfOk result (IsBegun name.now) }
{
    let name = Text::copied(alloc, name)?;
    let mut left = Vec::new(alloc);
    left.push(Wanted {
        name,
        file: 0,
        offset: 0,
    })?;
    Ok(State {
        sources: Seq::new(alloc),
        trees: Seq::new(alloc),
        left,
    })
}

/// Reads the files that the protocol of a name is made of, each once, depth first in the order of the include lines. An
/// included file is named by the folder of the protocol's file and the text of its line; gem5's file of interfaces isn't
/// read. At any time memory may run out.
pub fn gather<L: Library>(alloc: Global, library: &mut L, name: &Text) -> Gathered
    requires { IsUtf8 name.now }
    ensures reads { IsGatheredBy L.reads name.now library.old library.new result }
    ensures allowed { AreAllowed result }
    ensures short { AreShort result }
{
    match begun(alloc, name.as_slice()) {
        Ok(state) => follow(alloc, library, folder(name.as_slice()), state),
        Err(NoMemory) => Gathered::NoMemory,
    }
}
