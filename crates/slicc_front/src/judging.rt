//! A protocol's files, read and judged.
ghost use Rattle.std.specs.Prelude.{All, IsUtf8};
ghost use Rattle.slicc_files.specs.Prelude.{IsAllowed, IsShort};
ghost use Rattle.slicc_front.specs.Prelude.{IsFrontAllowed, IsFrontBy, IsFrontIfRoom, IsToldSo};

use crate::Front;
use crate::told::refusal;
use ruby_base::{NoMemory, Seq, Text};
use ruby_outside::Library;
use slicc_ast::tree::Tree;
use slicc_files::{Gathered, Source, gather};
use slicc_plan::Refusal;
use slicc_types::resolve;
use std::alloc::Global;

// The refusal of a protocol, or the lack of memory for it.
fn refused(alloc: Global, sources: &[Source], why: Refusal) -> Front
    requires { All IsShort sources.now }
    ensures { IsToldSo sources.now why result }
{
    match why {
        Refusal::Rule {
            number,
            place,
            other,
        } => match refusal(alloc, sources, number, place, other) {
            Ok(refused) => Front::Refused(refused),
            Err(NoMemory) => Front::NoMemory,
        },
        Refusal::NoMemory => Front::NoMemory,
    }
}

// What the trees of these files come to.
fn of_files(alloc: Global, sources: &[Source], trees: Seq<Tree>) -> Front
    requires short { All IsShort sources.now }
    requires allowed { All IsAllowed trees }
    ensures front { IsFrontIfRoom (Gathered.Files sources.now trees) result }
    ensures allowed { IsFrontAllowed result }
{
    match resolve(alloc, trees) {
        Ok(plan) => Front::Plan(plan),
        Err(why) => refused(alloc, sources, why),
    }
}

/// The plan of the protocol whose file has this name, or the first thing that is wrong. The files are read from the library as
/// `gather` does, each once; what is wrong with one as it is read is told before any rule. At any time memory may run out.
pub fn front<L: Library>(alloc: Global, library: &mut L, name: &Text) -> Front
    requires { IsUtf8 name.now }
    ensures reads { IsFrontBy L.reads name.now library.old library.new result }
    ensures allowed { IsFrontAllowed result }
{
    match gather(alloc, library, name) {
        Gathered::Files(sources, trees) => of_files(alloc, sources.as_slice(), trees),
        Gathered::Refused(refused) => Front::Refused(refused),
        Gathered::Absent(name) => Front::Absent(name),
        Gathered::TooLarge(name) => Front::TooLarge(name),
        Gathered::ReadFault(name) => Front::ReadFault(name),
        Gathered::NoMemory => Front::NoMemory,
    }
}
