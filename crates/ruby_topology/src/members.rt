//! How many controllers there are, which, and their names.
ghost use Rattle.std.specs.Prelude.{◌≡◌, ◌∷◌, ◌≤◌, ◌++◌, ◌+◌, IfOk, MatchOption, OnOk, false, length, map, sum, true};
ghost use Rattle.std.specs.Str.{bytes_eq};
ghost use Rattle.std.specs.Option.{option_to_list};
ghost use Rattle.ruby_topology.specs.Prelude.{controller_name, count_or_none, decimal, index_named, machine_name, member_in, member_named, counts_of, lacks_line, members_from, members_of, name_of, ranges_from};

use crate::forms::{Member, Statement};
use crate::said::count_of;
use ruby_base::{NoMemory, Seq, Text};
use ruby_symbols::Symbols;
use std::alloc::Global;

// Whether a text is `-` and an index as digits.
fn is_index(text: &[u8], index: u64) -> bool
    ensures { result ≡ bytes_eq (45 ∷ decimal index) text.now }
{
    if index < 10 {
        let digit = 48 + index as u8;
        text.len() == 2 && text[0] == b'-' && text[1] == digit
    } else {
        let tens = 48 + (index / 10 % 10) as u8;
        let ones = 48 + (index % 10) as u8;
        text.len() == 3 && text[0] == b'-' && text[1] == tens && text[2] == ones
    }
}

// Whether a text is the name of a machine's controller of this index.
fn is_name(text: &[u8], machine: &[u8], index: u64) -> bool
    ensures { result ≡ bytes_eq (controller_name machine.now index) text.now }
{
    if text.len() < machine.len() {
        return false;
    }
    let (front, back) = text.split_at(machine.len());
    machine == front && is_index(back, index)
}

/// A machine's name; no bytes where there is no such machine.
pub fn machine_name(symbols: &Symbols, machine: usize) -> &[u8]
    ensures { result.now ≡ machine_name symbols.now machine }
{
    match symbols.machines.get(machine) {
        Some(m) => m.name.as_slice(),
        None => &[],
    }
}

// Which of so many controllers of a machine has this name.
fn index_named(machine: &[u8], count: u32, text: &[u8]) -> Option<u64>
    ensures { result ≡ index_named machine.now count text.now }
{
    for index in 0..u64::from(count) {
        if is_name(text, machine, index) {
            return Some(index);
        }
    }
    None
}

/// How many controllers a machine has; none before a line gives it some.
pub fn count_or_none(said: &[Statement], machine: usize) -> u32
    ensures { result ≡ count_or_none said.now machine }
{
    count_of(said, machine).unwrap_or(0)
}

fn member_in(symbols: &Symbols, said: &[Statement], text: &[u8], machine: usize) -> Option<Member>
    ensures { result ≡ member_in symbols.now said.now text.now machine }
{
    let name = machine_name(symbols, machine);
    let index = index_named(name, count_or_none(said, machine), text)?;
    Some(Member { machine, index })
}

/// The controller of this name, of those that lines have given to machines.
pub fn member_named(symbols: &Symbols, said: &[Statement], text: &[u8]) -> Option<Member>
    ensures { result ≡ member_named symbols.now said.now text.now }
{
    for machine in 0..symbols.machines.len() {
        if let Some(member) = member_in(symbols, said, text, machine) {
            return Some(member);
        }
    }
    None
}

/// Adds an item where there is one.
pub fn push_some<T: Drop>(list: &mut Seq<T>, item: Option<T>) -> Result<(), NoMemory>
    ensures { OnOk result (list.new ≡ list.old ++ option_to_list item) }
{
    match item {
        None => Ok(()),
        Some(x) => list.push(x),
    }
}

/// How many controllers each machine has, or none where some machine has no line.
pub fn counts(
    alloc: Global,
    symbols: &Symbols,
    said: &[Statement],
) -> Result<Option<Seq<u32>>, NoMemory>
    ensures { IfOk result (λ o. MatchOption o (lacks_line symbols.now said.now ≡ true)
        (λ counts. (lacks_line symbols.now said.now ≡ false) × (counts ≡ counts_of symbols.now said.now))) }
{
    let mut counts = Seq::new(alloc);
    for machine in 0..symbols.machines.len() {
        match count_of(said, machine) {
            None => return Ok(None),
            Some(count) => counts.push(count)?,
        }
    }
    Ok(Some(counts))
}

/// The first controller of each machine and how many it has.
pub fn ranges(alloc: Global, counts: &[u32]) -> Result<Seq<(u32, u32)>, NoMemory>
    requires { sum counts.now ≤ 64 }
    ensures { IfOk result (λ ranges. ranges ≡ ranges_from 0 counts.now) }
{
    let mut ranges = Seq::new(alloc);
    let mut first = 0;
    for count in counts {
        ranges.push((first, *count))?;
        first += *count;
    }
    Ok(ranges)
}

fn add_members(members: &mut Seq<Member>, machine: usize, count: u32) -> Result<(), NoMemory>
    ensures { OnOk result (members.new ≡ members.old ++ members_of machine count) }
{
    for index in 0..u64::from(count) {
        members.push(Member { machine, index })?;
    }
    Ok(())
}

/// All controllers in the order of their numbers.
pub fn members(alloc: Global, counts: &[u32]) -> Result<Seq<Member>, NoMemory>
    ensures { IfOk result (λ members. members ≡ members_from 0 counts.now) }
{
    let mut members = Seq::new(alloc);
    for (machine, count) in counts.iter().enumerate() {
        add_members(&mut members, machine, *count)?;
    }
    Ok(members)
}

fn controller_name(alloc: Global, machine: &[u8], index: u64) -> Result<Text, NoMemory>
    ensures { IfOk result (λ name. name ≡ controller_name machine.now index) }
{
    let mut name = Seq::copied(alloc, machine)?;
    name.push(b'-')?;
    if index < 10 {
        name.push(48 + index as u8)?;
    } else {
        name.push(48 + (index / 10 % 10) as u8)?;
        name.push(48 + (index % 10) as u8)?;
    }
    Ok(name)
}

/// The names of controllers.
pub fn names(alloc: Global, symbols: &Symbols, members: &[Member]) -> Result<Seq<Text>, NoMemory>
    ensures { IfOk result (λ names. names ≡ map (name_of symbols.now) members.now) }
{
    let mut names = Seq::new(alloc);
    for c in members {
        let name = controller_name(alloc, machine_name(symbols, c.machine), c.index)?;
        names.push(name)?;
    }
    Ok(names)
}
