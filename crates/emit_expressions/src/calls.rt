// Calls in code.
#![tactic(auto, using(crate::proofs::Adding::adds_two), unfolding(crate::specs::Writes::Writes))]

ghost use Rattle.std.specs.Prelude.{◌≡◌, ◌+◌, ◌==◌, ℕ, IfOk, List, map, position, slice_get, unwrap_or};
ghost use Rattle.std.specs.Option.{option_copied};
ghost use Rattle.action_code.specs.Prelude.{operations};
ghost use Rattle.ruby_symbols.specs.declared.machine.FormalSymbol.{FormalSymbol};
ghost use Rattle.body_meaning.specs.Prelude.{reading, is_permission_call, called_on as thing_called, indexed_on as thing_indexed, value_call as call_of};
ghost use Rattle.body_code.specs.Prelude.{answer_left, called_on, formals_of, function_body_number, function_called, index, indexed_on, named_call, numbered_call, kind_in, operated, operation_left, permission_called, permission_machine, plain_or, value_call};
ghost use Rattle.emit_expressions.specs.Prelude.{Writes};

use crate::kinds::{bare, kind_in, lines_kind};
use action_code::{Answer, Instr, OPERATIONS, Operation};
use body_code::{BodyNumbers, Left};
use body_meaning::{
    Numbered, Scope, Thing, called_on, indexed_on, plain_call, value_call as call_on,
};
use ruby_base::{NoMemory, Seq, Text};
use ruby_symbols::{FormalSymbol, MachineSymbols, function_named};
use ruby_value::{Block, Kind, NetDest, Value};
use std::alloc::Global;

fn answer_left(m: &MachineSymbols, on: u16, answer: Answer) -> Left
    ensures { result ≡ answer_left m.now on answer }
{
    match answer {
        Answer::Nothing => Left::Nothing,
        Answer::Value(k) => Left::Value(bare(k)),
        Answer::Line => match m.tables.get(usize::from(on)) {
            Some(t) => Left::Value(lines_kind(m, t)),
            None => Left::Nothing,
        },
    }
}

#[tactic(auto, unfolding(action_code::specs::Operations::operations))]
fn all_operations() -> &'static [Operation]
    ensures { result.now ≡ operations }
{
    &OPERATIONS
}

fn operation_at(n: u16) -> Option<&'static Operation>
    ensures { option_copied result ≡ slice_get operations n }
{
    all_operations().get(usize::from(n))
}

fn operation_left(s: Scope<'_>, on: u16, o: Option<&Operation>) -> Left
    ensures { result ≡ operation_left (reading s.entry) on (option_copied o.entry) }
{
    match o {
        Some(o) => answer_left(s.machine, on, o.answer),
        None => Left::Nothing,
    }
}

fn operated(code: &mut Seq<Instr>, s: Scope<'_>, number: u16, on: u16) -> Result<Left, NoMemory>
    ensures { Writes (operated (reading s.entry) number on) result code.old code.new }
{
    code.push(Instr::Op(number, on))?;
    Ok(operation_left(s, on, operation_at(number)))
}

// The number that is so many after this one.
fn number_after(first: u32, place: usize) -> Result<u32, NoMemory>
    ensures { IfOk result (λ body. body ≡ first + place) }
{
    match u32::try_from(place) {
        Ok(i) => match first.checked_add(i) {
            Some(body) => Ok(body),
            None => Err(NoMemory),
        },
        Err(_) => Err(NoMemory),
    }
}

fn place_among(order: &[u16], k: u16) -> Option<usize>
    ensures { result ≡ position (λ f. f == k) order.now }
{
    order.iter().position(|f| *f == k)
}

fn or_first(place: Option<usize>) -> usize
    ensures { result ≡ unwrap_or place 0 }
{
    match place {
        Some(i) => i,
        None => 0,
    }
}

/// The number of the body of a function.
pub fn function_body_number(n: &BodyNumbers, k: u16) -> Result<u32, NoMemory>
    ensures { IfOk result (λ body. body ≡ function_body_number n.now k) }
{
    number_after(n.first, or_first(place_among(&n.order, k)))
}

fn function_called(
    code: &mut Seq<Instr>,
    s: Scope<'_>,
    n: &BodyNumbers,
    k: u16,
) -> Result<Left, NoMemory>
    ensures { Writes (function_called (reading s.entry) n.now k) result code.old code.new }
{
    let body = function_body_number(n, k)?;
    code.push(Instr::Call(body))?;
    Ok(match s.machine.functions.get(usize::from(k)) {
        Some(f) => match f.result {
            Some(k) => Left::Value(kind_in(s, k)),
            None => Left::Nothing,
        },
        None => Left::Nothing,
    })
}

fn is_permission_call(alloc: Global, name: &[u8], m: &MachineSymbols) -> Result<bool, NoMemory>
    ensures { IfOk result (λ is_it. is_it ≡ is_permission_call name.now m.now) }
{
    let mut call = Text::copied(alloc, m.name.as_slice())?;
    call.append(b"_State_to_permission")?;
    Ok(call.as_slice() == name)
}

// The number of the machine among these, which are numbered from here on, whose call from states to permissions has this name.
fn permission_machine(
    alloc: Global,
    name: &[u8],
    number: usize,
    machines: &[MachineSymbols],
) -> Result<Option<usize>, NoMemory>
    ensures { IfOk result (λ machine. machine ≡ permission_machine name.now number machines.now) }
{
    let [m, others @ ..] = machines else {
        return Ok(None);
    };
    if is_permission_call(alloc, name, m)? {
        return Ok(Some(number));
    }
    let Some(next) = number.checked_add(1) else {
        return Err(NoMemory);
    };
    permission_machine(alloc, name, next, others)
}

fn permission_called(
    code: &mut Seq<Instr>,
    n: &BodyNumbers,
    machine: usize,
) -> Result<Left, NoMemory>
    ensures { Writes (permission_called n.now machine) result code.old code.new }
{
    let body = number_after(n.permissions, machine)?;
    code.push(Instr::Call(body))?;
    Ok(Left::Value(Kind::Enum(1, 0)))
}

// A call that is none of a function, and is of the built-in call of this number, if there is one.
fn plain_or(
    alloc: Global,
    code: &mut Seq<Instr>,
    s: Scope<'_>,
    n: &BodyNumbers,
    name: &[u8],
    number: Option<u16>,
) -> Result<Left, NoMemory>
    ensures { Writes (plain_or (reading s.entry) n.now name.now number) result code.old code.new }
{
    if let Some(number) = number {
        return operated(code, s, number, 0);
    }
    match permission_machine(alloc, name, 0, &s.symbols.machines)? {
        None => Ok(Left::Nothing),
        Some(machine) => permission_called(code, n, machine),
    }
}

// The kinds of formals.
fn kinds_of(alloc: Global, s: Scope<'_>, formals: &[FormalSymbol]) -> Result<Seq<Kind>, NoMemory>
    ensures { IfOk result
        (λ kinds. kinds ≡ map (λ (f : FormalSymbol). kind_in (reading s.entry) f.kind) formals.now) }
{
    let mut kinds = Vec::with_capacity(alloc, formals.len())?;
    for formal in formals {
        kinds.push(kind_in(s, formal.kind))?;
    }
    Ok(Seq::of(kinds))
}

/// The kinds of the formals of a function of the machine, where the name is that of one.
pub fn formals_of(alloc: Global, s: Scope<'_>, name: &[u8]) -> Result<Seq<Kind>, NoMemory>
    ensures { IfOk result (λ kinds. kinds ≡ formals_of (reading s.entry) name.now) }
{
    let Some(k) = function_named(s.machine, name) else {
        return Ok(Seq::new(alloc));
    };
    match s.machine.functions.get(usize::from(k)) {
        Some(f) => kinds_of(alloc, s, &f.formals),
        None => Ok(Seq::new(alloc)),
    }
}

/// A call without a receiver, after its arguments.
pub fn named_call(
    alloc: Global,
    code: &mut Seq<Instr>,
    s: Scope<'_>,
    n: &BodyNumbers,
    name: &[u8],
) -> Result<Left, NoMemory>
    ensures { Writes (named_call (reading s.entry) n.now name.now) result code.old code.new }
{
    match function_named(s.machine, name) {
        Some(k) => function_called(code, s, n, k),
        None => plain_or(alloc, code, s, n, name, plain_call(name)),
    }
}

// A value of this kind, as far as calls on values ask for it.
fn sample(alloc: Global, k: Kind) -> Value
    ensures { (text : List ℕ) → call_of result text ≡ value_call k text }
{
    match k {
        Kind::Dest => Value::Dest(NetDest::new(alloc)),
        Kind::Block => Value::Block(Block { bytes: [0; 64] }),
        Kind::Entry(_) | Kind::Tbe(_) => Value::Entry(None),
        _ => Value::Bool(false),
    }
}

/// The number of a call on values of this kind.
pub fn value_call(alloc: Global, k: Kind, name: &[u8]) -> Option<u16>
    ensures { result ≡ value_call k name.now }
{
    call_on(&sample(alloc, k), name)
}

// What was left, as far as calls on it ask for it.
fn thing_left(alloc: Global, s: Scope<'_>, left: Left) -> Thing
    ensures called { (text : List ℕ) (count : ℕ)
        → thing_called (reading s.entry).machine result text count
        ≡ called_on (reading s.entry) left text count }
    ensures indexed { thing_indexed (reading s.entry).machine result
        ≡ indexed_on (reading s.entry) left }
{
    match left {
        Left::Value(k) => Thing::Value(sample(alloc, k)),
        Left::Table(k) => Thing::Table(k),
        Left::Port(b) => Thing::Port(b),
        Left::Sequencer => Thing::Sequencer,
        _ => Thing::Nothing,
    }
}

fn numbered_call(code: &mut Seq<Instr>, s: Scope<'_>, c: Option<Numbered>) -> Result<Left, NoMemory>
    ensures { Writes (numbered_call (reading s.entry) c) result code.old code.new }
{
    match c {
        Some(c) => operated(code, s, c.number, c.on),
        None => Ok(Left::Nothing),
    }
}

/// A call on what was left, after its arguments, which are so many.
pub fn method_call(
    alloc: Global,
    code: &mut Seq<Instr>,
    s: Scope<'_>,
    receiver: Left,
    name: &[u8],
    count: usize,
) -> Result<Left, NoMemory>
    ensures { Writes
        (numbered_call (reading s.entry) (called_on (reading s.entry) receiver name.now count))
        result code.old code.new }
{
    let thing = thing_left(alloc, s, receiver);
    numbered_call(code, s, called_on(s.machine, &thing, name, count))
}

/// The index of what was left by an address.
pub fn index(
    alloc: Global,
    code: &mut Seq<Instr>,
    s: Scope<'_>,
    receiver: Left,
) -> Result<Left, NoMemory>
    ensures { Writes (index (reading s.entry) receiver) result code.old code.new }
{
    let thing = thing_left(alloc, s, receiver);
    numbered_call(code, s, indexed_on(s.machine, &thing))
}
