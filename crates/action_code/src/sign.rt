//! What instructions take and give.
ghost use Rattle.std.specs.Prelude.{◌≡◌, ◌++◌, ◌∷◌, [], Some, None, true, IfOk, is_some, map, reverse, slice_get};
ghost use Rattle.std.specs.Option.{option_copied};
ghost use Rattle.action_code.specs.declared.operand.Operand.TheVariants as operand;
ghost use Rattle.action_code.specs.Operations.{answered, is_port, operands_of, sends_to, serves, takes_from};
ghost use Rattle.action_code.specs.Sign.{call_sign, can_send, field_of, field_through, local_kind, operation_sign, result_operand, sign, structure_of, wanted};

use crate::instr::{Code, Instr};
use crate::operand::Operand;
use crate::operations::{Answer, Arguments, Operation, Receiver, operation_at};
use crate::program::{BufferDecl, MachineDecl, Place, Program};
use crate::shape::Shape;
use crate::tables::{
    buffer_at, has_map, kind_of_table, machine_of, same_sort, table_at, tables_of,
};
use crate::values::{bare, can_push, kind_of};
use ruby_base::NoMemory;
use ruby_value::{Kind, Seq};
use std::alloc::{AllocError, Global};

/// What an instruction takes and gives.
#[derive(Drop)]
pub struct Sign {
    /// The number of the table or buffer that an operation is on.
    pub on: u16,
    /// What it takes, from the top of the stack down.
    pub takes: Seq<Operand>,
    pub gives: Option<Kind>,
    /// Whether what it names is there, and is served.
    pub known: bool,
}

const INT: Operand = Operand::Value(Kind::Int);

const BOOL: Operand = Operand::Value(Kind::Bool);

const ADDRESS: Operand = Operand::Value(Kind::Addr);

fn wanted(kind: Option<Kind>) -> Operand
    ensures { result ≡ wanted kind }
{
    match kind {
        None => Operand::Anything,
        Some(kind) => Operand::Value(kind),
    }
}

// The kind of a local.
fn local_kind(c: &Code, n: u16) -> Option<Kind>
    ensures { result ≡ local_kind c.now n }
{
    let n = usize::from(n);
    let arguments = c.arguments.len();
    let found = if n < arguments {
        c.arguments.get(n)
    } else {
        c.locals.get(n - arguments)
    };
    match found {
        None => None,
        Some(kind) => Some(bare(*kind)),
    }
}

// The kind of a field of the structure or message type of this number.
fn field_of(p: &Program, structure: Option<u16>, field: u16) -> Option<Kind>
    ensures { result ≡ field_of p.now structure field }
{
    let Some(structure) = structure else {
        return None;
    };
    match p.structures.get(usize::from(structure)) {
        None => None,
        Some(fields) => match fields.get(usize::from(field)) {
            None => None,
            Some(kind) => Some(bare(*kind)),
        },
    }
}

fn structure_of(kind: Kind) -> Option<u16>
    ensures { result ≡ structure_of kind }
{
    match kind {
        Kind::Entry(n) | Kind::Tbe(n) => Some(n),
        _ => None,
    }
}

// The kind of a field through the reference at a place of the stack.
fn field_through(p: &Program, s: &Shape, place: usize, field: u16) -> Option<Kind>
    ensures { result ≡ field_through p.now s.now place field }
{
    match s.stack.get(place) {
        None => None,
        Some(kind) => field_of(p, structure_of(kind), field),
    }
}

fn can_send(message: Option<u16>, buffer: Option<BufferDecl>) -> bool
    ensures { result ≡ can_send message buffer }
{
    match (message, buffer) {
        (Some(message), Some(b)) => {
            b.message == message && matches!(b.place, Place::Local | Place::To)
        }
        _ => false,
    }
}

fn is_port(buffer: Option<BufferDecl>) -> bool
    ensures { result ≡ is_port buffer }
{
    match buffer {
        None => false,
        Some(b) => matches!(b.place, Place::Local | Place::From),
    }
}

fn serves(m: Option<&MachineDecl>, on: u16, receiver: Receiver) -> bool
    ensures { result ≡ serves (option_copied m.entry) on receiver }
{
    match receiver {
        Receiver::Port => is_port(buffer_at(m, on)),
        Receiver::Table(sort) => match table_at(tables_of(m), on) {
            None => false,
            Some(t) => same_sort(t.sort, sort),
        },
        Receiver::Nothing => on == 0,
        Receiver::States => has_map(m) && on == 0,
        Receiver::Unserved => false,
    }
}

fn answered(m: Option<&MachineDecl>, on: u16, answer: Answer) -> Option<Kind>
    ensures { result ≡ answered (option_copied m.entry) on answer }
{
    match answer {
        Answer::Nothing => None,
        Answer::Value(kind) => Some(kind),
        Answer::Line => match table_at(tables_of(m), on) {
            None => None,
            Some(t) => Some(kind_of_table(tables_of(m), t)),
        },
    }
}

fn operands_of(alloc: Global, arguments: Arguments) -> Result<Seq<Operand>, NoMemory>
    ensures { IfOk result (λ takes. takes ≡ operands_of arguments) }
{
    match arguments {
        Arguments::Zero => Ok(Seq::new(alloc)),
        Arguments::One(a) => Seq::copied(alloc, &[a]),
        Arguments::Two(a, b) => Seq::copied(alloc, &[b, a]),
        Arguments::Three(a, b, c) => Seq::copied(alloc, &[c, b, a]),
        Arguments::Four(a, b, c, d) => Seq::copied(alloc, &[d, c, b, a]),
    }
}

fn turns(
    alloc: Global,
    takes: &[Operand],
    gives: Option<Kind>,
    known: bool,
) -> Result<Sign, NoMemory>
    ensures { IfOk result (λ s. s ≡ record {
      on = 0;
      takes = takes.now;
      gives = gives;
      known = known;
    }) }
{
    Ok(Sign {
        on: 0,
        takes: Seq::copied(alloc, takes)?,
        gives,
        known,
    })
}

fn reads(alloc: Global, takes: &[Operand], found: Option<Kind>) -> Result<Sign, NoMemory>
    ensures { IfOk result (λ s. s ≡ record {
      on = 0;
      takes = takes.now;
      gives = found;
      known = is_some found;
    }) }
{
    turns(alloc, takes, found, found.is_some())
}

// It takes a value of the kind of what it names, from above these.
fn writes(alloc: Global, below: &[Operand], found: Option<Kind>) -> Result<Sign, NoMemory>
    ensures { IfOk result (λ s. s ≡ record {
      on = 0;
      takes = wanted found ∷ below.now;
      gives = None;
      known = is_some found;
    }) }
{
    Ok(Sign {
        on: 0,
        takes: Seq::between(Vec::new(alloc), wanted(found), below)?,
        gives: None,
        known: found.is_some(),
    })
}

fn operation_sign(
    alloc: Global,
    m: Option<&MachineDecl>,
    on: u16,
    operation: Option<&Operation>,
) -> Result<Sign, NoMemory>
    ensures { IfOk result (λ s. s ≡ operation_sign (option_copied m.entry) on
        (option_copied operation.entry)) }
{
    let Some(o) = operation else {
        return Ok(Sign {
            on,
            takes: Seq::new(alloc),
            gives: None,
            known: false,
        });
    };
    Ok(Sign {
        on,
        takes: operands_of(alloc, o.arguments)?,
        gives: answered(m, on, o.answer),
        known: serves(m, on, o.on),
    })
}

// A value of each kind.
fn values_of(alloc: Global, kinds: &[Kind]) -> Result<Vec<Operand>, AllocError>
    ensures { IfOk result (λ takes. takes.items ≡ map operand.Value kinds.now) }
{
    kinds
        .iter()
        .map(|kind| Operand::Value(*kind))
        .collect(alloc)
}

// The operands from the last to the first.
fn reversed(mut takes: Vec<Operand>) -> Seq<Operand>
    ensures { result ≡ reverse takes.items }
{
    takes.as_mut_slice().reverse();
    Seq::of(takes)
}

fn call_sign(
    alloc: Global,
    machine: u16,
    body: u32,
    number: u32,
    called: Option<&Code>,
) -> Result<Sign, NoMemory>
    ensures { IfOk result (λ s. s ≡ call_sign machine body number (option_copied called.entry)) }
{
    let Some(c) = called else {
        return turns(alloc, &[], None, false);
    };
    Ok(Sign {
        on: 0,
        takes: reversed(values_of(alloc, c.arguments.as_slice())?),
        gives: match c.result {
            None => None,
            Some(kind) => Some(bare(kind)),
        },
        known: number < body && c.machine == machine,
    })
}

// Of an instruction that takes the body's result.
fn result_sign(alloc: Global, result_kind: Option<Kind>) -> Result<Sign, NoMemory>
    ensures { IfOk result (λ s. s ≡ record {
      on = 0;
      takes = result_operand result_kind;
      gives = None;
      known = true;
    }) }
{
    match result_kind {
        None => turns(alloc, &[], None, true),
        Some(kind) => turns(alloc, &[Operand::Value(kind)], None, true),
    }
}

/// Of an instruction of the body of this number, before which there is this shape.
pub fn sign_of(
    alloc: Global,
    p: &Program,
    body: u32,
    c: &Code,
    s: &Shape,
    i: &Instr,
) -> Result<Sign, NoMemory>
    ensures { IfOk result (λ sg. sg ≡ sign p.now body c.now s.now i.now) }
{
    let m = machine_of(p, c);
    match i {
        Instr::Push(v, structure) => {
            let kind = kind_of(tables_of(m), v, *structure);
            turns(alloc, &[], Some(kind), can_push(tables_of(m), v))
        }
        Instr::Load(n) => reads(alloc, &[], local_kind(c, *n)),
        Instr::Store(n) => writes(alloc, &[], local_kind(c, *n)),
        Instr::Add | Instr::Sub | Instr::Mul => turns(alloc, &[INT, INT], Some(Kind::Int), true),
        Instr::Neg => turns(alloc, &[INT], Some(Kind::Int), true),
        Instr::Not => turns(alloc, &[BOOL], Some(Kind::Bool), true),
        Instr::Lt | Instr::Le => turns(alloc, &[INT, INT], Some(Kind::Bool), true),
        Instr::Eq => {
            let other = wanted(s.stack.get(0));
            turns(alloc, &[Operand::Anything, other], Some(Kind::Bool), true)
        }
        Instr::Jump(_) | Instr::Stop(_) => turns(alloc, &[], None, true),
        Instr::Unless(_) => turns(alloc, &[BOOL], None, true),
        Instr::Get(f) => reads(alloc, &[Operand::Reference], field_through(p, s, 0, *f)),
        Instr::Set(f) => writes(alloc, &[Operand::Reference], field_through(p, s, 1, *f)),
        Instr::Peek(b) => turns(alloc, &[], None, is_port(buffer_at(m, *b))),
        Instr::Infield(f) => reads(alloc, &[], field_of(p, s.inner.get(0), *f)),
        Instr::Unpeek => turns(alloc, &[], None, s.inner.get(0).is_some()),
        Instr::New(t) => turns(
            alloc,
            &[],
            None,
            p.structures.get(usize::from(*t)).is_some(),
        ),
        Instr::Outfield(f) => reads(alloc, &[], field_of(p, s.made.get(0), *f)),
        Instr::Setout(f) => writes(alloc, &[], field_of(p, s.made.get(0), *f)),
        Instr::Send(b) => turns(
            alloc,
            &[INT],
            None,
            can_send(s.made.get(0), buffer_at(m, *b)),
        ),
        Instr::Op(n, on) => operation_sign(alloc, m, *on, operation_at(*n)),
        Instr::Call(n) => call_sign(alloc, c.machine, body, *n, p.bodies.get(*n as usize)),
        Instr::Trigger(_) => turns(alloc, &[Operand::Tbe, Operand::Entry, ADDRESS], None, true),
        Instr::Ret => result_sign(alloc, c.result),
    }
}
