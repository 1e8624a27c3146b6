//! Programs of rows, and whether their verification answers what is wanted.
use crate::row::{Around, Row, Step, Wanted};
use action_code::{
    BufferDecl, Code, CodeFault, Instr, MachineDecl, NoMemory, Place, Program, Seq, TableDecl,
    TableSort, verify,
};
use ruby_value::{Block, Fault, Kind, NetDest, Ref, Value, are_same_kinds};
use std::alloc::Global;

const TABLES: [TableDecl; 4] = [
    TableDecl {
        sort: TableSort::Cache,
        structure: 0,
    },
    TableDecl {
        sort: TableSort::Directory,
        structure: 2,
    },
    TableDecl {
        sort: TableSort::Tbe,
        structure: 1,
    },
    TableDecl {
        sort: TableSort::Parameters,
        structure: 3,
    },
];

const BUFFERS: [BufferDecl; 5] = [
    BufferDecl {
        message: 5,
        place: Place::Local,
    },
    BufferDecl {
        message: 4,
        place: Place::To,
    },
    BufferDecl {
        message: 4,
        place: Place::From,
    },
    BufferDecl {
        message: 5,
        place: Place::To,
    },
    BufferDecl {
        message: 4,
        place: Place::Local,
    },
];

// A cache's line, a TBE, a directory's line, parameters, and two message types.
const ENTRY: [Kind; 2] = [Kind::Enum(4, 2), Kind::Block];

const TBE: [Kind; 2] = [Kind::Int, Kind::Addr];

const LINE: [Kind; 2] = [Kind::Enum(5, 0), Kind::Dest];

const PARAMETERS: [Kind; 2] = [Kind::Int, Kind::Bool];

const MESSAGE: [Kind; 5] = [
    Kind::Addr,
    Kind::Enum(6, 1),
    Kind::Machine,
    Kind::Dest,
    Kind::Block,
];

const REQUEST: [Kind; 4] = [Kind::Addr, Kind::Addr, Kind::Enum(2, 0), Kind::Int];

fn structures(alloc: Global) -> Result<Seq<Seq<Kind>>, NoMemory> {
    let mut all = Seq::new(alloc);
    all.push(Seq::copied(alloc, &ENTRY)?)?;
    all.push(Seq::copied(alloc, &TBE)?)?;
    all.push(Seq::copied(alloc, &LINE)?)?;
    all.push(Seq::copied(alloc, &PARAMETERS)?)?;
    all.push(Seq::copied(alloc, &MESSAGE)?)?;
    all.push(Seq::copied(alloc, &REQUEST)?)?;
    Ok(all)
}

// The tables of machine 0.
fn tables(row: &Row) -> &'static [TableDecl] {
    match row.around {
        Around::Tables(tables, _) => tables,
        _ => &TABLES,
    }
}

fn machines(alloc: Global, tables: &[TableDecl]) -> Result<Seq<MachineDecl>, NoMemory> {
    let mut all = Seq::new(alloc);
    let tables = Seq::copied(alloc, tables)?;
    all.push(MachineDecl {
        built_in_map: true,
        states: 4,
        tables,
        buffers: Seq::copied(alloc, &BUFFERS)?,
    })?;
    all.push(MachineDecl {
        built_in_map: false,
        states: 5,
        tables: Seq::new(alloc),
        buffers: Seq::new(alloc),
    })?;
    Ok(all)
}

fn line(table: u16, line: u64) -> Option<Ref> {
    Some(Ref { table, line })
}

fn pushed(alloc: Global, step: Step) -> Option<Instr> {
    let v = match step {
        Step::Bool(b) => Value::Bool(b),
        Step::Int(n) => Value::Int(n),
        Step::Enum(e, m) => Value::Enum(e, m),
        Step::Addr(a) => Value::Addr(a),
        Step::Machine(m) => Value::Machine(m),
        Step::Dest => Value::Dest(NetDest::new(alloc)),
        Step::Block => Value::Block(Block { bytes: [0; 64] }),
        Step::EntryAt(t, n) => Value::Entry(line(t, n)),
        Step::TbeAt(t, n) => Value::Tbe(line(t, n)),
        Step::Entry(s) => return Some(Instr::Push(Value::Entry(None), s)),
        Step::Tbe(s) => return Some(Instr::Push(Value::Tbe(None), s)),
        _ => return None,
    };
    Some(Instr::Push(v, 0))
}

fn of_messages(step: Step) -> Instr {
    match step {
        Step::Peek(n) => Instr::Peek(n),
        Step::Infield(n) => Instr::Infield(n),
        Step::Unpeek => Instr::Unpeek,
        Step::New(n) => Instr::New(n),
        Step::Outfield(n) => Instr::Outfield(n),
        Step::Setout(n) => Instr::Setout(n),
        Step::Send(n) => Instr::Send(n),
        Step::Op(n, on) => Instr::Op(n, on),
        Step::Call(n) => Instr::Call(n),
        Step::Trigger(n) => Instr::Trigger(n),
        Step::Stop => Instr::Stop(Fault::Assert),
        _ => Instr::Ret,
    }
}

fn other(step: Step) -> Instr {
    match step {
        Step::Load(n) => Instr::Load(n),
        Step::Store(n) => Instr::Store(n),
        Step::Add => Instr::Add,
        Step::Sub => Instr::Sub,
        Step::Mul => Instr::Mul,
        Step::Neg => Instr::Neg,
        Step::Not => Instr::Not,
        Step::Lt => Instr::Lt,
        Step::Le => Instr::Le,
        Step::Eq => Instr::Eq,
        Step::Jump(to) => Instr::Jump(to),
        Step::Unless(to) => Instr::Unless(to),
        Step::Get(n) => Instr::Get(n),
        Step::Set(n) => Instr::Set(n),
        _ => of_messages(step),
    }
}

fn instructions(alloc: Global, steps: &[Step]) -> Result<Seq<Instr>, NoMemory> {
    let mut all = Seq::new(alloc);
    for step in steps {
        match pushed(alloc, *step) {
            Some(push) => all.push(push)?,
            None => all.push(other(*step))?,
        }
    }
    Ok(all)
}

fn body(
    alloc: Global,
    machine: u16,
    arguments: &[Kind],
    locals: &[Kind],
    gives: Option<Kind>,
    steps: &[Step],
) -> Result<Code, NoMemory> {
    let instructions = instructions(alloc, steps)?;
    let arguments = Seq::copied(alloc, arguments)?;
    Ok(Code {
        machine,
        arguments,
        locals: Seq::copied(alloc, locals)?,
        result: gives,
        instructions,
    })
}

// The body that has the row's instructions.
fn own(alloc: Global, row: &Row) -> Result<Code, NoMemory> {
    let steps = row.steps;
    match row.around {
        Around::Alone | Around::Third => body(alloc, 0, &[], &[], None, steps),
        Around::Local => body(alloc, 0, &[], &[Kind::Int], None, steps),
        Around::Result => body(alloc, 0, &[], &[], Some(Kind::Int), steps),
        Around::Reference => body(alloc, 0, &[], &[], Some(Kind::Entry(0)), steps),
        Around::Member => body(alloc, 0, &[], &[Kind::Enum(4, 3)], None, steps),
        Around::Other => body(alloc, 1, &[], &[], None, steps),
        Around::Undeclared => body(alloc, 7, &[], &[], None, steps),
        Around::Tables(_, locals) => body(alloc, 0, &[], locals, None, steps),
    }
}

fn bodies(alloc: Global, row: &Row) -> Result<Seq<Code>, NoMemory> {
    let mut all = Seq::new(alloc);
    if !matches!(row.around, Around::Third) {
        all.push(own(alloc, row)?)?;
        return Ok(all);
    }
    let ret = [Step::Ret];
    let load = [Step::Load(0), Step::Ret];
    all.push(body(alloc, 0, &[Kind::Int], &[], Some(Kind::Int), &load)?)?;
    all.push(body(alloc, 1, &[], &[], None, &ret)?)?;
    all.push(own(alloc, row)?)?;
    all.push(body(alloc, 0, &[Kind::Int], &[], None, &ret)?)?;
    Ok(all)
}

fn program(alloc: Global, row: &Row) -> Result<Program, NoMemory> {
    let machines = machines(alloc, tables(row))?;
    let structures = structures(alloc)?;
    Ok(Program {
        machines,
        structures,
        bodies: bodies(alloc, row)?,
    })
}

fn is_accepted(alloc: Global, p: Program) -> Result<bool, NoMemory> {
    if !p.is_numbered() {
        return Ok(false);
    }
    match verify(alloc, p) {
        Ok(_) => Ok(true),
        Err(CodeFault::NoMemory) => Err(NoMemory),
        Err(_) => Ok(false),
    }
}

/// Whether this is what verification says to be broken.
pub fn is_broken(
    alloc: Global,
    p: Program,
    broken: u8,
    number: u32,
    place: usize,
    kinds: &[Kind],
) -> Result<bool, NoMemory> {
    if !p.is_numbered() {
        return Ok(false);
    }
    match verify(alloc, p) {
        Ok(_) => Ok(false),
        Err(CodeFault::NoMemory) => Err(NoMemory),
        Err(
            CodeFault::Broken {
                rule,
                body,
                at,
                kept,
            },
        ) => Ok(
            rule == broken
                && body == number
                && at as usize == place
                && are_same_kinds(kept.as_slice(), kinds),
        ),
    }
}

/// Whether the program of a row is answered as is wanted.
pub fn is_answered(alloc: Global, row: &Row) -> Result<bool, NoMemory> {
    let p = program(alloc, row)?;
    match row.wanted {
        Wanted::Accepted => is_accepted(alloc, p),
        Wanted::Broken(rule, body, at, kinds) => is_broken(
            alloc,
            p,
            rule,
            body,
            at as usize,
            kinds,
        ),
    }
}

fn value_of(kind: Kind) -> Step {
    match kind {
        Kind::Bool => Step::Bool(true),
        Kind::Int => Step::Int(1),
        Kind::Enum(enumeration, _) => Step::Enum(enumeration, 1),
        Kind::Addr => Step::Addr(64),
        Kind::Machine => Step::Machine(1),
        Kind::Dest => Step::Dest,
        Kind::Block => Step::Block,
        Kind::Entry(structure) => Step::Entry(structure),
        Kind::Tbe(structure) => Step::Tbe(structure),
    }
}

// Values of these kinds, the operation, and one that isn't there.
fn calling(alloc: Global, kinds: &[Kind], number: u16, on: u16) -> Result<Seq<Step>, NoMemory> {
    let mut steps = Seq::new(alloc);
    for kind in kinds {
        steps.push(value_of(*kind))?;
    }
    steps.push(Step::Op(number, on))?;
    steps.push(Step::Op(61, 0))?;
    Ok(steps)
}

/// A program with values of these kinds, the operation on what has the second number, and then one that isn't there, so that
/// verification tells what is on the stack after the first.
pub fn call_program(
    alloc: Global,
    kinds: &[Kind],
    number: u16,
    on: u16,
) -> Result<Program, NoMemory> {
    let steps = calling(alloc, kinds, number, on)?;
    let machines = machines(alloc, &TABLES)?;
    let structures = structures(alloc)?;
    let mut bodies = Seq::new(alloc);
    bodies.push(body(alloc, 0, &[], &[], None, steps.as_slice())?)?;
    Ok(Program {
        machines,
        structures,
        bodies,
    })
}
