// Programs for the machine of the calls. A line `NAME = ARGUMENTS -> RESULT = INSTRUCTIONS` is a body: kinds are words, and instructions
// are separated by semicolons. Each has two locals more, a number and a member of enumeration 4, whose default is 2.
use crate::code::instr::instr;
use action_code::{
    BufferDecl, Code, CodeFault, Instr, MachineDecl, NoMemory, Place, Program, Seq, TableDecl,
    TableSort, Verified, verify,
};
use ruby_value::Kind;
use std::alloc::Global;

// The machine's number; there is one before it and one after it.
const MACHINE: u16 = 1;

const TABLES: &[TableDecl] = &[
    TableDecl {
        sort: TableSort::Cache,
        structure: 4,
    },
    TableDecl {
        sort: TableSort::Directory,
        structure: 5,
    },
    TableDecl {
        sort: TableSort::Tbe,
        structure: 6,
    },
    TableDecl {
        sort: TableSort::Cache,
        structure: 6,
    },
    TableDecl {
        sort: TableSort::Parameters,
        structure: 7,
    },
];

const BUFFERS: &[BufferDecl] = &[
    BufferDecl {
        message: 8,
        place: Place::Local,
    },
    BufferDecl {
        message: 9,
        place: Place::To,
    },
];

// Those of lines have a number, the parameters seven, and messages an address or receivers.
const STRUCTURES: &[&[Kind]] = &[
    &[],
    &[],
    &[],
    &[],
    &[Kind::Int],
    &[Kind::Int],
    &[Kind::Int],
    &[
        Kind::Int,
        Kind::Int,
        Kind::Int,
        Kind::Int,
        Kind::Int,
        Kind::Int,
        Kind::Int,
    ],
    &[Kind::Addr],
    &[Kind::Dest],
];

fn structures(alloc: Global) -> Result<Seq<Seq<Kind>>, NoMemory> {
    let mut all = Seq::new(alloc);
    for kinds in STRUCTURES {
        all.push(Seq::copied(alloc, kinds)?)?;
    }
    Ok(all)
}

fn machine(
    alloc: Global,
    tables: &[TableDecl],
    buffers: &[BufferDecl],
) -> Result<MachineDecl, NoMemory> {
    let tables = Seq::copied(alloc, tables)?;
    Ok(MachineDecl {
        built_in_map: true,
        states: 11,
        tables,
        buffers: Seq::copied(alloc, buffers)?,
    })
}

fn machines(alloc: Global) -> Result<Seq<MachineDecl>, NoMemory> {
    let mut all = Seq::new(alloc);
    all.push(machine(alloc, &[], &[])?)?;
    all.push(machine(alloc, TABLES, BUFFERS)?)?;
    all.push(machine(alloc, &[], &[])?)?;
    Ok(all)
}

// A kind, with the number of its enumeration or structure after a colon.
fn kind(word: &str) -> Kind {
    let (name, number) = word.split_once(':').unwrap_or((word, ""));
    let number = number.parse::<u16>().unwrap_or(0);
    match name {
        "Bool" => Kind::Bool,
        "Int" => Kind::Int,
        "Enum" => Kind::Enum(number, 0),
        "Addr" => Kind::Addr,
        "Machine" => Kind::Machine,
        "Dest" => Kind::Dest,
        "Block" => Kind::Block,
        "Entry" => Kind::Entry(number),
        _ => Kind::Tbe(number),
    }
}

fn kinds(alloc: Global, words: &str) -> Result<Seq<Kind>, NoMemory> {
    let mut all = Seq::new(alloc);
    for word in words.split_whitespace() {
        all.push(kind(word))?;
    }
    Ok(all)
}

fn instructions(alloc: Global, texts: &str) -> Result<Seq<Instr>, NoMemory> {
    let mut all = Seq::new(alloc);
    for text in texts.split("; ") {
        all.push(instr(alloc, text)?)?;
    }
    Ok(all)
}

fn body(alloc: Global, line: &str) -> Result<Code, NoMemory> {
    let (_name, rest) = line.split_once(" = ").unwrap_or((line, ""));
    let (kinds_taken, rest) = rest.split_once("->").unwrap_or((rest, ""));
    let (given, texts) = rest.split_once(" = ").unwrap_or((rest, ""));
    let instructions = instructions(alloc, texts)?;
    let arguments = kinds(alloc, kinds_taken)?;
    Ok(Code {
        machine: MACHINE,
        arguments,
        locals: Seq::copied(alloc, &[Kind::Int, Kind::Enum(4, 2)])?,
        result: given.split_whitespace().next().map(kind),
        instructions,
    })
}

/// Whether a line of a file is a body.
pub(crate) fn is_body(line: &str) -> bool {
    !line.is_empty() && !line.starts_with('#')
}

fn bodies(alloc: Global, text: &str) -> Result<Seq<Code>, NoMemory> {
    let mut all = Seq::new(alloc);
    for line in text.lines() {
        if is_body(line) {
            all.push(body(alloc, line)?)?;
        }
    }
    Ok(all)
}

/// The program with the bodies of a file, if it fits.
pub(crate) fn verified(alloc: Global, text: &str) -> Result<Option<Verified>, NoMemory> {
    let machines = machines(alloc)?;
    let structures = structures(alloc)?;
    let p = Program {
        machines,
        structures,
        bodies: bodies(alloc, text)?,
    };
    if !p.is_numbered() {
        return Ok(None);
    }
    match verify(alloc, p) {
        Ok(code) => Ok(Some(code)),
        Err(CodeFault::NoMemory) => Err(NoMemory),
        Err(_) => Ok(None),
    }
}
