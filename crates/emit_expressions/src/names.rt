// What names are in code.
#![tactic(auto, using(crate::proofs::Adding::adds_two), unfolding(crate::specs::Writes::Writes))]

ghost use Rattle.std.specs.Prelude.{◌≡◌};
ghost use Rattle.body_meaning.specs.Prelude.{reading};
ghost use Rattle.body_code.specs.Prelude.{declared_read, home_of, home_read, member_pushed, name_read, port_read, read_everywhere, value_read};
ghost use Rattle.emit_expressions.specs.Prelude.{Writes};

use crate::kinds::{kind_in, null};
use crate::numbers::index16;
use action_code::Instr;
use body_code::{Home, Left, NameAt};
use body_meaning::{Scope, member_value, port_at};
use ruby_base::{NoMemory, Seq};
use ruby_symbols::{FieldSymbol, Named, stands_for};
use ruby_value::{Kind, Ref, Value};

/// Where code finds what this name stands for, of these the innermost one.
pub fn home_of(names: &[NameAt], name: &[u8]) -> Option<Home>
    ensures { result ≡ home_of name.now names.now }
{
    match names.iter().find(|n| n.name.as_slice() == name) {
        Some(n) => Some(n.home),
        None => None,
    }
}

fn home_read(code: &mut Seq<Instr>, home: Home) -> Result<Left, NoMemory>
    ensures { Writes (home_read home) result code.old code.new }
{
    Ok(match home {
        Home::Local(slot, k) => {
            code.push(Instr::Load(slot))?;
            Left::Value(k)
        }
        Home::Inner(structure) => Left::Inner(structure),
        Home::Made(structure) => Left::Made(structure),
        Home::Kept(structure, first) => Left::Kept(structure, first),
    })
}

fn value_read(
    code: &mut Seq<Instr>,
    s: Scope<'_>,
    k: u16,
    v: &FieldSymbol,
) -> Result<Left, NoMemory>
    ensures { Writes (value_read (reading s.entry) k v.now) result code.old code.new }
{
    let table = index16(s.machine.tables.len())?;
    code.push(Instr::Push(Value::Entry(Some(Ref { table, line: 0 })), 0))?;
    code.push(Instr::Get(k))?;
    Ok(Left::Value(kind_in(s, v.kind)))
}

fn read_everywhere(code: &mut Seq<Instr>, name: &[u8]) -> Result<Left, NoMemory>
    ensures { Writes (read_everywhere name.now) result code.old code.new }
{
    if name == b"machineID".as_slice() {
        code.push(Instr::Op(58, 0))?;
        return Ok(Left::Value(Kind::Machine));
    }
    if name == b"recycle_latency".as_slice() {
        code.push(Instr::Push(Value::Int(10), 0))?;
        return Ok(Left::Value(Kind::Int));
    }
    Ok(Left::Nothing)
}

fn port_left(buffer: Option<u16>) -> Left
    ensures { result ≡ (port_read buffer).left }
{
    match buffer {
        Some(b) => Left::Port(b),
        None => Left::Nothing,
    }
}

fn declared_read(
    code: &mut Seq<Instr>,
    s: Scope<'_>,
    name: &[u8],
    named: Option<Named>,
) -> Result<Left, NoMemory>
    ensures { Writes (declared_read (reading s.entry) name.now named) result code.old code.new }
{
    let Some(named) = named else {
        return read_everywhere(code, name);
    };
    Ok(match named {
        Named::Table(k) => Left::Table(k),
        Named::Value(k) => match s.machine.values.get(usize::from(k)) {
            Some(v) => value_read(code, s, k, v)?,
            None => Left::Nothing,
        },
        Named::Reference(k) => match s.machine.references.get(usize::from(k)) {
            Some(v) => {
                let k = kind_in(s, v.kind);
                code.push(null(k))?;
                Left::Value(k)
            }
            None => Left::Nothing,
        },
        Named::Buffer(_) => Left::Nothing,
        Named::InPort(k) => port_left(port_at(&s.machine.in_ports, k)),
        Named::OutPort(k) => port_left(port_at(&s.machine.out_ports, k)),
        Named::Sequencer => Left::Sequencer,
    })
}

/// What a name is where a body has these of its own.
pub fn name_read(
    code: &mut Seq<Instr>,
    s: Scope<'_>,
    names: &[NameAt],
    name: &[u8],
) -> Result<Left, NoMemory>
    ensures { Writes (name_read (reading s.entry) names.now name.now) result code.old code.new }
{
    match home_of(names, name) {
        Some(home) => home_read(code, home),
        None => declared_read(code, s, name, stands_for(s.machine, name)),
    }
}

/// A member of an enumeration.
pub fn member_pushed(
    code: &mut Seq<Instr>,
    s: Scope<'_>,
    owner: &[u8],
    member: &[u8],
) -> Result<Left, NoMemory>
    ensures { Writes (member_pushed (reading s.entry) owner.now member.now) result code.old
        code.new }
{
    match member_value(s, owner, member) {
        Some(Value::Enum(number, k)) => {
            code.push(Instr::Push(Value::Enum(number, k), 0))?;
            Ok(Left::Value(Kind::Enum(number, 0)))
        }
        _ => Ok(Left::Nothing),
    }
}
