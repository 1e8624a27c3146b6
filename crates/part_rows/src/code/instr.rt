// An instruction, as words: its name and its operands. A pushed value is a word, after which there may be a structure's number.
use crate::calls::row::value;
use action_code::{Instr, NoMemory};
use ruby_base::Text;
use ruby_value::Fault;
use std::alloc::Global;

fn without_number(name: &str) -> Instr {
    match name {
        "add" => Instr::Add,
        "sub" => Instr::Sub,
        "mul" => Instr::Mul,
        "neg" => Instr::Neg,
        "not" => Instr::Not,
        "lt" => Instr::Lt,
        "le" => Instr::Le,
        "eq" => Instr::Eq,
        "unpeek" => Instr::Unpeek,
        "assert" => Instr::Stop(Fault::Assert),
        _ => Instr::Ret,
    }
}

fn with_number(name: &str, n: u16) -> Instr {
    match name {
        "load" => Instr::Load(n),
        "store" => Instr::Store(n),
        "get" => Instr::Get(n),
        "set" => Instr::Set(n),
        "peek" => Instr::Peek(n),
        "infield" => Instr::Infield(n),
        "new" => Instr::New(n),
        "outfield" => Instr::Outfield(n),
        "setout" => Instr::Setout(n),
        "send" => Instr::Send(n),
        "trigger" => Instr::Trigger(n),
        "jump" => Instr::Jump(u32::from(n)),
        "unless" => Instr::Unless(u32::from(n)),
        "call" => Instr::Call(u32::from(n)),
        _ => without_number(name),
    }
}

fn number(word: &str) -> u16 {
    word.parse::<u16>().unwrap_or(0)
}

/// The instruction of words, which are separated by spaces.
pub(crate) fn instr(alloc: Global, words: &str) -> Result<Instr, NoMemory> {
    let (name, operands) = words.split_once(' ').unwrap_or((words, ""));
    let (first, second) = operands.split_once(' ').unwrap_or((operands, ""));
    Ok(match name {
        "push" => Instr::Push(value(alloc, first)?, number(second)),
        "op" => Instr::Op(number(first), number(second)),
        "error" => Instr::Stop(Fault::Error(Text::copied(alloc, operands.as_bytes())?)),
        _ => with_number(name, number(first)),
    })
}
