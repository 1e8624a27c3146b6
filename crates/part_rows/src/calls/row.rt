// A line with a call, as words.
use ruby_value::{Block, NetDest, NoMemory, Ref, Value};
use std::alloc::Global;

fn add_controllers(members: &mut NetDest, numbers: &str) -> Result<(), NoMemory> {
    for n in numbers.split(',') {
        if let Ok(n) = n.parse::<u32>() {
            members.add(n)?;
        }
    }
    Ok(())
}

fn controllers(alloc: Global, numbers: &str) -> Result<Value, NoMemory> {
    let mut members = NetDest::new(alloc);
    match add_controllers(&mut members, numbers) {
        Ok(()) => Ok(Value::Dest(members)),
        Err(NoMemory) => {
            drop(members);
            Err(NoMemory)
        }
    }
}

// A reference to a line of a table, by their numbers, or to nothing.
fn reference(text: &str) -> Option<Ref> {
    let (table, line) = text.split_once(',')?;
    Some(Ref {
        table: table.parse::<u16>().ok()?,
        line: line.parse::<u64>().ok()?,
    })
}

// A member, by the numbers of its enumeration and its own.
fn member(text: &str) -> Value {
    let (enumeration, member) = text.split_once(',').unwrap_or((text, ""));
    Value::Enum(
        enumeration.parse::<u16>().unwrap_or(0),
        member.parse::<u16>().unwrap_or(0),
    )
}

/// The value of a word `KIND:NUMBERS`, in which what is no number counts as 0. A block has 64 equal bytes.
pub(crate) fn value(alloc: Global, word: &str) -> Result<Value, NoMemory> {
    let (kind, text) = word.split_once(':').unwrap_or((word, ""));
    Ok(match kind {
        "Bool" => Value::Bool(text == "true"),
        "Int" => Value::Int(text.parse::<i64>().unwrap_or(0)),
        "Enum" => member(text),
        "Addr" => Value::Addr(text.parse::<u64>().unwrap_or(0)),
        "Machine" => Value::Machine(text.parse::<u32>().unwrap_or(0)),
        "Dest" => return controllers(alloc, text),
        "Block" => Value::Block(Block {
            bytes: [text.parse::<u8>().unwrap_or(0); 64],
        }),
        "Entry" => Value::Entry(reference(text)),
        _ => Value::Tbe(reference(text)),
    })
}

/// The values of words.
pub(crate) fn values(alloc: Global, words: &str) -> Result<Vec<Value>, NoMemory> {
    let mut values = Vec::new(alloc);
    for word in words.split_whitespace() {
        values.push(value(alloc, word)?)?;
    }
    Ok(values)
}

/// A call: what it is called on and its name, its number in action code, the number of the table or buffer that it is on, or 0, and its
/// arguments as words.
#[derive(Clone, Copy)]
pub(crate) struct Call<'a> {
    pub(crate) name: &'a str,
    pub(crate) number: u16,
    pub(crate) on: u16,
    pub(crate) arguments: &'a str,
}

/// The call of a line.
pub(crate) fn call_of(line: &str) -> Call<'_> {
    let (name, words) = line.split_once(" = ").unwrap_or((line, ""));
    let (number, words) = words.split_once(' ').unwrap_or((words, ""));
    let (on, arguments) = words.split_once(' ').unwrap_or((words, ""));
    Call {
        name,
        number: number.parse::<u16>().unwrap_or(0),
        on: on.parse::<u16>().unwrap_or(0),
        arguments,
    }
}
