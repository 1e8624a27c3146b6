use ruby_value::{Fault, Kind, Seq, Value};

/// An instruction of action code. It takes its operands off the stack, the last one from the top, and puts what it gives there.
#[derive(Drop)]
pub enum Instr {
    /// Gives the value. The number is that of the structure where the value is a reference to nothing, and else 0.
    Push(Value, u16),
    /// Gives the value of the local.
    Load(u16),
    /// Takes a value of the local's kind, which the local has then.
    Store(u16),
    /// Takes two numbers and gives their sum, or ends with the fault `overflow`. So do `Sub` and `Mul` with the difference and the product.
    Add,
    Sub,
    Mul,
    /// Takes a number and gives its negation, or ends with the fault `overflow`.
    Neg,
    /// Takes a truth value and gives the other.
    Not,
    /// Takes two numbers and gives whether the first is less.
    Lt,
    /// Takes two numbers and gives whether the first is at most the second.
    Le,
    /// Takes two values of one kind and gives whether they are equal.
    Eq,
    /// Goes on at the instruction of this number, which is a later one.
    Jump(u32),
    /// Takes a truth value, and goes on at the instruction of this number, which is a later one, where it is false.
    Unless(u32),
    /// Takes a reference and gives the field of its line.
    Get(u16),
    /// Takes a reference and a value of the field's kind, which the field of its line has then.
    Set(u16),
    /// Opens the front message of the buffer, which is the inner message until `Unpeek`.
    Peek(u16),
    /// Gives the field of the inner message.
    Infield(u16),
    /// Closes the inner message. The one that was open before is the inner message again.
    Unpeek,
    /// Opens an out message of the type of this number, whose fields have their defaults.
    New(u16),
    /// Gives the field of the out message.
    Outfield(u16),
    /// Takes a value of the field's kind, which the field of the out message has then.
    Setout(u16),
    /// Takes a latency, a number, and sends the out message to the buffer. The one that was open before is the out message again.
    Send(u16),
    /// Takes the arguments of the operation of the first number, does it on the table or buffer of the second number, and gives its
    /// result, if it has one. A call that changes a set of controllers or a block gives the changed value.
    Op(u16, u16),
    /// Takes the arguments of the body of this number, which is a lower one of the same machine, and gives its result, if it has one.
    Call(u32),
    /// Takes an address, a reference to an entry and one to a TBE. The body ends with the event of this number.
    Trigger(u16),
    /// The body ends with the fault.
    Stop(Fault),
    /// Takes the body's result, if it has one. The body ends with it.
    Ret,
}

/// A body of a machine.
#[derive(Drop)]
pub struct Code {
    /// The machine's number.
    pub machine: u16,
    /// The kinds of the arguments, which are the first locals.
    pub arguments: Seq<Kind>,
    /// The kinds of the other locals, which begin with the defaults of their kinds.
    pub locals: Seq<Kind>,
    pub result: Option<Kind>,
    /// The instructions by their numbers, from 0. Its stack begins empty.
    pub instructions: Seq<Instr>,
}
