use declared_types::KnownType;
use slicc_ast::tree::Name;
use slicc_plan::BuiltInType;

/// What an expression or a name stands for in a body.
#[derive(Clone, Copy)]
pub enum Meaning<'a> {
    /// A value of a type, a reference to a line among them, which has the type of the line's structure.
    Value(KnownType<'a>),
    /// `OOD`, the reference to nothing.
    NoLine,
    /// A reference to a line of a table whose structure the machine doesn't have.
    BareLine,
    /// `new` and the name of a structure.
    NewLine(&'a Name),
    /// A message that is looked at.
    Incoming(KnownType<'a>),
    /// A message that is being made.
    Outgoing(KnownType<'a>),
    /// A table, a sequencer or a buffer.
    Table(BuiltInType),
    /// An in port with the type of its messages, where that is known.
    InPort(Option<KnownType<'a>>),
    /// An out port with the type of its messages, where that is known.
    OutPort(Option<KnownType<'a>>),
    /// What a call gives that answers nothing.
    Nothing,
    /// What is told to be wrong already.
    Unknown,
}

/// What is wanted at a place.
#[derive(Clone, Copy)]
pub enum Wanted<'a> {
    Anything,
    /// What may be a statement alone.
    AnyValue,
    /// A value of one of these types, of which there may be none, one or two.
    OneOf(Option<KnownType<'a>>, Option<KnownType<'a>>),
    AnyLine,
    OnlyNoLine,
    /// What `==` compares.
    Comparable,
    /// `new` and the name of this type.
    NewLineOf(Option<KnownType<'a>>),
    /// An address, or a reference to a line of this type, of which `OOD` is one also where there is no such type.
    AddressOrLineOf(Option<KnownType<'a>>),
    /// A table of this type.
    TableOf(BuiltInType),
    AnyInPort,
    AnyOutPort,
}

/// What of an expression may be written.
#[derive(Clone, Copy)]
pub enum Written {
    Local,
    /// A field of a line or of a message that is being made.
    Field,
    /// Nothing: it is no place, or one that isn't written.
    NoPlace,
}
