use ruby_base::Text;
use ruby_value::Kind;

/// What the code of an expression leaves. All but a value are known as the code is written, and take no instruction.
#[derive(Clone, Copy)]
pub enum Left {
    /// A value of this kind, on top of the stack.
    Value(Kind),
    /// The machine's table of lines of this number.
    Table(u16),
    /// A port, by the number of the buffer that it is on.
    Port(u16),
    Sequencer,
    /// The message that is looked at, by the number of its structure.
    Inner(u16),
    /// The message that is being made, by the number of its structure.
    Made(u16),
    /// A message whose fields are kept in locals: the number of its structure, and that of the first of these locals.
    Kept(u16, u16),
    /// What a call gives that answers nothing.
    Nothing,
}

/// Where code finds what a name of a body's own stands for.
#[derive(Clone, Copy)]
pub enum Home {
    /// The local of this number, which has values of this kind.
    Local(u16, Kind),
    /// As in `Left`: `in_msg` and `out_msg`, by the numbers of their structures.
    Inner(u16),
    Made(u16),
    /// The `out_msg` around an `enqueue`, in the latency of that: the number of its structure, and that of the first local in which its
    /// fields are kept.
    Kept(u16, u16),
}

/// A name that a body has of its own, and where code finds what it stands for.
#[derive(Drop)]
pub struct NameAt {
    pub name: Text,
    pub home: Home,
}

/// A field, by its number in its structure.
#[derive(Clone, Copy)]
pub struct FieldAt {
    pub number: u16,
    /// The kind of its values. An enumeration's default member is left out: 0 is in its place.
    pub kind: Kind,
}
