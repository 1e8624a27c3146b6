use action_code::TableDecl;
use ruby_value::Kind;

/// An instruction of a row. The first eleven push values: of a reference to nothing the number is that of its structure.
#[derive(Clone, Copy)]
pub enum Step {
    Bool(bool),
    Int(i64),
    Enum(u16, u16),
    Addr(u64),
    Machine(u32),
    Dest,
    Block,
    Entry(u16),
    Tbe(u16),
    EntryAt(u16, u64),
    TbeAt(u16, u64),
    Load(u16),
    Store(u16),
    Add,
    Sub,
    Mul,
    Neg,
    Not,
    Lt,
    Le,
    Eq,
    Jump(u32),
    Unless(u32),
    Get(u16),
    Set(u16),
    Peek(u16),
    Infield(u16),
    Unpeek,
    New(u16),
    Outfield(u16),
    Setout(u16),
    Send(u16),
    Op(u16, u16),
    Call(u32),
    Trigger(u16),
    Stop,
    Ret,
}

/// What is around the instructions of a row.
#[derive(Clone, Copy)]
pub enum Around {
    /// They are the only body, of machine 0.
    Alone,
    /// So they are, with a local, a number.
    Local,
    /// With a number as the result.
    Result,
    /// With a reference to structure 0 as the result.
    Reference,
    /// With a local of an enumeration whose default is member 3.
    Member,
    /// They are the only body, of machine 1.
    Other,
    /// They are the only body, of a machine that isn't declared.
    Undeclared,
    /// They are body 2. Body 0 takes and gives a number, body 1 is of machine 1, body 3 takes a number.
    Third,
    /// They are the only body, of a machine with these tables, and have these locals.
    Tables(&'static [TableDecl], &'static [Kind]),
}

/// What verification answers.
#[derive(Clone, Copy)]
pub enum Wanted {
    Accepted,
    /// The rule, the body, the place and what is kept.
    Broken(u8, u32, u32, &'static [Kind]),
}

#[derive(Clone, Copy)]
pub struct Row {
    pub shows: &'static str,
    pub around: Around,
    pub steps: &'static [Step],
    pub wanted: Wanted,
}
