ghost use Rattle.std.specs.Prelude.{◌≡◌, ◌↔◌, IsTrue};
ghost use Rattle.ruby_value.specs.DefaultValue.{default_value};
ghost use Rattle.ruby_value.specs.HasKind.{has_kind};
ghost use Rattle.ruby_value.specs.SameKind.{same_kind};

use crate::{Kind, NetDest, NoMemory};
use std::alloc::{AllocError, Global};

/// The 64 bytes of a line.
#[derive(Clone, Copy, PartialEq, Eq)]
pub struct Block {
    pub bytes: [u8; 64],
}

/// Names a line of one of a controller's tables: the table's number within its machine, and the line number,
/// which is the byte address divided by 64. gem5 has a pointer to the entry in its place.
#[derive(Clone, Copy, PartialEq, Eq)]
pub struct Ref {
    pub table: u16,
    pub line: u64,
}

/// A value of a local, a parameter, or a field of a message or of a table's line. The types are SLICC's.
#[derive(Drop, PartialEq, Eq)]
pub enum Value {
    Bool(bool),
    /// `int`, `Cycles` and `Tick`.
    Int(i64),
    /// The number of an enumeration, and the number of a member, which isn't compared with how many there are.
    Enum(u16, u16),
    /// A byte address.
    Addr(u64),
    /// The number of a controller.
    Machine(u32),
    /// The controllers that a message goes to.
    Dest(NetDest),
    Block(Block),
    /// A line of a cache or of a directory, or nothing.
    Entry(Option<Ref>),
    /// A line of a TBE table, or nothing.
    Tbe(Option<Ref>),
}

impl Value {
    /// Whether the two values are the same, which `==` tells too.
    pub fn equals(&self, other: &Value) -> bool
        ensures { IsTrue result ↔ (self.now ≡ other.now) }
    {
        *self == *other
    }

    /// Whether the two values are of one kind: the same variant, and of two members of enumerations the same one.
    /// References are of one kind whatever structures they name.
    pub fn shares_kind(&self, other: &Value) -> bool
        ensures { result ≡ same_kind self.now other.now }
    {
        match (self, other) {
            (Value::Bool(_), Value::Bool(_)) => true,
            (Value::Int(_), Value::Int(_)) => true,
            (Value::Enum(a, _), Value::Enum(b, _)) => *a == *b,
            (Value::Addr(_), Value::Addr(_)) => true,
            (Value::Machine(_), Value::Machine(_)) => true,
            (Value::Dest(_), Value::Dest(_)) => true,
            (Value::Block(_), Value::Block(_)) => true,
            (Value::Entry(_), Value::Entry(_)) => true,
            (Value::Tbe(_), Value::Tbe(_)) => true,
            _ => false,
        }
    }

    /// Whether the value is one of this kind. A reference doesn't show its structure, so it is of each kind
    /// of entries, or of each kind of TBEs.
    pub fn has_kind(&self, kind: &Kind) -> bool
        ensures { result ≡ has_kind kind.now self.now }
    {
        match (kind, self) {
            (Kind::Bool, Value::Bool(_)) => true,
            (Kind::Int, Value::Int(_)) => true,
            (Kind::Enum(a, _), Value::Enum(b, _)) => *a == *b,
            (Kind::Addr, Value::Addr(_)) => true,
            (Kind::Machine, Value::Machine(_)) => true,
            (Kind::Dest, Value::Dest(_)) => true,
            (Kind::Block, Value::Block(_)) => true,
            (Kind::Entry(_), Value::Entry(_)) => true,
            (Kind::Tbe(_), Value::Tbe(_)) => true,
            _ => false,
        }
    }
}

impl Clone for Value {
    ghost is_clone = { λ old new. new ≡ old };

    fn clone(&self) -> Result<Value, AllocError> {
        Ok(match self {
            Value::Bool(b) => Value::Bool(*b),
            Value::Int(i) => Value::Int(*i),
            Value::Enum(enumeration, member) => Value::Enum(*enumeration, *member),
            Value::Addr(address) => Value::Addr(*address),
            Value::Machine(controller) => Value::Machine(*controller),
            Value::Dest(members) => Value::Dest(members.clone()?),
            Value::Block(block) => Value::Block(*block),
            Value::Entry(line) => Value::Entry(*line),
            Value::Tbe(line) => Value::Tbe(*line),
        })
    }
}

/// The value that a local or a field of this kind begins with, as in gem5's SLICC: false, 0, the enumeration's
/// default member, address 0, controller 0, no controllers, 64 bytes 0, a reference to nothing. An empty set takes
/// no memory, so there is always an answer.
pub fn default_of(alloc: Global, kind: &Kind) -> Result<Value, NoMemory>
    ensures value { result ≡ Ok (default_value kind.now) }
    ensures of_its_kind { IsTrue (has_kind kind.now (default_value kind.now)) }
{
    Ok(match kind {
        Kind::Bool => Value::Bool(false),
        Kind::Int => Value::Int(0),
        Kind::Enum(enumeration, member) => Value::Enum(*enumeration, *member),
        Kind::Addr => Value::Addr(0),
        Kind::Machine => Value::Machine(0),
        Kind::Dest => Value::Dest(NetDest::new(alloc)),
        Kind::Block => Value::Block(Block { bytes: [0; 64] }),
        Kind::Entry(_) => Value::Entry(None),
        Kind::Tbe(_) => Value::Tbe(None),
    })
}
