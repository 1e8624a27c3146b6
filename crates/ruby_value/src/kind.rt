ghost use Rattle.std.specs.Prelude.{◌≡◌};
ghost use Rattle.ruby_value.specs.EqualKinds.{equal_kinds};
ghost use Rattle.ruby_value.specs.HasKinds.{has_kinds};
ghost use Rattle.ruby_value.specs.IsReference.{is_reference};
ghost use Rattle.ruby_value.specs.SameKinds.{same_kinds};

use crate::Value;

/// What values a field, a parameter or an operand of the action machine may have: SLICC's types, and the default
/// member of an enumeration beside its number. No comparison of kinds looks at the default member.
#[derive(Clone, Copy, Debug)]
#[derive_where(PartialEq, Eq)]
pub enum Kind {
    /// `bool`.
    Bool,
    /// `int`, `Cycles` and `Tick`: a signed number of 64 bits.
    Int,
    /// A member of the enumeration of this number, and the member that a new value has.
    Enum(u16, #[derive_where(skip(EqHashOrd))] u16),
    /// `Addr`: a byte address.
    Addr,
    /// `MachineID`: the number of a controller.
    Machine,
    /// `NetDest`: a set of controllers.
    Dest,
    /// `DataBlock`: the 64 bytes of a line.
    Block,
    /// A reference to a line of a cache or of a directory, of the structure of this number.
    Entry(u16),
    /// A reference to a line of a TBE table, of the structure of this number.
    Tbe(u16),
}

impl Kind {
    /// Whether the two kinds are equal, which `==` tells too.
    pub fn equals(self, other: Kind) -> bool
        ensures { result ≡ equal_kinds self other }
    {
        self == other
    }

    /// Whether it is a kind of references, to entries or to TBEs.
    pub fn is_reference(self) -> bool
        ensures { result ≡ is_reference self }
    {
        matches!(self, Kind::Entry(_) | Kind::Tbe(_))
    }
}

/// Whether the two lists have equal kinds, place by place.
pub fn are_same_kinds(a: &[Kind], b: &[Kind]) -> bool
    ensures { result ≡ same_kinds a.now b.now }
{
    let [first_a, a @ ..] = a else {
        return b.is_empty();
    };
    match b {
        [first_b, b @ ..] => first_a.equals(*first_b) && are_same_kinds(a, b),
        [] => false,
    }
}

/// Whether each value is of the kind at its place, and they are as many as the kinds.
pub fn have_kinds(kinds: &[Kind], values: &[Value]) -> bool
    ensures { result ≡ has_kinds kinds.now values.now }
{
    let [kind, kinds @ ..] = kinds else {
        return values.is_empty();
    };
    match values {
        [value, values @ ..] => value.has_kind(kind) && have_kinds(kinds, values),
        [] => false,
    }
}
