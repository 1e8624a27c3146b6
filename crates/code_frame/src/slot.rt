ghost use Rattle.std.specs.Prelude.{◌≡◌};
ghost use Rattle.ruby_value.specs.declared.value.Value.{Value as AnyValue};
ghost use Rattle.code_frame.specs.Slots.{IsWord, reference_of, value_in, word_of};

use ruby_value::{Ref, Value};

/// What the word of a slot stands for.
#[derive(Clone, Copy)]
pub(crate) enum Sort {
    Bool,
    Int,
    /// A member of the enumeration of this number.
    Enum(u16),
    Addr,
    Machine,
    /// References to nothing.
    NoEntry,
    NoTbe,
    /// References to lines of the table of this number.
    Entry(u16),
    Tbe(u16),
    /// A set of controllers or a block, which is kept apart.
    Apart,
}

/// A value in two words.
#[derive(Clone, Copy)]
pub(crate) struct Slot {
    pub word: u64,
    pub sort: Sort,
}

/// A number as a slot.
pub(crate) fn int_slot(n: i64) -> Slot
    ensures word { IsWord result.sort }
    ensures value { word_of result ≡ Value.Int n }
{
    Slot {
        word: n.cast_unsigned(),
        sort: Sort::Int,
    }
}

/// A truth value as a slot.
pub(crate) fn bool_slot(b: bool) -> Slot
    ensures word { IsWord result.sort }
    ensures value { word_of result ≡ Value.Bool b }
{
    Slot {
        word: if b { 1 } else { 0 },
        sort: Sort::Bool,
    }
}

/// A reference to an entry, or to nothing, as a slot.
pub(crate) fn entry_slot(r: Option<Ref>) -> Slot
    ensures word { IsWord result.sort }
    ensures value { word_of result ≡ Value.Entry r }
{
    match r {
        None => Slot {
            word: 0,
            sort: Sort::NoEntry,
        },
        Some(r) => Slot {
            word: r.line,
            sort: Sort::Entry(r.table),
        },
    }
}

/// A reference to a TBE, or to nothing, as a slot.
pub(crate) fn tbe_slot(r: Option<Ref>) -> Slot
    ensures word { IsWord result.sort }
    ensures value { word_of result ≡ Value.Tbe r }
{
    match r {
        None => Slot {
            word: 0,
            sort: Sort::NoTbe,
        },
        Some(r) => Slot {
            word: r.line,
            sort: Sort::Tbe(r.table),
        },
    }
}

/// The value of a slot that isn't kept apart.
pub(crate) fn value_of(s: Slot) -> Value
    requires { IsWord s.sort }
    ensures { (apart : AnyValue) → result ≡ value_in s apart }
{
    match s.sort {
        Sort::Bool => Value::Bool(s.word == 1),
        Sort::Int => Value::Int(s.word.cast_signed()),
        Sort::Enum(enumeration) => Value::Enum(enumeration, (s.word % 65_536) as u16),
        Sort::Addr => Value::Addr(s.word),
        Sort::Machine => Value::Machine((s.word % 4_294_967_296) as u32),
        Sort::NoEntry => Value::Entry(None),
        Sort::NoTbe => Value::Tbe(None),
        Sort::Entry(table) => Value::Entry(Some(Ref {
            table,
            line: s.word,
        })),
        Sort::Tbe(table) => Value::Tbe(Some(Ref {
            table,
            line: s.word,
        })),
        Sort::Apart => unreachable!(),
    }
}

/// The reference that a slot has.
pub(crate) fn reference_of(s: Slot) -> Option<Ref>
    ensures { result ≡ reference_of s.sort s.word }
{
    match s.sort {
        Sort::Entry(table) | Sort::Tbe(table) => Some(Ref {
            table,
            line: s.word,
        }),
        _ => None,
    }
}
