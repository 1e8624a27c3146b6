//! Whether what stands at a place is what is wanted there.
ghost use Rattle.std.specs.Prelude.{◌≡◌, Some};
ghost use Rattle.std.specs.List.{list_any};
ghost use Rattle.std.specs.Option.{option_copied};
ghost use Rattle.slicc_plan.specs.Prelude.{nature_of, is_same_known, within, may_be_field, agree, bare_line_fits, fits, is_comparable, is_line, is_number, no_line_fits, table_fits, value_fits, is_value, is_built_in, nature_in, structured};
ghost use Rattle.slicc_plan.specs.Buffers.{listed};
ghost use Rattle.declared_types.specs.Prelude.{type_of};
ghost use Rattle.body_types.specs.Prelude.{AreLines, meaning_of, type_if, wanted_of};

use crate::lines::Lines;
use crate::meaning::{Meaning, Wanted};
use crate::same::same_type;
use declared_types::{KnownType, Scope};
use slicc_ast::tree::{Machine, Structure};
use slicc_plan::BuiltInType;

/// Whether references to lines of this structure of a machine, if there is one, have this type.
pub fn has_line<'a>(m: &'a Machine, s: Option<&'a Structure>, t: KnownType<'a>) -> bool
    ensures { result ≡ list_any (λ u. is_same_known (structured (within m.now) u) (type_of t.entry)) (listed (option_copied s.entry)) }
{
    match s {
        None => false,
        Some(s) => same_type(KnownType::Structure(Scope::Within(m), s), t),
    }
}

/// Whether references to lines of the machine's tables may be of this type.
pub fn is_line<'a>(lines: Lines<'a>, t: KnownType<'a>) -> bool
    requires { AreLines lines }
    ensures { result ≡ is_line lines.entry.machine.now (type_of t.entry) }
{
    has_line(lines.machine, lines.entry, t)
        || has_line(lines.machine, lines.directory, t)
        || has_line(lines.machine, lines.tbe, t)
}

/// Whether a type is a built-in one.
pub fn is_built_in(b: BuiltInType, t: KnownType) -> bool
    ensures { result ≡ is_built_in b (Some (type_of t.entry)) }
{
    match t {
        KnownType::BuiltIn(c) => b == c,
        _ => false,
    }
}

// Whether the values of a type are numbers.
fn has_numbers(t: KnownType) -> bool
    ensures { result ≡ is_number (nature_in (type_of t.entry)) }
{
    match t {
        KnownType::BuiltIn(BuiltInType::Int | BuiltInType::Cycles | BuiltInType::Tick) => true,
        _ => false,
    }
}

// Whether fields may be of this built-in type.
fn may_be_field(b: BuiltInType) -> bool
    ensures { result ≡ may_be_field (nature_of b) }
{
    match b {
        BuiltInType::Request
        | BuiltInType::AbstractEntry
        | BuiltInType::Void
        | BuiltInType::Cache
        | BuiltInType::Directory
        | BuiltInType::TbeTable
        | BuiltInType::Sequencer
        | BuiltInType::Buffer => false,
        _ => true,
    }
}

/// Whether values in a body may be of this type.
pub fn is_value<'a>(lines: Lines<'a>, t: KnownType<'a>) -> bool
    requires { AreLines lines }
    ensures { result ≡ is_value lines.entry.machine.now (type_of t.entry) }
{
    match t {
        KnownType::BuiltIn(b) => may_be_field(b),
        KnownType::Enumeration(..) | KnownType::States(..) => true,
        KnownType::Structure(..) => is_line(lines, t),
    }
}

/// Whether values of two types may stand for each other.
pub fn agree(t: KnownType, u: KnownType) -> bool
    ensures { result ≡ agree (type_of t.entry) (type_of u.entry) }
{
    if has_numbers(t) {
        has_numbers(u)
    } else {
        same_type(t, u)
    }
}

fn is_comparable<'a>(lines: Lines<'a>, t: KnownType<'a>) -> bool
    requires { AreLines lines }
    ensures { result ≡ is_comparable lines.entry.machine.now (type_of t.entry) }
{
    !is_built_in(BuiltInType::NetDest, t) && !is_line(lines, t)
}

// Whether a type, if there is one, agrees with this one.
fn agrees_if(t: KnownType, u: Option<KnownType>) -> bool
    ensures { result ≡ list_any (λ w. agree w (type_of t.entry)) (listed (type_if u.entry)) }
{
    match u {
        None => false,
        Some(u) => agree(u, t),
    }
}

// Whether references to lines may be of the type, if there is one.
fn is_line_if<'a>(lines: Lines<'a>, t: Option<KnownType<'a>>) -> bool
    requires { AreLines lines }
    ensures { result ≡ list_any (is_line lines.entry.machine.now) (listed (type_if t.entry)) }
{
    match t {
        None => false,
        Some(t) => is_line(lines, t),
    }
}

fn value_fits<'a>(lines: Lines<'a>, wanted: Wanted<'a>, t: KnownType<'a>) -> bool
    requires { AreLines lines }
    ensures { result ≡ value_fits lines.entry.machine.now (wanted_of wanted.entry) (type_of t.entry) }
{
    match wanted {
        Wanted::Anything | Wanted::AnyValue => true,
        Wanted::OneOf(u, w) => agrees_if(t, u) || agrees_if(t, w),
        Wanted::AddressOrLineOf(line) => {
            agree(KnownType::BuiltIn(BuiltInType::Address), t) || agrees_if(t, line)
        }
        Wanted::AnyLine => is_line(lines, t),
        Wanted::Comparable => is_comparable(lines, t),
        _ => false,
    }
}

fn no_line_fits<'a>(lines: Lines<'a>, wanted: Wanted<'a>) -> bool
    requires { AreLines lines }
    ensures { result ≡ no_line_fits lines.entry.machine.now (wanted_of wanted.entry) }
{
    match wanted {
        Wanted::Anything
        | Wanted::AnyValue
        | Wanted::AnyLine
        | Wanted::OnlyNoLine
        | Wanted::AddressOrLineOf(_) => true,
        Wanted::OneOf(t, u) => is_line_if(lines, t) || is_line_if(lines, u),
        _ => false,
    }
}

fn bare_line_fits(wanted: Wanted) -> bool
    ensures { result ≡ bare_line_fits (wanted_of wanted.entry) }
{
    match wanted {
        Wanted::Anything | Wanted::AnyValue | Wanted::AnyLine => true,
        _ => false,
    }
}

fn table_fits(wanted: Wanted, b: BuiltInType) -> bool
    ensures { result ≡ table_fits (wanted_of wanted.entry) b }
{
    match wanted {
        Wanted::Anything => true,
        Wanted::TableOf(c) => c == b,
        _ => false,
    }
}

/// Whether this may stand where that is wanted.
pub fn fits<'a>(lines: Lines<'a>, wanted: Wanted<'a>, meaning: Meaning<'a>) -> bool
    requires { AreLines lines }
    ensures { result ≡ fits lines.entry.machine.now (wanted_of wanted.entry) (meaning_of meaning.entry) }
{
    match meaning {
        Meaning::Value(t) => value_fits(lines, wanted, t),
        Meaning::NoLine => no_line_fits(lines, wanted),
        Meaning::BareLine => bare_line_fits(wanted),
        Meaning::NewLine(_) | Meaning::Unknown => true,
        Meaning::Incoming(_) | Meaning::Outgoing(_) => matches!(wanted, Wanted::Anything),
        Meaning::Table(b) => table_fits(wanted, b),
        Meaning::InPort(_) => matches!(wanted, Wanted::Anything | Wanted::AnyInPort),
        Meaning::OutPort(_) => matches!(wanted, Wanted::Anything | Wanted::AnyOutPort),
        Meaning::Nothing => matches!(wanted, Wanted::Anything | Wanted::AnyValue),
    }
}
