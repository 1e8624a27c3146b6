//! What declared types mean in a body, and what is told where something unwanted stands.
ghost use Rattle.std.specs.Prelude.{◌≡◌};
ghost use Rattle.std.specs.Option.{option_copied};
ghost use Rattle.slicc_plan.specs.Prelude.{is_table_nature, answer_of_type, incoming_of_type, is_answer_type, is_message, is_object_type, like_it, line_of_structure, object_of_type, outgoing_of_type, told, unfit, unless, first_of, nature_in};
ghost use Rattle.slicc_plan.specs.Meanings.{message_type, value_of_type};
ghost use Rattle.declared_types.specs.Prelude.{type_of};
ghost use Rattle.body_types.specs.Prelude.{AreLines, meaning_of, type_if, wanted_of};

use crate::fitting::{fits, is_built_in, is_value};
use crate::lines::Lines;
use crate::meaning::{Meaning, Wanted};
use declared_types::{KnownType, Scope, is_table};
use slicc_ast::tree::{Span, Structure};
use slicc_plan::{Broken, BuiltInType, Rule};

/// Whether messages may be of this type.
pub fn is_message(t: KnownType) -> bool
    ensures { result ≡ is_message (type_of t.entry) }
{
    match t {
        KnownType::BuiltIn(b) => matches!(b, BuiltInType::Request | BuiltInType::AbstractEntry),
        KnownType::Enumeration(..) | KnownType::States(..) => false,
        KnownType::Structure(..) => true,
    }
}

fn has_tables(t: KnownType) -> bool
    ensures { result ≡ is_table_nature (nature_in (type_of t.entry)) }
{
    match t {
        KnownType::BuiltIn(b) => is_table(b),
        _ => false,
    }
}

/// Whether parameters and objects may be of this type.
pub fn is_object_type<'a>(lines: Lines<'a>, t: KnownType<'a>) -> bool
    requires { AreLines lines }
    ensures { result ≡ is_object_type lines.entry.machine.now (type_of t.entry) }
{
    has_tables(t) || is_value(lines, t)
}

/// Whether functions may answer this type.
pub fn is_answer_type<'a>(lines: Lines<'a>, t: KnownType<'a>) -> bool
    requires { AreLines lines }
    ensures { result ≡ is_answer_type lines.entry.machine.now (type_of t.entry) }
{
    is_built_in(BuiltInType::Void, t) || is_value(lines, t)
}

/// What a local, a formal or a field of this type stands for, where the type is known.
pub fn value_of_type<'a>(lines: Lines<'a>, t: Option<KnownType<'a>>) -> Meaning<'a>
    requires { AreLines lines }
    ensures { meaning_of result ≡ value_of_type lines.entry.machine.now (type_if t.entry) }
{
    match t {
        Some(t) if is_value(lines, t) => Meaning::Value(t),
        _ => Meaning::Unknown,
    }
}

/// What a parameter or an object of this type stands for, where the type is known.
pub fn object_of_type<'a>(lines: Lines<'a>, t: Option<KnownType<'a>>) -> Meaning<'a>
    requires { AreLines lines }
    ensures { meaning_of result ≡ object_of_type lines.entry.machine.now (type_if t.entry) }
{
    match t {
        Some(KnownType::BuiltIn(b)) if is_table(b) => Meaning::Table(b),
        _ => value_of_type(lines, t),
    }
}

/// What a call of a function that answers this type stands for, where the type is known.
pub fn answer_of_type<'a>(lines: Lines<'a>, t: Option<KnownType<'a>>) -> Meaning<'a>
    requires { AreLines lines }
    ensures { meaning_of result ≡ answer_of_type lines.entry.machine.now (type_if t.entry) }
{
    match t {
        Some(KnownType::BuiltIn(BuiltInType::Void)) => Meaning::Nothing,
        _ => value_of_type(lines, t),
    }
}

/// The type, where it is known and messages may be of it.
pub fn message_type<'a>(t: Option<KnownType<'a>>) -> Option<KnownType<'a>>
    ensures { type_if result ≡ message_type (type_if t.entry) }
{
    match t {
        Some(t) if is_message(t) => Some(t),
        _ => None,
    }
}

/// A message of this type that is looked at, where the type is known.
pub fn incoming_of_type<'a>(t: Option<KnownType<'a>>) -> Meaning<'a>
    ensures { meaning_of result ≡ incoming_of_type (type_if t.entry) }
{
    match t {
        None => Meaning::Unknown,
        Some(t) => Meaning::Incoming(t),
    }
}

/// A message of this type that is being made, where the type is known.
pub fn outgoing_of_type<'a>(t: Option<KnownType<'a>>) -> Meaning<'a>
    ensures { meaning_of result ≡ outgoing_of_type (type_if t.entry) }
{
    match t {
        None => Meaning::Unknown,
        Some(t) => Meaning::Outgoing(t),
    }
}

/// A reference to a line of this structure of the machine, where it has it.
pub fn line_of_structure<'a>(lines: Lines<'a>, s: Option<&'a Structure>) -> Meaning<'a>
    ensures { meaning_of result ≡ line_of_structure lines.entry.machine.now (option_copied s.entry) }
{
    match s {
        None => Meaning::BareLine,
        Some(s) => Meaning::Value(KnownType::Structure(Scope::Within(lines.machine), s)),
    }
}

/// What has to be there beside this, or be assigned to it.
pub fn like_it<'a>(meaning: Meaning<'a>) -> Wanted<'a>
    ensures { wanted_of result ≡ like_it (meaning_of meaning.entry) }
{
    match meaning {
        Meaning::Value(t) => Wanted::OneOf(Some(t), None),
        _ => Wanted::Anything,
    }
}

/// The breach of a rule at a place.
pub fn told(rule: Rule, place: Span) -> Broken
    ensures { result ≡ told rule place }
{
    Broken {
        rule,
        machine: 0,
        place,
        other: None,
    }
}

/// The breach of a rule at a place, unless something is right.
pub fn unless(is_right: bool, rule: Rule, place: Span) -> Option<Broken>
    ensures { result ≡ first_of (unless is_right rule place) }
{
    if is_right {
        None
    } else {
        Some(told(rule, place))
    }
}

/// What is told of something at this place where that is wanted.
pub fn unfit<'a>(
    lines: Lines<'a>,
    wanted: Wanted<'a>,
    place: Span,
    meaning: Meaning<'a>,
) -> Option<Broken>
    requires { AreLines lines }
    ensures { result ≡ first_of (unfit lines.entry.machine.now (wanted_of wanted.entry) place (meaning_of meaning.entry)) }
{
    unless(fits(lines, wanted, meaning), Rule::WrongType, place)
}
