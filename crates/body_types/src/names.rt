//! What the names in a body stand for.
ghost use Rattle.std.specs.Prelude.{◌≡◌, find, map, reverse};
ghost use Rattle.std.specs.Option.{option_map};
ghost use Rattle.slicc_plan.specs.Prelude.{within, type_in, bound_as, declared_value, is_allowed, known_in_bodies, fixed, names_everywhere, no_type, type_named, value_named, value_outside, meaning_of_found, wrong_type_name, wrong_value_name, meaning_named, wrong_meaning, object_of_type, first_of};
ghost use Rattle.slicc_plan.specs.Meanings.{message_type};
ghost use Rattle.declared_types.specs.Prelude.{declaration_of, type_of};
ghost use Rattle.body_types.specs.Prelude.{IsEnvironment, bound_of, environment_of, AreLines, meaning_of, type_if, wanted_of};

use crate::environment::{Bound, Environment};
use crate::fitting::is_built_in;
use crate::meaning::{Meaning, Wanted};
use crate::meanings::{message_type, object_of_type, told, unfit};
use declared_types::{Declared, KnownType};
use slicc_ast::tree::{Name, Span, TypeName};
use slicc_plan::{Broken, BuiltInType, Rule};

/// The innermost of the names of a body that is written so, the outermost being first.
#[tactic(auto, using(crate::proofs::Innermost::innermost))]
pub fn bound_as<'a>(bound: &[Bound<'a>], name: &[u8]) -> Option<Bound<'a>>
    ensures { option_map bound_of result ≡ bound_as name.now (reverse (map bound_of bound.now)) }
{
    let mut left = bound.len();
    while left > 0 {
        left -= 1;
        let b = bound[left];
        if b.name == name {
            return Some(b);
        }
    }
    None
}

// A name of a value that isn't a local's.
fn fixed<'a>(name: &'a [u8], meaning: Meaning<'a>) -> Bound<'a>
    ensures { bound_of result ≡ fixed name.entry.now (meaning_of meaning.entry) }
{
    Bound {
        name,
        meaning,
        is_local: false,
    }
}

// What the names stand for that each body has.
fn name_everywhere<'a>(name: &[u8]) -> Option<Bound<'a>>
    ensures { option_map bound_of result ≡ bound_as name.now names_everywhere }
{
    if b"machineID".as_slice() == name {
        return Some(fixed(
            b"machineID",
            Meaning::Value(KnownType::BuiltIn(BuiltInType::MachineId)),
        ));
    }
    if b"recycle_latency".as_slice() == name {
        return Some(fixed(
            b"recycle_latency",
            Meaning::Value(KnownType::BuiltIn(BuiltInType::Int)),
        ));
    }
    None
}

// The type of a name that the machine declares or knows.
fn type_of_name<'a>(env: Environment<'_, 'a>, name: &[u8]) -> Option<KnownType<'a>>
    requires { IsEnvironment env }
    ensures { type_if result ≡ type_in env.entry.scopes.now.trees.now (within env.entry.lines.machine.now) name.now }
{
    env.scopes.type_in(env.scope, name)
}

// The value that a declaration with this name and type declares.
fn object_named<'a>(env: Environment<'_, 'a>, name: &'a Name, kind: &TypeName) -> Bound<'a>
    requires { IsEnvironment env }
    ensures { bound_of result ≡ fixed name.entry.now.text (object_of_type env.entry.lines.machine.now (type_in env.entry.scopes.now.trees.now (within env.entry.lines.machine.now) kind.now.text)) }
{
    let t = type_of_name(env, kind.text.as_slice());
    fixed(name.text.as_slice(), object_of_type(env.lines, t))
}

// The type of a port's messages.
fn message_named<'a>(env: Environment<'_, 'a>, message: &TypeName) -> Option<KnownType<'a>>
    requires { IsEnvironment env }
    ensures { type_if result ≡ message_type (type_in env.entry.scopes.now.trees.now (within env.entry.lines.machine.now) message.now.text) }
{
    message_type(type_of_name(env, message.text.as_slice()))
}

// The value that a declaration of the machine declares.
fn declared_value<'a>(env: Environment<'_, 'a>, d: Declared<'a>) -> Option<Bound<'a>>
    requires { IsEnvironment env }
    ensures { option_map bound_of result ≡ declared_value env.entry.scopes.now.trees.now env.entry.lines.machine.now (declaration_of d.entry) }
{
    match d {
        Declared::Parameter(p) => Some(object_named(env, &p.name, &p.kind)),
        Declared::Object(o) => Some(object_named(env, &o.name, &o.kind)),
        Declared::InPort(p) => {
            let t = message_named(env, &p.message);
            Some(fixed(p.name.text.as_slice(), Meaning::InPort(t)))
        }
        Declared::OutPort(p) => {
            let t = message_named(env, &p.message);
            Some(fixed(p.name.text.as_slice(), Meaning::OutPort(t)))
        }
        _ => None,
    }
}

/// The value that a name stands for, where it stands for one.
pub fn value_named<'a>(env: Environment<'_, 'a>, name: &[u8]) -> Option<Bound<'a>>
    requires { IsEnvironment env }
    ensures { option_map bound_of result ≡ value_named (environment_of env.entry) name.now }
{
    match bound_as(env.bound, name) {
        Some(b) => Some(b),
        None => match env.scopes.first_named(env.scope, name) {
            None => name_everywhere(name),
            Some(d) => declared_value(env, d),
        },
    }
}

/// What a name stands for, where it stands for a value, a port or a table.
pub fn meaning_named<'a>(env: Environment<'_, 'a>, name: &[u8]) -> Option<Meaning<'a>>
    requires { IsEnvironment env }
    ensures { option_map meaning_of result ≡ meaning_named (environment_of env.entry) name.now }
{
    match value_named(env, name) {
        None => None,
        Some(b) => Some(b.meaning),
    }
}

/// What is told of a name where that is wanted.
pub fn wrong_value_name<'a>(
    env: Environment<'_, 'a>,
    wanted: Wanted<'a>,
    name: &Name,
) -> Option<Broken>
    requires { IsEnvironment env }
    ensures { result ≡ first_of (wrong_value_name (environment_of env.entry) (wanted_of wanted.entry) name.now) }
{
    match meaning_named(env, name.text.as_slice()) {
        None => Some(told(Rule::NotThere, name.span)),
        Some(meaning) => unfit(env.lines, wanted, name.span, meaning),
    }
}

fn known_in_bodies<'a>(t: Option<KnownType<'a>>) -> Option<KnownType<'a>>
    ensures { type_if result ≡ known_in_bodies (type_if t.entry) }
{
    match t {
        Some(t) if !is_built_in(BuiltInType::AbstractEntry, t) => Some(t),
        _ => None,
    }
}

/// The type that a name stands for, where it stands for one.
pub fn type_named<'a>(env: Environment<'_, 'a>, name: &[u8]) -> Option<KnownType<'a>>
    requires { IsEnvironment env }
    ensures { type_if result ≡ type_named (environment_of env.entry) name.now }
{
    match value_named(env, name) {
        Some(_) => None,
        None => known_in_bodies(type_of_name(env, name)),
    }
}

/// What is told of a name where a type's is wanted.
pub fn wrong_type_name(env: Environment, name: &[u8], place: Span) -> Option<Broken>
    requires { IsEnvironment env }
    ensures { result ≡ first_of (wrong_type_name (environment_of env.entry) name.now place) }
{
    match value_named(env, name) {
        Some(_) => Some(told(Rule::WrongType, place)),
        None => match type_named(env, name) {
            None => Some(told(Rule::NotThere, place)),
            Some(_) => None,
        },
    }
}
