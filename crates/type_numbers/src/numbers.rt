//! The numbers of declared types, and the kinds of values that are no references.
ghost use Rattle.std.specs.Prelude.{◌≡◌, ◌<◌, ◌≤◌, IfSome, length, map, position, option_and_then};
ghost use Rattle.slicc_plan.specs.Prelude.{declared_number, declared_structures, declares, request_number, structure_number, structured, built_in_kind, default_member, kind_or_bool, plain_kind};
ghost use Rattle.declared_types.specs.Prelude.{scope_of, type_of};
ghost use Rattle.type_numbers.specs.declared.numbering.Scoped.{Scoped};
ghost use Rattle.type_numbers.specs.Prelude.{AreNumbered, scoped_of, trees_of};
ghost use Rattle.std.specs.Option.{option_map};
ghost use Rattle.ruby_value.specs.declared.kind.Kind.TheVariants as kind;

use crate::members::default_at;
use crate::numbering::{Scoped, TypeNumbers};
use body_types::same_type;
use declared_types::{KnownType, Scope, declared_type};
use ruby_value::Kind;
use slicc_ast::tree::Structure;
use slicc_plan::BuiltInType;

fn declares(t: KnownType<'_>, d: &Scoped<'_>) -> bool
    ensures { result ≡ declares (type_of t.entry) (scoped_of d.now) }
{
    match declared_type(d.scope, d.declaration) {
        None => false,
        Some(u) => same_type(t, u),
    }
}

fn first_declaring(list: &[Scoped<'_>], t: KnownType<'_>) -> Option<usize>
    ensures { result ≡ position (λ (d : Scoped). declares (type_of t.entry) (scoped_of d)) list.now }
{
    list.iter().position(|d| declares(t, d))
}

/// The place of the first of these declarations that declares a type.
pub fn place_among(list: &[Scoped<'_>], t: KnownType<'_>) -> Option<usize>
    ensures place { result ≡ position (declares (type_of t.entry)) (map scoped_of list.now) }
    ensures within { IfSome result (λ n. n < length list.now) }
{
    first_declaring(list, t)
}

/// A number, where there is one, as one that setups keep.
pub fn kept(place: Option<usize>) -> Option<u16>
    requires { IfSome place (λ n. n ≤ 65535) }
    ensures { result ≡ place }
{
    match place {
        None => None,
        Some(n) => Some(n as u16),
    }
}

/// The number of an enumeration or of a state declaration.
pub fn declared_number(types: &TypeNumbers<'_>, t: KnownType<'_>) -> Option<u16>
    requires { AreNumbered types.now }
    ensures { result ≡ declared_number (trees_of types.now) (type_of t.entry) }
{
    match place_among(&types.enumerations, t) {
        None => None,
        Some(n) => Some((n + 4) as u16),
    }
}

/// The number of a structure.
pub fn structure_number(types: &TypeNumbers<'_>, scope: Scope<'_>, s: &Structure) -> Option<u16>
    requires { AreNumbered types.now }
    ensures { result ≡ structure_number (trees_of types.now) (structured (scope_of scope.entry) s.now) }
{
    match place_among(&types.structures, KnownType::Structure(scope, s)) {
        None => None,
        Some(n) => Some(n as u16),
    }
}

// The number of the built-in structure, which comes after those that are declared.
fn last_number(types: &TypeNumbers<'_>) -> u16
    requires { AreNumbered types.now }
    ensures value { result ≡ length (declared_structures (trees_of types.now)) }
    ensures bound { result ≤ 16384 }
{
    types.structures.len() as u16
}

fn request_number(types: &TypeNumbers<'_>, b: BuiltInType) -> Option<u16>
    requires { AreNumbered types.now }
    ensures { result ≡ request_number (trees_of types.now) b }
{
    match b {
        BuiltInType::Request => Some(last_number(types)),
        _ => None,
    }
}

/// The number of the structure that a type is, where it is one.
pub fn type_number<'a>(types: &TypeNumbers<'a>, t: KnownType<'a>) -> Option<u16>
    requires { AreNumbered types.now }
    ensures { result ≡ structure_number (trees_of types.now) (type_of t.entry) }
{
    match t {
        KnownType::BuiltIn(b) => request_number(types, b),
        KnownType::Enumeration(..) | KnownType::States(..) => None,
        KnownType::Structure(scope, s) => structure_number(types, scope, s),
    }
}

fn built_in_kind(b: BuiltInType) -> Option<Kind>
    ensures { result ≡ built_in_kind b }
{
    match b {
        BuiltInType::Int | BuiltInType::Cycles | BuiltInType::Tick => Some(Kind::Int),
        BuiltInType::Bool => Some(Kind::Bool),
        BuiltInType::Address => Some(Kind::Addr),
        BuiltInType::MachineId => Some(Kind::Machine),
        BuiltInType::MachineType => Some(Kind::Enum(0, 0)),
        BuiltInType::NetDest => Some(Kind::Dest),
        BuiltInType::DataBlock => Some(Kind::Block),
        BuiltInType::AccessPermission => Some(Kind::Enum(1, 0)),
        BuiltInType::RequestType => Some(Kind::Enum(2, 0)),
        BuiltInType::MessageSize => Some(Kind::Enum(3, 0)),
        BuiltInType::Request
        | BuiltInType::AbstractEntry
        | BuiltInType::Void
        | BuiltInType::Cache
        | BuiltInType::Directory
        | BuiltInType::TbeTable
        | BuiltInType::Sequencer
        | BuiltInType::Buffer => None,
    }
}

#[tactic(auto, using(crate::proofs::DefaultMembers::default_there))]
fn declared_kind(types: &TypeNumbers<'_>, t: KnownType<'_>) -> Option<Kind>
    requires { AreNumbered types.now }
    ensures { result ≡ option_map (λ number. kind.Enum number (default_member (trees_of types.now) (type_of t.entry))) (declared_number (trees_of types.now) (type_of t.entry)) }
{
    match place_among(&types.enumerations, t) {
        None => None,
        Some(place) => Some(Kind::Enum((place + 4) as u16, default_at(types, place))),
    }
}

/// The kind of a type's values, where they are no references.
pub fn plain_kind(types: &TypeNumbers<'_>, t: KnownType<'_>) -> Option<Kind>
    requires { AreNumbered types.now }
    ensures { result ≡ plain_kind (trees_of types.now) (type_of t.entry) }
{
    match t {
        KnownType::BuiltIn(b) => built_in_kind(b),
        KnownType::Enumeration(..) | KnownType::States(..) => declared_kind(types, t),
        KnownType::Structure(..) => None,
    }
}

/// The kind of the values of what may be a type; that of booleans where there is none, as for no field of an accepted protocol.
pub fn kind_or_bool(types: &TypeNumbers<'_>, t: Option<KnownType<'_>>) -> Kind
    requires { AreNumbered types.now }
    ensures { result ≡ kind_or_bool (option_and_then (plain_kind (trees_of types.now)) (option_map type_of t.entry)) }
{
    let Some(t) = t else {
        return Kind::Bool;
    };
    match plain_kind(types, t) {
        None => Kind::Bool,
        Some(k) => k,
    }
}
