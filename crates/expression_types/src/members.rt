//! Names of values, and members of enumerations.
ghost use Rattle.std.specs.Prelude.{◌≡◌, map};
ghost use Rattle.std.specs.List.{list_any};
ghost use Rattle.std.specs.Option.{option_map};
ghost use Rattle.std.specs.Str.{bytes_eq};
ghost use Rattle.slicc_ast.specs.declared.tree.declaration.State.{State};
ghost use Rattle.slicc_ast.specs.declared.tree.declaration.Symbol.{Symbol};
ghost use Rattle.slicc_plan.specs.Prelude.{is_among, members_of, nature_of, machine_names, enumeration_members, is_enumeration_nature, member_among, member_type, variable_type, written_as};
ghost use Rattle.call_types.specs.Prelude.{machines_in};
ghost use Rattle.declared_types.specs.Prelude.{scope_of, type_of};
ghost use Rattle.body_types.specs.Prelude.{IsEnvironment, environment_of, found_of, typed_of, written_of};
ghost use Rattle.expression_types.specs.Prelude.{is_called};

use body_types::{
    Environment, Meaning, Typed, Written, told, type_named, value_named, wrong_type_name,
};
use call_types::plain;
use declared_types::{KnownType, Scope, Scopes, fixed_members};
use slicc_ast::tree::{Name, State, Symbol};
use slicc_plan::{BuiltInType, Rule};

fn written_as(is_local: bool) -> Written
    ensures { written_of result ≡ written_as is_local }
{
    if is_local {
        Written::Local
    } else {
        Written::NoPlace
    }
}

/// A name of a value.
pub fn variable_type<'a>(env: Environment<'_, 'a>, n: &Name) -> Typed<'a>
    requires { IsEnvironment env }
    ensures { typed_of result ≡ variable_type (environment_of env.entry) n.now }
{
    match value_named(env, n.text.as_slice()) {
        None => plain(Meaning::Unknown, Some(told(Rule::NotThere, n.span))),
        Some(b) => Typed {
            meaning: b.meaning,
            written: written_as(b.is_local),
            broken: None,
        },
    }
}

fn has_symbol(members: &[Symbol], text: &[u8]) -> bool
    ensures { result ≡ is_among (map (λ (s : Symbol). s.name.text) members.now) text.now }
{
    for s in members {
        if s.name.text.as_slice() == text {
            return true;
        }
    }
    false
}

fn has_state(members: &[State], text: &[u8]) -> bool
    ensures { result ≡ is_among (map (λ (s : State). s.name.text) members.now) text.now }
{
    for s in members {
        if s.name.text.as_slice() == text {
            return true;
        }
    }
    false
}

fn is_machine(scope: Scope, text: &[u8]) -> bool
    ensures { result ≡ list_any (is_called text.now) (machines_in (scope_of scope.entry)) }
{
    match scope {
        Scope::Everywhere => false,
        Scope::Within(m) => m.name.text.as_slice() == text,
    }
}

fn has_machine(scopes: &Scopes, text: &[u8]) -> bool
    ensures { result ≡ is_among (machine_names scopes.now.trees.now) text.now }
{
    for number in 0..scopes.len() {
        if is_machine(scopes.scope(number), text) {
            return true;
        }
    }
    false
}

fn has_fixed(members: &[&str], text: &[u8]) -> bool
    ensures { result ≡ list_any (λ name. bytes_eq name.now text.now) members.now }
{
    for name in members {
        if name.as_bytes() == text {
            return true;
        }
    }
    false
}

fn has_built_in(scopes: &Scopes, b: BuiltInType, text: &[u8]) -> bool
    ensures { result ≡ is_among (members_of (machine_names scopes.now.trees.now) b) text.now }
{
    match b {
        BuiltInType::MachineType => has_machine(scopes, text),
        _ => has_fixed(fixed_members(b), text),
    }
}

fn is_enumeration(b: BuiltInType) -> bool
    ensures { result ≡ is_enumeration_nature (nature_of b) }
{
    matches!(
        b,
        BuiltInType::MachineType
            | BuiltInType::AccessPermission
            | BuiltInType::RequestType
            | BuiltInType::MessageSize
    )
}

// Whether an enumeration has a member of this name, where the type is one.
fn has_member(scopes: &Scopes, t: KnownType, text: &[u8]) -> Option<bool>
    ensures { result ≡ option_map (λ members. is_among members text.now) (enumeration_members scopes.now.trees.now (type_of t.entry)) }
{
    match t {
        KnownType::BuiltIn(b) => {
            if is_enumeration(b) {
                Some(has_built_in(scopes, b, text))
            } else {
                None
            }
        }
        KnownType::Enumeration(_, e) => Some(has_symbol(&e.members, text)),
        KnownType::States(_, s) => Some(has_state(&s.members, text)),
        KnownType::Structure(..) => None,
    }
}

// A member of a type, if it is an enumeration and has the member.
fn member_among<'a>(scopes: &Scopes, t: KnownType<'a>, owner: &Name, member: &Name) -> Typed<'a>
    ensures { typed_of result ≡ member_among (type_of t.entry) owner.now member.now (enumeration_members scopes.now.trees.now (type_of t.entry)) }
{
    match has_member(scopes, t, member.text.as_slice()) {
        None => plain(Meaning::Unknown, Some(told(Rule::WrongType, owner.span))),
        Some(true) => plain(Meaning::Value(t), None),
        Some(false) => plain(Meaning::Unknown, Some(told(Rule::NotThere, member.span))),
    }
}

/// A member of an enumeration.
pub fn member_type<'a>(env: Environment<'_, 'a>, owner: &Name, member: &Name) -> Typed<'a>
    requires { IsEnvironment env }
    ensures { found_of (typed_of result) ≡ found_of (member_type (environment_of env.entry) owner.now member.now) }
{
    match type_named(env, owner.text.as_slice()) {
        None => {
            let first = wrong_type_name(env, owner.text.as_slice(), owner.span);
            plain(Meaning::Unknown, first)
        }
        Some(t) => member_among(env.scopes, t, owner, member),
    }
}
