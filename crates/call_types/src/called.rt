//! The calls that are there without a declaration, by their names, and those from the states of machines to permissions.
ghost use Rattle.std.specs.Prelude.{◌≡◌, ◌==◌, find, map};
ghost use Rattle.std.specs.Option.{option_copied, option_map};
ghost use Rattle.std.specs.Str.{bytes_eq};
ghost use Rattle.slicc_plan.specs.Prelude.{call_on, is_call_on, plain_call, receiver_number, permission_call, machines_of, plain};
ghost use Rattle.declared_types.specs.Prelude.{call_of, receiver_of, scope_of};
ghost use Rattle.call_types.specs.Called.{call_for, has_permissions, machines_in};
ghost use Rattle.slicc_plan.specs.Buffers.{listed};
ghost use Rattle.body_types.specs.Prelude.{typed_of, meaning_of};

use body_types::{Meaning, Typed, Written};
use declared_types::{Call, Receiver, Scope, Scopes, built_in_calls};
use slicc_ast::tree::Machine;
use slicc_plan::Broken;

/// A call that is there without a declaration.
#[derive(Clone, Copy)]
pub enum Called<'a> {
    BuiltIn(&'static Call),
    /// The call from the states of a machine to permissions.
    Permission(&'a Machine),
}

fn same_receiver(a: Receiver, b: Receiver) -> bool
    ensures { result ≡ (receiver_number (receiver_of a) == receiver_number (receiver_of b)) }
{
    a == b
}

// The first of these calls on that which has this name.
fn first_call(calls: &'static [Call], on: Receiver, text: &[u8]) -> Option<&'static Call>
    ensures { option_map call_of (option_copied result) ≡ find (is_call_on (receiver_of on) text.now) (map call_of calls.entry.now) }
{
    for c in calls {
        if same_receiver(c.receiver, on) && c.name.as_bytes() == text {
            return Some(c);
        }
    }
    None
}

/// The built-in call of this name on that, or on nothing.
pub fn call_on(on: Receiver, text: &[u8]) -> Option<&'static Call>
    ensures { option_map call_of (option_copied result) ≡ call_on (receiver_of on) text.now }
{
    first_call(built_in_calls(), on, text)
}

/// The call of this name that is called on nothing and needs no declaration, in the protocol with these scopes.
pub fn plain_call<'a>(scopes: &Scopes<'a>, text: &[u8]) -> Option<Called<'a>>
    ensures { option_map call_for result ≡ plain_call scopes.now.trees.now text.now }
{
    match call_on(Receiver::Nothing, text) {
        Some(c) => Some(Called::BuiltIn(c)),
        None => match permission_named(scopes, text) {
            Some(m) => Some(Called::Permission(m)),
            None => None,
        },
    }
}

// Whether the call of a machine of this name has that name.
fn is_permission_call(machine: &[u8], text: &[u8]) -> bool
    ensures { result ≡ bytes_eq (permission_call machine.now) text.now }
{
    if text.len() < machine.len() {
        return false;
    }
    let (front, back) = text.split_at(machine.len());
    front == machine && b"_State_to_permission".as_slice() == back
}

// The machine of a scope, where it is one and its call has this name.
fn permission_of<'a>(scope: Scope<'a>, text: &[u8]) -> Option<&'a Machine>
    ensures { option_copied result ≡ find (has_permissions text.now) (machines_in (scope_of scope.entry)) }
{
    match scope {
        Scope::Within(m) if is_permission_call(m.name.text.as_slice(), text) => Some(m),
        _ => None,
    }
}

/// The first machine whose call has this name.
pub fn permission_named<'a>(scopes: &Scopes<'a>, text: &[u8]) -> Option<&'a Machine>
    ensures { option_copied result ≡ find (has_permissions text.now) (machines_of scopes.now.trees.now) }
{
    for number in 0..scopes.len() {
        let found = permission_of(scopes.scope(number), text);
        if found.is_some() {
            return found;
        }
    }
    None
}

/// An expression that is no place, with the first that is broken in it.
pub fn plain<'a>(meaning: Meaning<'a>, broken: Option<Broken>) -> Typed<'a>
    ensures { typed_of result ≡ plain (meaning_of meaning.entry) (listed broken) }
{
    Typed {
        meaning,
        written: Written::NoPlace,
        broken,
    }
}
