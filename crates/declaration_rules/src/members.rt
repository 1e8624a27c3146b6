//! The members of enumerations, and how they are named as defaults.
ghost use Rattle.std.specs.Prelude.{◌≡◌, ◌++◌, ℕ, List, false, map, MatchOption};
ghost use Rattle.std.specs.List.{list_any};
ghost use Rattle.std.specs.Str.{bytes_eq};
ghost use Rattle.slicc_plan.specs.Prelude.{is_among, members_of, machine_names, default_name, default_names};
ghost use Rattle.declared_types.specs.Prelude.{scope_of, type_of};
ghost use Rattle.declaration_rules.specs.Prelude.{members_in};

use declared_types::{KnownType, Named, Scope, Scopes, after_prefix, fixed_members};
use slicc_plan::BuiltInType;

fn has_named<T: Named>(members: &[T], name: &[u8]) -> bool
    ensures { result ≡ is_among (map T.text members.now) name.now }
{
    for m in members {
        if m.text() == name {
            return true;
        }
    }
    false
}

fn has_built_in(scopes: &Scopes<'_>, b: BuiltInType, name: &[u8]) -> bool
    ensures { result ≡ is_among (members_of (machine_names scopes.now.trees.now) b) name.now }
{
    match b {
        BuiltInType::MachineType => scopes.has_machine(name),
        _ => has_named(fixed_members(b), name),
    }
}

/// Whether a type is an enumeration with a member of this name.
pub fn has_member(scopes: &Scopes<'_>, t: KnownType<'_>, name: &[u8]) -> bool
    ensures { result ≡ is_among (members_in (machine_names scopes.now.trees.now) (type_of t.entry)) name.now }
{
    match t {
        KnownType::BuiltIn(b) => has_built_in(scopes, b, name),
        KnownType::Enumeration(_, e) => has_named(&e.members, name),
        KnownType::States(_, s) => has_named(&s.members, name),
        KnownType::Structure(..) => false,
    }
}

/// The member that a text names with this name before it.
pub fn default_part<'a>(text: &'a [u8], own: &[u8]) -> Option<&'a [u8]>
    ensures { MatchOption result ((rest : List ℕ) → bytes_eq (default_name own.now rest) text.now ≡ false) (λ rest. text.now ≡ default_name own.now rest.now) }
{
    match after_prefix(text, own) {
        None => None,
        Some(rest) => after_prefix(rest, b"_"),
    }
}

// Whether a text names a member of a type with this name before it.
fn is_default_name(scopes: &Scopes<'_>, t: KnownType<'_>, own: &[u8], text: &[u8]) -> bool
    ensures { result ≡ list_any (λ word. bytes_eq text.now word) (map (default_name own.now) (members_in (machine_names scopes.now.trees.now) (type_of t.entry))) }
{
    match default_part(text, own) {
        None => false,
        Some(member) => has_member(scopes, t, member),
    }
}

// Whether a text names a member of a type of this name in a machine, with the machine's name before both.
fn is_machine_default(
    scopes: &Scopes<'_>,
    machine: &[u8],
    t: KnownType<'_>,
    own: &[u8],
    text: &[u8],
) -> bool
    ensures { result ≡ list_any (λ word. bytes_eq text.now word) (map (default_name (default_name machine.now own.now)) (members_in (machine_names scopes.now.trees.now) (type_of t.entry))) }
{
    match default_part(text, machine) {
        None => false,
        Some(rest) => is_default_name(scopes, t, own, rest),
    }
}

/// Whether a text names a member of a type that is declared in a scope under this name, as a default does.
pub fn is_default_text(
    scopes: &Scopes<'_>,
    scope: Scope<'_>,
    t: KnownType<'_>,
    own: &[u8],
    text: &[u8],
) -> bool
    ensures { result ≡ list_any (λ word. bytes_eq text.now word) (default_names (scope_of scope.entry) own.now (members_in (machine_names scopes.now.trees.now) (type_of t.entry))) }
{
    match scope {
        Scope::Everywhere => is_default_name(scopes, t, own, text),
        Scope::Within(m) => {
            let plain = is_default_name(scopes, t, own, text);
            let machined = is_machine_default(scopes, &m.name.text, t, own, text);
            plain || machined
        }
    }
}
