//! The members of enumerations that values name as defaults, and the default members of enumerations.
ghost use Rattle.std.specs.Prelude.{◌≡◌, ◌<◌, ◌≤◌, All, map, position, [], ◌∷◌, IfOk, IfSome, codes, length, slice_get, unwrap_or};
ghost use Rattle.slicc_ast.specs.declared.tree.declaration.State.{State};
ghost use Rattle.slicc_ast.specs.declared.tree.declaration.Symbol.{Symbol};
ghost use Rattle.slicc_plan.specs.Prelude.{members_of, everywhere, machine_names, member_written, is_default_of, member_number, default_name, default_names, first_attribute, declared_enumerations, default_number, own_default, ScopedDeclaration};
ghost use Rattle.declared_types.specs.Prelude.{scope_of, type_of, declaration_of};
ghost use Rattle.type_numbers.specs.Prelude.{AreNumbered, HasFewMembers, IsOfFewMembers, trees_of, default_of, scoped_of};
ghost use Rattle.std.specs.List.{list_any};
ghost use Rattle.std.specs.Str.{bytes_eq};

use crate::numbering::{Scoped, TypeNumbers};
use declaration_rules::default_part;
use declared_types::{Declared, KnownType, Named, Scope, first_attribute, fixed_members};
use ruby_base::{NoMemory, Seq};
use slicc_ast::tree::{Enumeration, PairValue, States};
use slicc_plan::BuiltInType;
use std::alloc::Global;

// The place of the first member that a value names, of an enumeration that is declared in a scope under its own name.
fn member_place<T: Named>(
    scope: Scope<'_>,
    own: &[u8],
    members: &[T],
    value: &PairValue,
) -> Option<usize>
    ensures place { result ≡ position (λ m. is_default_of (scope_of scope.entry) own.now value.now (T.text m)) members.now }
    ensures within { IfSome result (λ n. n < length members.now) }
{
    members
        .iter()
        .position(|m| is_default_of(scope, own, value, m.text()))
}

// The number of the member that a value names, of an enumeration that is declared in a scope under its own name.
fn member_number<T: Named>(
    scope: Scope<'_>,
    own: &[u8],
    members: &[T],
    value: &PairValue,
) -> Option<usize>
    ensures number { result ≡ member_number (scope_of scope.entry) own.now (map T.text members.now) value.now }
    ensures within { IfSome result (λ n. n < length members.now) }
{
    member_place(scope, own, members, value)
}

/// The number of the symbol that a value names, of an enumeration in a scope.
pub fn symbol_number(scope: Scope<'_>, e: &Enumeration, value: &PairValue) -> Option<usize>
    ensures number { result ≡ member_number (scope_of scope.entry) e.now.name.text (map (λ (s : Symbol). s.name.text) e.now.members) value.now }
    ensures within { IfSome result (λ n. n < length e.now.members) }
{
    member_number(scope, &e.name.text, &e.members, value)
}

/// The number of the state that a value names, of a state declaration in a scope.
pub fn state_number(scope: Scope<'_>, d: &States, value: &PairValue) -> Option<usize>
    ensures number { result ≡ member_number (scope_of scope.entry) d.now.name.text (map (λ (s : State). s.name.text) d.now.members) value.now }
    ensures within { IfSome result (λ n. n < length d.now.members) }
{
    member_number(scope, &d.name.text, &d.members, value)
}

// The number of the machine that a value names.
fn machine_number(types: &TypeNumbers<'_>, own: &[u8], value: &PairValue) -> Option<usize>
    requires { AreNumbered types.now }
    ensures number { result ≡ member_number everywhere own.now (machine_names (trees_of types.now)) value.now }
    ensures within { IfSome result (λ n. n ≤ 65535) }
{
    member_number(Scope::Everywhere, own, &types.machines, value)
}

fn built_in_number(
    types: &TypeNumbers<'_>,
    own: &[u8],
    b: BuiltInType,
    value: &PairValue,
) -> Option<usize>
    requires { AreNumbered types.now }
    ensures number { result ≡ member_number everywhere own.now (members_of (machine_names (trees_of types.now)) b) value.now }
    ensures within { IfSome result (λ n. n ≤ 65535) }
{
    match b {
        BuiltInType::MachineType => machine_number(types, own, value),
        _ => member_number(Scope::Everywhere, own, fixed_members(b), value),
    }
}

/// The number of the member that the default of a field names, whose type is this one and is written as this text.
pub fn member_written(
    types: &TypeNumbers<'_>,
    text: &[u8],
    t: KnownType<'_>,
    value: &PairValue,
) -> Option<usize>
    requires types { AreNumbered types.now }
    requires members { IsOfFewMembers (type_of t) }
    ensures number { result ≡ member_written (trees_of types.now) text.now (type_of t.entry) value.now }
    ensures within { IfSome result (λ n. n ≤ 65535) }
{
    match t {
        KnownType::BuiltIn(b) => built_in_number(types, text, b, value),
        KnownType::Enumeration(scope, e) => symbol_number(scope, e, value),
        KnownType::States(scope, s) => state_number(scope, s, value),
        KnownType::Structure(..) => None,
    }
}

// Whether a text is a member's name with this name before it.
fn is_default_name(own: &[u8], member: &[u8], text: &[u8]) -> bool
    ensures { result ≡ bytes_eq text.now (default_name own.now member.now) }
{
    match default_part(text, own) {
        None => false,
        Some(rest) => rest == member,
    }
}

// Whether it is that with a machine's name before both.
fn is_machine_default(machine: &[u8], own: &[u8], member: &[u8], text: &[u8]) -> bool
    ensures { result ≡ bytes_eq text.now (default_name (default_name machine.now own.now) member.now) }
{
    match default_part(text, machine) {
        None => false,
        Some(rest) => is_default_name(own, member, rest),
    }
}

fn is_default_text(scope: Scope<'_>, own: &[u8], member: &[u8], text: &[u8]) -> bool
    ensures { result ≡ list_any (λ word. bytes_eq text.now word) (default_names (scope_of scope.entry) own.now (member.now ∷ [])) }
{
    match scope {
        Scope::Everywhere => is_default_name(own, member, text),
        Scope::Within(m) => {
            is_default_name(own, member, text)
                || is_machine_default(&m.name.text, own, member, text)
        }
    }
}

/// Whether a value names this member of an enumeration as a default does, where the enumeration is declared in a scope under
/// its own name.
pub fn is_default_of(scope: Scope<'_>, own: &[u8], value: &PairValue, member: &[u8]) -> bool
    ensures { result ≡ is_default_of (scope_of scope.entry) own.now value.now member.now }
{
    match value {
        PairValue::Quoted(text) => is_default_text(scope, own, member, text),
        PairValue::Number(_) => false,
        PairValue::Name(name) => is_default_text(scope, own, member, &name.text),
    }
}

/// The number, or another where there is none.
pub fn kept_or(place: Option<usize>, other: u16) -> u16
    requires { IfSome place (λ n. n ≤ 65535) }
    ensures { result ≡ unwrap_or place other }
{
    match place {
        None => other,
        Some(n) => n as u16,
    }
}

fn enumeration_default(scope: Scope<'_>, e: &Enumeration) -> u16
    requires { length e.now.members ≤ 65535 }
    ensures { result ≡ default_number (scope_of scope.entry) e.now.name.text (map (λ (s : Symbol). s.name.text) e.now.members) (first_attribute (codes "default") e.now.pairs) }
{
    match first_attribute(&e.pairs, b"default") {
        None => 0,
        Some(a) => kept_or(symbol_number(scope, e, a.value), 0),
    }
}

fn states_default(scope: Scope<'_>, s: &States) -> u16
    requires { length s.now.members ≤ 65535 }
    ensures { result ≡ default_number (scope_of scope.entry) s.now.name.text (map (λ (s : State). s.name.text) s.now.members) (first_attribute (codes "default") s.now.pairs) }
{
    match first_attribute(&s.pairs, b"default") {
        None => 0,
        Some(a) => kept_or(state_number(scope, s, a.value), 0),
    }
}

/// The number of the default member of an enumeration or of a state declaration: of the one that it names, else of its first.
pub fn own_default(scope: Scope<'_>, d: Declared<'_>) -> u16
    requires { HasFewMembers (declaration_of d) }
    ensures { result ≡ own_default (scope_of scope.entry) (declaration_of d.entry) }
{
    match d {
        Declared::Enumeration(e) => enumeration_default(scope, e),
        Declared::States(s) => states_default(scope, s),
        _ => 0,
    }
}

/// The numbers of the default members of enumerations.
pub fn defaults_of(alloc: Global, enumerations: &[Scoped<'_>]) -> Result<Seq<u16>, NoMemory>
    requires { All (λ (d : ScopedDeclaration). HasFewMembers d.declaration) (map scoped_of enumerations.now) }
    ensures { IfOk result (λ list. list ≡ map default_of (map scoped_of enumerations.now)) }
{
    let mut list = Seq::new(alloc);
    for d in enumerations {
        list.push(own_default(d.scope, d.declaration))?;
    }
    Ok(list)
}

/// The number of the default member of the enumeration at a place.
pub fn default_at(types: &TypeNumbers<'_>, place: usize) -> u16
    requires { AreNumbered types.now }
    ensures { result ≡ unwrap_or (slice_get (map default_of (declared_enumerations (trees_of types.now))) place) 0 }
{
    match types.defaults.get(place) {
        None => 0,
        Some(number) => *number,
    }
}
