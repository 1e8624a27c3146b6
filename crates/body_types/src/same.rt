//! Whether two types are one.
ghost use Rattle.std.specs.Prelude.{◌≡◌, ◌&&◌};
ghost use Rattle.std.specs.Str.{bytes_eq};
ghost use Rattle.slicc_plan.specs.Prelude.{is_same_type, is_same_known, is_same_scope};
ghost use Rattle.declared_types.specs.Prelude.{scope_of, type_of};

use declared_types::{KnownType, Scope};
use slicc_ast::tree::Name;
use slicc_plan::BuiltInType;

fn same_scope(a: Scope, b: Scope) -> bool
    ensures { result ≡ is_same_scope (scope_of a.entry) (scope_of b.entry) }
{
    match (a, b) {
        (Scope::Everywhere, Scope::Everywhere) => true,
        (Scope::Within(m), Scope::Within(n)) => m.name.text.as_slice() == n.name.text.as_slice(),
        _ => false,
    }
}

fn same_built_in(a: BuiltInType, b: BuiltInType) -> bool
    ensures { result ≡ is_same_type a b }
{
    a == b
}

// Whether two declarations have one name and one scope.
fn same_name(scope: Scope, name: &Name, other: Scope, its: &Name) -> bool
    ensures { result ≡ (is_same_scope (scope_of scope.entry) (scope_of other.entry) && bytes_eq name.now.text its.now.text) }
{
    same_scope(scope, other) && name.text.as_slice() == its.text.as_slice()
}

/// Whether two types are the same built-in type, or have one name and one scope.
pub fn same_type(a: KnownType, b: KnownType) -> bool
    ensures { result ≡ is_same_known (type_of a.entry) (type_of b.entry) }
{
    match (a, b) {
        (KnownType::BuiltIn(b), KnownType::BuiltIn(c)) => same_built_in(b, c),
        (KnownType::Structure(scope, s), KnownType::Structure(other, u)) => {
            same_name(scope, &s.name, other, &u.name)
        }
        (KnownType::Enumeration(scope, e), KnownType::Enumeration(other, f)) => {
            same_name(scope, &e.name, other, &f.name)
        }
        (KnownType::Enumeration(scope, e), KnownType::States(other, f)) => {
            same_name(scope, &e.name, other, &f.name)
        }
        (KnownType::States(scope, e), KnownType::Enumeration(other, f)) => {
            same_name(scope, &e.name, other, &f.name)
        }
        (KnownType::States(scope, e), KnownType::States(other, f)) => {
            same_name(scope, &e.name, other, &f.name)
        }
        _ => false,
    }
}
