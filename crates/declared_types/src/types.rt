//! What a declaration declares as a type.
ghost use Rattle.std.specs.Prelude.{◌≡◌, true};
ghost use Rattle.std.specs.Option.{option_map};
ghost use Rattle.slicc_plan.specs.Prelude.{declared_type, structure_type, table_named, is_external};
ghost use Rattle.declared_types.specs.Prelude.{declaration_of, scope_of, type_of};

use crate::attributes::is_external;
use crate::lent::{Declared, KnownType, Scope};
use crate::{built_in_type, is_table};
use slicc_ast::tree::Structure;
use slicc_plan::BuiltInType;

/// The built-in table of a name, where there is one.
pub fn table_named(text: &[u8]) -> Option<BuiltInType>
    ensures { result ≡ table_named text.now }
{
    match built_in_type(text) {
        None => None,
        Some(b) => { if is_table(b) { Some(b) } else { None } }
    }
}

// An external structure is the built-in table whose name it bears.
fn external_type<'a>(scope: Scope<'a>, s: &'a Structure) -> KnownType<'a>
    ensures { type_of result ≡ structure_type (scope_of scope.entry) s.now true }
{
    match table_named(&s.name.text) {
        None => KnownType::Structure(scope, s),
        Some(b) => KnownType::BuiltIn(b),
    }
}

fn type_of_structure<'a>(scope: Scope<'a>, s: &'a Structure) -> KnownType<'a>
    ensures { type_of result ≡ structure_type (scope_of scope.entry) s.now (is_external s.now) }
{
    if is_external(s) {
        external_type(scope, s)
    } else {
        KnownType::Structure(scope, s)
    }
}

/// The type that a declaration in a scope declares, where it declares one.
pub fn declared_type<'a>(scope: Scope<'a>, d: Declared<'a>) -> Option<KnownType<'a>>
    ensures { option_map type_of result ≡ declared_type (scope_of scope.entry) (declaration_of d.entry) }
{
    match d {
        Declared::Enumeration(e) => Some(KnownType::Enumeration(scope, e)),
        Declared::States(s) => Some(KnownType::States(scope, s)),
        Declared::Structure(s) => Some(type_of_structure(scope, s)),
        Declared::Machine(_)
        | Declared::Parameter(_)
        | Declared::Object(_)
        | Declared::OutPort(_)
        | Declared::InPort(_)
        | Declared::Action(_)
        | Declared::Function(_) => None,
    }
}
