//! What is declared right in a machine, and what the names of types stand for there.
ghost use Rattle.std.specs.Prelude.{◌≡◌, find, flat_map, map};
ghost use Rattle.std.specs.Option.{option_map};
ghost use Rattle.slicc_plan.specs.Prelude.{first_named, is_named, machine_declarations, named_declarations, parameter, type_in};
ghost use Rattle.declared_types.specs.Prelude.{declaration_of, scope_of, type_of};

use crate::lent::{Declared, KnownType, Scope};
use crate::lists::declared;
use crate::scopes::Scopes;
use crate::table::name_of;
use crate::types::declared_type;
use slicc_ast::tree::{Decl, Machine, Parameter};

fn bears(d: Declared<'_>, name: &[u8]) -> bool
    ensures { result ≡ is_named name.now (declaration_of d.entry) }
{
    name_of(d).text.as_slice() == name
}

fn first_parameter<'a>(parameters: &'a [Parameter], name: &[u8]) -> Option<&'a Parameter>
    ensures { option_map (λ p. parameter p.now) result ≡ find (is_named name.now) (map parameter parameters.now) }
{
    for p in parameters {
        if p.name.text.as_slice() == name {
            return Some(p);
        }
    }
    None
}

fn named_in<'a>(d: &'a Decl, name: &[u8]) -> Option<Declared<'a>>
    ensures { option_map declaration_of result ≡ find (is_named name.now) (named_declarations d.now) }
{
    match declared(d) {
        None => None,
        Some(found) => {
            if bears(found, name) {
                Some(found)
            } else {
                None
            }
        }
    }
}

fn first_declaration<'a>(declarations: &'a [Decl], name: &[u8]) -> Option<Declared<'a>>
    ensures { option_map declaration_of result ≡ find (is_named name.now) (flat_map named_declarations declarations.now) }
{
    for d in declarations {
        if let Some(found) = named_in(d, name) {
            return Some(found);
        }
    }
    None
}

/// The first declaration of a name right in a machine, where there is one.
pub fn first_named<'a>(m: &'a Machine, name: &[u8]) -> Option<Declared<'a>>
    ensures { option_map declaration_of result ≡ first_named name.now (machine_declarations m.now) }
{
    match first_parameter(&m.parameters, name) {
        Some(p) => Some(Declared::Parameter(p)),
        None => first_declaration(&m.declarations, name),
    }
}

/// What the name of a type stands for in a scope, where it stands for one.
pub fn type_in<'a>(scopes: &Scopes<'a>, scope: Scope<'a>, name: &[u8]) -> Option<KnownType<'a>>
    ensures { option_map type_of result ≡ type_in scopes.now.trees.now (scope_of scope.entry) name.now }
{
    match scope {
        Scope::Everywhere => scopes.global_type(name),
        Scope::Within(m) => match first_named(m, name) {
            None => scopes.global_type(name),
            Some(d) => declared_type(scope, d),
        },
    }
}
