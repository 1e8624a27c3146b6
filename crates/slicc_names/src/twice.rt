//! The rule that no name is declared twice in its scope.
ghost use Rattle.std.specs.Prelude.{◌≡◌, IfOk, ◌++◌, [], OnOk, Some};
ghost use Rattle.slicc_plan.specs.Prelude.{first_after, names_twice_declared, name_of, declaration_told, globally_repeated_after, stands_for_built_in, takes_built_in_name};
ghost use Rattle.declared_types.specs.Prelude.{declaration_of, declarations_of};
ghost use Rattle.slicc_names.specs.Prelude.{FindSame};
ghost use Rattle.slicc_plan.specs.TwiceDeclared.{listed};

use crate::first_names::{FirstNames, twice};
use crate::scopes::in_each;
use declared_types::{Declared, Scopes, built_in_type, is_external, name_of};
use slicc_ast::tree::Name;
use slicc_plan::{Broken, NoMemory, earlier_broken};
use std::alloc::Global;

/// The first broken rule after a name that is declared twice in its scope was looked for.
pub fn names_twice_declared(
    alloc: Global,
    first: Option<Broken>,
    scopes: &Scopes<'_>,
) -> Result<Option<Broken>, NoMemory>
    ensures { IfOk result (λ r. r ≡ first_after first (names_twice_declared scopes.now.trees.now)) }
{
    let first = in_protocol(alloc, first, scopes.declarations(0))?;
    in_each(alloc, first, scopes.trees)
}

fn stands_for_built_in(d: Declared<'_>) -> bool
    ensures { result ≡ stands_for_built_in (declaration_of d.entry) }
{
    match d {
        Declared::Structure(s) => is_external(s),
        _ => false,
    }
}

fn takes_built_in_name(d: Declared<'_>, name: &Name) -> bool
    ensures { result ≡ takes_built_in_name (declaration_of d.entry) name.now }
{
    built_in_type(name.text.as_slice()).is_some() && !stands_for_built_in(d)
}

fn declare(
    names: &mut FirstNames,
    first: Option<Broken>,
    d: Declared<'_>,
) -> Result<Option<Broken>, NoMemory>
    ensures told { IfOk result (λ r. r ≡ first_after first (declaration_told names.old (declaration_of d.entry) (name_of (declaration_of d.entry)))) }
    ensures names { OnOk result (FindSame names.new (names.old ++ listed (name_of (declaration_of d.entry)))) }
{
    let name = name_of(d);
    if takes_built_in_name(d, name) {
        names.add(name)?;
        return Ok(earlier_broken(first, twice(name.span, None)));
    }
    names.declare(first, name)
}

/// What is declared right in the protocol, one after another.
pub fn in_protocol(
    alloc: Global,
    first: Option<Broken>,
    declarations: &[Declared<'_>],
) -> Result<Option<Broken>, NoMemory>
    ensures { IfOk result (λ r. r ≡ first_after first (globally_repeated_after [] (declarations_of declarations.now))) }
{
    let mut names = FirstNames::new(alloc);
    let mut first = first;
    for d in declarations {
        first = declare(&mut names, first, *d)?;
    }
    Ok(first)
}
