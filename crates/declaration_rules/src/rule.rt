//! The rules of declarations, each of which is judged of all declarations one by one.
ghost use Rattle.std.specs.Prelude.{◌≡◌, ◌++◌, Option, None, List, [], ◌∷◌, flat_map};
ghost use Rattle.slicc_ast.specs.declared.tree.item.Tree.{Tree};
ghost use Rattle.slicc_plan.specs.declared.broken.Broken.{Broken};
ghost use Rattle.slicc_plan.specs.Prelude.{Declaration, Scope, declared_in, wide_scopes, refused_field_types, first_after, unknown_built_ins, unknown_types, bad_values};
ghost use Rattle.declared_types.specs.Prelude.{declaration_of, declarations_of, scope_at};
ghost use Rattle.declaration_rules.specs.Judging.{broken_in};

use crate::field_rules::{FieldDefaults, FieldTypes};
use crate::own_values::OwnValues;
use crate::prototypes::Prototypes;
use crate::unknown_types::KnownTypes;
use declared_types::{Declared, Scopes};
use slicc_plan::{Broken, Rule, Span, earlier_broken};

/// The first broken rule, after one that is broken at a place, in the machine of this number. Outside of machines it is 0.
pub fn earlier_at(first: Option<Broken>, rule: Rule, machine: u16, place: Span) -> Option<Broken>
    ensures { result ≡ first_after first (record { rule = rule; machine = machine; place = place; other = None } ∷ []) }
{
    earlier_broken(
        first,
        Broken {
            rule,
            machine,
            place,
            other: None,
        },
    )
}

/// A rule that each declaration of a scope keeps or breaks, whatever the others are.
pub trait DeclarationRule {
    ghost broken_of: { List Tree → Scope → Declaration → List Broken };

    /// The first broken rule, after a declaration in the scope of this number.
    fn judge<'a>(
        first: Option<Broken>,
        scopes: &Scopes<'a>,
        number: usize,
        d: Declared<'a>,
    ) -> Option<Broken>
        ensures { result ≡ first_after first (broken_of scopes.now.trees.now (scope_at scopes.now.trees.now number) (declaration_of d.entry)) };
}

fn first_in_scope<'a, R: DeclarationRule>(
    first: Option<Broken>,
    scopes: &Scopes<'a>,
    number: usize,
) -> Option<Broken>
    ensures { result ≡ first_after first (broken_in R.broken_of scopes.now.trees.now (scope_at scopes.now.trees.now number)) }
{
    let mut first = first;
    for d in scopes.declarations(number) {
        first = R::judge(first, scopes, number, *d);
    }
    first
}

/// The first broken rule, after all declarations that are made right in the protocol or in a machine.
pub fn first_in_scopes<'a, R: DeclarationRule>(
    first: Option<Broken>,
    scopes: &Scopes<'a>,
) -> Option<Broken>
    ensures { result ≡ first_after first (flat_map (broken_in R.broken_of scopes.now.trees.now) (wide_scopes scopes.now.trees.now)) }
{
    let mut first = first;
    for number in 0..scopes.len() {
        first = first_in_scope::<R>(first, scopes, number);
    }
    first
}

/// The first broken rule, after the names of types.
pub fn judge_type_names(first: Option<Broken>, scopes: &Scopes<'_>) -> Option<Broken>
    ensures { result ≡ first_after first (unknown_types scopes.now.trees.now) }
{
    first_in_scopes::<KnownTypes>(first, scopes)
}

/// The first broken rule, after the types of fields.
pub fn judge_field_types(first: Option<Broken>, scopes: &Scopes<'_>) -> Option<Broken>
    ensures { result ≡ first_after first (refused_field_types scopes.now.trees.now) }
{
    first_in_scopes::<FieldTypes>(first, scopes)
}

/// The first broken rule, after prototypes and external structures.
pub fn judge_prototypes(first: Option<Broken>, scopes: &Scopes<'_>) -> Option<Broken>
    ensures { result ≡ first_after first (unknown_built_ins scopes.now.trees.now) }
{
    first_in_scopes::<Prototypes>(first, scopes)
}

/// The first broken rule, after the values of declarations and the defaults of fields.
pub fn judge_values(first: Option<Broken>, scopes: &Scopes<'_>) -> Option<Broken>
    ensures { result ≡ first_after first (bad_values scopes.now.trees.now) }
{
    let first = first_in_scopes::<OwnValues>(first, scopes);
    first_in_scopes::<FieldDefaults>(first, scopes)
}
