//! The types that fields may have, and the defaults that they give.
ghost use Rattle.std.specs.Prelude.{◌≡◌, Option, List, [], cond, flat_map};
ghost use Rattle.std.specs.Option.{option_map};
ghost use Rattle.slicc_plan.specs.Prelude.{may_be_field, refused_field, refused_for, first_after, nature_in, is_external, FieldIn};
ghost use Rattle.declared_types.specs.Prelude.{as_nature, type_of, scope_at};
ghost use Rattle.declaration_rules.specs.Judging.{field_default, field_defaults_of, refused_of};
ghost use Rattle.slicc_ast.specs.declared.tree.item.Tree.{Tree};
ghost use Rattle.slicc_plan.specs.declared.broken.Broken.{Broken};
ghost use Rattle.slicc_plan.specs.FieldTypes.{field_of};

use crate::own_values::judge_defaults;
use crate::rule::{DeclarationRule, earlier_at};
use declared_types::{Declared, KnownType, Nature, Scopes, is_external, nature_of};
use slicc_ast::tree::{Member, Pairs, Structure, TypeName};
use slicc_plan::{Broken, Rule, Span};

/// What kind of thing a type's values are.
pub fn nature_in(t: KnownType<'_>) -> Nature
    ensures { as_nature result ≡ nature_in (type_of t.entry) }
{
    match t {
        KnownType::BuiltIn(b) => nature_of(b),
        KnownType::Enumeration(..) | KnownType::States(..) => Nature::Enumeration,
        KnownType::Structure(..) => Nature::Structure,
    }
}

fn may_be_field(n: Nature) -> bool
    ensures { result ≡ may_be_field (as_nature n) }
{
    match n {
        Nature::Number
        | Nature::Boolean
        | Nature::Address
        | Nature::Enumeration
        | Nature::OtherValue => true,
        Nature::Structure | Nature::Table | Nature::Nothing => false,
    }
}

// The first broken rule, after a field that has this type at this place.
fn judge_known(first: Option<Broken>, t: Option<KnownType<'_>>, place: Span) -> Option<Broken>
    ensures { result ≡ first_after first (refused_for place (option_map type_of t.entry)) }
{
    let Some(t) = t else {
        return first;
    };
    if may_be_field(nature_in(t)) {
        return first;
    }
    earlier_at(first, Rule::NoFieldType, 0, place)
}

/// The types of fields are those that fields may have.
pub struct FieldTypes;

impl FieldRule for FieldTypes {
    ghost broken_at = { refused_field };

    fn judge_field(
        first: Option<Broken>,
        scopes: &Scopes<'_>,
        number: usize,
        kind: &TypeName,
        _attributes: &Pairs,
    ) -> Option<Broken> {
        judge_known(first, scopes.type_in(number, &kind.text), kind.span)
    }
}

impl DeclarationRule for FieldTypes {
    ghost broken_of = { refused_of };

    fn judge<'a>(
        first: Option<Broken>,
        scopes: &Scopes<'a>,
        number: usize,
        d: Declared<'a>,
    ) -> Option<Broken> {
        match d {
            Declared::Structure(s) => first_in_fields::<FieldTypes>(first, scopes, number, s),
            _ => first,
        }
    }
}

/// The default of each field is a value of its type.
pub struct FieldDefaults;

impl FieldRule for FieldDefaults {
    ghost broken_at = { field_default };

    fn judge_field(
        first: Option<Broken>,
        scopes: &Scopes<'_>,
        number: usize,
        kind: &TypeName,
        attributes: &Pairs,
    ) -> Option<Broken> {
        match scopes.type_in(number, &kind.text) {
            None => first,
            Some(t) => judge_defaults(first, scopes, &kind.text, t, attributes),
        }
    }
}

impl DeclarationRule for FieldDefaults {
    ghost broken_of = { field_defaults_of };

    fn judge<'a>(
        first: Option<Broken>,
        scopes: &Scopes<'a>,
        number: usize,
        d: Declared<'a>,
    ) -> Option<Broken> {
        match d {
            Declared::Structure(s) => first_in_fields::<FieldDefaults>(first, scopes, number, s),
            _ => first,
        }
    }
}

/// A rule that each field of a structure keeps or breaks, whatever the others are.
pub trait FieldRule {
    ghost broken_at: { List Tree → FieldIn → List Broken };

    /// The first broken rule, after a field of this type in the scope of this number.
    fn judge_field(
        first: Option<Broken>,
        scopes: &Scopes<'_>,
        number: usize,
        kind: &TypeName,
        attributes: &Pairs,
    ) -> Option<Broken>
        ensures { result ≡ first_after first (broken_at scopes.now.trees.now (record { scope = scope_at scopes.now.trees.now number; kind = kind.now; attributes = attributes.now })) };
}

fn first_in_member<R: FieldRule>(
    first: Option<Broken>,
    scopes: &Scopes<'_>,
    number: usize,
    m: &Member,
) -> Option<Broken>
    ensures { result ≡ first_after first (flat_map (R.broken_at scopes.now.trees.now) (field_of (scope_at scopes.now.trees.now number) m.now)) }
{
    match m {
        Member::Field { kind, pairs, .. } => R::judge_field(first, scopes, number, kind, pairs),
        Member::Method { .. } | Member::Skipped(_) => first,
    }
}

fn first_in_members<R: FieldRule>(
    first: Option<Broken>,
    scopes: &Scopes<'_>,
    number: usize,
    members: &[Member],
) -> Option<Broken>
    ensures { result ≡ first_after first (flat_map (R.broken_at scopes.now.trees.now) (flat_map (field_of (scope_at scopes.now.trees.now number)) members.now)) }
{
    let mut first = first;
    for m in members {
        first = first_in_member::<R>(first, scopes, number, m);
    }
    first
}

/// The first broken rule, after the fields of a structure. An external one has none that are looked at.
pub fn first_in_fields<R: FieldRule>(
    first: Option<Broken>,
    scopes: &Scopes<'_>,
    number: usize,
    s: &Structure,
) -> Option<Broken>
    ensures { result ≡ first_after first (flat_map (R.broken_at scopes.now.trees.now) (cond (is_external s.now) [] (flat_map (field_of (scope_at scopes.now.trees.now number)) s.now.members))) }
{
    if is_external(s) {
        first
    } else {
        first_in_members::<R>(first, scopes, number, &s.members)
    }
}
