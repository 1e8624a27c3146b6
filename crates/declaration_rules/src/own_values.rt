//! The values that a declaration gives: its own default, its attributes and its literal.
ghost use Rattle.std.specs.Prelude.{◌≡◌, ◌++◌, codes};
ghost use Rattle.std.specs.Option.{option_map};
ghost use Rattle.slicc_plan.specs.Prelude.{first_after, bad_literal, bad_object_attributes, bad_values_of, machine_names, bad_attributes, is_built_in_default, is_member_word, is_right_default};
ghost use Rattle.declared_types.specs.Prelude.{type_of, as_nature, scope_of};
ghost use Rattle.declaration_rules.specs.Members.{members_in};
ghost use Rattle.declaration_rules.specs.PairValues.{bad_pair};

use crate::members::is_default_text;
use crate::numbers::number_value;
use crate::rule::DeclarationRule;
use crate::values::{is_either, judge_literal, judge_object_attributes, told_bad};
use declared_types::{Declared, KnownType, Nature, Scope, Scopes, attribute_in, nature_of};
use slicc_ast::tree::{Pair, PairValue, Pairs, Parameter};
use slicc_plan::{Broken, BuiltInType};

fn judge_parameter(first: Option<Broken>, t: Option<KnownType<'_>>, p: &Parameter) -> Option<Broken>
    ensures { result ≡ first_after first (bad_literal (option_map type_of t.entry) p.now.literal ++ bad_object_attributes (option_map type_of t.entry) p.now.pairs) }
{
    let first = judge_literal(first, t, &p.literal);
    judge_object_attributes(first, t, &p.pairs)
}

/// Each value that a declaration gives is one that it may have there.
pub struct OwnValues;

impl DeclarationRule for OwnValues {
    ghost broken_of = { bad_values_of };

    fn judge<'a>(
        first: Option<Broken>,
        scopes: &Scopes<'a>,
        number: usize,
        d: Declared<'a>,
    ) -> Option<Broken> {
        match d {
            Declared::Enumeration(e) => {
                let t = KnownType::Enumeration(scopes.scope(number), e);
                judge_defaults(first, scopes, &e.name.text, t, &e.pairs)
            }
            Declared::States(s) => {
                let t = KnownType::States(scopes.scope(number), s);
                judge_defaults(first, scopes, &s.name.text, t, &s.pairs)
            }
            Declared::Parameter(p) => {
                judge_parameter(first, scopes.type_in(number, &p.kind.text), p)
            }
            Declared::Object(o) => {
                judge_object_attributes(first, scopes.type_in(number, &o.kind.text), &o.pairs)
            }
            _ => first,
        }
    }
}

fn is_member_word(
    scopes: &Scopes<'_>,
    scope: Scope<'_>,
    t: KnownType<'_>,
    own: &[u8],
    value: &PairValue,
) -> bool
    ensures { result ≡ is_member_word (scope_of scope.entry) own.now (members_in (machine_names scopes.now.trees.now) (type_of t.entry)) value.now }
{
    match value {
        PairValue::Quoted(text) => is_default_text(scopes, scope, t, own, text),
        PairValue::Number(_) => false,
        PairValue::Name(name) => is_default_text(scopes, scope, t, own, &name.text),
    }
}

fn is_default_by_nature(
    scopes: &Scopes<'_>,
    b: BuiltInType,
    n: Nature,
    own: &[u8],
    value: &PairValue,
) -> bool
    ensures { result ≡ is_built_in_default (machine_names scopes.now.trees.now) b own.now (as_nature n) value.now }
{
    match n {
        Nature::Number | Nature::Address => number_value(value).is_some(),
        Nature::Boolean => is_either(value, b"true", b"false"),
        Nature::Enumeration => {
            is_member_word(scopes, Scope::Everywhere, KnownType::BuiltIn(b), own, value)
        }
        Nature::OtherValue | Nature::Structure | Nature::Table | Nature::Nothing => false,
    }
}

fn is_right_default(scopes: &Scopes<'_>, own: &[u8], t: KnownType<'_>, value: &PairValue) -> bool
    ensures { result ≡ is_right_default (machine_names scopes.now.trees.now) own.now (type_of t.entry) value.now }
{
    match t {
        KnownType::BuiltIn(b) => is_default_by_nature(scopes, b, nature_of(b), own, value),
        KnownType::Enumeration(scope, e) => is_member_word(scopes, scope, t, &e.name.text, value),
        KnownType::States(scope, s) => is_member_word(scopes, scope, t, &s.name.text, value),
        KnownType::Structure(..) => false,
    }
}

fn judge_pair(
    first: Option<Broken>,
    scopes: &Scopes<'_>,
    own: &[u8],
    t: KnownType<'_>,
    p: &Pair,
) -> Option<Broken>
    ensures { result ≡ first_after first (bad_pair (codes "default") (is_right_default (machine_names scopes.now.trees.now) own.now (type_of t.entry)) p.now) }
{
    match attribute_in(p, b"default") {
        None => first,
        Some(a) => told_bad(first, is_right_default(scopes, own, t, a.value), a.place),
    }
}

/// The first broken rule, after the defaults of a field of this type, whose name this is.
pub fn judge_defaults(
    first: Option<Broken>,
    scopes: &Scopes<'_>,
    own: &[u8],
    t: KnownType<'_>,
    pairs: &Pairs,
) -> Option<Broken>
    ensures { result ≡ first_after first (bad_attributes (codes "default") (is_right_default (machine_names scopes.now.trees.now) own.now (type_of t.entry)) pairs.now) }
{
    let mut first = first;
    let items = pairs.items.as_slice();
    for p in items {
        first = judge_pair(first, scopes, own, t, p);
    }
    first
}
