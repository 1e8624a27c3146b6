//! A prototype and an external structure bear a built-in name.
ghost use Rattle.std.specs.Prelude.{◌≡◌, flat_map};
ghost use Rattle.slicc_plan.specs.Prelude.{is_call, is_external, machine_names, first_after, told_unless, unknown_built_in, unknown_method, unknown_prototype, unknown_structure};

use crate::rule::{DeclarationRule, earlier_at};
use declared_types::{Declared, Scopes, is_call_name, is_external, table_named};
use slicc_ast::tree::{Function, Member, Structure};
use slicc_plan::{Broken, Rule, Span};

/// Prototypes and external structures bear built-in names.
pub struct Prototypes;

// The first broken rule, where a name that has to be built in is or isn't.
fn told_unless(first: Option<Broken>, is_right: bool, place: Span) -> Option<Broken>
    ensures { result ≡ first_after first (told_unless is_right place) }
{
    if is_right {
        return first;
    }
    earlier_at(first, Rule::NotBuiltIn, 0, place)
}

// Whether a call has this name, in a protocol with these machines.
fn is_call(scopes: &Scopes<'_>, text: &[u8]) -> bool
    ensures { result ≡ is_call (machine_names scopes.now.trees.now) text.now }
{
    is_call_name(text) || scopes.has_permission_call(text)
}

fn judge_prototype(first: Option<Broken>, scopes: &Scopes<'_>, f: &Function) -> Option<Broken>
    ensures { result ≡ first_after first (unknown_prototype (machine_names scopes.now.trees.now) f.now) }
{
    match f {
        Function::Plain {
            name,
            body: None,
            span,
            ..
        } => told_unless(first, is_call(scopes, &name.text), *span),
        _ => first,
    }
}

fn judge_method(first: Option<Broken>, scopes: &Scopes<'_>, m: &Member) -> Option<Broken>
    ensures { result ≡ first_after first (unknown_method (machine_names scopes.now.trees.now) m.now) }
{
    match m {
        Member::Method { name, span, .. } => {
            told_unless(first, is_call(scopes, &name.text), *span)
        }
        Member::Field { .. } | Member::Skipped(_) => first,
    }
}

fn judge_methods(first: Option<Broken>, scopes: &Scopes<'_>, members: &[Member]) -> Option<Broken>
    ensures { result ≡ first_after first (flat_map (unknown_method (machine_names scopes.now.trees.now)) members.now) }
{
    let mut first = first;
    for m in members {
        first = judge_method(first, scopes, m);
    }
    first
}

fn judge_structure(first: Option<Broken>, scopes: &Scopes<'_>, s: &Structure) -> Option<Broken>
    ensures { result ≡ first_after first (unknown_structure (machine_names scopes.now.trees.now) s.now (is_external s.now)) }
{
    if is_external(s) {
        told_unless(first, table_named(&s.name.text).is_some(), s.span)
    } else {
        judge_methods(first, scopes, &s.members)
    }
}

impl DeclarationRule for Prototypes {
    ghost broken_of = { λ trees scope d. unknown_built_in (machine_names trees) d };

    fn judge<'a>(
        first: Option<Broken>,
        scopes: &Scopes<'a>,
        _number: usize,
        d: Declared<'a>,
    ) -> Option<Broken> {
        match d {
            Declared::Structure(s) => judge_structure(first, scopes, s),
            Declared::Function(f) => judge_prototype(first, scopes, f),
            _ => first,
        }
    }
}
