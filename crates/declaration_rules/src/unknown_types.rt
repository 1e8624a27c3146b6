//! The names of types outside of bodies are known in their scopes.
ghost use Rattle.std.specs.Prelude.{◌≡◌, ℕ, List, cond, [], ◌∷◌, map, flat_map};
ghost use Rattle.std.specs.Option.{option_map};
ghost use Rattle.slicc_ast.specs.declared.tree.span.Span.{Span};
ghost use Rattle.slicc_plan.specs.Prelude.{is_external, first_after, formal_use, function_uses, is_unknown, member_uses, state_use, unknown_use, use_of};
ghost use Rattle.declared_types.specs.Prelude.{type_of, scope_at};
ghost use Rattle.declaration_rules.specs.Judging.{unknown_of, unknown_uses};

use crate::rule::{DeclarationRule, earlier_at};
use declared_types::{Declared, KnownType, Scopes, is_external};
use slicc_ast::tree::{Formal, Function, Member, State, Structure, TypeName};
use slicc_plan::{Broken, BuiltInType, Rule, Span, Text};

/// The names of types are known.
pub struct KnownTypes;

// Whether a name that stands for this is unknown to formals of prototypes or to others.
fn is_unknown(t: Option<KnownType<'_>>, is_of_prototype: bool) -> bool
    ensures { (text : List ℕ) (place : Span) → result ≡ is_unknown (record { text = text; place = place; is_of_prototype = is_of_prototype }) (option_map type_of t.entry) }
{
    match t {
        None => true,
        Some(KnownType::BuiltIn(BuiltInType::AbstractEntry)) => !is_of_prototype,
        Some(_) => false,
    }
}

fn judge_use(
    first: Option<Broken>,
    scopes: &Scopes<'_>,
    number: usize,
    text: &Text,
    place: Span,
    is_of_prototype: bool,
) -> Option<Broken>
    ensures { result ≡ first_after first (unknown_use scopes.now.trees.now (scope_at scopes.now.trees.now number) (record { text = text.now; place = place; is_of_prototype = is_of_prototype })) }
{
    if !is_unknown(scopes.type_in(number, text), is_of_prototype) {
        return first;
    }
    earlier_at(first, Rule::UnknownType, 0, place)
}

fn judge_type(
    first: Option<Broken>,
    scopes: &Scopes<'_>,
    number: usize,
    t: &TypeName,
) -> Option<Broken>
    ensures { result ≡ first_after first (unknown_uses scopes.now.trees.now (scope_at scopes.now.trees.now number) (use_of t.now ∷ [])) }
{
    judge_use(first, scopes, number, &t.text, t.span, false)
}

fn judge_formals(
    first: Option<Broken>,
    scopes: &Scopes<'_>,
    number: usize,
    formals: &[Formal],
    is_of_prototype: bool,
) -> Option<Broken>
    ensures { result ≡ first_after first (unknown_uses scopes.now.trees.now (scope_at scopes.now.trees.now number) (map (formal_use is_of_prototype) formals.now)) }
{
    let mut first = first;
    for f in formals {
        first = judge_use(
            first,
            scopes,
            number,
            &f.kind.text,
            f.kind.span,
            is_of_prototype,
        );
    }
    first
}

fn judge_states(
    first: Option<Broken>,
    scopes: &Scopes<'_>,
    number: usize,
    states: &[State],
) -> Option<Broken>
    ensures { result ≡ first_after first (unknown_uses scopes.now.trees.now (scope_at scopes.now.trees.now number) (map state_use states.now)) }
{
    let mut first = first;
    for s in states {
        first = judge_use(first, scopes, number, &s.owner.text, s.owner.span, false);
    }
    first
}

fn judge_member(
    first: Option<Broken>,
    scopes: &Scopes<'_>,
    number: usize,
    m: &Member,
) -> Option<Broken>
    ensures { result ≡ first_after first (unknown_uses scopes.now.trees.now (scope_at scopes.now.trees.now number) (member_uses m.now)) }
{
    match m {
        Member::Field { kind, .. } => judge_type(first, scopes, number, kind),
        Member::Method { kind, formals, .. } => {
            let first = judge_type(first, scopes, number, kind);
            judge_formals(first, scopes, number, &formals.items, true)
        }
        Member::Skipped(s) => judge_type(first, scopes, number, &s.kind),
    }
}

fn judge_members(
    first: Option<Broken>,
    scopes: &Scopes<'_>,
    number: usize,
    members: &[Member],
) -> Option<Broken>
    ensures { result ≡ first_after first (unknown_uses scopes.now.trees.now (scope_at scopes.now.trees.now number) (flat_map member_uses members.now)) }
{
    let mut first = first;
    for m in members {
        first = judge_member(first, scopes, number, m);
    }
    first
}

fn judge_structure(
    first: Option<Broken>,
    scopes: &Scopes<'_>,
    number: usize,
    s: &Structure,
) -> Option<Broken>
    ensures { result ≡ first_after first (unknown_uses scopes.now.trees.now (scope_at scopes.now.trees.now number) (cond (is_external s.now) [] (flat_map member_uses s.now.members))) }
{
    if is_external(s) {
        first
    } else {
        judge_members(first, scopes, number, &s.members)
    }
}

fn judge_function(
    first: Option<Broken>,
    scopes: &Scopes<'_>,
    number: usize,
    f: &Function,
) -> Option<Broken>
    ensures { result ≡ first_after first (unknown_uses scopes.now.trees.now (scope_at scopes.now.trees.now number) (function_uses f.now)) }
{
    match f {
        Function::Plain {
            kind,
            formals,
            body,
            ..
        } => {
            let first = judge_type(first, scopes, number, kind);
            judge_formals(first, scopes, number, &formals.items, body.is_none())
        }
        Function::Skipped(s) => judge_type(first, scopes, number, &s.kind),
    }
}

impl DeclarationRule for KnownTypes {
    ghost broken_of = { unknown_of };

    fn judge<'a>(
        first: Option<Broken>,
        scopes: &Scopes<'a>,
        number: usize,
        d: Declared<'a>,
    ) -> Option<Broken> {
        match d {
            Declared::Structure(s) => judge_structure(first, scopes, number, s),
            Declared::States(s) => judge_states(first, scopes, number, &s.members),
            Declared::Parameter(p) => judge_type(first, scopes, number, &p.kind),
            Declared::Object(o) => judge_type(first, scopes, number, &o.kind),
            Declared::OutPort(p) => judge_type(first, scopes, number, &p.message),
            Declared::InPort(p) => judge_type(first, scopes, number, &p.message),
            Declared::Function(f) => judge_function(first, scopes, number, f),
            Declared::Machine(_) | Declared::Enumeration(_) | Declared::Action(_) => first,
        }
    }
}
