//! Names of states, events and actions in transitions, each of which the machine has to have; and the permissions of states.
ghost use Rattle.std.specs.Prelude.{◌≡◌, [], ◌∷◌, flat_map, IfOk, Some};
ghost use Rattle.slicc_plan.specs.Machines.{names_in};
ghost use Rattle.slicc_plan.specs.Prelude.{HasFewParts, transition_in, transitions_of, first_after, listed_next, missing_in, not_there, declared_in, wrong_permission};
ghost use Rattle.machine_table.specs.Prelude.{found_by};
ghost use Rattle.body_rules.specs.Prelude.{missing_by, missing_with, wrong_states, wrong_state_of};
ghost use Rattle.std.specs.Option.{option_map};
ghost use Rattle.declared_types.specs.Prelude.{declaration_of, type_of, scope_at};

use declaration_rules::{earlier_at, has_member, is_built_in};
use declared_types::{Declared, KnownType, Scopes};
use machine_table::{Numbers, PartNumbers, part_numbers};
use ruby_base::NoMemory;
use slicc_ast::tree::{Decl, Machine, Name, Names, NextState, State, Transition};
use slicc_plan::{Broken, BuiltInType, Rule};
use std::alloc::Global;

// The first broken rule, after a name of what isn't there.
fn judge_absent(first: Option<Broken>, name: &Name) -> Option<Broken>
    ensures { result ≡ first_after first (not_there name.now ∷ []) }
{
    earlier_at(first, Rule::NotThere, 0, name.span)
}

fn judge_name(first: Option<Broken>, numbers: &Numbers, name: &Name) -> Option<Broken>
    ensures { result ≡ first_after first (missing_by (found_by numbers.now) name.now) }
{
    match numbers.find(name.text.as_slice()) {
        None => judge_absent(first, name),
        Some(_) => first,
    }
}

fn judge_several(first: Option<Broken>, numbers: &Numbers, names: &[Name]) -> Option<Broken>
    ensures { result ≡ first_after first (flat_map (missing_by (found_by numbers.now)) names.now) }
{
    let mut first = first;
    for name in names {
        first = judge_name(first, numbers, name);
    }
    first
}

fn judge_names(first: Option<Broken>, numbers: &Numbers, names: &Names) -> Option<Broken>
    ensures { result ≡ first_after first (flat_map (missing_by (found_by numbers.now)) (names_in names.now)) }
{
    match names {
        Names::One(name) => judge_name(first, numbers, name),
        Names::Several(names, _) => judge_several(first, numbers, names),
    }
}

fn judge_next(first: Option<Broken>, numbers: &Numbers, next: &Option<NextState>) -> Option<Broken>
    ensures { result ≡ first_after first (flat_map (missing_by (found_by numbers.now)) (listed_next next.now)) }
{
    match next {
        Some(NextState::Named(name)) => judge_name(first, numbers, name),
        Some(NextState::Asked(_)) | None => first,
    }
}

fn judge_transition(first: Option<Broken>, own: &PartNumbers, t: &Transition) -> Option<Broken>
    ensures { result ≡ first_after first (missing_with own.now t.now) }
{
    let left = judge_names(first, &own.states, &t.states);
    let reached = judge_next(left, &own.states, &t.next);
    let answered = judge_names(reached, &own.events, &t.events);
    judge_several(answered, &own.actions, &t.actions)
}

fn judge_declaration(first: Option<Broken>, own: &PartNumbers, d: &Decl) -> Option<Broken>
    ensures { result ≡ first_after first (flat_map (missing_with own.now) (transition_in d.now)) }
{
    match d {
        Decl::Transition(t) => judge_transition(first, own, t),
        _ => first,
    }
}

fn judge_transitions(first: Option<Broken>, own: &PartNumbers, ds: &[Decl]) -> Option<Broken>
    ensures { result ≡ first_after first (flat_map (missing_with own.now) (flat_map transition_in ds.now)) }
{
    let mut first = first;
    for d in ds {
        first = judge_declaration(first, own, d);
    }
    first
}

/// The first broken rule, after the names in a machine's transitions.
pub fn missing_names(
    alloc: Global,
    first: Option<Broken>,
    m: &Machine,
) -> Result<Option<Broken>, NoMemory>
    requires { HasFewParts m.now }
    ensures { IfOk result (λ found. found ≡ first_after first (flat_map (missing_in m.now) (transitions_of m.now))) }
{
    let own = part_numbers(alloc, m)?;
    Ok(judge_transitions(first, &own, m.declarations.as_slice()))
}

fn judge_owner(
    first: Option<Broken>,
    scopes: &Scopes<'_>,
    t: KnownType<'_>,
    s: &State,
) -> Option<Broken>
    ensures { result ≡ first_after first (wrong_permission s.now (Some (type_of t.entry))) }
{
    if !is_built_in(BuiltInType::AccessPermission, Some(t)) {
        return earlier_at(first, Rule::WrongType, 0, s.owner.span);
    }
    let all = KnownType::BuiltIn(BuiltInType::AccessPermission);
    if has_member(scopes, all, s.permission.text.as_slice()) {
        first
    } else {
        judge_absent(first, &s.permission)
    }
}

fn judge_state(
    first: Option<Broken>,
    scopes: &Scopes<'_>,
    number: usize,
    s: &State,
) -> Option<Broken>
    ensures { result ≡ first_after first (wrong_state_of scopes.now.trees.now (scope_at scopes.now.trees.now number) s.now) }
{
    match scopes.type_in(number, s.owner.text.as_slice()) {
        None => first,
        Some(t) => judge_owner(first, scopes, t, s),
    }
}

fn judge_states(
    first: Option<Broken>,
    scopes: &Scopes<'_>,
    number: usize,
    states: &[State],
) -> Option<Broken>
    ensures { result ≡ first_after first (flat_map (wrong_state_of scopes.now.trees.now (scope_at scopes.now.trees.now number)) states.now) }
{
    let mut first = first;
    for s in states {
        first = judge_state(first, scopes, number, s);
    }
    first
}

fn judge_declared<'a>(
    first: Option<Broken>,
    scopes: &Scopes<'a>,
    number: usize,
    d: Declared<'a>,
) -> Option<Broken>
    ensures { result ≡ first_after first (wrong_states scopes.now.trees.now (scope_at scopes.now.trees.now number) (declaration_of d.entry)) }
{
    match d {
        Declared::States(s) => judge_states(first, scopes, number, &s.members),
        _ => first,
    }
}

/// The first broken rule, after the permissions of all states that are declared in the scope of this number.
pub fn judge_permissions(
    first: Option<Broken>,
    scopes: &Scopes<'_>,
    number: usize,
) -> Option<Broken>
    ensures { result ≡ first_after first (flat_map (wrong_states scopes.now.trees.now (scope_at scopes.now.trees.now number)) (declared_in scopes.now.trees.now (scope_at scopes.now.trees.now number))) }
{
    let mut first = first;
    for d in scopes.declarations(number) {
        first = judge_declared(first, scopes, number, *d);
    }
    first
}
