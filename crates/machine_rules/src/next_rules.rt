//! Transitions with a star as their next state, in machines without the function that is asked which state that is.
ghost use Rattle.std.specs.Prelude.{◌≡◌, ◌≤◌, IfOk, length, flat_map};
ghost use Rattle.std.specs.Option.{option_copied};
ghost use Rattle.slicc_plan.specs.Prelude.{answers_next, first_after, machines_of, transition_in, unanswered_at, unanswered_in, unanswered_stars};
ghost use Rattle.machine_rules.specs.MachinesIn.{IsMachineIn};

use crate::rule::{MachineIn, MachineRule, first_in_machines};
use crate::state_rules::function_named;
use crate::wanted::{Wanted, are_wanted, is_wanted};
use declaration_rules::earlier_at;
use declared_types::Scopes;
use ruby_base::NoMemory;
use slicc_ast::tree::{Decl, Function, NextState};
use slicc_plan::{Broken, BuiltInType, Rule};
use std::alloc::Global;

// Whether a function answers a state of the machine's on an address, and has a block.
fn answers_next(m: MachineIn<'_, '_>, function: Option<&Function>) -> bool
    requires { IsMachineIn m }
    ensures { result ≡ answers_next m.entry.scopes.now.trees.now m.entry.machine.now (option_copied function.entry) }
{
    match function {
        Some(
            Function::Plain {
                kind,
                formals,
                body: Some(_),
                ..
            },
        ) => {
            is_wanted(
                m,
                Wanted::OwnState,
                m.scopes.type_in(m.scope, kind.text.as_slice()),
            ) && are_wanted(
                m,
                &[Some(Wanted::BuiltIn(BuiltInType::Address))],
                &formals.items,
            )
        }
        _ => false,
    }
}

fn judge_next(first: Option<Broken>, number: u16, next: &Option<NextState>) -> Option<Broken>
    ensures { result ≡ first_after first (unanswered_at number next.now) }
{
    match next {
        Some(NextState::Asked(place)) => earlier_at(first, Rule::NextStateFunction, number, *place),
        _ => first,
    }
}

fn judge_declaration(first: Option<Broken>, number: u16, d: &Decl) -> Option<Broken>
    ensures { result ≡ first_after first (flat_map (λ t. unanswered_at number t.next) (transition_in d.now)) }
{
    match d {
        Decl::Transition(t) => judge_next(first, number, &t.next),
        _ => first,
    }
}

fn judge_declarations(first: Option<Broken>, number: u16, ds: &[Decl]) -> Option<Broken>
    ensures { result ≡ first_after first (flat_map (λ t. unanswered_at number t.next) (flat_map transition_in ds.now)) }
{
    let mut found = first;
    for d in ds {
        found = judge_declaration(found, number, d);
    }
    found
}

fn judge_stars(first: Option<Broken>, m: MachineIn<'_, '_>) -> Option<Broken>
    requires { IsMachineIn m }
    ensures { result ≡ first_after first (unanswered_in m.entry.scopes.now.trees.now m.entry.number m.entry.machine.now) }
{
    if answers_next(m, function_named(m, b"getNextState")) {
        return first;
    }
    judge_declarations(first, m.number, &m.machine.declarations)
}

struct NextStates;

impl MachineRule for NextStates {
    ghost found_in = { unanswered_in };

    fn judge(
        _alloc: Global,
        first: Option<Broken>,
        m: MachineIn<'_, '_>,
    ) -> Result<Option<Broken>, NoMemory> {
        Ok(judge_stars(first, m))
    }
}

/// The first broken rule, after the next states that are asked for in all machines.
pub fn next_states(
    alloc: Global,
    first: Option<Broken>,
    scopes: &Scopes<'_>,
) -> Result<Option<Broken>, NoMemory>
    requires { length (machines_of scopes.now.trees.now) ≤ 16 }
    ensures { IfOk result (λ found. found ≡ first_after first (unanswered_stars scopes.now.trees.now)) }
{
    first_in_machines::<NextStates>(alloc, first, scopes)
}
