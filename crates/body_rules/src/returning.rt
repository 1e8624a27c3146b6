//! Whether each way through statements ends in them; and `return` with a value where none is wanted, or without one where one is.
ghost use Rattle.std.specs.Prelude.{◌≡◌, ◌∷◌, [], cond, flat_map};
ghost use Rattle.slicc_plan.specs.Prelude.{first_of, if_returns, no_return, returns_in, wrong_ends, wrong_returns, body_ends, ends, if_ends};
ghost use Rattle.body_rules.specs.Prelude.{arm_returns, return_at, wrong_among, arm_ends};
ghost use Rattle.std.specs.List.{list_all, list_any};

use slicc_ast::tree::{Block, ElseIf, If, Span, Stmt};
use slicc_plan::{Broken, Rule, earlier_of_two};

fn no_return(place: Span) -> Broken
    ensures { result ≡ no_return place }
{
    Broken {
        rule: Rule::NoReturn,
        machine: 0,
        place,
        other: None,
    }
}

// What is told where this is wrong.
fn told_if(is_wrong: bool, place: Span) -> Option<Broken>
    ensures { result ≡ first_of (cond is_wrong (no_return place ∷ []) []) }
{
    if is_wrong {
        Some(no_return(place))
    } else {
        None
    }
}

// What is told of a `return` at this place.
fn wrong_value(is_wanted: bool, has_value: bool, place: Span) -> Option<Broken>
    ensures { result ≡ first_of (wrong_among is_wanted (return_at has_value place ∷ [])) }
{
    match (is_wanted, has_value) {
        (true, false) | (false, true) => Some(no_return(place)),
        (true, true) | (false, false) => None,
    }
}

#[cycle(returning)]
#[tactic(auto, using(crate::proofs::ReturnRows::rules_of_returns))]
fn wrong_return(is_wanted: bool, s: &Stmt) -> Option<Broken>
    ensures { result ≡ first_of (wrong_among is_wanted (returns_in s.now)) }
{
    match s {
        Stmt::Return(value, span) => wrong_value(is_wanted, value.is_some(), *span),
        Stmt::If(i) => wrong_in_if(is_wanted, i),
        Stmt::Peek { body, .. } | Stmt::Enqueue { body, .. } => {
            wrong_in_statements(is_wanted, &body.statements)
        }
        _ => None,
    }
}

#[cycle(returning)]
#[tactic(auto, using(crate::proofs::ReturnRows::rules_of_returns))]
fn wrong_in_statements(is_wanted: bool, statements: &[Stmt]) -> Option<Broken>
    ensures { result ≡ first_of (wrong_among is_wanted (flat_map returns_in statements.now)) }
{
    let mut first = None;
    for s in statements {
        first = earlier_of_two(first, wrong_return(is_wanted, s));
    }
    first
}

#[cycle(returning)]
#[tactic(auto, using(crate::proofs::ReturnRows::rules_of_returns))]
fn wrong_in_others(is_wanted: bool, others: &[ElseIf]) -> Option<Broken>
    ensures { result ≡ first_of (wrong_among is_wanted (flat_map arm_returns others.now)) }
{
    let mut first = None;
    for other in others {
        first = earlier_of_two(
            first,
            wrong_in_statements(is_wanted, &other.then.statements),
        );
    }
    first
}

#[cycle(returning)]
#[tactic(auto, using(crate::proofs::ReturnRows::rules_of_returns))]
fn wrong_in_if(is_wanted: bool, i: &If) -> Option<Broken>
    ensures { result ≡ first_of (wrong_among is_wanted (if_returns i.now)) }
{
    let then = wrong_in_statements(is_wanted, &i.then.statements);
    let others = wrong_in_others(is_wanted, &i.others);
    let own = earlier_of_two(then, others);
    match &i.otherwise {
        None => own,
        Some(block) => earlier_of_two(own, wrong_in_statements(is_wanted, &block.statements)),
    }
}

/// The first `return` in a body that has a value though none is wanted, or none though one is.
pub fn wrong_returns(is_wanted: bool, b: &Block) -> Option<Broken>
    ensures { result ≡ first_of (wrong_returns is_wanted b.now) }
{
    wrong_in_statements(is_wanted, &b.statements)
}

/// The first that is wrong with the ways through the body of the function at this place, which answers something or doesn't.
#[tactic(auto, using(crate::proofs::ReturnRows::rules_of_returns))]
pub fn wrong_ends(answers: bool, place: Span, b: &Block) -> Option<Broken>
    ensures { result ≡ first_of (wrong_ends answers place b.now) }
{
    let own = told_if(answers && !body_ends(b), place);
    earlier_of_two(own, wrong_returns(answers, b))
}

#[cycle(endings)]
#[tactic(auto, using(crate::proofs::EndRows::rules_of_ends))]
fn ends(s: &Stmt) -> bool
    ensures { result ≡ ends s.now }
{
    match s {
        Stmt::Return(..) | Stmt::Error(..) => true,
        Stmt::If(i) => if_ends(i),
        Stmt::Peek { body, .. } | Stmt::Enqueue { body, .. } => statements_end(&body.statements),
        _ => false,
    }
}

#[cycle(endings)]
#[tactic(auto, using(crate::proofs::EndRows::rules_of_ends))]
fn statements_end(statements: &[Stmt]) -> bool
    ensures { result ≡ list_any ends statements.now }
{
    for s in statements {
        if ends(s) {
            return true;
        }
    }
    false
}

#[cycle(endings)]
#[tactic(auto, using(crate::proofs::EndRows::rules_of_ends))]
fn others_end(others: &[ElseIf]) -> bool
    ensures { result ≡ list_all arm_ends others.now }
{
    for other in others {
        if !statements_end(&other.then.statements) {
            return false;
        }
    }
    true
}

#[cycle(endings)]
#[tactic(auto, using(crate::proofs::EndRows::rules_of_ends))]
fn if_ends(i: &If) -> bool
    ensures { result ≡ if_ends i.now }
{
    let arms = statements_end(&i.then.statements) && others_end(&i.others);
    match &i.otherwise {
        None => false,
        Some(block) => arms && statements_end(&block.statements),
    }
}

// Whether each way through a body ends in `return` or in `error`.
fn body_ends(b: &Block) -> bool
    ensures { result ≡ body_ends b.now }
{
    statements_end(&b.statements)
}
