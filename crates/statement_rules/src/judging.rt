//! The statements of a body, block by block.
ghost use Rattle.std.specs.Prelude.{◌≡◌, IfOk, OnOk, flat_map};
ghost use Rattle.slicc_plan.specs.Prelude.{body_judged, if_judged, judged, statements_judged, first_of, binding, fixed};
ghost use Rattle.body_types.specs.Prelude.{IsEnvironment, environment_of, meaning_of};
ghost use Rattle.statement_rules.specs.Prelude.{at, else_if_judged};

use crate::messages::{bind_local, enqueued, incoming, outgoing, peeked, with_names};
use crate::plain::{assigned, broken_value, checked, declared, evaluated, returned, stalled};
use body_types::{Bound, Environment, Meaning};
use ruby_base::NoMemory;
use slicc_ast::tree::{Block, ElseIf, If, Stmt};
use slicc_plan::{Broken, BuiltInType, earlier_of_two};
use std::alloc::Global;

// Statements one after another. The names that they bind are gone after them.
#[cycle(statements)]
#[tactic(auto, using(crate::proofs::Firsts::rules_of_first))]
fn statements_judged<'a>(
    alloc: Global,
    env: Environment<'_, 'a>,
    bound: &mut Vec<Bound<'a>>,
    statements: &'a [Stmt],
) -> Result<Option<Broken>, NoMemory>
    requires { IsEnvironment env }
    ensures first { IfOk result (λ first. first ≡ first_of (statements_judged (at env.entry bound.old.items) statements.entry.now)) }
    ensures kept { OnOk result (bound.new.items ≡ bound.old.items) }
{
    let outer = bound.len();
    let mut first = None;
    for s in statements {
        let then = judged(alloc, env, bound, s)?;
        first = earlier_of_two(first, then);
        bind_local(env, bound, s)?;
    }
    bound.truncate(outer);
    Ok(first)
}

// The statements of an arm of an `if`.
#[cycle(statements)]
fn arm_judged<'a>(
    alloc: Global,
    env: Environment<'_, 'a>,
    bound: &mut Vec<Bound<'a>>,
    arm: &'a Block,
) -> Result<Option<Broken>, NoMemory>
    requires { IsEnvironment env }
    ensures first { IfOk result (λ first. first ≡ first_of (statements_judged (at env.entry bound.old.items) arm.entry.now.statements)) }
    ensures kept { OnOk result (bound.new.items ≡ bound.old.items) }
{
    statements_judged(alloc, env, bound, &arm.statements)
}

// The statements of a block in which one more name is bound.
#[cycle(statements)]
#[tactic(auto, using(crate::proofs::Firsts::rules_of_first))]
fn block_judged<'a>(
    alloc: Global,
    env: Environment<'_, 'a>,
    bound: &mut Vec<Bound<'a>>,
    name: &'static [u8],
    meaning: Meaning<'a>,
    block: &'a Block,
) -> Result<Option<Broken>, NoMemory>
    requires { IsEnvironment env }
    ensures first { IfOk result (λ first. first ≡ first_of (statements_judged (binding (at env.entry bound.old.items) (fixed name.entry.now (meaning_of meaning.entry))) block.entry.now.statements)) }
    ensures kept { OnOk result (bound.new.items ≡ bound.old.items) }
{
    bound.push(Bound {
        name,
        meaning,
        is_local: false,
    })?;
    let first = statements_judged(alloc, env, bound, &block.statements)?;
    bound.pop();
    Ok(first)
}

// `else if` and what follows it, one after another.
#[cycle(statements)]
#[tactic(auto, using(crate::proofs::Firsts::rules_of_first))]
fn others_judged<'a>(
    alloc: Global,
    env: Environment<'_, 'a>,
    bound: &mut Vec<Bound<'a>>,
    others: &'a [ElseIf],
) -> Result<Option<Broken>, NoMemory>
    requires { IsEnvironment env }
    ensures first { IfOk result (λ first. first ≡ first_of (flat_map (else_if_judged (at env.entry bound.old.items)) others.entry.now)) }
    ensures kept { OnOk result (bound.new.items ≡ bound.old.items) }
{
    let mut first = None;
    for other in others {
        let here = with_names(env, bound.as_slice());
        let condition = broken_value(alloc, here, BuiltInType::Bool, &other.condition)?;
        let then = statements_judged(alloc, env, bound, &other.then.statements)?;
        first = earlier_of_two(earlier_of_two(first, condition), then);
    }
    Ok(first)
}

#[cycle(statements)]
#[tactic(auto, using(crate::proofs::Firsts::rules_of_first, crate::proofs::Rows::rules_of_rows))]
fn if_judged<'a>(
    alloc: Global,
    env: Environment<'_, 'a>,
    bound: &mut Vec<Bound<'a>>,
    i: &'a If,
) -> Result<Option<Broken>, NoMemory>
    requires { IsEnvironment env }
    ensures first { IfOk result (λ first. first ≡ first_of (if_judged (at env.entry bound.old.items) i.entry.now)) }
    ensures kept { OnOk result (bound.new.items ≡ bound.old.items) }
{
    let here = with_names(env, bound.as_slice());
    let condition = broken_value(alloc, here, BuiltInType::Bool, &i.condition)?;
    let then = arm_judged(alloc, env, bound, &i.then)?;
    let others = others_judged(alloc, env, bound, &i.others)?;
    let own = earlier_of_two(earlier_of_two(condition, then), others);
    match &i.otherwise {
        None => Ok(own),
        Some(block) => {
            let otherwise = statements_judged(alloc, env, bound, &block.statements)?;
            Ok(earlier_of_two(own, otherwise))
        }
    }
}

#[cycle(statements)]
#[tactic(auto, using(crate::proofs::Firsts::rules_of_first, crate::proofs::Rows::rules_of_rows))]
fn judged<'a>(
    alloc: Global,
    env: Environment<'_, 'a>,
    bound: &mut Vec<Bound<'a>>,
    s: &'a Stmt,
) -> Result<Option<Broken>, NoMemory>
    requires { IsEnvironment env }
    ensures first { IfOk result (λ first. first ≡ first_of (judged (at env.entry bound.old.items) s.entry.now)) }
    ensures kept { OnOk result (bound.new.items ≡ bound.old.items) }
{
    let here = with_names(env, bound.as_slice());
    match s {
        Stmt::Declare { kind, value, .. } => declared(alloc, here, kind, value),
        Stmt::Assign { place, value, .. } => assigned(alloc, here, place, value),
        Stmt::Evaluate(value, _) => evaluated(alloc, here, value),
        Stmt::Return(value, _) => returned(alloc, here, value.as_ref()),
        Stmt::If(i) => if_judged(alloc, env, bound, i),
        Stmt::Peek {
            port,
            message,
            body,
            span,
            ..
        } => {
            let own = peeked(here, *span, port, message);
            let meaning = incoming(here, port);
            let then = block_judged(alloc, env, bound, b"in_msg", meaning, body)?;
            Ok(earlier_of_two(own, then))
        }
        Stmt::Enqueue {
            port,
            message,
            latency,
            body,
            span,
        } => {
            let own = enqueued(alloc, here, *span, port, message, latency.as_ref())?;
            let meaning = outgoing(here, port);
            let then = block_judged(alloc, env, bound, b"out_msg", meaning, body)?;
            Ok(earlier_of_two(own, then))
        }
        Stmt::StallAndWait {
            port,
            address,
            span,
        } => stalled(alloc, here, *span, port, address),
        Stmt::CheckAllocate(name, span) => Ok(checked(here, *span, name)),
        Stmt::Assert(condition, _) => broken_value(alloc, here, BuiltInType::Bool, condition),
        Stmt::Error(..) | Stmt::Print { .. } => Ok(None),
    }
}

/// The first that is broken in the statements of a body with these names of its own, the outermost first. After it the names are
/// as they were, unless memory ran out.
pub fn body_judged<'a>(
    alloc: Global,
    env: Environment<'_, 'a>,
    bound: &mut Vec<Bound<'a>>,
    body: &'a Block,
) -> Result<Option<Broken>, NoMemory>
    requires { IsEnvironment env }
    ensures { IfOk result (λ first. first ≡ first_of (body_judged (at env.entry bound.old.items) body.entry.now)) }
{
    statements_judged(alloc, env, bound, &body.statements)
}
