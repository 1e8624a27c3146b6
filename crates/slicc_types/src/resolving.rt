//! The plan of a protocol, or the first of all rules that it breaks.
ghost use Rattle.std.specs.Prelude.{◌≡◌, [], IfOk, MatchResult};
ghost use Rattle.slicc_plan.specs.Prelude.{IsPlanOf, broken_bodies, broken_declarations};
ghost use Rattle.slicc_types.specs.Judged.{IsJudged, IsKept, IsResolved};

use crate::machines::broken_machines;
use body_rules::broken_bodies;
use declared_types::Scopes;
use protocol_symbols::protocol_symbols;
use ruby_base::{NoMemory, Seq};
use ruby_symbols::Symbols;
use slicc_ast::tree::Tree;
use slicc_names::broken_declarations;
use slicc_plan::{Broken, Plan, Refusal, Written, refused};
use std::alloc::Global;

// What is told where no rule of declarations or of bodies is broken.
fn told_of_machines(
    alloc: Global,
    scopes: &Scopes<'_>,
) -> Result<Result<Seq<Seq<Written>>, Broken>, NoMemory>
    requires declarations { broken_declarations scopes.now.trees.now ≡ [] }
    requires bodies { broken_bodies scopes.now.trees.now ≡ [] }
    ensures { IfOk result (IsJudged scopes.now.trees.now) }
{
    let (first, written) = broken_machines(alloc, scopes)?;
    match first {
        Some(b) => Ok(Err(b)),
        None => Ok(Ok(written)),
    }
}

// What is told where no rule of declarations is broken.
fn told_of_bodies(
    alloc: Global,
    scopes: &Scopes<'_>,
) -> Result<Result<Seq<Seq<Written>>, Broken>, NoMemory>
    requires { broken_declarations scopes.now.trees.now ≡ [] }
    ensures { IfOk result (IsJudged scopes.now.trees.now) }
{
    match broken_bodies(alloc, scopes)? {
        Some(b) => Ok(Err(b)),
        None => told_of_machines(alloc, scopes),
    }
}

// What is told of the protocol of these scopes.
fn told_of(
    alloc: Global,
    scopes: &Scopes<'_>,
) -> Result<Result<Seq<Seq<Written>>, Broken>, NoMemory>
    ensures { IfOk result (IsJudged scopes.now.trees.now) }
{
    match broken_declarations(alloc, scopes)? {
        Some(b) => Ok(Err(b)),
        None => told_of_bodies(alloc, scopes),
    }
}

// The symbols of the protocol with these trees, where it keeps all rules; else the one that is told of those that it breaks.
fn told(alloc: Global, trees: &[Tree]) -> Result<Result<Symbols, Broken>, NoMemory>
    ensures { IfOk result (IsResolved trees.now) }
{
    let scopes = Scopes::new(alloc, trees)?;
    let judged = told_of(alloc, &scopes)?;
    match judged {
        Err(b) => Ok(Err(b)),
        Ok(written) => Ok(Ok(protocol_symbols(alloc, scopes, written)?)),
    }
}

// The same, where it breaks rules as a refusal.
fn accept(alloc: Global, trees: &[Tree]) -> Result<Symbols, Refusal>
    ensures { MatchResult result (IsKept trees.now) (λ r. IsPlanOf trees.now (Err r)) }
{
    match told(alloc, trees) {
        Ok(Ok(symbols)) => Ok(symbols),
        Ok(Err(b)) => Err(refused(b)),
        Err(NoMemory) => Err(Refusal::NoMemory),
    }
}

fn plan_of(alloc: Global, trees: Seq<Tree>, symbols: Symbols) -> Result<Plan, Refusal>
    requires { IsKept trees symbols }
    ensures { IsPlanOf trees result }
{
    match Plan::of(alloc, trees, symbols) {
        Ok(plan) => Ok(plan),
        Err(NoMemory) => Err(Refusal::NoMemory),
    }
}

/// The plan of the protocol whose files have these trees, in the order of reading. Where the protocol breaks rules, it is refused
/// by the first that is told; where memory runs out, by that.
pub fn resolve(alloc: Global, trees: Seq<Tree>) -> Result<Plan, Refusal>
    ensures { IsPlanOf trees result }
{
    let symbols = accept(alloc, trees.as_slice())?;
    plan_of(alloc, trees, symbols)
}
