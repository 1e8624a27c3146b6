//! What is broken in statements without a block of their own.
ghost use Rattle.std.specs.Prelude.{◌≡◌, IfOk};
ghost use Rattle.std.specs.Option.{option_copied};
ghost use Rattle.slicc_plan.specs.Prelude.{is_allowed, in_actions, span_of, assigned, broken_latency, checked, declared, local_meaning, returned, stalled, wrong_local_type, broken_where, typed, any_value, of_built_in, first_of};
ghost use Rattle.body_types.specs.Prelude.{IsEnvironment, environment_of, sort_of, meaning_of, type_if, wanted_of};

use body_types::{
    BodySort, Environment, Meaning, Wanted, is_value, like_it, type_named, unless, value_of_type,
    wrong_type_name, wrong_value_name,
};
use call_types::not_writable;
use declared_types::KnownType;
use expression_types::{broken_where, typed};
use ruby_base::NoMemory;
use slicc_ast::tree::{Expr, Name, Span, TypeName};
use slicc_plan::{Broken, BuiltInType, Rule, earlier_of_two, span_of};
use std::alloc::Global;

/// Whether what is for actions alone is allowed.
pub fn is_in_action(sort: BodySort) -> bool
    ensures { result ≡ is_allowed (sort_of sort) in_actions }
{
    matches!(sort, BodySort::Action)
}

// Values of this built-in type.
fn built_in<'a>(b: BuiltInType) -> Wanted<'a>
    ensures { wanted_of result ≡ of_built_in b }
{
    Wanted::OneOf(Some(KnownType::BuiltIn(b)), None)
}

// What is told of a local's type.
fn wrong_local_type<'a>(
    env: Environment<'_, 'a>,
    kind: &TypeName,
    t: Option<KnownType<'a>>,
) -> Option<Broken>
    requires { IsEnvironment env }
    ensures { result ≡ first_of (wrong_local_type (environment_of env.entry) kind.now (type_if t.entry)) }
{
    match t {
        None => wrong_type_name(env, kind.text.as_slice(), kind.span),
        Some(t) => unless(is_value(env.lines, t), Rule::WrongType, kind.span),
    }
}

/// What a local of this type stands for.
pub fn local_meaning<'a>(env: Environment<'_, 'a>, kind: &TypeName) -> Meaning<'a>
    requires { IsEnvironment env }
    ensures { meaning_of result ≡ local_meaning (environment_of env.entry) kind.now }
{
    value_of_type(env.lines, type_named(env, kind.text.as_slice()))
}

/// `kind name := value;`
#[tactic(auto, using(crate::proofs::Firsts::rules_of_first))]
pub fn declared<'a>(
    alloc: Global,
    env: Environment<'_, 'a>,
    kind: &TypeName,
    value: &'a Expr,
) -> Result<Option<Broken>, NoMemory>
    requires { IsEnvironment env }
    ensures { IfOk result (λ first. first ≡ first_of (declared (environment_of env.entry) kind.now value.entry.now)) }
{
    let own = wrong_local_type(env, kind, type_named(env, kind.text.as_slice()));
    let wanted = like_it(local_meaning(env, kind));
    let then = broken_where(alloc, env, wanted, value)?;
    Ok(earlier_of_two(own, then))
}

/// `place := value;`
#[tactic(auto, using(crate::proofs::Firsts::rules_of_first))]
pub fn assigned<'a>(
    alloc: Global,
    env: Environment<'_, 'a>,
    place: &'a Expr,
    value: &'a Expr,
) -> Result<Option<Broken>, NoMemory>
    requires { IsEnvironment env }
    ensures { IfOk result (λ first. first ≡ first_of (assigned (environment_of env.entry) (span_of place.entry.now) (typed (environment_of env.entry) place.entry.now) value.entry.now)) }
{
    let to = typed(alloc, env, place)?;
    let then = broken_where(alloc, env, like_it(to.meaning), value)?;
    let own = earlier_of_two(to.broken, not_writable(span_of(place), to));
    Ok(earlier_of_two(own, then))
}

/// `value;`
pub fn evaluated<'a>(
    alloc: Global,
    env: Environment<'_, 'a>,
    value: &'a Expr,
) -> Result<Option<Broken>, NoMemory>
    requires { IsEnvironment env }
    ensures { IfOk result (λ first. first ≡ first_of (broken_where (environment_of env.entry) any_value value.entry.now)) }
{
    broken_where(alloc, env, Wanted::AnyValue, value)
}

/// A value of this built-in type, as in `assert (value);`.
pub fn broken_value<'a>(
    alloc: Global,
    env: Environment<'_, 'a>,
    b: BuiltInType,
    value: &'a Expr,
) -> Result<Option<Broken>, NoMemory>
    requires { IsEnvironment env }
    ensures { IfOk result (λ first. first ≡ first_of (broken_where (environment_of env.entry) (of_built_in b) value.entry.now)) }
{
    broken_where(alloc, env, built_in(b), value)
}

/// `return value;`, with or without a value.
pub fn returned<'a>(
    alloc: Global,
    env: Environment<'_, 'a>,
    value: Option<&'a Expr>,
) -> Result<Option<Broken>, NoMemory>
    requires { IsEnvironment env }
    ensures { IfOk result (λ first. first ≡ first_of (returned (environment_of env.entry) (option_copied value.entry))) }
{
    match value {
        None => Ok(None),
        Some(e) => broken_where(alloc, env, like_it(env.answer), e),
    }
}

/// The latency of a message that is sent, where it is written.
pub fn broken_latency<'a>(
    alloc: Global,
    env: Environment<'_, 'a>,
    latency: Option<&'a Expr>,
) -> Result<Option<Broken>, NoMemory>
    requires { IsEnvironment env }
    ensures { IfOk result (λ first. first ≡ first_of (broken_latency (environment_of env.entry) (option_copied latency.entry))) }
{
    match latency {
        None => Ok(None),
        Some(e) => broken_value(alloc, env, BuiltInType::Int, e),
    }
}

/// `stall_and_wait(port, address);`
#[tactic(auto, using(crate::proofs::Firsts::rules_of_first))]
pub fn stalled<'a>(
    alloc: Global,
    env: Environment<'_, 'a>,
    span: Span,
    port: &Name,
    address: &'a Expr,
) -> Result<Option<Broken>, NoMemory>
    requires { IsEnvironment env }
    ensures { IfOk result (λ first. first ≡ first_of (stalled (environment_of env.entry) span port.now address.entry.now)) }
{
    let own = unless(is_in_action(env.sort), Rule::NotAllowedHere, span);
    let own = earlier_of_two(own, wrong_value_name(env, Wanted::AnyInPort, port));
    let then = broken_value(alloc, env, BuiltInType::Address, address)?;
    Ok(earlier_of_two(own, then))
}

/// `check_allocate(name);`
#[tactic(auto, using(crate::proofs::Firsts::rules_of_first))]
pub fn checked(env: Environment, span: Span, name: &Name) -> Option<Broken>
    requires { IsEnvironment env }
    ensures { result ≡ first_of (checked (environment_of env.entry) span name.now) }
{
    let own = unless(is_in_action(env.sort), Rule::NotAllowedHere, span);
    earlier_of_two(
        own,
        wrong_value_name(env, Wanted::TableOf(BuiltInType::TbeTable), name),
    )
}
