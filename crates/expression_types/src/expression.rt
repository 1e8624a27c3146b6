//! Expressions.
ghost use Rattle.std.specs.Prelude.{◌≡◌, [], ◌∷◌, IfOk};
ghost use Rattle.slicc_plan.specs.Prelude.{index_call, method_call, named_call, plain, type_named, broken_where, cast_to, from_operand, given_at, span_of, suffix_typed, typed, told, value, first_of, built_in};
ghost use Rattle.slicc_plan.specs.Meanings.{new_line};
ghost use Rattle.slicc_plan.specs.declared.broken.Rule.TheVariants.{NotAllowedHere};
ghost use Rattle.body_types.specs.Prelude.{IsEnvironment, environment_of, all_given_of, found_of, given_of, typed_of, wanted_of};
ghost use Rattle.expression_types.specs.Prelude.{all_known, all_arguments, all_operands, all_suffixes};

use crate::fields::field_of;
use crate::members::{member_type, variable_type};
use crate::operators::{cast_to, from_operand, joined, of_built_in};
use body_types::{Environment, Given, Meaning, Typed, Wanted, told, unfit};
use call_types::{index_call, method_call, named_call, plain};
use declared_types::KnownType;
use ruby_base::{NoMemory, Seq};
use slicc_ast::tree::{Expr, Name, Operand, Span, Suffix, TypeName};
use slicc_plan::{Broken, BuiltInType, Rule, earlier_of_two, span_of};
use std::alloc::Global;

// What an expression is, with its place.
fn with_place<'a>(e: &Expr, typed: Typed<'a>) -> Given<'a>
    ensures { given_of result ≡ given_at (span_of e.now) (typed_of typed.entry) }
{
    Given {
        place: span_of(e),
        typed,
    }
}

// A value of a built-in type.
fn value_of<'a>(b: BuiltInType) -> Typed<'a>
    ensures { typed_of result ≡ plain (value (built_in b)) [] }
{
    plain(Meaning::Value(KnownType::BuiltIn(b)), None)
}

// A new line, which an expression alone may not make.
fn new_line<'a>(made: &'a Name, at: Span) -> Typed<'a>
    ensures { typed_of result ≡ plain (new_line made.now) (told NotAllowedHere at ∷ []) }
{
    plain(Meaning::NewLine(made), Some(told(Rule::NotAllowedHere, at)))
}

/// What an expression is in a body.
#[cycle(expression_type)]
pub fn typed<'a>(
    alloc: Global,
    env: Environment<'_, 'a>,
    e: &'a Expr,
) -> Result<Typed<'a>, NoMemory>
    requires { IsEnvironment env }
    ensures { IfOk result (λ t. found_of (typed_of t) ≡ found_of (typed (environment_of env.entry) e.now)) }
{
    match e {
        Expr::Operation { first, others, .. } => {
            let first = first.get();
            let left = typed(alloc, env, first)?;
            operands(alloc, env, left, others, first)
        }
        Expr::Not(operand, _) => alone(
            alloc,
            env,
            of_built_in(BuiltInType::Bool),
            BuiltInType::Bool,
            operand.get(),
        ),
        Expr::Negate(operand, _) => alone(
            alloc,
            env,
            of_built_in(BuiltInType::Int),
            BuiltInType::Int,
            operand.get(),
        ),
        Expr::Postfix {
            value,
            suffixes,
            span,
        } => {
            let left = typed(alloc, env, value.get())?;
            with_suffixes(alloc, env, *span, left, suffixes)
        }
        Expr::Number(..) => Ok(value_of(BuiltInType::Int)),
        Expr::True(_) | Expr::False(_) => Ok(value_of(BuiltInType::Bool)),
        Expr::Nothing(_) => Ok(plain(Meaning::NoLine, None)),
        Expr::Variable(n) => Ok(variable_type(env, n)),
        Expr::Member { owner, member, .. } => Ok(member_type(env, owner, member)),
        Expr::Call {
            name,
            arguments,
            span,
        } => called(alloc, env, *span, name, &arguments.items),
        Expr::New(made, span) => Ok(new_line(made, *span)),
        Expr::IsValid(operand, _) | Expr::IsInvalid(operand, _) => {
            alone(
                alloc,
                env,
                Wanted::AnyLine,
                BuiltInType::Bool,
                operand.get(),
            )
        }
        Expr::Cast { target, value, .. } => cast(alloc, env, target, value.get()),
        Expr::Group(inner, _) => typed(alloc, env, inner.get()),
    }
}

// An operator's operand alone, where that is wanted and something is answered of this type.
#[cycle(expression_type)]
fn alone<'a>(
    alloc: Global,
    env: Environment<'_, 'a>,
    wanted: Wanted<'a>,
    answered: BuiltInType,
    operand: &'a Expr,
) -> Result<Typed<'a>, NoMemory>
    requires { IsEnvironment env }
    ensures { IfOk result (λ t. found_of (typed_of t) ≡ found_of (from_operand (environment_of env.entry) (wanted_of wanted.entry) answered (given_at (span_of operand.now) (typed (environment_of env.entry) operand.now)))) }
{
    let t = typed(alloc, env, operand)?;
    Ok(from_operand(env, wanted, answered, with_place(operand, t)))
}

// What stands left of operands, joined with each of them, where the whole starts with this operand.
#[cycle(expression_type)]
fn operands<'a>(
    alloc: Global,
    env: Environment<'_, 'a>,
    left: Typed<'a>,
    others: &'a [Operand],
    first: &Expr,
) -> Result<Typed<'a>, NoMemory>
    requires { IsEnvironment env }
    ensures { IfOk result (λ t. found_of (typed_of t) ≡ found_of (all_operands (environment_of env.entry) (span_of first.now) (typed_of left.entry) others.now)) }
{
    let mut left = left;
    for o in others {
        let right = typed(alloc, env, &o.value)?;
        left = joined(
            env,
            o.operator,
            with_place(first, left),
            with_place(&o.value, right),
        );
    }
    Ok(left)
}

// A value of the type of this name.
#[cycle(expression_type)]
fn cast<'a>(
    alloc: Global,
    env: Environment<'_, 'a>,
    target: &TypeName,
    value: &'a Expr,
) -> Result<Typed<'a>, NoMemory>
    requires { IsEnvironment env }
    ensures { IfOk result (λ t. found_of (typed_of t) ≡ found_of (cast_to (environment_of env.entry) target.now (given_at (span_of value.now) (typed (environment_of env.entry) value.now)) (type_named (environment_of env.entry) target.now.text))) }
{
    let t = typed(alloc, env, value)?;
    Ok(cast_to(env, target, with_place(value, t)))
}

// A call on nothing.
#[cycle(expression_type)]
fn called<'a>(
    alloc: Global,
    env: Environment<'_, 'a>,
    at: Span,
    name: &Name,
    arguments: &'a [Expr],
) -> Result<Typed<'a>, NoMemory>
    requires { IsEnvironment env }
    ensures { IfOk result (λ t. found_of (typed_of t) ≡ found_of (named_call (environment_of env.entry) at name.now (all_arguments (environment_of env.entry) arguments.now))) }
{
    let given = all_given(alloc, env, arguments)?;
    named_call(alloc, env, at, name, &given)
}

// A call on what stands left of it.
#[cycle(expression_type)]
fn method<'a>(
    alloc: Global,
    env: Environment<'_, 'a>,
    at: Span,
    left: Typed<'a>,
    name: &Name,
    arguments: &'a [Expr],
) -> Result<Typed<'a>, NoMemory>
    requires { IsEnvironment env }
    ensures { IfOk result (λ t. found_of (typed_of t) ≡ found_of (method_call (environment_of env.entry) at (typed_of left.entry) name.now (all_arguments (environment_of env.entry) arguments.now))) }
{
    let given = all_given(alloc, env, arguments)?;
    method_call(alloc, env, at, left, name, &given)
}

// What stands left of a key in brackets, with that.
#[cycle(expression_type)]
fn indexed<'a>(
    alloc: Global,
    env: Environment<'_, 'a>,
    at: Span,
    left: Typed<'a>,
    key: &'a Expr,
) -> Result<Typed<'a>, NoMemory>
    requires { IsEnvironment env }
    ensures { IfOk result (λ t. found_of (typed_of t) ≡ found_of (index_call (environment_of env.entry) at (typed_of left.entry) (given_at (span_of key.now) (typed (environment_of env.entry) key.now)))) }
{
    let t = typed(alloc, env, key)?;
    index_call(alloc, env, at, left, with_place(key, t))
}

#[cycle(expression_type)]
fn suffixed<'a>(
    alloc: Global,
    env: Environment<'_, 'a>,
    at: Span,
    left: Typed<'a>,
    s: &'a Suffix,
) -> Result<Typed<'a>, NoMemory>
    requires { IsEnvironment env }
    ensures { IfOk result (λ t. found_of (typed_of t) ≡ found_of (suffix_typed (environment_of env.entry) at (typed_of left.entry) s.now)) }
{
    match s {
        Suffix::Field(n, _) => Ok(field_of(env, left, n)),
        Suffix::Method {
            name,
            arguments,
            ..
        } => method(alloc, env, at, left, name, &arguments.items),
        Suffix::Index(key, _) => indexed(alloc, env, at, left, key),
    }
}

// What stands left of suffixes, with each of them.
#[cycle(expression_type)]
fn with_suffixes<'a>(
    alloc: Global,
    env: Environment<'_, 'a>,
    at: Span,
    left: Typed<'a>,
    suffixes: &'a [Suffix],
) -> Result<Typed<'a>, NoMemory>
    requires { IsEnvironment env }
    ensures { IfOk result (λ t. found_of (typed_of t) ≡ found_of (all_suffixes (environment_of env.entry) at (typed_of left.entry) suffixes.now)) }
{
    let mut left = left;
    for s in suffixes {
        left = suffixed(alloc, env, at, left, s)?;
    }
    Ok(left)
}

#[cycle(expression_type)]
fn all_given<'a>(
    alloc: Global,
    env: Environment<'_, 'a>,
    arguments: &'a [Expr],
) -> Result<Seq<Given<'a>>, NoMemory>
    requires { IsEnvironment env }
    ensures { IfOk result (λ given. all_known (all_given_of given) ≡ all_known (all_arguments (environment_of env.entry) arguments.now)) }
{
    let mut given = Seq::new(alloc);
    for e in arguments {
        let t = typed(alloc, env, e)?;
        given.push(with_place(e, t))?;
    }
    Ok(given)
}

/// The first that is broken in an expression where that is wanted.
pub fn broken_where<'a>(
    alloc: Global,
    env: Environment<'_, 'a>,
    wanted: Wanted<'a>,
    e: &'a Expr,
) -> Result<Option<Broken>, NoMemory>
    requires { IsEnvironment env }
    ensures { IfOk result (λ first. first ≡ first_of (broken_where (environment_of env.entry) (wanted_of wanted.entry) e.now)) }
{
    let t = typed(alloc, env, e)?;
    let then = unfit(env.lines, wanted, span_of(e), t.meaning);
    Ok(earlier_of_two(t.broken, then))
}
