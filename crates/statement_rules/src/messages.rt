//! What is broken at the heads of `peek` and `enqueue`, what their messages stand for, and the names that statements bind, one after another.
ghost use Rattle.std.specs.Prelude.{◌≡◌, IfOk, ◌∷◌, OnOk};
ghost use Rattle.std.specs.Option.{option_copied, option_map};
ghost use Rattle.slicc_plan.specs.Prelude.{enqueued, in_type, is_peek_allowed, out_type, peeked, wrong_message_type, incoming_of_type, outgoing_of_type, meaning_named, first_of, after};
ghost use Rattle.body_types.specs.Prelude.{IsEnvironment, environment_of, sort_of, meaning_of, type_if, bound_of};
ghost use Rattle.statement_rules.specs.Prelude.{IsGrown, at};

use crate::plain::{broken_latency, is_in_action, local_meaning};
use body_types::{
    BodySort, Bound, Environment, Meaning, Wanted, incoming_of_type, meaning_named,
    outgoing_of_type, same_type, type_named, unless, wrong_type_name, wrong_value_name,
};
use declared_types::KnownType;
use ruby_base::NoMemory;
use slicc_ast::tree::{Expr, Name, Span, Stmt, TypeName};
use slicc_plan::{Broken, Rule, earlier_of_two};
use std::alloc::Global;

fn is_peek_allowed(sort: BodySort) -> bool
    ensures { result ≡ is_peek_allowed (sort_of sort) }
{
    matches!(sort, BodySort::Port | BodySort::Action)
}

// The type of the messages of an in port.
fn in_type<'a>(meaning: Option<Meaning<'a>>) -> Option<KnownType<'a>>
    ensures { type_if result ≡ in_type (option_map meaning_of meaning.entry) }
{
    match meaning {
        Some(Meaning::InPort(t)) => t,
        _ => None,
    }
}

// The type of the messages of an out port.
fn out_type<'a>(meaning: Option<Meaning<'a>>) -> Option<KnownType<'a>>
    ensures { type_if result ≡ out_type (option_map meaning_of meaning.entry) }
{
    match meaning {
        Some(Meaning::OutPort(t)) => t,
        _ => None,
    }
}

// What is told of the type that is written, by that of the port's messages.
fn wrong_message_type<'a>(
    env: Environment<'_, 'a>,
    message: &TypeName,
    ports: Option<KnownType<'a>>,
    t: Option<KnownType<'a>>,
) -> Option<Broken>
    requires { IsEnvironment env }
    ensures { result ≡ first_of (wrong_message_type (environment_of env.entry) message.now (type_if ports.entry) (type_if t.entry)) }
{
    match (ports, t) {
        (_, None) => wrong_type_name(env, message.text.as_slice(), message.span),
        (None, Some(_)) => None,
        (Some(p), Some(t)) => unless(same_type(p, t), Rule::WrongType, message.span),
    }
}

/// The head of `peek(port, message) ..`.
#[tactic(auto, using(crate::proofs::Firsts::rules_of_first))]
pub fn peeked(env: Environment, span: Span, port: &Name, message: &TypeName) -> Option<Broken>
    requires { IsEnvironment env }
    ensures { result ≡ first_of (peeked (environment_of env.entry) span port.now message.now) }
{
    let own = unless(is_peek_allowed(env.sort), Rule::NotAllowedHere, span);
    let own = earlier_of_two(own, wrong_value_name(env, Wanted::AnyInPort, port));
    let ports = in_type(meaning_named(env, port.text.as_slice()));
    let t = type_named(env, message.text.as_slice());
    earlier_of_two(own, wrong_message_type(env, message, ports, t))
}

/// What `in_msg` stands for in the block of `peek(port, ..)`.
pub fn incoming<'a>(env: Environment<'_, 'a>, port: &Name) -> Meaning<'a>
    requires { IsEnvironment env }
    ensures { meaning_of result ≡ incoming_of_type (in_type (meaning_named (environment_of env.entry) port.now.text)) }
{
    incoming_of_type(in_type(meaning_named(env, port.text.as_slice())))
}

/// The head of `enqueue(port, message, latency) ..`.
#[tactic(auto, using(crate::proofs::Firsts::rules_of_first))]
pub fn enqueued<'a>(
    alloc: Global,
    env: Environment<'_, 'a>,
    span: Span,
    port: &Name,
    message: &TypeName,
    latency: Option<&'a Expr>,
) -> Result<Option<Broken>, NoMemory>
    requires { IsEnvironment env }
    ensures { IfOk result (λ first. first ≡ first_of (enqueued (environment_of env.entry) span port.now message.now (option_copied latency.entry))) }
{
    let own = unless(is_in_action(env.sort), Rule::NotAllowedHere, span);
    let own = earlier_of_two(own, wrong_value_name(env, Wanted::AnyOutPort, port));
    let ports = out_type(meaning_named(env, port.text.as_slice()));
    let t = type_named(env, message.text.as_slice());
    let own = earlier_of_two(own, wrong_message_type(env, message, ports, t));
    let then = broken_latency(alloc, env, latency)?;
    Ok(earlier_of_two(own, then))
}

/// What `out_msg` stands for in the block of `enqueue(port, ..)`.
pub fn outgoing<'a>(env: Environment<'_, 'a>, port: &Name) -> Meaning<'a>
    requires { IsEnvironment env }
    ensures { meaning_of result ≡ outgoing_of_type (out_type (meaning_named (environment_of env.entry) port.now.text)) }
{
    outgoing_of_type(out_type(meaning_named(env, port.text.as_slice())))
}

/// The environment with these names.
pub fn with_names<'b, 'a>(env: Environment<'b, 'a>, bound: &'b [Bound<'a>]) -> Environment<'b, 'a>
    requires { IsEnvironment env }
    ensures is { environment_of result ≡ at env.entry bound.entry.now }
    ensures sound { IsEnvironment result }
{
    Environment {
        scopes: env.scopes,
        scope: env.scope,
        lines: env.lines,
        sort: env.sort,
        answer: env.answer,
        bound,
    }
}

/// Binds the local that a statement declares, if it does.
pub fn bind_local<'a>(
    env: Environment<'_, 'a>,
    bound: &mut Vec<Bound<'a>>,
    s: &'a Stmt,
) -> Result<(), NoMemory>
    requires { IsEnvironment env }
    ensures names { OnOk result (at env.entry bound.new.items ≡ after (at env.entry bound.old.items) s.entry.now) }
    ensures kept { OnOk result (IsGrown bound.old.items bound.new.items) }
{
    let Stmt::Declare { kind, name, .. } = s else {
        return Ok(());
    };
    let meaning = local_meaning(with_names(env, bound.as_slice()), kind);
    bound.push(Bound {
        name: name.text.as_slice(),
        meaning,
        is_local: true,
    })?;
    Ok(())
}
