//! Calls that are called on nothing.
ghost use Rattle.std.specs.Prelude.{◌≡◌, [], IfOk};
ghost use Rattle.std.specs.Option.{option_copied, option_map};
ghost use Rattle.slicc_plan.specs.Buffers.{listed};
ghost use Rattle.slicc_plan.specs.Prelude.{built_in_call, built_in_named, declared_call, function_call, named_call, not_called, plain, plain_call};
ghost use Rattle.slicc_plan.specs.Meanings.{nothing};
ghost use Rattle.call_types.specs.Prelude.{call_for};
ghost use Rattle.declared_types.specs.Prelude.{declaration_of};
ghost use Rattle.body_types.specs.Prelude.{IsEnvironment, environment_of, all_given_of, found_of, typed_of};

use crate::arguments::{broken_in, checked};
use crate::called::plain;
use crate::methods::{built_in_call, permission_call};
use crate::wanted::add_formals;
use crate::{Called, plain_call};
use body_types::{Environment, Given, Meaning, Typed, Written, answer_of_type, told, value_named};
use declared_types::Declared;
use ruby_base::{NoMemory, Seq};
use slicc_ast::tree::{Formal, Function, Name};
use slicc_plan::{Broken, Rule, Span, earlier_of_two};
use std::alloc::Global;

// A call of a function that answers this type and has these formals.
fn function_call<'a>(
    alloc: Global,
    env: Environment<'_, 'a>,
    at: Span,
    kind: &[u8],
    formals: &[Formal],
    given: &[Given<'a>],
) -> Result<Typed<'a>, NoMemory>
    requires { IsEnvironment env }
    ensures { IfOk result (λ t. found_of (typed_of t) ≡ found_of (function_call (environment_of env.entry) at kind.now formals.now (all_given_of given.now))) }
{
    let mut wanted = Seq::new(alloc);
    add_formals(env, formals, &mut wanted)?;
    let first = checked(env, at, &wanted, wanted.len(), given, None);
    let t = env.scopes.type_in(env.scope, kind);
    Ok(plain(answer_of_type(env.lines, t), first))
}

/// A call of what isn't there, where that was found to be broken before.
pub fn not_called<'a>(broken: Option<Broken>, called: &Name, given: &[Given<'a>]) -> Typed<'a>
    ensures { found_of (typed_of result) ≡ found_of (not_called (listed broken) called.now (all_given_of given.now)) }
{
    let told_of = earlier_of_two(Some(told(Rule::NotThere, called.span)), broken_in(given));
    plain(Meaning::Unknown, earlier_of_two(broken, told_of))
}

// That call, which needs no declaration.
fn undeclared_call<'a>(
    alloc: Global,
    env: Environment<'_, 'a>,
    at: Span,
    c: Called<'a>,
    given: &[Given<'a>],
) -> Result<Typed<'a>, NoMemory>
    requires { IsEnvironment env }
    ensures { IfOk result (λ t. found_of (typed_of t) ≡ found_of (built_in_call (environment_of env.entry) at (plain nothing []) (call_for c.entry) (all_given_of given.now))) }
{
    let on = Typed {
        meaning: Meaning::Nothing,
        written: Written::NoPlace,
        broken: None,
    };
    match c {
        Called::BuiltIn(c) => built_in_call(alloc, env, at, on, c, given),
        Called::Permission(m) => Ok(permission_call(env, at, m, given)),
    }
}

// A call that no declaration is of.
fn built_in_named<'a>(
    alloc: Global,
    env: Environment<'_, 'a>,
    at: Span,
    called: &Name,
    given: &[Given<'a>],
) -> Result<Typed<'a>, NoMemory>
    requires { IsEnvironment env }
    ensures { IfOk result (λ t. found_of (typed_of t) ≡ found_of (built_in_named (environment_of env.entry) at called.now (plain_call env.entry.scopes.now.trees.now called.now.text) (all_given_of given.now))) }
{
    match plain_call(env.scopes, called.text.as_slice()) {
        None => Ok(not_called(None, called, given)),
        Some(c) => undeclared_call(alloc, env, at, c, given),
    }
}

// A call where that is what the machine declares by the name.
fn declared_call<'a>(
    alloc: Global,
    env: Environment<'_, 'a>,
    at: Span,
    called: &Name,
    d: Option<Declared<'a>>,
    given: &[Given<'a>],
) -> Result<Typed<'a>, NoMemory>
    requires { IsEnvironment env }
    ensures { IfOk result (λ t. found_of (typed_of t) ≡ found_of (declared_call (environment_of env.entry) at called.now (option_map declaration_of d.entry) (all_given_of given.now))) }
{
    match d {
        None => built_in_named(alloc, env, at, called, given),
        Some(Declared::Function(f)) => match f {
            Function::Plain {
                kind,
                formals,
                body: Some(_),
                ..
            } => function_call(alloc, env, at, kind.text.as_slice(), &formals.items, given),
            Function::Plain { .. } => built_in_named(alloc, env, at, called, given),
            Function::Skipped(_) => Ok(not_called(None, called, given)),
        },
        Some(_) => Ok(not_called(None, called, given)),
    }
}

/// A call of this name with these arguments.
pub fn named_call<'a>(
    alloc: Global,
    env: Environment<'_, 'a>,
    at: Span,
    called: &Name,
    given: &[Given<'a>],
) -> Result<Typed<'a>, NoMemory>
    requires { IsEnvironment env }
    ensures { IfOk result (λ t. found_of (typed_of t) ≡ found_of (named_call (environment_of env.entry) at called.now (all_given_of given.now))) }
{
    match value_named(env, called.text.as_slice()) {
        Some(_) => {
            let told_of = Some(told(Rule::WrongType, called.span));
            Ok(plain(Meaning::Unknown, earlier_of_two(told_of, broken_in(given))))
        }
        None => {
            let d = env.scopes.first_named(env.scope, called.text.as_slice());
            declared_call(alloc, env, at, called, d, given)
        }
    }
}
