//! Calls on something, indexes among them, and built-in calls.
ghost use Rattle.std.specs.Prelude.{◌≡◌, [], ◌∷◌, IfOk, map};
ghost use Rattle.std.specs.Option.{option_copied, option_map};
ghost use Rattle.slicc_plan.specs.Prelude.{built_in_receiver, call_named, index_call, method_call, receiver_of as receiver_in, table_receiver, value_receiver, permission_reading, answer_of as answer_in, built_in_call, plain, wanted_by, is_allowed};
ghost use Rattle.declared_types.specs.Prelude.{call_of, receiver_of as receiver_record, type_of, allowed_of, answer_of as answer_record, argument_of, receiver_of};
ghost use Rattle.body_types.specs.Prelude.{IsEnvironment, environment_of, all_given_of, found_of, given_of, typed_of, AreLines, meaning_of, sort_of};
ghost use Rattle.call_types.specs.Prelude.{not_indexed, after_arguments};
ghost use Rattle.slicc_plan.specs.Meanings.{nothing};

use crate::arguments::{broken_in, checked};
use crate::declared::not_called;
use crate::wanted::{add_wanted, states_type, structure_on, wrong_change};
use crate::{call_on, is_told, plain};
use body_types::{
    BodySort, Environment, Given, Lines, Meaning, Typed, Wanted, has_line, line_of_structure, told,
    unless,
};
use declared_types::{Allowed, Answer, Call, KnownType, Receiver};
use ruby_base::{NoMemory, Seq};
use slicc_ast::tree::{Machine, Name};
use slicc_plan::{Broken, BuiltInType, Rule, Span, earlier_of_two};
use std::alloc::Global;

fn table_receiver(b: BuiltInType) -> Option<Receiver>
    ensures { option_map receiver_record result ≡ table_receiver b }
{
    match b {
        BuiltInType::Cache => Some(Receiver::Cache),
        BuiltInType::Directory => Some(Receiver::Directory),
        BuiltInType::TbeTable => Some(Receiver::TbeTable),
        BuiltInType::Sequencer => Some(Receiver::Sequencer),
        _ => None,
    }
}

fn built_in_receiver(b: BuiltInType) -> Option<Receiver>
    ensures { option_map receiver_record result ≡ built_in_receiver b }
{
    match b {
        BuiltInType::NetDest => Some(Receiver::NetDest),
        BuiltInType::DataBlock => Some(Receiver::DataBlock),
        _ => None,
    }
}

fn value_receiver<'a>(lines: Lines<'a>, t: KnownType<'a>) -> Option<Receiver>
    requires { AreLines lines }
    ensures { option_map receiver_record result ≡ value_receiver lines.entry.machine.now (type_of t.entry) }
{
    if let KnownType::BuiltIn(b) = t {
        return built_in_receiver(b);
    }
    if has_line(lines.machine, lines.entry, t) || has_line(lines.machine, lines.directory, t) {
        Some(Receiver::Entry)
    } else {
        None
    }
}

fn receiver_of<'a>(lines: Lines<'a>, meaning: Meaning<'a>) -> Option<Receiver>
    requires { AreLines lines }
    ensures { option_map receiver_record result ≡ receiver_in lines.entry.machine.now (meaning_of meaning.entry) }
{
    match meaning {
        Meaning::Value(t) => value_receiver(lines, t),
        Meaning::Table(b) => table_receiver(b),
        Meaning::InPort(_) => Some(Receiver::InPort),
        _ => None,
    }
}

// The call of this name on that.
fn call_named<'a>(lines: Lines<'a>, on: Meaning<'a>, text: &[u8]) -> Option<&'static Call>
    requires { AreLines lines }
    ensures { option_map call_of (option_copied result) ≡ call_named lines.entry.machine.now (meaning_of on.entry) text.now }
{
    match receiver_of(lines, on) {
        None => None,
        Some(receiver) => call_on(receiver, text),
    }
}

/// A call of this name on that.
pub fn method_call<'a>(
    alloc: Global,
    env: Environment<'_, 'a>,
    at: Span,
    on: Typed<'a>,
    called: &Name,
    given: &[Given<'a>],
) -> Result<Typed<'a>, NoMemory>
    requires { IsEnvironment env }
    ensures { IfOk result (λ t. found_of (typed_of t) ≡ found_of (method_call (environment_of env.entry) at (typed_of on.entry) called.now (all_given_of given.now))) }
{
    if is_told(on.meaning) {
        let first = earlier_of_two(on.broken, broken_in(given));
        return Ok(plain(Meaning::Unknown, first));
    }
    match call_named(env.lines, on.meaning, called.text.as_slice()) {
        None => Ok(not_called(on.broken, called, given)),
        Some(c) => built_in_call(alloc, env, at, on, c, given),
    }
}

// What isn't indexed, with this between the brackets.
fn not_indexed<'a>(at: Span, on: Typed<'a>, key: Given<'a>) -> Typed<'a>
    ensures { found_of (typed_of result) ≡ found_of (not_indexed at (typed_of on.entry) (given_of key.entry)) }
{
    let told_of = earlier_of_two(Some(told(Rule::NotThere, at)), key.typed.broken);
    plain(Meaning::Unknown, earlier_of_two(on.broken, told_of))
}

/// An index of that.
pub fn index_call<'a>(
    alloc: Global,
    env: Environment<'_, 'a>,
    at: Span,
    on: Typed<'a>,
    key: Given<'a>,
) -> Result<Typed<'a>, NoMemory>
    requires { IsEnvironment env }
    ensures { IfOk result (λ t. found_of (typed_of t) ≡ found_of (index_call (environment_of env.entry) at (typed_of on.entry) (given_of key.entry))) }
{
    if is_told(on.meaning) {
        let first = earlier_of_two(on.broken, key.typed.broken);
        return Ok(plain(Meaning::Unknown, first));
    }
    match call_named(env.lines, on.meaning, b"[]") {
        None => Ok(not_indexed(at, on, key)),
        Some(c) => built_in_call(alloc, env, at, on, c, &[key]),
    }
}

fn answer_of<'a>(lines: Lines<'a>, on: Receiver, answer: Answer) -> Meaning<'a>
    requires { AreLines lines }
    ensures { meaning_of result ≡ answer_in lines.entry.machine.now (receiver_of on) (answer_record answer) }
{
    match answer {
        Answer::Nothing => Meaning::Nothing,
        Answer::Value(b) => Meaning::Value(KnownType::BuiltIn(b)),
        Answer::Line => line_of_structure(lines, structure_on(lines, on)),
    }
}

// Whether what is allowed there is allowed in a body of this sort.
fn is_allowed(sort: BodySort, allowed: Allowed) -> bool
    ensures { result ≡ is_allowed (sort_of sort) (allowed_of allowed) }
{
    match allowed {
        Allowed::Anywhere => true,
        Allowed::InPorts => matches!(sort, BodySort::Port),
        Allowed::InActions => matches!(sort, BodySort::Action),
    }
}

// The first of what was found before and of what is broken in the arguments of a call.
fn wrong_given<'a>(
    alloc: Global,
    env: Environment<'_, 'a>,
    at: Span,
    c: &Call,
    given: &[Given<'a>],
    first: Option<Broken>,
) -> Result<Option<Broken>, NoMemory>
    requires { IsEnvironment env }
    ensures { IfOk result (λ o. o ≡ after_arguments (environment_of env.entry) at (wanted_by env.entry.lines.machine.now (receiver_of c.now.receiver) (map argument_of c.now.always.now)) (wanted_by env.entry.lines.machine.now (receiver_of c.now.receiver) (map argument_of c.now.perhaps.now)) (all_given_of given.now) first) }
{
    let mut wanted = Seq::new(alloc);
    add_wanted(env.lines, c.receiver, c.always, &mut wanted)?;
    let least = wanted.len();
    add_wanted(env.lines, c.receiver, c.perhaps, &mut wanted)?;
    Ok(checked(env, at, &wanted, least, given, first))
}

/// A built-in call on that.
pub fn built_in_call<'a>(
    alloc: Global,
    env: Environment<'_, 'a>,
    at: Span,
    on: Typed<'a>,
    c: &Call,
    given: &[Given<'a>],
) -> Result<Typed<'a>, NoMemory>
    requires { IsEnvironment env }
    ensures { IfOk result (λ t. found_of (typed_of t) ≡ found_of (built_in_call (environment_of env.entry) at (typed_of on.entry) (call_of c.now) (all_given_of given.now))) }
{
    let allowed = unless(is_allowed(env.sort, c.allowed), Rule::NotAllowedHere, at);
    let first = earlier_of_two(on.broken, allowed);
    let first = wrong_given(alloc, env, at, c, given, first)?;
    let first = earlier_of_two(first, wrong_change(c.change, at, on, given));
    Ok(plain(answer_of(env.lines, c.receiver, c.answer), first))
}

/// The call from the states of a machine to permissions.
pub fn permission_call<'a>(
    env: Environment<'_, 'a>,
    at: Span,
    m: &'a Machine,
    given: &[Given<'a>],
) -> Typed<'a>
    requires { IsEnvironment env }
    ensures { found_of (typed_of result) ≡ found_of (built_in_call (environment_of env.entry) at (plain nothing []) (permission_reading m.entry.now) (all_given_of given.now)) }
{
    let wanted = [Wanted::OneOf(None, states_type(m))];
    let first = checked(env, at, &wanted, 1, given, None);
    let permission = KnownType::BuiltIn(BuiltInType::AccessPermission);
    plain(Meaning::Value(permission), first)
}
