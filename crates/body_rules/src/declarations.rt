//! What is broken in the declarations of a machine, one after another, and the types of what is declared.
ghost use Rattle.std.specs.Prelude.{◌≡◌, IfOk, flat_map};
ghost use Rattle.slicc_plan.specs.Prelude.{broken_function, broken_in_declaration, broken_in_machine, broken_port, port_environment, function, wrong_value_name, table_of, first_after, first_of, wrong_formal, wrong_type_in, within, is_answer_type, is_message, is_object_type, unless};
ghost use Rattle.slicc_plan.specs.Declarations.{in_port};
ghost use Rattle.slicc_plan.specs.declared.built_in.BuiltInType.TheVariants.{Buffer};
ghost use Rattle.declared_types.specs.Prelude.{declaration_of};
ghost use Rattle.body_rules.specs.Prelude.{IsMachineIn};
ghost use Rattle.slicc_plan.specs.declared.broken.Rule.TheVariants.{WrongType};

use crate::bodies::{action_body, function_body, port_body};
use crate::machine_in::{MachineIn, bare_environment, type_of_name};
use body_types::{
    BodySort, Meaning, Wanted, is_answer_type, is_message, is_object_type, is_value, unless,
    wrong_value_name,
};
use declared_types::Declared;
use ruby_base::NoMemory;
use slicc_ast::tree::{Block, Formal, Function, InPort, Name, TypeName};
use slicc_plan::{Broken, BuiltInType, Rule, earlier_of_two};
use std::alloc::Global;

// What is told of the name of what a port is on.
fn wrong_buffer<'a>(m: MachineIn<'_, 'a>, buffer: &Name) -> Option<Broken>
    requires { IsMachineIn m }
    ensures { result ≡ first_of (wrong_value_name (port_environment m.entry.scopes.now.trees.now m.entry.lines.machine.now) (table_of Buffer) buffer.now) }
{
    let env = bare_environment(m, BodySort::Port, Meaning::Nothing);
    wrong_value_name(env, Wanted::TableOf(BuiltInType::Buffer), buffer)
}

#[tactic(auto, using(statement_rules::proofs::Firsts::rules_of_first))]
fn broken_port<'a>(m: MachineIn<'_, 'a>, message: &TypeName, buffer: &Name) -> Option<Broken>
    requires { IsMachineIn m }
    ensures { result ≡ first_of (broken_port m.entry.scopes.now.trees.now m.entry.lines.machine.now message.now buffer.now) }
{
    earlier_of_two(wrong_message(m, message), wrong_buffer(m, buffer))
}

#[tactic(auto, using(statement_rules::proofs::Firsts::rules_of_first))]
fn broken_in_port<'a>(
    alloc: Global,
    m: MachineIn<'_, 'a>,
    p: &'a InPort,
) -> Result<Option<Broken>, NoMemory>
    requires { IsMachineIn m }
    ensures { IfOk result (λ first. first ≡ first_of (broken_in_declaration m.entry.scopes.now.trees.now m.entry.lines.machine.now (in_port p.entry.now))) }
{
    let own = broken_port(m, &p.message, &p.buffer);
    let held = port_body(alloc, m, &p.body)?;
    Ok(earlier_of_two(own, held))
}

#[tactic(auto, using(statement_rules::proofs::Firsts::rules_of_first))]
fn broken_function<'a>(
    alloc: Global,
    m: MachineIn<'_, 'a>,
    kind: &TypeName,
    formals: &'a [Formal],
    body: &'a Block,
) -> Result<Option<Broken>, NoMemory>
    requires { IsMachineIn m }
    ensures { IfOk result (λ first. first ≡ first_of (broken_function m.entry.scopes.now.trees.now m.entry.lines.machine.now kind.now formals.entry.now body.entry.now)) }
{
    let own = earlier_of_two(wrong_answer(m, kind), wrong_formals(m, formals));
    let held = function_body(alloc, m, kind, formals, body)?;
    Ok(earlier_of_two(own, held))
}

fn broken_in_function<'a>(
    alloc: Global,
    m: MachineIn<'_, 'a>,
    f: &'a Function,
) -> Result<Option<Broken>, NoMemory>
    requires { IsMachineIn m }
    ensures { IfOk result (λ first. first ≡ first_of (broken_in_declaration m.entry.scopes.now.trees.now m.entry.lines.machine.now (function f.entry.now))) }
{
    match f {
        Function::Skipped(_) => Ok(None),
        Function::Plain {
            kind,
            formals,
            body,
            ..
        } => match body {
            None => Ok(None),
            Some(b) => broken_function(alloc, m, kind, &formals.items, b),
        },
    }
}

// What is broken in a declaration of the machine.
fn broken_in_declaration<'a>(
    alloc: Global,
    m: MachineIn<'_, 'a>,
    d: Declared<'a>,
) -> Result<Option<Broken>, NoMemory>
    requires { IsMachineIn m }
    ensures { IfOk result (λ first. first ≡ first_of (broken_in_declaration m.entry.scopes.now.trees.now m.entry.lines.machine.now (declaration_of d.entry))) }
{
    match d {
        Declared::Parameter(p) => Ok(wrong_object(m, &p.kind)),
        Declared::Object(o) => Ok(wrong_object(m, &o.kind)),
        Declared::OutPort(p) => Ok(broken_port(m, &p.message, &p.buffer)),
        Declared::InPort(p) => broken_in_port(alloc, m, p),
        Declared::Action(a) => action_body(alloc, m, &a.body),
        Declared::Function(f) => broken_in_function(alloc, m, f),
        _ => Ok(None),
    }
}

/// The first broken rule, after what is broken in the bodies of a machine and in what they rest on.
pub fn judge_machine(
    alloc: Global,
    first: Option<Broken>,
    m: MachineIn<'_, '_>,
) -> Result<Option<Broken>, NoMemory>
    requires { IsMachineIn m }
    ensures { IfOk result (λ found. found ≡ first_after first (broken_in_machine m.entry.scopes.now.trees.now m.entry.lines.machine.now)) }
{
    let mut found = first;
    for d in m.scopes.declarations(m.scope) {
        let more = broken_in_declaration(alloc, m, *d)?;
        found = earlier_of_two(found, more);
    }
    Ok(found)
}

// What is told of the type at this place.
fn told_unless(is_right: bool, kind: &TypeName) -> Option<Broken>
    ensures { result ≡ first_of (unless is_right WrongType kind.now.span) }
{
    unless(is_right, Rule::WrongType, kind.span)
}

// What is told of the type of a port's messages.
fn wrong_message<'a>(m: MachineIn<'_, 'a>, kind: &TypeName) -> Option<Broken>
    requires { IsMachineIn m }
    ensures { result ≡ first_of (wrong_type_in m.entry.scopes.now.trees.now m.entry.lines.machine.now is_message kind.now) }
{
    match type_of_name(m, kind) {
        None => None,
        Some(t) => told_unless(is_message(t), kind),
    }
}

// What is told of the type of a parameter or an object.
fn wrong_object<'a>(m: MachineIn<'_, 'a>, kind: &TypeName) -> Option<Broken>
    requires { IsMachineIn m }
    ensures { result ≡ first_of (wrong_type_in m.entry.scopes.now.trees.now m.entry.lines.machine.now (is_object_type m.entry.lines.machine.now) kind.now) }
{
    match type_of_name(m, kind) {
        None => None,
        Some(t) => told_unless(is_object_type(m.lines, t), kind),
    }
}

// What is told of the type of what a function answers.
fn wrong_answer<'a>(m: MachineIn<'_, 'a>, kind: &TypeName) -> Option<Broken>
    requires { IsMachineIn m }
    ensures { result ≡ first_of (wrong_type_in m.entry.scopes.now.trees.now m.entry.lines.machine.now (is_answer_type m.entry.lines.machine.now) kind.now) }
{
    match type_of_name(m, kind) {
        None => None,
        Some(t) => told_unless(is_answer_type(m.lines, t), kind),
    }
}

// What is told of the type of a formal.
fn wrong_formal<'a>(m: MachineIn<'_, 'a>, f: &Formal) -> Option<Broken>
    requires { IsMachineIn m }
    ensures { result ≡ first_of (wrong_formal m.entry.scopes.now.trees.now m.entry.lines.machine.now f.now) }
{
    match type_of_name(m, &f.kind) {
        None => None,
        Some(t) => told_unless(is_value(m.lines, t), &f.kind),
    }
}

// What is told first of the types of formals.
fn wrong_formals<'a>(m: MachineIn<'_, 'a>, formals: &[Formal]) -> Option<Broken>
    requires { IsMachineIn m }
    ensures { result ≡ first_of (flat_map (wrong_formal m.entry.scopes.now.trees.now m.entry.lines.machine.now) formals.now) }
{
    let mut first = None;
    for f in formals {
        first = earlier_of_two(first, wrong_formal(m, f));
    }
    first
}
