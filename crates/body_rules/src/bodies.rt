//! The bodies of ports, actions and functions, and the names that each has of its own as it begins.
ghost use Rattle.std.specs.Prelude.{◌≡◌, IfOk, map, reverse, ◌∷◌, ◌++◌, OnOk};
ghost use Rattle.slicc_plan.specs.Prelude.{action_environment, environment, function_environment, port_environment, body_judged, first_of, formal_name, formal_names, action_names, fixed, line_name};
ghost use Rattle.body_types.specs.Prelude.{bound_of, sort_of, meaning_of, AreLines};
ghost use Rattle.body_rules.specs.Prelude.{IsMachineIn};
ghost use Rattle.std.specs.Option.{option_copied};

use crate::machine_in::{MachineIn, bare_environment, type_of_name};
use body_types::{
    BodySort, Bound, Lines, Meaning, answer_of_type, line_of_structure, value_of_type,
};
use declared_types::KnownType;
use ruby_base::NoMemory;
use slicc_ast::tree::{Block, Formal, Structure, TypeName};
use slicc_plan::{Broken, BuiltInType};
use statement_rules::body_judged;
use std::alloc::Global;

// The first that is broken in the statements of a body with these names of its own, the outermost first.
fn named_body<'a>(
    alloc: Global,
    m: MachineIn<'_, 'a>,
    sort: BodySort,
    answer: Meaning<'a>,
    names: &mut Vec<Bound<'a>>,
    body: &'a Block,
) -> Result<Option<Broken>, NoMemory>
    requires { IsMachineIn m }
    ensures { IfOk result (λ first. first ≡ first_of (body_judged (environment m.entry.scopes.now.trees.now m.entry.lines.machine.now (sort_of sort) (meaning_of answer.entry) (reverse (map bound_of names.old.items))) body.entry.now)) }
{
    body_judged(alloc, bare_environment(m, sort, answer), names, body)
}

/// The first that is broken in the statements of a port.
pub fn port_body<'a>(
    alloc: Global,
    m: MachineIn<'_, 'a>,
    body: &'a Block,
) -> Result<Option<Broken>, NoMemory>
    requires { IsMachineIn m }
    ensures { IfOk result (λ first. first ≡ first_of (body_judged (port_environment m.entry.scopes.now.trees.now m.entry.lines.machine.now) body.entry.now)) }
{
    let mut names = Vec::new(alloc);
    named_body(alloc, m, BodySort::Port, Meaning::Nothing, &mut names, body)
}

/// The first that is broken in the statements of an action.
pub fn action_body<'a>(
    alloc: Global,
    m: MachineIn<'_, 'a>,
    body: &'a Block,
) -> Result<Option<Broken>, NoMemory>
    requires { IsMachineIn m }
    ensures { IfOk result (λ first. first ≡ first_of (body_judged (action_environment m.entry.scopes.now.trees.now m.entry.lines.machine.now) body.entry.now)) }
{
    let mut names = action_names(alloc, m.lines)?;
    named_body(
        alloc,
        m,
        BodySort::Action,
        Meaning::Nothing,
        &mut names,
        body,
    )
}

/// The first that is broken in the statements of a function.
pub fn function_body<'a>(
    alloc: Global,
    m: MachineIn<'_, 'a>,
    kind: &TypeName,
    formals: &'a [Formal],
    body: &'a Block,
) -> Result<Option<Broken>, NoMemory>
    requires { IsMachineIn m }
    ensures { IfOk result (λ first. first ≡ first_of (body_judged (function_environment m.entry.scopes.now.trees.now m.entry.lines.machine.now kind.now formals.entry.now) body.entry.now)) }
{
    let answer = answer_of_type(m.lines, type_of_name(m, kind));
    let mut names = formal_names(alloc, m, formals)?;
    named_body(alloc, m, BodySort::Function, answer, &mut names, body)
}

// One more name, which hides those that are there.
fn bind<'a>(
    names: &mut Vec<Bound<'a>>,
    name: &'a [u8],
    meaning: Meaning<'a>,
) -> Result<(), NoMemory>
    ensures { OnOk result (reverse (map bound_of names.new.items) ≡ fixed name.entry.now (meaning_of meaning.entry) ∷ reverse (map bound_of names.old.items)) }
{
    names.push(Bound {
        name,
        meaning,
        is_local: false,
    })?;
    Ok(())
}

// The name of a reference to a line, where the machine has the structure of such lines.
fn bind_line<'a>(
    names: &mut Vec<Bound<'a>>,
    lines: Lines<'a>,
    name: &'a [u8],
    s: Option<&'a Structure>,
) -> Result<(), NoMemory>
    ensures { OnOk result (reverse (map bound_of names.new.items) ≡ line_name lines.entry.machine.now name.entry.now (option_copied s.entry) ++ reverse (map bound_of names.old.items)) }
{
    match s {
        None => Ok(()),
        Some(s) => {
            let meaning = line_of_structure(lines, Some(s));
            bind(names, name, meaning)
        }
    }
}

/// The names of an action of the machine.
pub fn action_names<'a>(alloc: Global, lines: Lines<'a>) -> Result<Vec<Bound<'a>>, NoMemory>
    requires { AreLines lines }
    ensures { IfOk result (λ names. reverse (map bound_of names.items) ≡ action_names lines.entry.machine.now) }
{
    let mut names = Vec::new(alloc);
    bind_line(&mut names, lines, b"tbe", lines.tbe)?;
    bind_line(&mut names, lines, b"cache_entry", lines.entry)?;
    let address = Meaning::Value(KnownType::BuiltIn(BuiltInType::Address));
    bind(&mut names, b"address", address)?;
    Ok(names)
}

fn bind_formal<'a>(
    names: &mut Vec<Bound<'a>>,
    m: MachineIn<'_, 'a>,
    f: &'a Formal,
) -> Result<(), NoMemory>
    requires { IsMachineIn m }
    ensures { OnOk result (reverse (map bound_of names.new.items) ≡ formal_name m.entry.scopes.now.trees.now m.entry.lines.machine.now f.entry.now.kind f.entry.now.name ++ reverse (map bound_of names.old.items)) }
{
    match &f.name {
        None => Ok(()),
        Some(name) => {
            let meaning = value_of_type(m.lines, type_of_name(m, &f.kind));
            bind(names, name.text.as_slice(), meaning)
        }
    }
}

/// The names of a function of the machine with these formals.
pub fn formal_names<'a>(
    alloc: Global,
    m: MachineIn<'_, 'a>,
    formals: &'a [Formal],
) -> Result<Vec<Bound<'a>>, NoMemory>
    requires { IsMachineIn m }
    ensures { IfOk result (λ names. reverse (map bound_of names.items) ≡ formal_names m.entry.scopes.now.trees.now m.entry.lines.machine.now formals.entry.now) }
{
    let mut names = Vec::new(alloc);
    let mut left = formals.len();
    while left > 0 {
        left -= 1;
        bind_formal(&mut names, m, &formals[left])?;
    }
    Ok(names)
}
