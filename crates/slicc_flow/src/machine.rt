//! The bodies of a machine, and what its transitions check.
ghost use Rattle.std.specs.Prelude.{◌≡◌, IfOk, ◌++◌, OnOk, flat_map, map};
ghost use Rattle.std.specs.List.{list_any};
ghost use Rattle.slicc_plan.specs.BodyParts.{names_in};
ghost use Rattle.slicc_plan.specs.Prelude.{asked_functions, call_of, is_asked, transition_in, bodies_of, written_actions, written_functions, written_ports, within, number_in, transitions_of, checks_at};
ghost use Rattle.declared_types.specs.Prelude.{scope_at};
ghost use Rattle.slicc_flow.specs.Written.{written_list};
ghost use Rattle.slicc_flow.specs.Checks.{checks_with, decl_checks, transition_checks};
ghost use Rattle.slicc_flow.specs.Machines.{bodies_in, bodies_with};

use crate::names::{Names, TableSort, table_names};
use crate::written::{Lent, actions, bodies, functions, ports};
use declared_types::Scopes;
use ruby_base::{NameIndex, NoMemory, Seq};
use slicc_ast::tree::{Decl, Machine, NextState, Transition};
use slicc_plan::Body;
use std::alloc::Global;

/// The bodies of a machine by their parts, and what its transitions check.
#[derive(Drop)]
pub struct MachineBodies {
    pub functions: Seq<Body>,
    pub actions: Seq<Body>,
    pub ports: Seq<Body>,
    /// The numbers of the functions that a run itself calls to read: `getState` and, where a transition has a star as its next
    /// state, `getNextState`.
    pub asked: Seq<u32>,
    /// By written transitions the tables that their actions check, one by one.
    pub checks: Seq<Seq<u32>>,
}

// What names stand for in the machine that has this scope, and its functions.
fn names_of<'a>(
    alloc: Global,
    scopes: &Scopes<'_>,
    scope: usize,
    m: &'a Machine,
) -> Result<(Names, Seq<Lent<'a>>), NoMemory>
    requires { scope_at scopes.now.trees.now scope ≡ within m.now }
    ensures names { IfOk result (λ r. r.0 ≡ names_in scopes.now.trees.now m.now) }
    ensures functions { IfOk result (λ r. written_list r.1 ≡ written_functions m.now) }
{
    let tables = table_names(alloc, scopes, scope, TableSort::Any)?;
    let directories = table_names(alloc, scopes, scope, TableSort::Directory)?;
    let (functions, written) = functions(alloc, m)?;
    Ok((Names::new(functions, tables, directories), written))
}

// The actions of a machine, and what its transitions check.
fn actions_of(
    alloc: Global,
    names: &Names,
    m: &Machine,
) -> Result<(Seq<Body>, Seq<Seq<u32>>), NoMemory>
    ensures actions { IfOk result (λ r. r.0 ≡ bodies_of names.now (written_actions m.now)) }
    ensures checks { IfOk result (λ r. r.1 ≡ checks_with (bodies_of names.now (written_actions m.now)) m.now) }
{
    let (numbers, written) = actions(alloc, m)?;
    let actions = bodies(alloc, names, &written)?;
    let checks = machine_checks(alloc, &numbers, &actions, m)?;
    Ok((actions, checks))
}

fn ports_of(alloc: Global, names: &Names, m: &Machine) -> Result<Seq<Body>, NoMemory>
    ensures { IfOk result (λ r. r ≡ bodies_of names.now (written_ports m.now)) }
{
    let written = ports(alloc, m)?;
    bodies(alloc, names, &written)
}

fn is_asked(d: &Decl) -> bool
    ensures { result ≡ list_any (λ t. is_asked t.next) (transition_in d.now) }
{
    match d {
        Decl::Transition(t) => matches!(t.next, Some(NextState::Asked(_))),
        _ => false,
    }
}

fn any_asked(ds: &[Decl]) -> bool
    ensures { result ≡ list_any (λ t. is_asked t.next) (flat_map transition_in ds.now) }
{
    for d in ds {
        if is_asked(d) {
            return true;
        }
    }
    false
}

fn add_function(functions: &mut Seq<u32>, number: Option<u32>) -> Result<(), NoMemory>
    ensures { OnOk result (functions.new ≡ functions.old ++ call_of number) }
{
    match number {
        None => Ok(()),
        Some(k) => functions.push(k),
    }
}

fn asked_functions(alloc: Global, names: &Names, m: &Machine) -> Result<Seq<u32>, NoMemory>
    ensures { IfOk result (λ r. r ≡ asked_functions names.now.functions m.now) }
{
    let mut asked = Seq::new(alloc);
    add_function(&mut asked, names.function("getState".as_bytes()))?;
    if !any_asked(&m.declarations) {
        return Ok(asked);
    }
    add_function(&mut asked, names.function("getNextState".as_bytes()))?;
    Ok(asked)
}

// The bodies where names stand for this and these are the functions.
fn bodies_by(
    alloc: Global,
    names: &Names,
    written: &[Lent<'_>],
    m: &Machine,
) -> Result<MachineBodies, NoMemory>
    requires { written_list written.now ≡ written_functions m.now }
    ensures { IfOk result (λ r. r ≡ bodies_with names.now m.now) }
{
    let functions = bodies(alloc, names, written)?;
    let (actions, checks) = actions_of(alloc, names, m)?;
    let ports = ports_of(alloc, names, m)?;
    let asked = asked_functions(alloc, names, m)?;
    Ok(MachineBodies {
        functions,
        actions,
        ports,
        asked,
        checks,
    })
}

/// The bodies of the machine that has this scope, and what its transitions check.
pub fn machine_bodies(
    alloc: Global,
    scopes: &Scopes<'_>,
    scope: usize,
    m: &Machine,
) -> Result<MachineBodies, NoMemory>
    requires { scope_at scopes.now.trees.now scope ≡ within m.now }
    ensures { IfOk result (λ r. r ≡ bodies_in scopes.now.trees.now m.now) }
{
    let (names, written) = names_of(alloc, scopes, scope, m)?;
    bodies_by(alloc, &names, &written, m)
}

// The tables that the action of a name checks.
fn checks_at<'a>(names: &NameIndex, actions: &'a [Body], name: &[u8]) -> &'a [u32]
    ensures { result.now ≡ checks_at actions.now (number_in names.now name.now) }
{
    match names.find(name) {
        Some(k) => match actions.get(k as usize) {
            Some(b) => b.checks.as_slice(),
            None => &[],
        },
        None => &[],
    }
}

// Those that the actions of a transition check, one by one.
fn transition_checks(
    alloc: Global,
    names: &NameIndex,
    actions: &[Body],
    t: &Transition,
) -> Result<Seq<u32>, NoMemory>
    ensures { IfOk result (λ r. r ≡ transition_checks names.now actions.now t.now) }
{
    let mut checks = Seq::new(alloc);
    for action in t.actions.as_slice() {
        checks.append(checks_at(names, actions, action.text.as_slice()))?;
    }
    Ok(checks)
}

// Adds those of a transition, where the declaration is one.
fn add_checks(
    alloc: Global,
    list: &mut Seq<Seq<u32>>,
    names: &NameIndex,
    actions: &[Body],
    d: &Decl,
) -> Result<(), NoMemory>
    ensures { OnOk result (list.new ≡ list.old ++ decl_checks names.now actions.now d.now) }
{
    match d {
        Decl::Transition(t) => list.push(transition_checks(alloc, names, actions, t)?),
        _ => Ok(()),
    }
}

/// Those of the written transitions of a machine.
pub fn machine_checks(
    alloc: Global,
    names: &NameIndex,
    actions: &[Body],
    m: &Machine,
) -> Result<Seq<Seq<u32>>, NoMemory>
    ensures { IfOk result (λ r. r ≡ map (transition_checks names.now actions.now) (transitions_of m.now)) }
{
    let mut list = Seq::new(alloc);
    for d in m.declarations.as_slice() {
        add_checks(alloc, &mut list, names, actions, d)?;
    }
    Ok(list)
}
