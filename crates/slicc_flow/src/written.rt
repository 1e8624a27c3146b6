//! Where the bodies of a machine are written.
ghost use Rattle.std.specs.Prelude.{◌≡◌, fold, IfOk, OnOk};
ghost use Rattle.slicc_plan.specs.BodyParts.{port_in};
ghost use Rattle.slicc_plan.specs.Prelude.{action_in, function_in, names_of_written, with_written, written_actions, written_functions, written_ports, bodies_of, body_of, body_with};
ghost use Rattle.slicc_flow.specs.Written.{written_list, written_of, written_or_none, sorted_by, with_part};

use crate::names::Names;
use crate::statement::add_block;
use ruby_base::{NameIndex, NoMemory, Seq};
use slicc_ast::tree::{Block, Decl, Function, Machine, Span};
use slicc_plan::{Body, Part};
use std::alloc::Global;

/// A body with the name and the place of what it is of, lent from the trees.
#[derive(Clone, Copy)]
pub struct Lent<'a> {
    pub name: &'a [u8],
    pub block: &'a Block,
    pub place: Span,
}

fn function_in<'a>(d: &'a Decl) -> Option<Lent<'a>>
    ensures { written_or_none result ≡ function_in d.now }
{
    match d {
        Decl::Function(
            Function::Plain {
                name,
                body: Some(block),
                span,
                ..
            },
        ) => Some(Lent {
            name: name.text.as_slice(),
            block,
            place: *span,
        }),
        _ => None,
    }
}

fn action_in<'a>(d: &'a Decl) -> Option<Lent<'a>>
    ensures { written_or_none result ≡ action_in d.now }
{
    match d {
        Decl::Action(a) => Some(Lent {
            name: a.name.text.as_slice(),
            block: &a.body,
            place: a.span,
        }),
        _ => None,
    }
}

fn port_in<'a>(d: &'a Decl) -> Option<Lent<'a>>
    ensures { written_or_none result ≡ port_in d.now }
{
    match d {
        Decl::InPort(p) => Some(Lent {
            name: p.name.text.as_slice(),
            block: &p.body,
            place: p.span,
        }),
        _ => None,
    }
}

// Adds what is written where it is the first of its name.
fn add_first<'a>(
    names: &mut NameIndex,
    list: &mut Seq<Lent<'a>>,
    w: Option<Lent<'a>>,
) -> Result<(), NoMemory>
    requires { names.old ≡ names_of_written (written_list list.old) }
    ensures names { OnOk result (names.new ≡ names_of_written (written_list list.new)) }
    ensures list { OnOk result (written_list list.new ≡ fold with_written (written_list list.old) (written_or_none w.entry)) }
{
    let Some(w) = w else {
        return Ok(());
    };
    match names.find(w.name) {
        Some(_) => Ok(()),
        None => {
            names.add(w.name)?;
            list.push(w)
        }
    }
}

/// The functions of a machine with a body, and their names. Of several of one name it is the first.
pub fn functions<'a>(alloc: Global, m: &'a Machine) -> Result<(NameIndex, Seq<Lent<'a>>), NoMemory>
    ensures names { IfOk result (λ r. r.0 ≡ names_of_written (written_functions m.now)) }
    ensures list { IfOk result (λ r. written_list r.1 ≡ written_functions m.now) }
{
    let mut names = NameIndex::new(alloc);
    let mut list = Seq::new(alloc);
    for d in m.declarations.as_slice() {
        add_first(&mut names, &mut list, function_in(d))?;
    }
    Ok((names, list))
}

/// The actions of a machine and their names. Of several of one name it is the first.
pub fn actions<'a>(alloc: Global, m: &'a Machine) -> Result<(NameIndex, Seq<Lent<'a>>), NoMemory>
    ensures names { IfOk result (λ r. r.0 ≡ names_of_written (written_actions m.now)) }
    ensures list { IfOk result (λ r. written_list r.1 ≡ written_actions m.now) }
{
    let mut names = NameIndex::new(alloc);
    let mut list = Seq::new(alloc);
    for d in m.declarations.as_slice() {
        add_first(&mut names, &mut list, action_in(d))?;
    }
    Ok((names, list))
}

/// The in ports of a machine.
pub fn ports<'a>(alloc: Global, m: &'a Machine) -> Result<Seq<Lent<'a>>, NoMemory>
    ensures { IfOk result (λ r. written_list r ≡ written_ports m.now) }
{
    let mut list = Seq::new(alloc);
    for d in m.declarations.as_slice() {
        if let Some(w) = port_in(d) {
            list.push(w)?;
        }
    }
    Ok(list)
}

// The parts that call, check and change something.
#[derive(Drop)]
pub struct Sorts {
    pub calls: Seq<u32>,
    pub checks: Seq<u32>,
    pub changes: Seq<Span>,
}

fn add_part(sorts: &mut Sorts, part: Part) -> Result<(), NoMemory>
    ensures { OnOk result (sorts.new ≡ with_part sorts.old part) }
{
    match part {
        Part::Call(k) => sorts.calls.push(k),
        Part::Check(k) => sorts.checks.push(k),
        Part::Change(place) => sorts.changes.push(place),
        Part::Plain => Ok(()),
    }
}

fn sorts_of(alloc: Global, parts: &[Part]) -> Result<Sorts, NoMemory>
    ensures { IfOk result (λ s. s ≡ sorted_by parts.now) }
{
    let mut sorts = Sorts {
        calls: Seq::new(alloc),
        checks: Seq::new(alloc),
        changes: Seq::new(alloc),
    };
    for part in parts {
        add_part(&mut sorts, *part)?;
    }
    Ok(sorts)
}

fn body_of(alloc: Global, names: &Names, w: &Lent<'_>) -> Result<Body, NoMemory>
    ensures { IfOk result (λ b. b ≡ body_of names.now (written_of w.now)) }
{
    let mut parts = Seq::new(alloc);
    add_block(&mut parts, names, w.block)?;
    let size = parts.len() as u64;
    let sorts = sorts_of(alloc, &parts)?;
    Ok(Body {
        place: w.place,
        size,
        calls: sorts.calls,
        checks: sorts.checks,
        changes: sorts.changes,
    })
}

/// The bodies of what is written.
pub fn bodies(alloc: Global, names: &Names, written: &[Lent<'_>]) -> Result<Seq<Body>, NoMemory>
    ensures { IfOk result (λ bs. bs ≡ bodies_of names.now (written_list written.now)) }
{
    let mut bodies = Seq::new(alloc);
    for w in written {
        bodies.push(body_of(alloc, names, w)?)?;
    }
    Ok(bodies)
}
