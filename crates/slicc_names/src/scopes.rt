//! Names that are declared twice in one of the scopes within a protocol.
ghost use Rattle.std.specs.Prelude.{◌≡◌, IfOk, List, flat_map, []};
ghost use Rattle.slicc_plan.specs.Prelude.{Declaration, first_after, function_scopes, member_scopes, structure_scopes, repeated, blocks_in, body_scopes, if_blocks};
ghost use Rattle.slicc_names.specs.Repeated.{decl_scopes, item_scopes, machine_scopes, tree_scopes, else_if_scopes};
ghost use Rattle.slicc_names.specs.Declaring.{one_formal};

use crate::first_names::{in_both, in_parts};
use declared_types::is_external;
use slicc_ast::tree::{
    Block, Decl, ElseIf, Formal, Function, If, Item, Machine, Member, Stmt, Structure, Tree,
};
use slicc_plan::{Broken, NoMemory};
use std::alloc::Global;

/// A part of a protocol with scopes in it.
pub trait Scoped {
    ghost scopes: { Self → List (List Declaration) };

    /// The first broken rule after the scopes in it.
    fn in_scopes(&self, alloc: Global, first: Option<Broken>) -> Result<Option<Broken>, NoMemory>
        ensures { IfOk result (λ r. r ≡ first_after first (flat_map repeated (scopes self.now))) };
}

/// The scopes in parts one after another.
pub fn in_each<T: Scoped>(
    alloc: Global,
    first: Option<Broken>,
    parts: &[T],
) -> Result<Option<Broken>, NoMemory>
    ensures { IfOk result (λ r. r ≡ first_after first (flat_map repeated (flat_map T.scopes parts.now))) }
{
    let mut first = first;
    for part in parts {
        first = part.in_scopes(alloc, first)?;
    }
    Ok(first)
}

impl Scoped for Member {
    ghost scopes = { member_scopes };

    fn in_scopes(&self, alloc: Global, first: Option<Broken>) -> Result<Option<Broken>, NoMemory> {
        match self {
            Member::Method { formals, .. } => in_parts(alloc, first, &formals.items),
            _ => Ok(first),
        }
    }
}

fn in_structure(
    alloc: Global,
    first: Option<Broken>,
    s: &Structure,
) -> Result<Option<Broken>, NoMemory>
    ensures { IfOk result (λ r. r ≡ first_after first (flat_map repeated (structure_scopes s.now))) }
{
    if is_external(s) {
        return Ok(first);
    }
    let first = in_parts(alloc, first, &s.members)?;
    in_each(alloc, first, &s.members)
}

fn in_function(
    alloc: Global,
    first: Option<Broken>,
    f: &Function,
) -> Result<Option<Broken>, NoMemory>
    ensures { IfOk result (λ r. r ≡ first_after first (flat_map repeated (function_scopes f.now))) }
{
    match f {
        Function::Plain { formals, body, .. } => match body {
            None => in_parts(alloc, first, &formals.items),
            Some(body) => in_body(alloc, first, &formals.items, body),
        },
        Function::Skipped(_) => Ok(first),
    }
}

impl Scoped for Decl {
    ghost scopes = { decl_scopes };

    fn in_scopes(&self, alloc: Global, first: Option<Broken>) -> Result<Option<Broken>, NoMemory> {
        match self {
            Decl::States(s) => in_parts(alloc, first, &s.members),
            Decl::Enumeration(e) => in_parts(alloc, first, &e.members),
            Decl::Structure(s) => in_structure(alloc, first, s),
            Decl::InPort(p) => in_block(alloc, first, &p.body),
            Decl::Action(a) => in_block(alloc, first, &a.body),
            Decl::Function(f) => in_function(alloc, first, f),
            Decl::OutPort(_) | Decl::Transition(_) | Decl::Object(_) => Ok(first),
        }
    }
}

fn in_machine(alloc: Global, first: Option<Broken>, m: &Machine) -> Result<Option<Broken>, NoMemory>
    ensures { IfOk result (λ r. r ≡ first_after first (flat_map repeated (machine_scopes m.now))) }
{
    let first = in_both(alloc, first, &m.parameters, &m.declarations)?;
    in_each(alloc, first, &m.declarations)
}

impl Scoped for Item {
    ghost scopes = { item_scopes };

    fn in_scopes(&self, alloc: Global, first: Option<Broken>) -> Result<Option<Broken>, NoMemory> {
        match self {
            Item::Include(..) => Ok(first),
            Item::Enumeration(e) => in_parts(alloc, first, &e.members),
            Item::Structure(s) => in_structure(alloc, first, s),
            Item::Machine(m) => in_machine(alloc, first, m),
        }
    }
}

impl Scoped for Tree {
    ghost scopes = { tree_scopes };

    fn in_scopes(&self, alloc: Global, first: Option<Broken>) -> Result<Option<Broken>, NoMemory> {
        in_each(alloc, first, &self.items)
    }
}

/// A body with its formals.
pub fn in_body(
    alloc: Global,
    first: Option<Broken>,
    formals: &[Formal],
    b: &Block,
) -> Result<Option<Broken>, NoMemory>
    ensures { IfOk result (λ r. r ≡ first_after first (flat_map repeated (body_scopes (flat_map one_formal formals.now) b.now))) }
{
    let first = in_both(alloc, first, formals, &b.statements)?;
    in_statements(alloc, first, &b.statements)
}

/// A block that has no formals.
#[cycle(blocks)]
pub fn in_block(alloc: Global, first: Option<Broken>, b: &Block) -> Result<Option<Broken>, NoMemory>
    ensures { IfOk result (λ r. r ≡ first_after first (flat_map repeated (body_scopes [] b.now))) }
{
    let first = in_parts(alloc, first, &b.statements)?;
    in_statements(alloc, first, &b.statements)
}

#[cycle(blocks)]
fn in_statements(
    alloc: Global,
    first: Option<Broken>,
    statements: &[Stmt],
) -> Result<Option<Broken>, NoMemory>
    ensures { IfOk result (λ r. r ≡ first_after first (flat_map repeated (flat_map blocks_in statements.now))) }
{
    let mut first = first;
    for s in statements {
        first = in_statement(alloc, first, s)?;
    }
    Ok(first)
}

#[cycle(blocks)]
fn in_statement(alloc: Global, first: Option<Broken>, s: &Stmt) -> Result<Option<Broken>, NoMemory>
    ensures { IfOk result (λ r. r ≡ first_after first (flat_map repeated (blocks_in s.now))) }
{
    match s {
        Stmt::If(i) => in_if(alloc, first, i),
        Stmt::Peek { body, .. } | Stmt::Enqueue { body, .. } => in_block(alloc, first, body),
        _ => Ok(first),
    }
}

#[cycle(blocks)]
fn in_if(alloc: Global, first: Option<Broken>, i: &If) -> Result<Option<Broken>, NoMemory>
    ensures { IfOk result (λ r. r ≡ first_after first (flat_map repeated (if_blocks i.now))) }
{
    let first = in_block(alloc, first, &i.then)?;
    let first = in_others(alloc, first, &i.others)?;
    match &i.otherwise {
        Some(block) => in_block(alloc, first, block),
        None => Ok(first),
    }
}

#[cycle(blocks)]
fn in_others(
    alloc: Global,
    first: Option<Broken>,
    others: &[ElseIf],
) -> Result<Option<Broken>, NoMemory>
    ensures { IfOk result (λ r. r ≡ first_after first (flat_map repeated (flat_map else_if_scopes others.now))) }
{
    let mut first = first;
    for other in others {
        first = in_block(alloc, first, &other.then)?;
    }
    Ok(first)
}
