//! The rule that there is no more of anything than a protocol may have.
ghost use Rattle.std.specs.Prelude.{◌≡◌, filter, flat_map, find, map};
ghost use Rattle.declared_types.specs.Prelude.{declaration_of, declarations_of};
ghost use Rattle.slicc_names.specs.Counting.{is_of_kind, is_wanted, listed_place, member_place, else_if_places, found_after, local_places};
ghost use Rattle.slicc_plan.specs.Prelude.{function, beyond, beyond_in_body, beyond_in_declaration, fields_in, members_in, members_of_found, most_fields, most_of_each, first_after, bodies_in, body_locals, if_locals, place_of};

use crate::count::{Found, Kind, count, count_each, count_fields, limit_at};
use declared_types::{Declared, is_external};
use slicc_ast::tree::{Block, ElseIf, Function, If, Span, Stmt};
use slicc_plan::Broken;

const OF_EACH: u32 = 256;

const MEMBERS: u32 = 65535;

const FIELDS: u32 = 64;

const LOCALS: u32 = 64;

/// A limit of the declarations of a kind.
pub fn kind_limit(
    first: Option<Broken>,
    kind: Kind,
    declarations: &[Declared<'_>],
    limit: u32,
) -> Option<Broken>
    ensures { result ≡ first_after first (beyond limit (filter (is_of_kind kind) (declarations_of declarations.now))) }
{
    limit_at(first, count_each(Found::Left(limit), kind, declarations))
}

fn symbol_place(d: Declared<'_>, number: u32) -> Option<Span>
    ensures { listed_place result ≡ member_place (members_in (declaration_of d.entry)) number }
{
    match d {
        Declared::Enumeration(e) => match e.members.get(number as usize) {
            None => None,
            Some(s) => Some(s.name.span),
        },
        Declared::States(d) => match d.members.get(number as usize) {
            None => None,
            Some(s) => Some(s.name.span),
        },
        _ => None,
    }
}

fn members_limit(first: Option<Broken>, d: Declared<'_>, limit: u32) -> Option<Broken>
    ensures { result ≡ first_after first (beyond limit (members_in (declaration_of d.entry))) }
{
    match symbol_place(d, limit) {
        None => first,
        Some(place) => limit_at(first, Found::At(place)),
    }
}

fn fields_limit(first: Option<Broken>, d: Declared<'_>) -> Option<Broken>
    ensures { result ≡ first_after first (beyond most_fields (fields_in (declaration_of d.entry))) }
{
    match d {
        Declared::Structure(s) => {
            if is_external(s) {
                first
            } else {
                limit_at(first, count_fields(Found::Left(FIELDS), &s.members))
            }
        }
        _ => first,
    }
}

fn in_declaration(first: Option<Broken>, d: Declared<'_>) -> Option<Broken>
    ensures { result ≡ first_after first (beyond_in_declaration (declaration_of d.entry)) }
{
    let first = members_limit(first, d, MEMBERS);
    fields_limit(first, d)
}

/// The limits in each declaration.
pub fn in_declarations(first: Option<Broken>, declarations: &[Declared<'_>]) -> Option<Broken>
    ensures { result ≡ first_after first (flat_map beyond_in_declaration (declarations_of declarations.now)) }
{
    let mut first = first;
    for d in declarations {
        first = in_declaration(first, *d);
    }
    first
}

fn in_body(first: Option<Broken>, b: &Block) -> Option<Broken>
    ensures { result ≡ first_after first (beyond_in_body b.now) }
{
    limit_at(first, count_locals(Found::Left(LOCALS), b))
}

fn in_function(first: Option<Broken>, f: &Function) -> Option<Broken>
    ensures { result ≡ first_after first (flat_map beyond_in_body (bodies_in (function f.now))) }
{
    match f {
        Function::Plain { body, .. } => match body {
            None => first,
            Some(body) => in_body(first, body),
        },
        Function::Skipped(_) => first,
    }
}

fn in_own_body(first: Option<Broken>, d: Declared<'_>) -> Option<Broken>
    ensures { result ≡ first_after first (flat_map beyond_in_body (bodies_in (declaration_of d.entry))) }
{
    match d {
        Declared::InPort(p) => in_body(first, &p.body),
        Declared::Action(a) => in_body(first, &a.body),
        Declared::Function(f) => in_function(first, f),
        _ => first,
    }
}

/// The limits in the bodies of declarations.
pub fn in_bodies(first: Option<Broken>, declarations: &[Declared<'_>]) -> Option<Broken>
    ensures { result ≡ first_after first (flat_map beyond_in_body (flat_map bodies_in (declarations_of declarations.now))) }
{
    let mut first = first;
    for d in declarations {
        first = in_own_body(first, *d);
    }
    first
}

/// Which enumeration of a machine.
#[derive(Clone, Copy)]
pub enum Wanted {
    States,
    Events,
}

fn is_wanted(wanted: Wanted, d: Declared<'_>) -> bool
    ensures { result ≡ is_wanted wanted (declaration_of d.entry) }
{
    match wanted {
        Wanted::States => match d {
            Declared::States(_) => true,
            _ => false,
        },
        Wanted::Events => match d {
            Declared::Enumeration(e) => e.name.text.as_slice() == b"Event".as_slice(),
            _ => false,
        },
    }
}

/// The limit of the members of a machine's enumeration.
pub fn wanted_limit(
    first: Option<Broken>,
    wanted: Wanted,
    declarations: &[Declared<'_>],
) -> Option<Broken>
    ensures { result ≡ first_after first (beyond most_of_each (members_of_found (find (is_wanted wanted) (declarations_of declarations.now)))) }
{
    for d in declarations {
        if is_wanted(wanted, *d) {
            return members_limit(first, *d, OF_EACH);
        }
    }
    first
}

#[cycle(locals)]
pub fn count_locals(found: Found, b: &Block) -> Found
    ensures { result ≡ found_after found (map place_of (body_locals b.now)) }
{
    in_statements(found, &b.statements)
}

#[cycle(locals)]
fn in_statements(found: Found, statements: &[Stmt]) -> Found
    ensures { result ≡ found_after found (flat_map local_places statements.now) }
{
    let mut found = found;
    for s in statements {
        found = in_statement(found, s);
    }
    found
}

#[cycle(locals)]
fn in_statement(found: Found, s: &Stmt) -> Found
    ensures { result ≡ found_after found (local_places s.now) }
{
    match s {
        Stmt::Declare { span, .. } => count(found, Some(*span)),
        Stmt::If(i) => in_if(found, i),
        Stmt::Peek { body, .. } | Stmt::Enqueue { body, .. } => count_locals(found, body),
        _ => found,
    }
}

#[cycle(locals)]
fn in_if(found: Found, i: &If) -> Found
    ensures { result ≡ found_after found (map place_of (if_locals i.now)) }
{
    let then = count_locals(found, &i.then);
    let others = in_others(then, &i.others);
    match &i.otherwise {
        None => others,
        Some(block) => count_locals(others, block),
    }
}

#[cycle(locals)]
fn in_others(found: Found, others: &[ElseIf]) -> Found
    ensures { result ≡ found_after found (flat_map else_if_places others.now) }
{
    let mut found = found;
    for other in others {
        found = count_locals(found, &other.then);
    }
    found
}
