// Places that are assigned.
ghost use Rattle.std.specs.Prelude.{◌≡◌, IfOk, List};
ghost use Rattle.std.specs.Option.{option_copied};
ghost use Rattle.body_meaning.specs.Prelude.{Reading, reading};
ghost use Rattle.body_code.specs.declared.left.NameAt.{NameAt};
ghost use Rattle.body_code.specs.declared.numbers.BodyNumbers.{BodyNumbers};
ghost use Rattle.body_code.specs.Prelude.{home_of, kind_at, piece_behind, spot_behind, spot_of, spot_with};
ghost use Rattle.body_code.specs.Spots.{field_spot, last_spot, spot_at_home};
ghost use Rattle.emit_expressions.specs.Prelude.{spot_code};

use crate::expressions::piece_behind;
use crate::fields::{field_in, field_through};
use crate::names::home_of;
use body_code::{BodyNumbers, FieldAt, Home, Left, NameAt};
use body_meaning::Scope;
use ruby_base::{NoMemory, Seq};
use ruby_value::Kind;
use slicc_ast::tree::{Expr, Suffix};
use std::alloc::Global;

/// A place that is assigned.
#[derive(Clone, Copy)]
pub enum Spot<'a> {
    /// The local of this number, which has values of this kind.
    Local(u16, Kind),
    /// A field of the message that is being made.
    Part(FieldAt),
    /// A field of a line. The reference to it, of this kind, is what the expression gives with the suffixes behind it.
    Line(&'a Expr, &'a [Suffix], Kind, FieldAt),
    /// None, as it isn't in an accepted protocol.
    Nowhere,
}

/// The kind of the values there.
pub fn kind_at(spot: &Spot<'_>) -> Option<Kind>
    ensures { (s : Reading) (n : BodyNumbers) (names : List NameAt)
        → result ≡ kind_at (spot_code s n names spot.now) }
{
    match spot {
        Spot::Local(_, k) => Some(*k),
        Spot::Part(f) => Some(f.kind),
        Spot::Line(_, _, _, f) => Some(f.kind),
        Spot::Nowhere => None,
    }
}

fn name_spot<'a>(names: &[NameAt], name: &[u8]) -> Spot<'a>
    ensures { (s : Reading) (n : BodyNumbers) (all : List NameAt)
        → spot_code s n all result ≡ spot_at_home (home_of name.now names.now) }
{
    match home_of(names, name) {
        Some(Home::Local(slot, k)) => Spot::Local(slot, k),
        _ => Spot::Nowhere,
    }
}

// The field of this name, of what was left by the expression with these suffixes.
fn field_spot<'a>(
    s: Scope<'_>,
    inner: &'a Expr,
    before: &'a [Suffix],
    name: &[u8],
    left: Left,
) -> Spot<'a>
    ensures { (n : BodyNumbers) (names : List NameAt)
        → spot_code (reading s.entry) n names result
        ≡ field_spot (reading s.entry) (piece_behind (reading s.entry) n names inner.now before.now).code
        name.now left }
{
    match left {
        Left::Value(k) => match field_through(s.symbols, k, name) {
            Some(f) => Spot::Line(inner, before, k, f),
            None => Spot::Nowhere,
        },
        Left::Made(structure) => match field_in(s.symbols, structure, name) {
            Some(f) => Spot::Part(f),
            None => Spot::Nowhere,
        },
        _ => Spot::Nowhere,
    }
}

// What the expression leaves with suffixes behind it.
fn left_behind(
    alloc: Global,
    s: Scope<'_>,
    n: &BodyNumbers,
    names: &[NameAt],
    inner: &Expr,
    suffixes: &[Suffix],
) -> Result<Left, NoMemory>
    ensures { IfOk result
        (λ l. l ≡ (piece_behind (reading s.entry) n.now names.now inner.now suffixes.now).left) }
{
    let mut aside = Seq::new(alloc);
    piece_behind(alloc, &mut aside, s, n, names, inner, suffixes)
}

fn last_spot<'a>(
    alloc: Global,
    s: Scope<'_>,
    n: &BodyNumbers,
    names: &[NameAt],
    inner: &'a Expr,
    before: &'a [Suffix],
    last: Option<&Suffix>,
) -> Result<Spot<'a>, NoMemory>
    ensures { IfOk result
        (λ spot. spot_code (reading s.entry) n.now names.now spot
        ≡ last_spot (reading s.entry) (piece_behind (reading s.entry) n.now names.now inner.now before.now)
        (option_copied last.entry)) }
{
    let Some(last) = last else {
        return Ok(Spot::Nowhere);
    };
    let Suffix::Field(name, _) = last else {
        return Ok(Spot::Nowhere);
    };
    let left = left_behind(alloc, s, n, names, inner, before)?;
    Ok(field_spot(s, inner, before, &name.text, left))
}

fn spot_behind<'a>(
    alloc: Global,
    s: Scope<'_>,
    n: &BodyNumbers,
    names: &[NameAt],
    inner: &'a Expr,
    suffixes: &'a [Suffix],
) -> Result<Spot<'a>, NoMemory>
    ensures { IfOk result
        (λ spot. spot_code (reading s.entry) n.now names.now spot
        ≡ spot_behind (reading s.entry) n.now names.now inner.now suffixes.now) }
{
    let count = suffixes.len().saturating_sub(1);
    last_spot(
        alloc,
        s,
        n,
        names,
        inner,
        &suffixes[..count],
        suffixes.get(count),
    )
}

/// The place that an expression names.
pub fn spot_of<'a>(
    alloc: Global,
    s: Scope<'_>,
    n: &BodyNumbers,
    names: &[NameAt],
    e: &'a Expr,
) -> Result<Spot<'a>, NoMemory>
    ensures { IfOk result
        (λ spot. spot_code (reading s.entry) n.now names.now spot
        ≡ spot_of (reading s.entry) n.now names.now e.now) }
{
    match e {
        Expr::Variable(name) => Ok(name_spot(names, &name.text)),
        Expr::Group(inner, _) => spot_of(alloc, s, n, names, inner.get()),
        Expr::Postfix {
            value: inner,
            suffixes,
            ..
        } => spot_behind(alloc, s, n, names, inner.get(), suffixes),
        _ => Ok(Spot::Nowhere),
    }
}

/// The place that an expression names with suffixes behind it, if there are any.
pub fn spot_with<'a>(
    alloc: Global,
    s: Scope<'_>,
    n: &BodyNumbers,
    names: &[NameAt],
    e: &'a Expr,
    suffixes: &'a [Suffix],
) -> Result<Spot<'a>, NoMemory>
    ensures { IfOk result
        (λ spot. spot_code (reading s.entry) n.now names.now spot
        ≡ spot_with (reading s.entry) n.now names.now e.now suffixes.now) }
{
    if suffixes.is_empty() {
        return spot_of(alloc, s, n, names, e);
    }
    spot_behind(alloc, s, n, names, e, suffixes)
}
