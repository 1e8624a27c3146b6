//! Counting to the place of a number.
ghost use Rattle.std.specs.Prelude.{◌≡◌, flat_map, List};
ghost use Rattle.slicc_names.specs.Counting.{field_places, found_after, listed_place, place_if, told_found, declared_places, is_of_kind, decl_places, if_counted, inside, parameter_places, with_its_own_places};
ghost use Rattle.slicc_plan.specs.Prelude.{member, is_field, first_after, function_span, place_of};
ghost use Rattle.declared_types.specs.Prelude.{declaration_of, declarations_of};
ghost use Rattle.slicc_ast.specs.declared.tree.span.Span.{Span};
ghost use Rattle.slicc_names.specs.declared.count.Kind.{Kind};

use declaration_rules::earlier_at;
use declared_types::{Declared, declared, is_external};
use slicc_ast::tree::{Decl, Function, Member, Parameter, Span};
use slicc_plan::{Broken, Rule};

/// What counting through places finds.
#[derive(Clone, Copy)]
pub enum Found {
    /// The place of the number that was looked for.
    At(Span),
    /// There are fewer places. So many more are left, from 0, to the one that was looked for.
    Left(u32),
}

/// Counts one place more, if there is one.
pub fn count(found: Found, place: Option<Span>) -> Found
    ensures { result ≡ found_after found (listed_place place) }
{
    match place {
        None => found,
        Some(p) => match found {
            Found::At(_) => found,
            Found::Left(left) => {
                if left == 0 {
                    Found::At(p)
                } else {
                    Found::Left(left - 1)
                }
            }
        },
    }
}

/// Counts what is of a kind.
pub fn count_each<T: Counted>(found: Found, kind: Kind, parts: &[T]) -> Found
    ensures { result ≡ found_after found (flat_map (T.places kind) parts.now) }
{
    let mut found = found;
    for part in parts {
        found = count(found, part.place(kind));
    }
    found
}

/// The first broken rule after a limit is passed at the place that was found, if it was.
pub fn limit_at(first: Option<Broken>, found: Found) -> Option<Broken>
    ensures { result ≡ first_after first (told_found found) }
{
    match found {
        Found::Left(_) => first,
        Found::At(place) => earlier_at(first, Rule::LimitPassed, 0, place),
    }
}

fn field_place(m: &Member) -> Option<Span>
    ensures { listed_place result ≡ place_if is_field (member m.now) }
{
    match m {
        Member::Field { span, .. } => Some(*span),
        Member::Method { .. } | Member::Skipped(_) => None,
    }
}

/// Counts the fields among the members of a structure.
pub fn count_fields(found: Found, members: &[Member]) -> Found
    ensures { result ≡ found_after found (flat_map field_places members.now) }
{
    let mut found = found;
    for m in members {
        found = count(found, field_place(m));
    }
    found
}

/// Declarations that are counted together.
#[derive(Clone, Copy)]
pub enum Kind {
    Machine,
    /// Enumerations and state declarations.
    Enumeration,
    /// Structures that aren't external.
    Structure,
    Action,
    /// Functions and prototypes that are looked at.
    Function,
    Port,
    /// Parameters and objects.
    Object,
}

fn is_of_kind(kind: Kind, d: Declared<'_>) -> bool
    ensures { result ≡ is_of_kind kind (declaration_of d.entry) }
{
    match kind {
        Kind::Machine => matches!(d, Declared::Machine(_)),
        Kind::Enumeration => matches!(d, Declared::Enumeration(_) | Declared::States(_)),
        Kind::Structure => match d {
            Declared::Structure(s) => !is_external(s),
            _ => false,
        },
        Kind::Action => matches!(d, Declared::Action(_)),
        Kind::Function => match d {
            Declared::Function(f) => matches!(f, Function::Plain { .. }),
            _ => false,
        },
        Kind::Port => matches!(d, Declared::OutPort(_) | Declared::InPort(_)),
        Kind::Object => matches!(d, Declared::Parameter(_) | Declared::Object(_)),
    }
}

fn function_place(f: &Function) -> Span
    ensures { result ≡ function_span f.now }
{
    match f {
        Function::Plain { span, .. } => *span,
        Function::Skipped(s) => s.span,
    }
}

// The place of a declaration, which is all of it.
fn place_of(d: Declared<'_>) -> Span
    ensures { result ≡ place_of (declaration_of d.entry) }
{
    match d {
        Declared::Machine(m) => m.span,
        Declared::Enumeration(e) => e.span,
        Declared::Structure(s) => s.span,
        Declared::States(s) => s.span,
        Declared::Parameter(p) => p.span,
        Declared::Object(o) => o.span,
        Declared::OutPort(p) => p.span,
        Declared::InPort(p) => p.span,
        Declared::Action(a) => a.span,
        Declared::Function(f) => function_place(f),
    }
}

/// What declares one thing at most.
pub trait Counted {
    ghost places: { Kind → Self → List Span };

    /// The place of what is declared, if it is of this kind.
    fn place(&self, kind: Kind) -> Option<Span>
        ensures { listed_place result ≡ places kind self.now };
}

impl<'a> Counted for Declared<'a> {
    ghost places = { declared_places };

    fn place(&self, kind: Kind) -> Option<Span> {
        if is_of_kind(kind, *self) {
            Some(place_of(*self))
        } else {
            None
        }
    }
}

impl Counted for Decl {
    ghost places = { decl_places };

    fn place(&self, kind: Kind) -> Option<Span> {
        match declared(self) {
            None => None,
            Some(d) => d.place(kind),
        }
    }
}

impl Counted for Parameter {
    ghost places = { parameter_places };

    fn place(&self, kind: Kind) -> Option<Span> {
        let d = Declared::Parameter(self);
        d.place(kind)
    }
}

fn count_inside(found: Found, kind: Kind, d: Declared<'_>) -> Found
    ensures { result ≡ found_after found (flat_map (if_counted kind) (inside (declaration_of d.entry))) }
{
    match d {
        Declared::Machine(m) => {
            let found = count_each(found, kind, &m.parameters);
            count_each(found, kind, &m.declarations)
        }
        _ => found,
    }
}

/// Counts what is declared right in the protocol, and what in its machines, in the order of the text.
pub fn count_all(found: Found, kind: Kind, declarations: &[Declared<'_>]) -> Found
    ensures { result ≡ found_after found (flat_map (with_its_own_places kind) (declarations_of declarations.now)) }
{
    let mut found = found;
    for d in declarations {
        found = count_inside(count(found, d.place(kind)), kind, *d);
    }
    found
}
