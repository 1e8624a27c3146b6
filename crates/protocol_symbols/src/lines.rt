//! The structures of a machine's lines, and references to lines.
ghost use Rattle.std.specs.Prelude.{◌≡◌, option_and_then};
ghost use Rattle.std.specs.Option.{option_copied, option_map};
ghost use Rattle.slicc_plan.specs.Prelude.{machine_declarations, within, line_kind, line_number, is_its, reference_kind, value_kind, structured};
ghost use Rattle.declared_types.specs.Prelude.{declarations_of, scope_of, type_of};
ghost use Rattle.protocol_symbols.specs.Prelude.{line_of};
ghost use Rattle.type_numbers.specs.Prelude.{AreNumbered, trees_of};

use body_types::same_type;
use declared_types::{Declared, KnownType, LineSort, Scope, first_line};
use ruby_value::Kind;
use slicc_ast::tree::{Machine, Structure};
use type_numbers::{TypeNumbers, plain_kind, structure_number};

/// The structure of a machine's lines of this sort, where this is what the machine declares.
pub fn line_structure<'a>(
    m: &Machine,
    declarations: &[Declared<'a>],
    sort: LineSort,
) -> Option<&'a Structure>
    requires { declarations_of declarations.now ≡ machine_declarations m.now }
    ensures { option_copied result ≡ line_of m.now sort }
{
    first_line(sort, declarations)
}

/// The number of the structure of a machine's lines, where it has such lines.
pub fn line_number<'a>(
    types: &TypeNumbers<'a>,
    m: &'a Machine,
    s: Option<&'a Structure>,
) -> Option<u16>
    requires { AreNumbered types.now }
    ensures { result ≡ line_number (trees_of types.now) m.now (option_copied s.entry) }
{
    match s {
        None => None,
        Some(s) => structure_number(types, Scope::Within(m), s),
    }
}

fn is_its(m: &Machine, scope: Scope<'_>, s: &Structure, own: Option<&Structure>) -> bool
    ensures { result ≡ is_its m.now (scope_of scope.entry) s.now (option_copied own.entry) }
{
    match own {
        None => false,
        Some(own) => same_type(
            KnownType::Structure(scope, s),
            KnownType::Structure(Scope::Within(m), own),
        ),
    }
}

fn reference_kind<'a>(
    m: &Machine,
    declarations: &[Declared<'a>],
    scope: Scope<'_>,
    s: &Structure,
    number: u16,
) -> Option<Kind>
    requires { declarations_of declarations.now ≡ machine_declarations m.now }
    ensures { result ≡ reference_kind m.now (scope_of scope.entry) s.now number }
{
    if is_its(m, scope, s, line_structure(m, declarations, LineSort::Tbe)) {
        return Some(Kind::Tbe(number));
    }
    if is_its(
        m,
        scope,
        s,
        line_structure(m, declarations, LineSort::Entry),
    ) || is_its(
        m,
        scope,
        s,
        line_structure(m, declarations, LineSort::Directory),
    ) {
        return Some(Kind::Entry(number));
    }
    None
}

fn structure_kind<'a>(
    types: &TypeNumbers<'a>,
    m: &Machine,
    declarations: &[Declared<'a>],
    scope: Scope<'a>,
    s: &'a Structure,
) -> Option<Kind>
    requires types { AreNumbered types.now }
    requires declarations { declarations_of declarations.now ≡ machine_declarations m.now }
    ensures { result ≡ value_kind (trees_of types.now) m.now (structured (scope_of scope.entry) s.now) }
{
    match structure_number(types, scope, s) {
        None => None,
        Some(number) => reference_kind(m, declarations, scope, s, number),
    }
}

/// The kind of the references of a type, where it is that of lines of a machine that declares this.
pub fn line_kind<'a>(
    types: &TypeNumbers<'a>,
    m: &Machine,
    declarations: &[Declared<'a>],
    t: Option<KnownType<'a>>,
) -> Option<Kind>
    requires types { AreNumbered types.now }
    requires declarations { declarations_of declarations.now ≡ machine_declarations m.now }
    ensures { result ≡ option_and_then (line_kind (trees_of types.now) m.now) (option_map type_of t.entry) }
{
    match t {
        Some(KnownType::Structure(scope, s)) => structure_kind(types, m, declarations, scope, s),
        _ => None,
    }
}

fn known_kind<'a>(
    types: &TypeNumbers<'a>,
    m: &Machine,
    declarations: &[Declared<'a>],
    t: KnownType<'a>,
) -> Option<Kind>
    requires types { AreNumbered types.now }
    requires declarations { declarations_of declarations.now ≡ machine_declarations m.now }
    ensures { result ≡ value_kind (trees_of types.now) m.now (type_of t.entry) }
{
    match t {
        KnownType::Structure(scope, s) => structure_kind(types, m, declarations, scope, s),
        KnownType::BuiltIn(_) | KnownType::Enumeration(..) | KnownType::States(..) => {
            plain_kind(types, t)
        }
    }
}

/// The kind of the values of a type in a machine that declares this, where it has values there.
pub fn value_kind<'a>(
    types: &TypeNumbers<'a>,
    m: &Machine,
    declarations: &[Declared<'a>],
    t: Option<KnownType<'a>>,
) -> Option<Kind>
    requires types { AreNumbered types.now }
    requires declarations { declarations_of declarations.now ≡ machine_declarations m.now }
    ensures { result ≡ option_and_then (value_kind (trees_of types.now) m.now) (option_map type_of t.entry) }
{
    match t {
        None => None,
        Some(t) => known_kind(types, m, declarations, t),
    }
}
