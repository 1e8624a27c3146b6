//! A machine with its scope and the structures of its lines, and the environments of its bodies.
ghost use Rattle.std.specs.Prelude.{◌≡◌, List, [], map, reverse};
ghost use Rattle.slicc_plan.specs.Prelude.{environment, type_in, within};
ghost use Rattle.declared_types.specs.Prelude.{scope_at};
ghost use Rattle.body_types.specs.declared.environment.Bound.{Bound};
ghost use Rattle.body_types.specs.Prelude.{IsEnvironment, bound_of, sort_of, type_if, AreLines, meaning_of};
ghost use Rattle.statement_rules.specs.Prelude.{at};
ghost use Rattle.body_rules.specs.MachinesIn.{IsMachineIn};

use body_types::{BodySort, Environment, Lines, Meaning};
use declared_types::{KnownType, LineSort, Scopes, first_line};
use slicc_ast::tree::{Machine, TypeName};

/// A machine of a protocol.
#[derive(Clone, Copy)]
pub struct MachineIn<'b, 'a> {
    pub scopes: &'b Scopes<'a>,
    /// The number of its scope.
    pub scope: usize,
    /// It, with the structures of its tables' lines.
    pub lines: Lines<'a>,
}

// The structures of the lines of the machine whose scope has this number.
fn lines_of<'a>(scopes: &Scopes<'a>, number: usize, machine: &'a Machine) -> Lines<'a>
    requires { scope_at scopes.now.trees.now number ≡ within machine.now }
    ensures lines { AreLines result }
    ensures same { result.machine.now ≡ machine.now }
{
    let declarations = scopes.declarations(number);
    Lines {
        machine,
        entry: first_line(LineSort::Entry, declarations),
        directory: first_line(LineSort::Directory, declarations),
        tbe: first_line(LineSort::Tbe, declarations),
    }
}

/// The machine whose scope has this number. Its declarations are gone through once for each sort of lines.
pub fn machine_in<'b, 'a>(
    scopes: &'b Scopes<'a>,
    number: usize,
    machine: &'a Machine,
) -> MachineIn<'b, 'a>
    requires { scope_at scopes.now.trees.now number ≡ within machine.now }
    ensures sound { IsMachineIn result }
    ensures trees { result.scopes.now.trees.now ≡ scopes.now.trees.now }
    ensures scope { result.scope ≡ number }
    ensures same { result.lines.machine.now ≡ machine.now }
{
    let lines = lines_of(scopes, number, machine);
    MachineIn {
        scopes,
        scope: number,
        lines,
    }
}

/// The environment of a body of the machine that has no names of its own yet.
pub fn bare_environment<'b, 'a>(
    m: MachineIn<'b, 'a>,
    sort: BodySort,
    answer: Meaning<'a>,
) -> Environment<'b, 'a>
    requires { IsMachineIn m }
    ensures sound { IsEnvironment result }
    ensures none { result.bound.now ≡ [] }
    ensures is { (names : List Bound) → at result names
        ≡ environment m.entry.scopes.now.trees.now m.entry.lines.machine.now (sort_of sort) (meaning_of answer.entry) (reverse (map bound_of names)) }
{
    Environment {
        scopes: m.scopes,
        scope: m.scope,
        lines: m.lines,
        sort,
        answer,
        bound: &[],
    }
}

/// What the name of a type stands for in the machine, where it stands for one.
pub fn type_of_name<'a>(m: MachineIn<'_, 'a>, kind: &TypeName) -> Option<KnownType<'a>>
    requires { IsMachineIn m }
    ensures { type_if result ≡ type_in m.entry.scopes.now.trees.now (within m.entry.lines.machine.now) kind.now.text }
{
    m.scopes.type_in(m.scope, kind.text.as_slice())
}
