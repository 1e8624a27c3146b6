//! The functions that read and write a line's state, and that which permits accesses to it.
ghost use Rattle.std.specs.Prelude.{◌≡◌, ◌≤◌, ◌++◌, IfOk, [], ◌∷◌, length};
ghost use Rattle.std.specs.Option.{option_copied, option_map};
ghost use Rattle.slicc_plan.specs.declared.built_in.BuiltInType.TheVariants.{Void};
ghost use Rattle.slicc_plan.specs.Buffers.{listed};
ghost use Rattle.slicc_plan.specs.Prelude.{entry_structure, function_found, function_named, tbe_structure, first_after, alone, line_where, own_state, state_functions_in, taken_to_permit, taken_to_read, taken_to_write, told_at, unlike, wrong_state_functions, machines_of};
ghost use Rattle.slicc_plan.specs.StateFunctions.{built_in_type};
ghost use Rattle.declared_types.specs.Prelude.{declaration_of};
ghost use Rattle.machine_rules.specs.MachinesIn.{IsMachineIn};
ghost use Rattle.machine_rules.specs.WantedTypes.{wanted_of, wanted_present};

use crate::rule::{MachineIn, MachineRule, first_in_machines};
use crate::wanted::{Wanted, are_wanted, is_wanted};
use declaration_rules::earlier_at;
use declared_types::{Declared, LineSort, Scopes, first_line};
use ruby_base::NoMemory;
use slicc_ast::tree::{Function, Structure};
use slicc_plan::{Broken, BuiltInType, Rule, Span};
use std::alloc::Global;

fn told_at(first: Option<Broken>, number: u16, place: Span) -> Option<Broken>
    ensures { result ≡ first_after first (told_at number place ∷ []) }
{
    earlier_at(first, Rule::StateFunctions, number, place)
}

// The function that is declared, where it is one that is looked at.
fn function_found<'a>(d: Option<Declared<'a>>) -> Option<&'a Function>
    ensures { option_copied result ≡ function_found (option_map declaration_of d.entry) }
{
    match d {
        Some(Declared::Function(f)) => match f {
            Function::Plain { .. } => Some(f),
            Function::Skipped(_) => None,
        },
        _ => None,
    }
}

/// The function that a machine declares by a name.
pub fn function_named<'a>(m: MachineIn<'_, 'a>, name: &[u8]) -> Option<&'a Function>
    requires { IsMachineIn m }
    ensures { option_copied result ≡ function_named m.entry.machine.now name.now }
{
    function_found(m.scopes.first_named(m.scope, name))
}

// A function without the other one.
fn alone(
    first: Option<Broken>,
    number: u16,
    function: Option<&Function>,
    other: Option<&Function>,
) -> Option<Broken>
    ensures { result ≡ first_after first (alone number (option_copied function.entry) (option_copied other.entry)) }
{
    match (function, other) {
        (Some(Function::Plain { span, .. }), None) => told_at(first, number, *span),
        _ => first,
    }
}

// A function that takes or answers something else.
fn unlike(
    first: Option<Broken>,
    m: MachineIn<'_, '_>,
    answered: Wanted<'_>,
    taken: &[Option<Wanted<'_>>],
    function: Option<&Function>,
) -> Option<Broken>
    requires { IsMachineIn m }
    ensures { result ≡ first_after first (unlike m.entry.scopes.now.trees.now m.entry.number m.entry.machine.now (wanted_of answered.entry) (wanted_present taken.now) (option_copied function.entry)) }
{
    match function {
        Some(
            Function::Plain {
                kind,
                formals,
                span,
                ..
            },
        ) => {
            if is_wanted(m, answered, m.scopes.type_in(m.scope, kind.text.as_slice()))
                && are_wanted(m, taken, &formals.items)
            {
                first
            } else {
                told_at(first, m.number, *span)
            }
        }
        _ => first,
    }
}

fn line(s: Option<&Structure>) -> Option<Wanted<'_>>
    ensures { listed (option_map wanted_of result) ≡ line_where (option_copied s.entry) }
{
    match s {
        None => None,
        Some(s) => Some(Wanted::Line(s)),
    }
}

fn unlike_reader<'x>(
    first: Option<Broken>,
    m: MachineIn<'_, '_>,
    tbe: Option<&'x Structure>,
    entry: Option<&'x Structure>,
    function: Option<&Function>,
) -> Option<Broken>
    requires machine { IsMachineIn m }
    requires tbe { option_copied tbe ≡ tbe_structure m.machine.now }
    requires entry { option_copied entry ≡ entry_structure m.machine.now }
    ensures { result ≡ first_after first (unlike m.entry.scopes.now.trees.now m.entry.number m.entry.machine.now own_state (taken_to_read m.entry.machine.now) (option_copied function.entry)) }
{
    let taken = [
        line(tbe),
        line(entry),
        Some(Wanted::BuiltIn(BuiltInType::Address)),
    ];
    unlike(first, m, Wanted::OwnState, &taken, function)
}

fn unlike_writer<'x>(
    first: Option<Broken>,
    m: MachineIn<'_, '_>,
    tbe: Option<&'x Structure>,
    entry: Option<&'x Structure>,
    function: Option<&Function>,
) -> Option<Broken>
    requires machine { IsMachineIn m }
    requires tbe { option_copied tbe ≡ tbe_structure m.machine.now }
    requires entry { option_copied entry ≡ entry_structure m.machine.now }
    ensures { result ≡ first_after first (unlike m.entry.scopes.now.trees.now m.entry.number m.entry.machine.now (built_in_type Void) (taken_to_write m.entry.machine.now) (option_copied function.entry)) }
{
    let taken = [
        line(tbe),
        line(entry),
        Some(Wanted::BuiltIn(BuiltInType::Address)),
        Some(Wanted::OwnState),
    ];
    unlike(
        first,
        m,
        Wanted::BuiltIn(BuiltInType::Void),
        &taken,
        function,
    )
}

fn unlike_permitter(
    first: Option<Broken>,
    m: MachineIn<'_, '_>,
    entry: Option<&Structure>,
    function: Option<&Function>,
) -> Option<Broken>
    requires machine { IsMachineIn m }
    requires entry { option_copied entry ≡ entry_structure m.machine.now }
    ensures { result ≡ first_after first (unlike m.entry.scopes.now.trees.now m.entry.number m.entry.machine.now (built_in_type Void) (taken_to_permit m.entry.machine.now) (option_copied function.entry)) }
{
    let taken = [
        line(entry),
        Some(Wanted::BuiltIn(BuiltInType::Address)),
        Some(Wanted::OwnState),
    ];
    unlike(
        first,
        m,
        Wanted::BuiltIn(BuiltInType::Void),
        &taken,
        function,
    )
}

fn judge_functions(first: Option<Broken>, m: MachineIn<'_, '_>) -> Option<Broken>
    requires { IsMachineIn m }
    ensures { result ≡ first_after first (state_functions_in m.entry.scopes.now.trees.now m.entry.number m.entry.machine.now) }
{
    let reader = function_named(m, b"getState");
    let writer = function_named(m, b"setState");
    let permitter = function_named(m, b"setAccessPermission");
    let tbe = tbe_structure(m);
    let entry = entry_structure(m);
    let lone_reader = alone(first, m.number, reader, writer);
    let lone_writer = alone(lone_reader, m.number, writer, reader);
    let wrong_reader = unlike_reader(lone_writer, m, tbe, entry, reader);
    let wrong_writer = unlike_writer(wrong_reader, m, tbe, entry, writer);
    unlike_permitter(wrong_writer, m, entry, permitter)
}

struct StateFunctions;

impl MachineRule for StateFunctions {
    ghost found_in = { state_functions_in };

    fn judge(
        _alloc: Global,
        first: Option<Broken>,
        m: MachineIn<'_, '_>,
    ) -> Result<Option<Broken>, NoMemory> {
        Ok(judge_functions(first, m))
    }
}

/// The first broken rule, after the functions of states of all machines.
pub fn state_functions(
    alloc: Global,
    first: Option<Broken>,
    scopes: &Scopes<'_>,
) -> Result<Option<Broken>, NoMemory>
    requires { length (machines_of scopes.now.trees.now) ≤ 16 }
    ensures { IfOk result (λ found. found ≡ first_after first (wrong_state_functions scopes.now.trees.now)) }
{
    first_in_machines::<StateFunctions>(alloc, first, scopes)
}

/// The structure of the lines of a machine's caches.
pub fn entry_structure<'a>(m: MachineIn<'_, 'a>) -> Option<&'a Structure>
    requires { IsMachineIn m }
    ensures { option_copied result ≡ entry_structure m.entry.machine.now }
{
    first_line(LineSort::Entry, m.scopes.declarations(m.scope))
}

/// The structure of the lines of a machine's TBE tables.
pub fn tbe_structure<'a>(m: MachineIn<'_, 'a>) -> Option<&'a Structure>
    requires { IsMachineIn m }
    ensures { option_copied result ≡ tbe_structure m.entry.machine.now }
{
    first_line(LineSort::Tbe, m.scopes.declarations(m.scope))
}
