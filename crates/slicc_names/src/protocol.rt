//! The limits of a machine and of a protocol.
ghost use Rattle.std.specs.Prelude.{◌≡◌, filter, flat_map};
ghost use Rattle.declared_types.specs.Prelude.{declaration_of, declarations_of, scope_at};
ghost use Rattle.slicc_names.specs.Prelude.{is_sequencer_in, kind_limits, limits_of, listed_place, place_if};
ghost use Rattle.slicc_plan.specs.declared.built_in.BuiltInType.TheVariants.{Sequencer};
ghost use Rattle.slicc_plan.specs.Prelude.{declared_in, wide_scopes, beyond, beyond_in_scope, limits_passed, machine_limits, most_sequencers, first_after, is_built_in, type_in};

use crate::count::{Found, Kind, count, count_all, limit_at};
use crate::limits::{Wanted, in_bodies, in_declarations, kind_limit, wanted_limit};
use declaration_rules::is_built_in;
use declared_types::{Declared, Scope, Scopes};
use slicc_ast::tree::Span;
use slicc_plan::{Broken, BuiltInType};

const MACHINES: u32 = 16;

const OF_EACH: u32 = 256;

const PORTS: u32 = 32;

const OBJECTS: u32 = 64;

const SEQUENCERS: u32 = 1;

// The four that are built in count too.
const ENUMERATIONS: u32 = 16384 - 4;

const STRUCTURES: u32 = 16384;

fn names_sequencer(scopes: &Scopes<'_>, number: usize, text: &[u8]) -> bool
    ensures { result ≡ is_built_in Sequencer (type_in scopes.now.trees.now (scope_at scopes.now.trees.now number) text.now) }
{
    is_built_in(BuiltInType::Sequencer, scopes.type_in(number, text))
}

fn sequencer_place(scopes: &Scopes<'_>, number: usize, d: Declared<'_>) -> Option<Span>
    ensures { listed_place result ≡ place_if (is_sequencer_in scopes.now.trees.now (scope_at scopes.now.trees.now number)) (declaration_of d.entry) }
{
    match d {
        Declared::Parameter(p) => {
            if names_sequencer(scopes, number, p.kind.text.as_slice()) {
                Some(p.span)
            } else {
                None
            }
        }
        Declared::Object(o) => {
            if names_sequencer(scopes, number, o.kind.text.as_slice()) {
                Some(o.span)
            } else {
                None
            }
        }
        _ => None,
    }
}

fn sequencer_limit(first: Option<Broken>, scopes: &Scopes<'_>, number: usize) -> Option<Broken>
    ensures { result ≡ first_after first (beyond most_sequencers (filter (is_sequencer_in scopes.now.trees.now (scope_at scopes.now.trees.now number)) (declared_in scopes.now.trees.now (scope_at scopes.now.trees.now number)))) }
{
    let declarations = scopes.declarations(number);
    let mut found = Found::Left(SEQUENCERS);
    for d in declarations {
        found = count(found, sequencer_place(scopes, number, *d));
    }
    limit_at(first, found)
}

fn of_kinds(first: Option<Broken>, declarations: &[Declared<'_>]) -> Option<Broken>
    ensures { result ≡ first_after first (kind_limits (declarations_of declarations.now)) }
{
    let states = wanted_limit(first, Wanted::States, declarations);
    let events = wanted_limit(states, Wanted::Events, declarations);
    let actions = kind_limit(events, Kind::Action, declarations, OF_EACH);
    let functions = kind_limit(actions, Kind::Function, declarations, OF_EACH);
    let ports = kind_limit(functions, Kind::Port, declarations, PORTS);
    kind_limit(ports, Kind::Object, declarations, OBJECTS)
}

fn of_machine(first: Option<Broken>, scopes: &Scopes<'_>, number: usize) -> Option<Broken>
    ensures { result ≡ first_after first (limits_of scopes.now.trees.now (scope_at scopes.now.trees.now number) (declared_in scopes.now.trees.now (scope_at scopes.now.trees.now number))) }
{
    let declarations = scopes.declarations(number);
    let kinds = of_kinds(first, declarations);
    let sequencers = sequencer_limit(kinds, scopes, number);
    in_bodies(sequencers, declarations)
}

fn in_machine(first: Option<Broken>, scopes: &Scopes<'_>, number: usize) -> Option<Broken>
    ensures { result ≡ first_after first (machine_limits scopes.now.trees.now (scope_at scopes.now.trees.now number)) }
{
    match scopes.scope(number) {
        Scope::Everywhere => first,
        Scope::Within(_) => of_machine(first, scopes, number),
    }
}

fn in_scope(first: Option<Broken>, scopes: &Scopes<'_>, number: usize) -> Option<Broken>
    ensures { result ≡ first_after first (beyond_in_scope scopes.now.trees.now (scope_at scopes.now.trees.now number)) }
{
    let declarations = scopes.declarations(number);
    let declared = in_declarations(first, declarations);
    in_machine(declared, scopes, number)
}

fn in_scopes(first: Option<Broken>, scopes: &Scopes<'_>) -> Option<Broken>
    ensures { result ≡ first_after first (flat_map (beyond_in_scope scopes.now.trees.now) (wide_scopes scopes.now.trees.now)) }
{
    let mut first = first;
    for number in 0..scopes.len() {
        first = in_scope(first, scopes, number);
    }
    first
}

/// The first broken rule after it was looked for what passes a limit.
pub fn limits_passed(first: Option<Broken>, scopes: &Scopes<'_>) -> Option<Broken>
    ensures { result ≡ first_after first (limits_passed scopes.now.trees.now) }
{
    let globals = scopes.declarations(0);
    let machines = kind_limit(first, Kind::Machine, globals, MACHINES);
    let enumeration = count_all(Found::Left(ENUMERATIONS), Kind::Enumeration, globals);
    let enumerations = limit_at(machines, enumeration);
    let structure = count_all(Found::Left(STRUCTURES), Kind::Structure, globals);
    let structures = limit_at(enumerations, structure);
    in_scopes(structures, scopes)
}
