//! What a port alone may break.
ghost use Rattle.std.specs.Prelude.{◌≡◌, [], ◌∷◌, cond, flat_map};
ghost use Rattle.std.specs.List.{list_any};
ghost use Rattle.slicc_plan.specs.Buffers as plan;
ghost use Rattle.slicc_plan.specs.declared.built_in.BuiltInType.TheVariants.{Sequencer};
ghost use Rattle.slicc_plan.specs.Prelude.{within, is_sequencer, has_destination, has_sequencer as has_sequencer_of, is_destination, is_no_request, is_sent, is_sent_nowhere, is_wrong_way, networks_broken, wrong_ports_in, first_after, is_built_in, type_in};
ghost use Rattle.declared_types.specs.Prelude.{declaration_of, declarations_of, scope_of, type_of};
ghost use Rattle.machine_table.specs.Prelude.{place_seen, port_seen};
ghost use Rattle.machine_rules.specs.MachinesIn.{IsMachineIn};
ghost use Rattle.machine_rules.specs.Ports.{wrong_port};

use crate::rule::{MachineIn, MachineRule};
use declaration_rules::{earlier_at, is_built_in};
use declared_types::{Declared, KnownType, Scope, Scopes};
use machine_table::{Place, PortOn, is_destination, is_mandatory, port_in};
use ruby_base::NoMemory;
use slicc_ast::tree::{Member, TypeName};
use slicc_plan::{Broken, BuiltInType, Rule, Span};
use std::alloc::Global;

/// The first broken rule, where something of the machine of this number breaks that of networks or doesn't.
pub fn told_if(first: Option<Broken>, is_broken: bool, number: u16, place: Span) -> Option<Broken>
    ensures { result ≡ first_after first (cond is_broken (networks_broken number place ∷ []) []) }
{
    if !is_broken {
        return first;
    }
    earlier_at(first, Rule::Networks, number, place)
}

fn is_sequencer_type(m: MachineIn<'_, '_>, kind: &TypeName) -> bool
    requires { IsMachineIn m }
    ensures { result ≡ is_built_in Sequencer (type_in m.entry.scopes.now.trees.now (within m.entry.machine.now) kind.now.text) }
{
    is_built_in(
        BuiltInType::Sequencer,
        m.scopes.type_in(m.scope, kind.text.as_slice()),
    )
}

fn is_sequencer(m: MachineIn<'_, '_>, d: Declared<'_>) -> bool
    requires { IsMachineIn m }
    ensures { result ≡ is_sequencer m.entry.scopes.now.trees.now m.entry.machine.now (declaration_of d.entry) }
{
    match d {
        Declared::Parameter(p) => is_sequencer_type(m, &p.kind),
        Declared::Object(o) => is_sequencer_type(m, &o.kind),
        _ => false,
    }
}

fn any_sequencer(m: MachineIn<'_, '_>, declarations: &[Declared<'_>]) -> bool
    requires { IsMachineIn m }
    ensures { result ≡ list_any (is_sequencer m.entry.scopes.now.trees.now m.entry.machine.now) (declarations_of declarations.now) }
{
    for d in declarations {
        if is_sequencer(m, *d) {
            return true;
        }
    }
    false
}

fn is_wrong_way(p: &PortOn<'_>) -> bool
    ensures { result ≡ is_wrong_way (port_seen p.now) }
{
    match p.buffer.place {
        Place::Own => false,
        Place::ToNetwork(_) => p.is_in,
        Place::FromNetwork(_) => !p.is_in,
    }
}

fn any_destination<'a>(scopes: &Scopes<'a>, scope: Scope<'a>, members: &[Member]) -> bool
    ensures { result ≡ list_any (is_destination scopes.now.trees.now (scope_of scope.entry)) members.now }
{
    for member in members {
        if is_destination(scopes, scope, member) {
            return true;
        }
    }
    false
}

fn has_destination<'a>(scopes: &Scopes<'a>, t: KnownType<'a>) -> bool
    ensures { result ≡ has_destination scopes.now.trees.now (type_of t.entry) }
{
    match t {
        KnownType::Structure(scope, s) => any_destination(scopes, scope, &s.members),
        _ => false,
    }
}

fn is_sent(p: &PortOn<'_>) -> bool
    ensures { result ≡ is_sent p.now.is_in (place_seen p.now.buffer.place) }
{
    match p.buffer.place {
        Place::ToNetwork(_) => !p.is_in,
        Place::Own | Place::FromNetwork(_) => false,
    }
}

fn is_sent_nowhere<'a>(scopes: &Scopes<'a>, p: &PortOn<'a>) -> bool
    ensures { result ≡ is_sent_nowhere scopes.now.trees.now (port_seen p.now) }
{
    is_sent(p) && !has_destination(scopes, p.message)
}

fn is_no_request(m: MachineIn<'_, '_>, has_sequencer: bool, p: &PortOn<'_>) -> bool
    requires { has_sequencer ≡ has_sequencer_of m.scopes.now.trees.now m.machine.now }
    ensures { result ≡ is_no_request m.entry.scopes.now.trees.now m.entry.machine.now (port_seen p.now) }
{
    has_sequencer && is_mandatory(p.buffer) && !is_built_in(BuiltInType::Request, Some(p.message))
}

fn judge_declaration<'a>(
    first: Option<Broken>,
    m: MachineIn<'_, 'a>,
    has_sequencer: bool,
    d: Declared<'a>,
) -> Option<Broken>
    requires { has_sequencer ≡ has_sequencer_of m.scopes.now.trees.now m.machine.now }
    ensures { result ≡ first_after first (flat_map (wrong_port m.entry.scopes.now.trees.now m.entry.machine.now) (plan.port_in m.entry.scopes.now.trees.now m.entry.number m.entry.machine.now (declaration_of d.entry))) }
{
    match port_in(m.scopes, m.number, m.machine, d) {
        None => first,
        Some(p) => told_if(
            first,
            is_wrong_way(&p)
                || is_sent_nowhere(m.scopes, &p)
                || is_no_request(m, has_sequencer, &p),
            p.machine,
            p.span,
        ),
    }
}

fn judge_declarations<'a>(
    first: Option<Broken>,
    m: MachineIn<'_, 'a>,
    has_sequencer: bool,
    declarations: &[Declared<'a>],
) -> Option<Broken>
    requires { has_sequencer ≡ has_sequencer_of m.scopes.now.trees.now m.machine.now }
    ensures { result ≡ first_after first (flat_map (wrong_port m.entry.scopes.now.trees.now m.entry.machine.now) (flat_map (plan.port_in m.entry.scopes.now.trees.now m.entry.number m.entry.machine.now) (declarations_of declarations.now))) }
{
    let mut found = first;
    for d in declarations {
        found = judge_declaration(found, m, has_sequencer, *d);
    }
    found
}

/// Ports go the right way, what is sent has receivers, and a sequencer's queue has requests.
pub struct WrongPorts;

impl MachineRule for WrongPorts {
    ghost found_in = { wrong_ports_in };

    fn judge(
        _alloc: Global,
        first: Option<Broken>,
        m: MachineIn<'_, '_>,
    ) -> Result<Option<Broken>, NoMemory> {
        let declarations = m.scopes.declarations(m.scope);
        let has_sequencer = any_sequencer(m, declarations);
        Ok(judge_declarations(first, m, has_sequencer, declarations))
    }
}
