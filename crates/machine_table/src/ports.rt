//! The buffers of a machine, and the ports of all machines.
ghost use Rattle.std.specs.Prelude.{◌≡◌, ◌≤◌, ◌++◌, IfOk, OnOk, flat_map, length, map};
ghost use Rattle.std.specs.Option.{option_map};
ghost use Rattle.slicc_plan.specs.Buffers.{listed, port_in};
ghost use Rattle.slicc_plan.specs.Prelude.{buffer_named, is_destination, port_on, ports_of, within, all_ports, all_ports_from, type_in, buffer_in, buffer_of, is_mandatory, place_by, virtual_network, is_built_in, machines_of};
ghost use Rattle.declared_types.specs.Prelude.{declaration_of, declarations_of, scope_of, type_of};
ghost use Rattle.machine_table.specs.Ports.{buffer_seen, port_seen, place_seen};
ghost use Rattle.slicc_plan.specs.declared.built_in.BuiltInType.TheVariants.{Buffer};

use crate::parts::machines;
use declaration_rules::{is_built_in, number_value};
use declared_types::{
    Declared, KnownType, Scope, Scopes, first_attribute, first_named, has_attribute, machine_list,
    type_in,
};
use ruby_base::{NoMemory, Seq};
use slicc_ast::tree::{Machine, Member, Name, Pairs, TypeName};
use slicc_plan::{BuiltInType, Span};
use std::alloc::Global;

/// Where a buffer's messages come from or go to.
#[derive(Clone, Copy)]
pub enum Place {
    /// They stay in the machine.
    Own,
    ToNetwork(u64),
    FromNetwork(u64),
}

/// A buffer that a machine declares.
#[derive(Clone, Copy)]
pub struct BufferIn<'a> {
    pub name: &'a Name,
    pub place: Place,
    /// The whole declaration.
    pub span: Span,
}

fn virtual_network(pairs: &Pairs) -> u64
    ensures { result ≡ virtual_network pairs.now }
{
    match first_attribute(pairs, b"virtual_network") {
        None => 0,
        Some(a) => match number_value(a.value) {
            None => 0,
            Some(n) => n,
        },
    }
}

fn place_by(pairs: &Pairs) -> Place
    ensures { place_seen result ≡ place_by pairs.now }
{
    if has_attribute(pairs, b"network", b"To") {
        return Place::ToNetwork(virtual_network(pairs));
    }
    if has_attribute(pairs, b"network", b"From") {
        return Place::FromNetwork(virtual_network(pairs));
    }
    Place::Own
}

fn buffer_of<'a>(
    scopes: &Scopes<'a>,
    m: &'a Machine,
    kind: &TypeName,
    name: &'a Name,
    pairs: &Pairs,
    span: Span,
) -> Option<BufferIn<'a>>
    ensures { option_map buffer_seen result ≡ buffer_of (is_built_in Buffer (type_in scopes.now.trees.now (within m.now) kind.now.text)) name.entry.now pairs.now span }
{
    let t = type_in(scopes, Scope::Within(m), &kind.text);
    if !is_built_in(BuiltInType::Buffer, t) {
        return None;
    }
    Some(BufferIn {
        name,
        place: place_by(pairs),
        span,
    })
}

/// The buffer that a declaration of a machine declares, where it declares one.
pub fn buffer_in<'a>(scopes: &Scopes<'a>, m: &'a Machine, d: Declared<'a>) -> Option<BufferIn<'a>>
    ensures { option_map buffer_seen result ≡ buffer_in scopes.now.trees.now m.now (declaration_of d.entry) }
{
    match d {
        Declared::Parameter(p) => buffer_of(scopes, m, &p.kind, &p.name, &p.pairs, p.span),
        Declared::Object(o) => buffer_of(scopes, m, &o.kind, &o.name, &o.pairs, o.span),
        _ => None,
    }
}

/// Whether a buffer is the one that a sequencer puts requests into.
pub fn is_mandatory(b: BufferIn<'_>) -> bool
    ensures { result ≡ is_mandatory (buffer_seen b.entry) }
{
    b.name.text.as_slice() == b"mandatoryQueue".as_slice()
}

/// A port, with the number of its machine, the buffer that it is on and the type of its messages.
#[derive(Clone, Copy)]
pub struct PortOn<'a> {
    pub machine: u16,
    pub is_in: bool,
    pub buffer: BufferIn<'a>,
    pub message: KnownType<'a>,
    /// The whole declaration.
    pub span: Span,
}

fn buffer_named<'a>(scopes: &Scopes<'a>, m: &'a Machine, name: &Name) -> Option<BufferIn<'a>>
    ensures { option_map buffer_seen result ≡ buffer_named scopes.now.trees.now m.now name.now }
{
    match first_named(m, &name.text) {
        None => None,
        Some(d) => buffer_in(scopes, m, d),
    }
}

fn port_on<'a>(
    number: u16,
    is_in: bool,
    span: Span,
    buffer: Option<BufferIn<'a>>,
    message: Option<KnownType<'a>>,
) -> Option<PortOn<'a>>
    ensures { listed (option_map port_seen result) ≡ port_on number is_in span (option_map buffer_seen buffer.entry) (option_map type_of message.entry) }
{
    let Some(buffer) = buffer else {
        return None;
    };
    match message {
        None => None,
        Some(message) => Some(PortOn {
            machine: number,
            is_in,
            buffer,
            message,
            span,
        }),
    }
}

// What the name of the type of a port's messages stands for.
fn message_type<'a>(scopes: &Scopes<'a>, m: &'a Machine, name: &TypeName) -> Option<KnownType<'a>>
    ensures { option_map type_of result ≡ type_in scopes.now.trees.now (within m.now) name.now.text }
{
    type_in(scopes, Scope::Within(m), &name.text)
}

/// The port that a declaration of the machine of this number declares, where it declares one on a buffer.
pub fn port_in<'a>(
    scopes: &Scopes<'a>,
    number: u16,
    m: &'a Machine,
    d: Declared<'a>,
) -> Option<PortOn<'a>>
    ensures { listed (option_map port_seen result) ≡ port_in scopes.now.trees.now number m.now (declaration_of d.entry) }
{
    match d {
        Declared::InPort(p) => port_on(
            number,
            true,
            p.span,
            buffer_named(scopes, m, &p.buffer),
            message_type(scopes, m, &p.message),
        ),
        Declared::OutPort(p) => port_on(
            number,
            false,
            p.span,
            buffer_named(scopes, m, &p.buffer),
            message_type(scopes, m, &p.message),
        ),
        _ => None,
    }
}

fn add_port<'a>(
    list: &mut Seq<PortOn<'a>>,
    scopes: &Scopes<'a>,
    number: u16,
    m: &'a Machine,
    d: Declared<'a>,
) -> Result<(), NoMemory>
    ensures { OnOk result (map port_seen list.new ≡ map port_seen list.old ++ port_in scopes.now.trees.now number m.now (declaration_of d.entry)) }
{
    match port_in(scopes, number, m, d) {
        None => Ok(()),
        Some(p) => list.push(p),
    }
}

fn add_ports<'a>(
    list: &mut Seq<PortOn<'a>>,
    scopes: &Scopes<'a>,
    number: u16,
    m: &'a Machine,
    declarations: &[Declared<'a>],
) -> Result<(), NoMemory>
    ensures { OnOk result (map port_seen list.new ≡ map port_seen list.old ++ flat_map (port_in scopes.now.trees.now number m.now) (declarations_of declarations.now)) }
{
    for d in declarations {
        add_port(list, scopes, number, m, *d)?;
    }
    Ok(())
}

fn add_ports_of<'a>(
    alloc: Global,
    list: &mut Seq<PortOn<'a>>,
    scopes: &Scopes<'a>,
    number: u16,
    m: &'a Machine,
) -> Result<(), NoMemory>
    ensures { OnOk result (map port_seen list.new ≡ map port_seen list.old ++ ports_of scopes.now.trees.now number m.now) }
{
    let declarations = machine_list(alloc, m)?;
    add_ports(list, scopes, number, m, &declarations)
}

fn ports_among<'a>(
    alloc: Global,
    scopes: &Scopes<'a>,
    machines: &[&'a Machine],
) -> Result<Seq<PortOn<'a>>, NoMemory>
    requires { length machines.now ≤ 16 }
    ensures { IfOk result (λ list. map port_seen list ≡ all_ports_from scopes.now.trees.now 0 (map (λ m. m.now) machines.now)) }
{
    let mut list = Seq::new(alloc);
    for (number, m) in machines.iter().enumerate() {
        add_ports_of(alloc, &mut list, scopes, number as u16, m)?;
    }
    Ok(list)
}

/// The ports of all machines, in the order of reading and of the text.
pub fn all_ports<'a>(alloc: Global, scopes: &Scopes<'a>) -> Result<Seq<PortOn<'a>>, NoMemory>
    requires { length (machines_of scopes.now.trees.now) ≤ 16 }
    ensures { IfOk result (λ list. map port_seen list ≡ all_ports scopes.now.trees.now) }
{
    let machines = machines(alloc, scopes.trees)?;
    ports_among(alloc, scopes, &machines)
}

/// Whether a member of a structure that is declared in a scope is the field that names the receivers of a message.
pub fn is_destination<'a>(scopes: &Scopes<'a>, scope: Scope<'a>, member: &Member) -> bool
    ensures { result ≡ is_destination scopes.now.trees.now (scope_of scope.entry) member.now }
{
    match member {
        Member::Field { kind, name, .. } => {
            name.text.as_slice() == b"Destination".as_slice()
                && is_built_in(BuiltInType::NetDest, type_in(scopes, scope, &kind.text))
        }
        Member::Method { .. } | Member::Skipped(_) => false,
    }
}
