//! What the declarations of buffers say: their order, where their messages come from or go to, and the types and receivers of these.
ghost use Rattle.std.specs.Prelude.{◌≡◌, IfSome, codes, Some, filter, position, find, map};
ghost use Rattle.std.specs.Option.{option_copied, option_map};
ghost use Rattle.slicc_plan.specs.Prelude.{attributes_of, buffer_place, is_ordered, member, is_field, receivers_field, is_destination, is_on, is_on_network, port_message};
ghost use Rattle.declared_types.specs.Prelude.{declaration_of, type_of, scope_of};
ghost use Rattle.machine_table.specs.Prelude.{place_seen, buffer_seen, port_seen};
ghost use Rattle.type_numbers.specs.Prelude.{IsOnNetwork, IsOfFewFields, trees_of, network_type_among, own_type_among, type_among};
ghost use Rattle.slicc_ast.specs.declared.tree.declaration.Member.{Member};

use crate::numbering::TypeNumbers;
use crate::numbers::kept;
use declared_types::{Declared, KnownType, Scope, Scopes, has_attribute};
use machine_table::{BufferIn, Place, PortOn, is_destination, is_mandatory};
use ruby_value::BufferPlace;
use slicc_ast::tree::{Member, Pairs};
use slicc_plan::BuiltInType;

fn attributes_of<'a>(d: Declared<'a>) -> Option<&'a Pairs>
    ensures { option_copied result ≡ attributes_of (declaration_of d.entry) }
{
    match d {
        Declared::Parameter(p) => Some(&p.pairs),
        Declared::Object(o) => Some(&o.pairs),
        _ => None,
    }
}

/// Whether a buffer's declaration calls it ordered.
pub fn is_ordered(d: Declared<'_>) -> bool
    ensures { result ≡ is_ordered (attributes_of (declaration_of d.entry)) }
{
    match attributes_of(d) {
        None => false,
        Some(pairs) => has_attribute(pairs, b"ordered", b"true"),
    }
}

/// Where the messages of a buffer of this place come from or go to, where they are of this type.
pub fn buffer_place<'a>(
    types: &TypeNumbers<'a>,
    place: Place,
    t: Option<KnownType<'a>>,
) -> BufferPlace
    requires place { IsOnNetwork (place_seen place) }
    requires fields { IfSome (option_map type_of t) IsOfFewFields }
    ensures { result ≡ buffer_place (trees_of types.now) (place_seen place) (option_map type_of t.entry) }
{
    match place {
        Place::Own => BufferPlace::Local,
        Place::ToNetwork(v) => BufferPlace::To {
            network: v as u16,
            destination: receivers_field(types, t),
        },
        Place::FromNetwork(v) => BufferPlace::From { network: v as u16 },
    }
}

fn is_field(m: &Member) -> bool
    ensures { result ≡ is_field (member m.now) }
{
    matches!(m, Member::Field { .. })
}

// The number of the first field among these members that names the receivers.
fn destination_among<'a>(scopes: &Scopes<'a>, scope: Scope<'a>, members: &[Member]) -> Option<usize>
    ensures { result ≡ position (is_destination scopes.now.trees.now (scope_of scope.entry)) (filter (λ (m : Member). is_field (member m)) members.now) }
{
    members
        .iter()
        .filter(|m| is_field(*m))
        .position(|m| is_destination(scopes, scope, m))
}

fn receivers_of<'a>(types: &TypeNumbers<'a>, t: KnownType<'a>) -> Option<u16>
    requires { IsOfFewFields (type_of t) }
    ensures { result ≡ receivers_field (trees_of types.now) (Some (type_of t.entry)) }
{
    match t {
        KnownType::Structure(scope, s) => kept(destination_among(&types.scopes, scope, &s.members)),
        KnownType::BuiltIn(_) | KnownType::Enumeration(..) | KnownType::States(..) => None,
    }
}

/// The number of the field that names the receivers of a message of a type, where there is a type.
pub fn receivers_field<'a>(types: &TypeNumbers<'a>, t: Option<KnownType<'a>>) -> Option<u16>
    requires { IfSome (option_map type_of t) IsOfFewFields }
    ensures { result ≡ receivers_field (trees_of types.now) (option_map type_of t.entry) }
{
    match t {
        None => None,
        Some(t) => receivers_of(types, t),
    }
}

fn is_on_network(network: u64, place: Place) -> bool
    ensures { result ≡ is_on_network network (place_seen place) }
{
    match place {
        Place::Own => false,
        Place::ToNetwork(n) => n == network,
        Place::FromNetwork(n) => n == network,
    }
}

// The buffer is of the machine of this number.
fn is_on(number: u16, b: BufferIn<'_>, p: &PortOn<'_>) -> bool
    ensures { result ≡ is_on number (buffer_seen b.entry) (port_seen p.now) }
{
    p.machine == number && p.buffer.name.text.as_slice() == b.name.text.as_slice()
}

// The type of the messages of the first port on this network.
fn network_message<'a>(ports: &[PortOn<'a>], network: u64) -> Option<KnownType<'a>>
    ensures { option_map type_of result ≡ network_type_among (map port_seen ports.now) network }
{
    for p in ports {
        if is_on_network(network, p.buffer.place) {
            return Some(p.message);
        }
    }
    None
}

// The type of the messages of the first port on this buffer of a machine's own.
fn own_message<'a>(ports: &[PortOn<'a>], number: u16, b: BufferIn<'_>) -> Option<KnownType<'a>>
    ensures { option_map type_of result ≡ port_message (find (is_on number (buffer_seen b.entry)) (map port_seen ports.now)) }
{
    for p in ports {
        if is_on(number, b, p) {
            return Some(p.message);
        }
    }
    None
}

fn own_type<'a>(ports: &[PortOn<'a>], number: u16, b: BufferIn<'_>) -> Option<KnownType<'a>>
    ensures { option_map type_of result ≡ own_type_among (map port_seen ports.now) number (buffer_seen b.entry) }
{
    match own_message(ports, number, b) {
        Some(t) => Some(t),
        None => {
            if is_mandatory(b) {
                Some(KnownType::BuiltIn(BuiltInType::Request))
            } else {
                None
            }
        }
    }
}

/// The type of the messages of a buffer of the machine of this number, where these are the ports of all machines.
pub fn message_type<'a>(ports: &[PortOn<'a>], number: u16, b: BufferIn<'_>) -> Option<KnownType<'a>>
    ensures { option_map type_of result ≡ type_among (map port_seen ports.now) number (buffer_seen b.entry) }
{
    match b.place {
        Place::Own => own_type(ports, number, b),
        Place::ToNetwork(network) => network_message(ports, network),
        Place::FromNetwork(network) => network_message(ports, network),
    }
}
