// Whether a machine's setup is one that a controller may have, and whether routes are ones that its acts may go by. None of
// the tests takes memory.
ghost use Rattle.std.specs.Prelude.{◌≡◌, ◌↔◌, ◌≤◌, IsTrue, IfSome, Some, slice_get};
ghost use Rattle.std.specs.List.{All};
ghost use Rattle.ctl_face.specs.Prelude.{AgreeOnType, ArePlain, ParametersAreLast, HasPlaces, IsBufferSetup, IsMachine, IsTableSetup, SameReceivers, ShareTypes, is_parameters, receivers_field, AreFrom, AreWithinLimits, HasRoutes, IsFrom, IsNamed, KeepsOrder, NamesBuffers, ReceivesFrom, longest_path};
ghost use Rattle.ruby_value.specs.Prelude.{network_of};

use crate::Routes;
use crate::serving::place_of;
use ruby_value::{
    BufferPlace, BufferSetup, Kind, MachineSetup, Seq, TableSetup, TableSize, are_same_kinds,
    have_kinds,
};

// Whether a table of this size has place for a line, and for no more than the limits.
fn has_places(size: TableSize) -> bool
    ensures { IsTrue result ↔ HasPlaces size }
{
    match size {
        TableSize::Cache { sets, ways } => {
            sets >= 1 && ways >= 1 && u64::from(sets) * u64::from(ways) <= 65_536
        }
        TableSize::Tbe { entries } => entries >= 1 && entries <= 256,
        TableSize::Directory | TableSize::Parameters => true,
    }
}

fn are_plain(kinds: &[Kind]) -> bool
    ensures { IsTrue result ↔ ArePlain kinds.now }
{
    kinds.iter().all(|kind| !kind.is_reference())
}

fn is_table(s: &TableSetup) -> bool
    ensures { IsTrue result ↔ IsTableSetup s.now }
{
    has_places(s.size) && are_plain(&s.kinds) && have_kinds(&s.kinds, s.initial.as_slice())
}

fn is_parameters(size: TableSize) -> bool
    ensures { result ≡ is_parameters size }
{
    matches!(size, TableSize::Parameters)
}

// Whether the last table, and no other, is that of the parameters.
fn end_in_parameters(tables: &[TableSetup]) -> bool
    ensures { IsTrue result ↔ ParametersAreLast tables.now }
{
    for (table, s) in tables.iter().enumerate() {
        if is_parameters(s.size) != (table + 1 == tables.len()) {
            return false;
        }
    }
    !tables.is_empty()
}

// The virtual network that the buffer is on.
fn network_of(place: BufferPlace) -> Option<u16>
    ensures { result ≡ network_of place }
{
    match place {
        BufferPlace::Local => None,
        BufferPlace::To { network, .. } | BufferPlace::From { network } => Some(network),
    }
}

// The field that names the receivers of the buffer's messages.
fn receivers_field(place: BufferPlace) -> Option<u16>
    ensures { result ≡ receivers_field place }
{
    match place {
        BufferPlace::To { destination, .. } => destination,
        BufferPlace::Local | BufferPlace::From { .. } => None,
    }
}

fn names_receivers(s: &BufferSetup) -> bool
    ensures { IsTrue result
        ↔ IfSome (receivers_field s.now.place)
        (λ field. slice_get s.now.kinds field ≡ Some Kind.Dest) }
{
    match receivers_field(s.place) {
        Some(field) => matches!(s.kinds.get(usize::from(field)), Some(Kind::Dest)),
        None => true,
    }
}

fn is_buffer(s: &BufferSetup) -> bool
    ensures { IsTrue result ↔ IsBufferSetup s.now }
{
    let is_network = match network_of(s.place) {
        Some(network) => network < 16,
        None => true,
    };
    is_network && names_receivers(s) && are_plain(&s.kinds)
}

// Whether two buffers to one network have their messages' receivers in one field.
fn have_same_receivers(a: BufferPlace, b: BufferPlace) -> bool
    ensures { IsTrue result ↔ SameReceivers a b }
{
    match (a, b) {
        (BufferPlace::To { destination: a, .. }, BufferPlace::To { destination: b, .. }) => a == b,
        _ => true,
    }
}

fn agree_on_type(a: &BufferSetup, b: &BufferSetup) -> bool
    ensures { IsTrue result ↔ AgreeOnType a.now b.now }
{
    match (network_of(a.place), network_of(b.place)) {
        (Some(of_a), Some(of_b)) if of_a == of_b => {
            are_same_kinds(&a.kinds, &b.kinds) && have_same_receivers(a.place, b.place)
        }
        _ => true,
    }
}

fn all_agree_with(a: &BufferSetup, buffers: &[BufferSetup]) -> bool
    ensures { IsTrue result ↔ All (AgreeOnType a.now) buffers.now }
{
    buffers.iter().all(|b| agree_on_type(a, b))
}

fn all_agree(buffers: &[BufferSetup]) -> bool
    ensures { IsTrue result ↔ ShareTypes buffers.now }
{
    buffers.iter().all(|a| all_agree_with(a, buffers))
}

/// Whether it is what a machine may be to its controllers: sizes, kinds and networks are within what the definition of a
/// machine's setup says.
pub fn is_machine(machine: &MachineSetup) -> bool
    ensures { IsTrue result ↔ IsMachine machine.now }
{
    if !machine.tables.iter().all(|s| is_table(s)) {
        return false;
    }
    if !machine.buffers.iter().all(|s| is_buffer(s)) {
        return false;
    }
    end_in_parameters(&machine.tables) && all_agree(&machine.buffers)
}

fn are_short(paths: &[u64]) -> bool
    ensures { IsTrue result ↔ All (λ path. path ≤ longest_path) paths.now }
{
    paths.iter().all(|path| *path <= 126_000)
}

fn are_within_limits(routes: &Routes) -> bool
    ensures { IsTrue result ↔ AreWithinLimits routes.now }
{
    if !routes.paths.iter().all(|from| are_short(from)) {
        return false;
    }
    if !routes.slots.iter().all(|slot| slot.2 <= 65_536) {
        return false;
    }
    routes.receiving.len() <= 64 && routes.ordered.len() == 16 && routes.jitter <= 1000
}

fn keeps_order(routes: &Routes, s: &BufferSetup) -> bool
    ensures { IsTrue result ↔ KeepsOrder routes.now s.now }
{
    if !s.ordered {
        return true;
    }
    match network_of(s.place) {
        Some(network) => routes.is_ordered(network),
        None => true,
    }
}

// Whether a buffer, if there is one, is from the network of this number.
fn is_from(machine: &MachineSetup, buffer: Option<u16>, network: usize) -> bool
    ensures { IsTrue result ↔ IsFrom machine.now network buffer }
{
    let Some(buffer) = buffer else {
        return true;
    };
    match place_of(machine, buffer) {
        Some(BufferPlace::From { network: from }) => usize::from(from) == network,
        _ => false,
    }
}

// Whether the buffer for each network, if there is one, is from that network.
fn are_from(machine: &MachineSetup, buffers: &[Option<u16>]) -> bool
    ensures { IsTrue result ↔ AreFrom machine.now buffers.now }
{
    for (network, buffer) in buffers.iter().enumerate() {
        if !is_from(machine, *buffer, network) {
            return false;
        }
    }
    true
}

// Whether the buffers that take the messages of networks at a controller of the machine are from these networks.
fn receives_from(machine: &MachineSetup, controller: u32, routes: &Routes) -> bool
    ensures { IsTrue result ↔ ReceivesFrom machine.now controller routes.now }
{
    match routes.receiving.get(controller as usize) {
        Some(buffers) => are_from(machine, buffers),
        None => true,
    }
}

// Whether a buffer, where it is from a network, is the one that takes this network's messages at the controller.
fn is_named(place: BufferPlace, buffer: usize, controller: u32, routes: &Routes) -> bool
    ensures { IsTrue result ↔ IsNamed place buffer controller routes.now }
{
    let BufferPlace::From { network } = place else {
        return true;
    };
    match routes.receiving_buffer(controller, network) {
        Some(named) => usize::from(named) == buffer,
        None => false,
    }
}

// Whether the routes name each of a machine's buffers that is from a network.
fn names_buffers(buffers: &[BufferSetup], controller: u32, routes: &Routes) -> bool
    ensures { IsTrue result ↔ NamesBuffers buffers.now controller routes.now }
{
    for (buffer, s) in buffers.iter().enumerate() {
        if !is_named(s.place, buffer, controller, routes) {
            return false;
        }
    }
    true
}

/// Whether the acts of a controller of the machine, whose actor number this is, may go by these routes.
pub fn has_routes(machine: &MachineSetup, me: u32, routes: &Routes) -> bool
    ensures { IsTrue result ↔ HasRoutes machine.now me routes.now }
{
    if !are_within_limits(routes) || routes.path_to(me, me) != 0 {
        return false;
    }
    if !machine.buffers.iter().all(|s| keeps_order(routes, s)) {
        return false;
    }
    receives_from(machine, me, routes) && names_buffers(&machine.buffers, me, routes)
}
