//! The topology of a file, and that of a plain run.
ghost use Rattle.std.specs.Prelude.{◌≡◌, ◌≤◌, ◌∷◌, [], All, IfErr, IfOk, MatchOption, false, length, map, sum};
ghost use Rattle.std.specs.List.{range_with_len};
ghost use Rattle.ruby_topology.specs.declared.forms.Network.TheVariants.{PointToPoint};
ghost use Rattle.ruby_topology.specs.Faults.{ForLine};
ghost use Rattle.ruby_topology.specs.Paths.{AreRows, HasIsland};
ghost use Rattle.ruby_topology.specs.Said.{controllers};
ghost use Rattle.ruby_topology.specs.Topology.{HasParts, HasRoutes, IsLackingSaid, IsPlainOf, IsRefused, IsRefusedPlain, IsTopologyOf, IsTopologySaid, can_be_plain, counts_of, lacks_line, links_of, members_from, network_of, ranges_from, sizes_of};
ghost use Rattle.ruby_topology.specs.Within.{IsWithin};
ghost use Rattle.slicc_plan.specs.Prelude.{symbols_of};

use crate::forms::{Member, Network, Statement, T5_NO_LINE, T7_NO_PATH, T8_NO_SEAT, TopoFault};
use crate::lines::read_lines;
use crate::members::{counts, members, names, ranges};
use crate::paths::{computed_row, rows};
use crate::routes::{links, ordered, receiving, seats, sizes, slots};
use crate::said::{jitter_said, network_said};
use ctl_face::Routes;
use ruby_base::{NoMemory, Seq, Text};
use ruby_symbols::{Symbols, takes_requests};
use ruby_value::Sizes;
use slicc_plan::Plan;
use std::alloc::Global;

/// A controller that a driver asks.
#[derive(Clone, Copy)]
pub struct Seat {
    pub controller: u32,
    /// Whether the driver asks through the controller's sequencer. Else it asks without one, as in a plain run.
    pub sequencer: bool,
}

/// How many controllers a run has, what joins them, and how large their tables are.
pub struct Topology {
    /// How many controllers each machine has, in the order of the protocol's text.
    pub counts: Seq<u32>,
    /// The names of the controllers in the order of their numbers.
    pub names: Seq<Text>,
    pub routes: Routes,
    /// Machine by machine, in the order of the protocol's text.
    pub sizes: Seq<Sizes>,
    /// In increasing number of their controllers.
    pub seats: Seq<Seat>,
}

// It is written out, so that a crate above proves a call where one goes, and not how each of its parts goes.
impl Drop for Topology {
    fn drop(self) {
        let Topology {
            counts: _,
            names: _,
            routes: _,
            sizes: _,
            seats: _,
        } = self;
    }
}

impl Topology {
    /// The names of the controllers in the order of their numbers. It takes no memory.
    pub fn names(&self) -> &Seq<Text>
        ensures { result.now ≡ self.now.names }
    {
        &self.names
    }
}

fn routes(
    alloc: Global,
    symbols: &Symbols,
    said: &[Statement],
    members: &[Member],
    paths: Seq<Seq<u64>>,
) -> Result<Routes, NoMemory>
    requires { length members.now ≤ 64 }
    ensures { IfOk result (HasRoutes symbols.now said.now members.now paths) }
{
    let ordered = ordered(alloc, symbols, said)?;
    let receiving = receiving(alloc, symbols, members)?;
    let slots = slots(alloc, said, members)?;
    let jitter = jitter_said(said).unwrap_or(0);
    Ok(Routes {
        paths,
        jitter,
        ordered,
        receiving,
        slots,
    })
}

fn all_sizes(
    alloc: Global,
    symbols: &Symbols,
    said: &[Statement],
    counts: &[u32],
) -> Result<Seq<Sizes>, NoMemory>
    requires { sum counts.now ≤ 64 }
    ensures { IfOk result (λ s. s ≡ map (sizes_of (ranges_from 0 counts.now) said.now) (range_with_len 0 (length symbols.now.machines))) }
{
    let ranges = ranges(alloc, counts)?;
    let sizes = sizes(alloc, ranges.as_slice(), said, symbols.machines.len());
    drop(ranges);
    sizes
}

// The topology with these parts.
fn with_parts(
    alloc: Global,
    symbols: &Symbols,
    said: &[Statement],
    counts: &[u32],
    members: &[Member],
    routes: Routes,
    seats: Seq<Seat>,
) -> Result<Topology, NoMemory>
    requires few { sum counts.now ≤ 64 }
    requires members { members.now ≡ members_from 0 counts.now }
    requires routes { HasRoutes symbols.now said.now members.now routes.paths routes }
    requires paths { AreRows (network_of said.now) (links_of members.now said.now) (length members.now) routes.paths }
    ensures parts { IfOk result (HasParts symbols.now said.now counts.now) }
    ensures seats { IfOk result (λ t. t.seats ≡ seats) }
{
    let names = names(alloc, symbols, members)?;
    let sizes = all_sizes(alloc, symbols, said, counts)?;
    let counts = Seq::copied(alloc, counts)?;
    Ok(Topology {
        counts,
        names,
        routes,
        sizes,
        seats,
    })
}

fn network_of(said: &[Statement]) -> Network
    ensures { result ≡ network_of said.now }
{
    network_said(said).unwrap_or(Network::PointToPoint(1))
}

// The topology of a file in which any two controllers have a path.
fn with_paths(
    alloc: Global,
    symbols: &Symbols,
    said: &[Statement],
    after: u32,
    counts: &[u32],
    members: &[Member],
    paths: Seq<Seq<u64>>,
) -> Result<Topology, TopoFault>
    requires room { controllers said.now ≤ 64 }
    requires each { lacks_line symbols.now said.now ≡ false }
    requires counts { counts.now ≡ counts_of symbols.now said.now }
    requires members { members.now ≡ members_from 0 counts.now }
    requires paths { AreRows (network_of said.now) (links_of members.now said.now) (length members.now) paths }
    ensures ok { IfOk result (IsTopologySaid symbols.now said.now) }
    ensures err { IfErr result (λ fault. ForLine fault (λ rule line. (line ≡ after) × IsLackingSaid symbols.now said.now rule)) }
{
    let seats = seats(alloc, symbols, members)?;
    if seats.is_empty() {
        return Err(TopoFault::Line {
            rule: T8_NO_SEAT,
            line: after,
        });
    }
    let routes = routes(alloc, symbols, said, members, paths)?;
    let topology = with_parts(alloc, symbols, said, counts, members, routes, seats)?;
    Ok(topology)
}

// The paths between these controllers.
fn paths_of(
    alloc: Global,
    said: &[Statement],
    members: &[Member],
) -> Result<Option<Seq<Seq<u64>>>, NoMemory>
    requires within { All IsWithin said.now }
    requires few { length members.now ≤ 64 }
    ensures { IfOk result (λ o. MatchOption o (HasIsland (network_of said.now) (links_of members.now said.now) (length members.now)) (AreRows (network_of said.now) (links_of members.now said.now) (length members.now))) }
{
    let links = links(alloc, members, said)?;
    let paths = rows(alloc, network_of(said), links.as_slice(), members.len());
    drop(links);
    paths
}

// The topology of a file with these controllers.
fn with_members(
    alloc: Global,
    symbols: &Symbols,
    said: &[Statement],
    after: u32,
    counts: &[u32],
    members: &[Member],
) -> Result<Topology, TopoFault>
    requires within { All IsWithin said.now }
    requires room { controllers said.now ≤ 64 }
    requires each { lacks_line symbols.now said.now ≡ false }
    requires counts { counts.now ≡ counts_of symbols.now said.now }
    requires members { members.now ≡ members_from 0 counts.now }
    ensures ok { IfOk result (IsTopologySaid symbols.now said.now) }
    ensures err { IfErr result (λ fault. ForLine fault (λ rule line. (line ≡ after) × IsLackingSaid symbols.now said.now rule)) }
{
    match paths_of(alloc, said, members)? {
        None => Err(TopoFault::Line {
            rule: T7_NO_PATH,
            line: after,
        }),
        Some(paths) => with_paths(alloc, symbols, said, after, counts, members, paths),
    }
}

// The topology of a file with so many controllers of each machine.
fn with_counts(
    alloc: Global,
    symbols: &Symbols,
    said: &[Statement],
    after: u32,
    counts: &[u32],
) -> Result<Topology, TopoFault>
    requires within { All IsWithin said.now }
    requires room { controllers said.now ≤ 64 }
    requires each { lacks_line symbols.now said.now ≡ false }
    requires counts { counts.now ≡ counts_of symbols.now said.now }
    ensures ok { IfOk result (IsTopologySaid symbols.now said.now) }
    ensures err { IfErr result (λ fault. ForLine fault (λ rule line. (line ≡ after) × IsLackingSaid symbols.now said.now rule)) }
{
    let members = members(alloc, counts)?;
    let topology = with_members(alloc, symbols, said, after, counts, members.as_slice());
    drop(members);
    topology
}

// The topology of a file whose lines say this. What they lack is told at this line.
fn said_topology(
    alloc: Global,
    symbols: &Symbols,
    said: &[Statement],
    after: u32,
) -> Result<Topology, TopoFault>
    requires within { All IsWithin said.now }
    requires room { controllers said.now ≤ 64 }
    ensures ok { IfOk result (IsTopologySaid symbols.now said.now) }
    ensures err { IfErr result (λ fault. ForLine fault (λ rule line. (line ≡ after) × IsLackingSaid symbols.now said.now rule)) }
{
    match counts(alloc, symbols, said)? {
        None => Err(TopoFault::Line {
            rule: T5_NO_LINE,
            line: after,
        }),
        Some(counts) => {
            let topology = with_counts(alloc, symbols, said, after, counts.as_slice());
            drop(counts);
            topology
        }
    }
}

/// The topology that a file says for a protocol, or the first line that breaks a rule with the least rule that it breaks; what no
/// line breaks but all together is told at the line after the last. docs/LANGUAGE.md has the lines and the rules.
pub fn read_topology(alloc: Global, bytes: &[u8], plan: &Plan) -> Result<Topology, TopoFault>
    requires { length bytes.now ≤ 1048576 }
    ensures ok { IfOk result (IsTopologyOf (symbols_of plan.now) bytes.now) }
    ensures err { IfErr result (λ fault. ForLine fault (IsRefused (symbols_of plan.now) bytes.now)) }
{
    let symbols = plan.symbols();
    let read = read_lines(alloc, symbols, bytes)?;
    let topology = said_topology(alloc, symbols, read.said.as_slice(), read.after);
    drop(read);
    topology
}

fn can_be_plain(symbols: &Symbols) -> bool
    ensures { result ≡ can_be_plain symbols.now }
{
    symbols.machines.len() == 1
        && match symbols.machines.get(0) {
            None => false,
            Some(m) => takes_requests(symbols, m),
        }
}

// The paths of one controller alone.
fn lone_paths(alloc: Global) -> Result<Seq<Seq<u64>>, NoMemory>
    ensures { IfOk result (AreRows (PointToPoint 1) [] 1) }
{
    let row = computed_row(alloc, Network::PointToPoint(1), 1, 0)?;
    let mut paths = Seq::new(alloc);
    paths.push(row)?;
    Ok(paths)
}

/// The topology of a plain run of a protocol: one controller, which is asked without a sequencer. There is none where there isn't
/// exactly one machine, or it has no buffer `mandatoryQueue` of its own on which a port of type `RubyRequest` is.
pub fn plain(alloc: Global, plan: &Plan) -> Result<Topology, TopoFault>
    ensures ok { IfOk result (IsPlainOf (symbols_of plan.now)) }
    ensures err { IfErr result (λ fault. ForLine fault (IsRefusedPlain (symbols_of plan.now))) }
{
    let symbols = plan.symbols();
    if !can_be_plain(symbols) {
        return Err(TopoFault::Line {
            rule: T8_NO_SEAT,
            line: 0,
        });
    }
    let topology = lone_topology(alloc, symbols)?;
    Ok(topology)
}

fn lone_topology(alloc: Global, symbols: &Symbols) -> Result<Topology, NoMemory>
    ensures parts { IfOk result (HasParts symbols.now [] (1 ∷ [])) }
    ensures seats { IfOk result (λ t. t.seats ≡ record { controller = 0; sequencer = false } ∷ []) }
{
    let members = [Member {
        machine: 0,
        index: 0,
    }];
    let paths = lone_paths(alloc)?;
    let routes = routes(alloc, symbols, &[], &members, paths)?;
    let mut seats = Seq::new(alloc);
    seats.push(Seat {
        controller: 0,
        sequencer: false,
    })?;
    with_parts(alloc, symbols, &[], &[1], &members, routes, seats)
}
