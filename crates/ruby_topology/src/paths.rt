//! Paths between controllers, as least sums of links.
ghost use Rattle.std.specs.Prelude.{◌≡◌, ◌<◌, ◌≤◌, ℕ, All, IfOk, MatchOption, length, map, ◌+◌, ◌^◌, fold, slice_set};
ghost use Rattle.std.specs.List.{range_with_len};
ghost use Rattle.ruby_topology.specs.declared.forms.Link.{Link};
ghost use Rattle.ruby_topology.specs.declared.forms.Network.TheVariants.{Links};
ghost use Rattle.ruby_topology.specs.Paths.{AreRows, HasIsland, IsIsland, IsRow, distance, path_by, steps_between};
ghost use Rattle.ruby_topology.specs.Search.{IsBetween, SumsOf, IsNearest, IsSearched, far_end, nearer, relaxed, shorter, sum_at};
ghost use Rattle.ruby_topology.specs.Within.{IsNetworkWithin};
ghost use Rattle.ruby_topology.specs.declared.paths.Mark.TheVariants.{Settled};

use crate::forms::{Link, Network};
use ruby_base::{NoMemory, Seq};
use std::alloc::Global;

fn distance(a: u64, b: u64) -> u64
    ensures { result ≡ distance a b }
{
    if a < b { b - a } else { a - b }
}

// The steps between two controllers in a mesh.
fn steps_between(rows: u64, columns: u64, a: u64, b: u64) -> u64
    requires rows_from { 1 ≤ rows }
    requires rows_to { rows ≤ 64 }
    requires columns_from { 1 ≤ columns }
    requires columns_to { columns ≤ 64 }
    ensures value { result ≡ steps_between rows columns a b }
    ensures bound { result ≤ 8192 }
{
    let nodes = rows * columns;
    let p = a % nodes;
    let q = b % nodes;
    let up = distance(p / columns, q / columns);
    let across = distance(p % columns, q % columns);
    up + across
}

// The path between two controllers where no links are listed.
fn path_by(network: Network, a: u64, b: u64) -> u64
    requires { IsNetworkWithin network }
    ensures { result ≡ path_by network a b }
{
    match network {
        Network::PointToPoint(length) => { if a == b { 0 } else { length } }
        Network::Crossbar(length) => { if a == b { 0 } else { 2 * length } }
        Network::Mesh {
            rows,
            columns,
            length,
        } => length * steps_between(rows, columns, a, b),
        Network::Links => 0,
    }
}

/// The paths from one controller where no links are listed.
pub fn computed_row(
    alloc: Global,
    network: Network,
    total: usize,
    from: usize,
) -> Result<Seq<u64>, NoMemory>
    requires { IsNetworkWithin network }
    ensures { IfOk result (λ row. row ≡ map (path_by network from) (range_with_len 0 total)) }
{
    let mut row = Seq::new(alloc);
    for to in 0..total {
        row.push(path_by(network, from as u64, to as u64))?;
    }
    Ok(row)
}

// The sums that a search found, where it found all.
fn sums(alloc: Global, marks: &[Mark]) -> Result<Option<Seq<u64>>, NoMemory>
    ensures { IfOk result (SumsOf marks.now) }
{
    let mut row = Seq::new(alloc);
    for mark in marks {
        match sum_at(*mark) {
            None => return Ok(None),
            Some(sum) => row.push(sum)?,
        }
    }
    Ok(Some(row))
}

fn link_row(
    alloc: Global,
    links: &[Link],
    total: usize,
    from: usize,
) -> Result<Option<Seq<u64>>, NoMemory>
    requires from { from < total }
    requires few { total ≤ 64 }
    requires between { All (IsBetween total) links.now }
    requires steps { All (λ (l : Link). l.length ≤ 1000) links.now }
    ensures { IfOk result (λ o. MatchOption o (IsIsland Links links.now total from) (IsRow Links links.now total from)) }
{
    let marks = search(alloc, links, total, from)?;
    let row = sums(alloc, marks.as_slice());
    drop(marks);
    row
}

// The paths from one controller to all, or none where some has no path.
fn row(
    alloc: Global,
    network: Network,
    links: &[Link],
    total: usize,
    from: usize,
) -> Result<Option<Seq<u64>>, NoMemory>
    requires network { IsNetworkWithin network }
    requires from { from < total }
    requires few { total ≤ 64 }
    requires between { All (IsBetween total) links.now }
    requires steps { All (λ (l : Link). l.length ≤ 1000) links.now }
    ensures { IfOk result (λ o. MatchOption o (IsIsland network links.now total from) (IsRow network links.now total from)) }
{
    match network {
        Network::Links => link_row(alloc, links, total, from),
        _ => {
            let row = computed_row(alloc, network, total, from)?;
            Ok(Some(row))
        }
    }
}

/// The paths by sender and then receiver, or none where two controllers have no path.
pub fn rows(
    alloc: Global,
    network: Network,
    links: &[Link],
    total: usize,
) -> Result<Option<Seq<Seq<u64>>>, NoMemory>
    requires network { IsNetworkWithin network }
    requires few { total ≤ 64 }
    requires between { All (IsBetween total) links.now }
    requires steps { All (λ (l : Link). l.length ≤ 1000) links.now }
    ensures { IfOk result (λ o. MatchOption o (HasIsland network links.now total) (AreRows network links.now total)) }
{
    let mut rows = Seq::new(alloc);
    for from in 0..total {
        match row(alloc, network, links, total, from)? {
            None => return Ok(None),
            Some(row) => rows.push(row)?,
        }
    }
    Ok(Some(rows))
}

/// What the search knows of a controller.
#[derive(Clone, Copy)]
pub enum Mark {
    Unreached,
    /// Some list of links has this sum.
    Reached(u64),
    /// No list of links has a lesser sum than this one.
    Settled(u64),
}

/// The sum that was found, if any.
pub fn sum_at(mark: Mark) -> Option<u64>
    ensures { result ≡ sum_at mark }
{
    match mark {
        Mark::Unreached => None,
        Mark::Reached(sum) => Some(sum),
        Mark::Settled(sum) => Some(sum),
    }
}

fn nearer(best: Option<(usize, u64)>, v: usize, mark: Mark) -> Option<(usize, u64)>
    ensures { result ≡ nearer best v mark }
{
    let Mark::Reached(sum) = mark else {
        return best;
    };
    match best {
        None => Some((v, sum)),
        Some(b) => { if sum < b.1 { Some((v, sum)) } else { Some(b) } }
    }
}

// The nearest controller that isn't settled, with its sum.
fn nearest(marks: &[Mark]) -> Option<(usize, u64)>
    ensures { IsNearest marks.now (length marks.now) result }
{
    let mut best = None;
    for (v, mark) in marks.iter().enumerate() {
        best = nearer(best, v, *mark);
    }
    best
}

fn far_end(link: &Link, u: usize) -> Option<usize>
    ensures { result ≡ far_end link.now u }
{
    if link.one == u {
        Some(link.other)
    } else if link.other == u {
        Some(link.one)
    } else {
        None
    }
}

fn shorter(mark: Mark, sum: u64) -> Mark
    ensures { result ≡ shorter mark sum }
{
    match mark {
        Mark::Unreached => Mark::Reached(sum),
        Mark::Reached(other) => Mark::Reached(sum.min(other)),
        Mark::Settled(other) => Mark::Settled(other),
    }
}

// Marks the far end of a link.
fn relax_link(marks: &mut [Mark], link: &Link, u: usize, sum: u64)
    requires between { IsBetween (length marks.old) link.now }
    requires room { sum + link.now.length < 2 ^ 64 }
    ensures { marks.new ≡ relaxed u sum marks.old link.now }
{
    if let Some(v) = far_end(link, u) {
        marks[v] = shorter(marks[v], sum + link.length);
    }
}

// Marks the far ends of all links of a controller that is settled.
fn relax(marks: &mut [Mark], links: &[Link], u: usize, sum: u64)
    requires between { All (IsBetween (length marks.old)) links.now }
    requires steps { All (λ (l : Link). l.length ≤ 1000) links.now }
    requires room { sum ≤ 1000000 }
    ensures { marks.new ≡ fold (relaxed u sum) marks.old links.now }
{
    for link in links {
        relax_link(marks, link, u, sum);
    }
}

// Settles the nearest controller, and marks the far ends of its links.
fn settle(marks: &mut [Mark], links: &[Link], u: usize, sum: u64)
    requires inside { u < length marks.old }
    requires between { All (IsBetween (length marks.old)) links.now }
    requires steps { All (λ (l : Link). l.length ≤ 1000) links.now }
    requires room { sum ≤ 1000000 }
    ensures { marks.new ≡ fold (relaxed u sum) (slice_set marks.old u (Settled sum)) links.now }
{
    marks[u] = Mark::Settled(sum);
    relax(marks, links, u, sum);
}

/// The least sums of links from a controller to each other one.
pub fn search(
    alloc: Global,
    links: &[Link],
    total: usize,
    from: usize,
) -> Result<Vec<Mark>, NoMemory>
    requires from { from < total }
    requires few { total ≤ 64 }
    requires between { All (IsBetween total) links.now }
    requires steps { All (λ (l : Link). l.length ≤ 1000) links.now }
    ensures { IfOk result (λ marks. IsSearched links.now total from marks.items) }
{
    let mut marks = vec![in alloc; Mark::Unreached; total]?;
    marks[from] = Mark::Reached(0);
    while let Some((u, sum)) = nearest(&marks) {
        settle(&mut marks, links, u, sum);
    }
    Ok(marks)
}
