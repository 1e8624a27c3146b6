//! Routes between controllers of which each other one is as far away.
ghost use Rattle.std.specs.Prelude.{◌≡◌, ◌<◌, [], length, map, IfOk};
ghost use Rattle.controller_rows.specs.Samples.{all_paths, network_order, paths_from};

use ctl_face::{NoMemory, Routes, Seq};
use std::alloc::Global;

/// What controllers send on.
#[derive(Clone, Copy)]
pub struct Network {
    /// How many cycles the path of a controller to itself takes, and that to each other one.
    pub own_path: u64,
    pub path: u64,
    /// The most cycles that a copy may be late.
    pub jitter: u64,
    /// Whether network 1 keeps order. No other one does.
    pub in_order: bool,
}

fn paths_from(
    alloc: Global,
    network: &Network,
    sender: usize,
    count: usize,
) -> Result<Seq<u64>, NoMemory>
    requires { sender < count }
    ensures { IfOk result (λ paths. paths ≡ paths_from network.now count sender) }
{
    let mut paths = vec![in alloc; network.path; count]?;
    paths[sender] = network.own_path;
    Ok(Seq::of(paths))
}

fn all_paths(alloc: Global, network: &Network, count: usize) -> Result<Seq<Seq<u64>>, NoMemory>
    ensures { IfOk result (λ all. all ≡ all_paths network.now count) }
{
    let mut all = Seq::new(alloc);
    for sender in 0..count {
        all.push(paths_from(alloc, network, sender, count)?)?;
    }
    Ok(all)
}

fn receiving_buffers(
    alloc: Global,
    rows: &[&[Option<u16>]],
) -> Result<Seq<Seq<Option<u16>>>, NoMemory>
    ensures { IfOk result (λ all. all ≡ map (λ row. row.now) rows.now) }
{
    let mut all = Vec::with_capacity(alloc, rows.len())?;
    for row in rows {
        all.push(Seq::copied(alloc, row)?)?;
    }
    Ok(Seq::of(all))
}

/// The routes between controllers, of which each has a row: which of its machine's buffers takes the messages of each network. No buffer
/// has a size.
pub fn routes(alloc: Global, network: &Network, rows: &[&[Option<u16>]]) -> Result<Routes, NoMemory>
    ensures paths { IfOk result (λ r. r.paths ≡ all_paths network.now (length rows.now)) }
    ensures jitter { IfOk result (λ r. r.jitter ≡ network.now.jitter) }
    ensures ordered { IfOk result (λ r. r.ordered ≡ network_order network.now) }
    ensures receiving { IfOk result (λ r. r.receiving ≡ map (λ row. row.now) rows.now) }
    ensures slots { IfOk result (λ r. r.slots ≡ []) }
{
    let paths = all_paths(alloc, network, rows.len())?;
    let receiving = receiving_buffers(alloc, rows)?;
    let mut in_order = [false; 16];
    in_order[1] = network.in_order;
    let ordered = Seq::copied(alloc, &in_order)?;
    Ok(Routes {
        paths,
        jitter: network.jitter,
        ordered,
        receiving,
        slots: Seq::new(alloc),
    })
}
