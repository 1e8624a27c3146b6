// The controllers of each machine, as a controller keeps them among its parameters.
ghost use Rattle.std.specs.Prelude.{◌≡◌, ◌<◌, ◌≤◌, ◌+◌, IfOk, IfSome, OnOk};
ghost use Rattle.acts.specs.Prelude.{DoesAs, itself};
ghost use Rattle.built_in_acts.specs.Machines.{home_in, index_in, is_in, kept_number, place_of, placed_from, range_at, range_of, small, with_numbers, with_range};
ghost use Rattle.built_in_acts.specs.Values.{number};

use crate::values::number;
use acts::{Local, NoMemory, Ref, Trouble, Value, get};
use ruby_value::NetDest;

/// Where a machine's controllers keep the numbers of all machines' controllers: in the fields of line 0 of their table of parameters,
/// for each machine the number of its first controller and then how many it has.
#[derive(Clone, Copy)]
pub struct KeptMachines {
    /// The number of the table of parameters.
    pub table: u16,
    /// The field of the first of these numbers, of which there are two for each machine.
    pub first: u8,
    /// How many machines there are.
    pub count: u8,
}

/// The controllers of a machine: the first one's number, and how many.
#[derive(Clone, Copy)]
pub struct Range {
    pub first: u8,
    pub count: u8,
}

/// A machine of which a controller is, and its index there.
#[derive(Clone, Copy)]
pub struct Placed {
    pub machine: u16,
    pub index: u32,
}

fn small(v: &Value) -> u8
    ensures { result ≡ small (number v.now) }
{
    let n = number(v);
    if n < 0 || n > 255 {
        return 255;
    }
    n as u8
}

fn range_of(first: u8, count: u8) -> Option<Range>
    ensures does { result ≡ range_of first count }
    ensures some { IfSome result (λ r. 1 ≤ r.count) }
{
    if first < 64 && count >= 1 && count <= 64 {
        return Some(Range { first, count });
    }
    None
}

#[tactic(auto, using(acts::proofs::Walk::walk_steps), unfolding(crate::specs::Machines::kept_number))]
fn kept_number<T: Local>(local: &T, kept: KeptMachines, place: u16) -> Result<u8, Trouble>
    requires { place < 1024 }
    ensures { DoesAs itself (kept_number kept place) result (T.view local.now)
        (T.view local.now) }
{
    let r = Ref {
        table: kept.table,
        line: 0,
    };
    let v = get(local, &r, u16::from(kept.first) + place)?;
    Ok(small(&v))
}

/// The controllers of a machine, if it has any.
#[tactic(auto, using(acts::proofs::Walk::walk_steps), unfolding(crate::specs::Machines::range_at))]
pub fn range_at<T: Local>(
    local: &T,
    kept: KeptMachines,
    machine: u16,
) -> Result<Option<Range>, Trouble>
    ensures does { DoesAs itself (range_at kept machine) result (T.view local.now)
        (T.view local.now) }
    ensures some { IfOk result (λ o. IfSome o (λ r. 1 ≤ r.count)) }
{
    if machine >= u16::from(kept.count) {
        return Ok(None);
    }
    let first = kept_number(local, kept, 2 * machine)?;
    let count = kept_number(local, kept, 2 * machine + 1)?;
    Ok(range_of(first, count))
}

/// The controller of a machine that takes a line.
pub fn home_in(line: u64, range: Option<Range>) -> u32
    requires { IfSome range (λ r. 1 ≤ r.count) }
    ensures { result ≡ home_in line range }
{
    match range {
        Some(r) => u32::from(r.first) + (line % u64::from(r.count)) as u32,
        None => 0,
    }
}

fn is_in(range: Option<Range>, controller: u32) -> bool
    ensures { result ≡ is_in range controller }
{
    match range {
        Some(r) => {
            controller >= u32::from(r.first) && controller - u32::from(r.first) < u32::from(r.count)
        }
        None => false,
    }
}

fn index_of(range: Option<Range>, controller: u32) -> u32
    ensures { result ≡ index_in range controller }
{
    match range {
        Some(r) => controller.saturating_sub(u32::from(r.first)),
        None => 0,
    }
}

#[tactic(auto, using(acts::proofs::Walk::walk_steps, crate::proofs::Placing::placed_none, crate::proofs::Placing::placed_more))]
fn placed_from<T: Local>(
    local: &T,
    kept: KeptMachines,
    controller: u32,
    left: u8,
    machine: u16,
) -> Result<Placed, Trouble>
    requires { machine + left < 1024 }
    ensures { DoesAs itself (placed_from kept controller left machine) result
        (T.view local.now) (T.view local.now) }
{
    if left == 0 {
        return Ok(Placed {
            machine: 0,
            index: 0,
        });
    }
    let range = range_at(local, kept, machine)?;
    if is_in(range, controller) {
        let index = index_of(range, controller);
        return Ok(Placed { machine, index });
    }
    placed_from(local, kept, controller, left - 1, machine + 1)
}

/// The machine of a controller, and its index there.
#[tactic(auto, using(acts::proofs::Walk::walk_steps), unfolding(crate::specs::Machines::place_of))]
pub fn place_of<T: Local>(local: &T, kept: KeptMachines, controller: u32) -> Result<Placed, Trouble>
    ensures { DoesAs itself (place_of kept controller) result (T.view local.now)
        (T.view local.now) }
{
    placed_from(local, kept, controller, kept.count, 0)
}

#[tactic(auto, using(crate::proofs::Placing::numbers_none, crate::proofs::Placing::numbers_more))]
fn add_numbers(members: &mut NetDest, first: u32, left: u8) -> Result<(), NoMemory>
    requires { first + left < 1024 }
    ensures { OnOk result (members.new ≡ with_numbers members.old first left) }
{
    if left == 0 {
        return Ok(());
    }
    members.add(first)?;
    add_numbers(members, first + 1, left - 1)
}

/// Adds the controllers of a machine, if it has any.
pub fn add_range(members: &mut NetDest, range: Option<Range>) -> Result<(), NoMemory>
    ensures { OnOk result (members.new ≡ with_range members.old range) }
{
    match range {
        Some(r) => add_numbers(members, u32::from(r.first), r.count),
        None => Ok(()),
    }
}
