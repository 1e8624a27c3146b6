//! What each operation is on, takes and gives, by the list of built-in calls, and whether verification knows each of these.
use crate::making::{call_program, is_broken};
use action_code::{NoMemory, Seq};
use ruby_value::Kind;
use std::alloc::Global;

/// An operation, the numbers that it may be on, and the kinds of its arguments and of its result.
#[derive(Clone, Copy)]
pub struct Call {
    pub number: u16,
    pub on: &'static [u16],
    pub takes: &'static [Kind],
    pub gives: &'static [Kind],
}

macro_rules! call {
    ($number:expr, $on:expr, $takes:expr, $gives:expr) => {
        Call {
            number: $number,
            on: $on,
            takes: $takes,
            gives: $gives,
        }
    };
}

// What is there for an operation to be on, and two numbers more.
const NUMBERS: &[u16] = &[0, 1, 2, 3, 4, 5, 65535];

const PLACES: &[usize] = &[0, 1, 2, 3];

// A kind that no operation takes.
const WRONG: Kind = Kind::Enum(3, 0);

const PORT: &[u16] = &[0, 2, 4];

const CACHE: &[u16] = &[0];

const DIRECTORY: &[u16] = &[1];

const TBES: &[u16] = &[2];

const NONE: &[u16] = &[0];

const NOWHERE: &[u16] = &[];

const TYPE: Kind = Kind::Enum(0, 0);

const PERMISSION: Kind = Kind::Enum(1, 0);

/// The operations. One that takes values of two kinds is there for each of them.
pub const OPERATIONS: &[Call] = &[
    call!(0, PORT, &[Kind::Int], &[Kind::Bool]),
    call!(1, PORT, &[Kind::Int], &[]),
    call!(2, PORT, &[Kind::Int], &[]),
    call!(3, PORT, &[Kind::Int, Kind::Int], &[]),
    call!(4, CACHE, &[Kind::Addr], &[Kind::Entry(0)]),
    call!(5, CACHE, &[Kind::Addr], &[Kind::Entry(0)]),
    call!(6, CACHE, &[Kind::Addr], &[Kind::Bool]),
    call!(7, CACHE, &[Kind::Addr], &[Kind::Bool]),
    call!(8, CACHE, &[Kind::Addr], &[Kind::Addr]),
    call!(9, CACHE, &[Kind::Addr], &[Kind::Entry(0)]),
    call!(10, CACHE, &[Kind::Addr], &[]),
    call!(11, CACHE, &[Kind::Addr], &[]),
    call!(11, CACHE, &[Kind::Entry(0)], &[]),
    call!(12, DIRECTORY, &[Kind::Addr], &[Kind::Entry(2)]),
    call!(13, DIRECTORY, &[Kind::Addr], &[Kind::Entry(2)]),
    call!(14, DIRECTORY, &[Kind::Addr], &[Kind::Bool]),
    call!(15, DIRECTORY, &[Kind::Addr], &[Kind::Entry(2)]),
    call!(16, TBES, &[Kind::Addr], &[Kind::Tbe(1)]),
    call!(17, TBES, &[Kind::Addr], &[Kind::Tbe(1)]),
    call!(18, TBES, &[Kind::Addr], &[]),
    call!(19, TBES, &[Kind::Addr], &[]),
    call!(20, TBES, &[Kind::Addr], &[Kind::Bool]),
    call!(21, NONE, &[Kind::Dest, Kind::Machine], &[Kind::Dest]),
    call!(22, NONE, &[Kind::Dest, Kind::Machine], &[Kind::Dest]),
    call!(23, NONE, &[Kind::Dest], &[Kind::Dest]),
    call!(24, NONE, &[Kind::Dest], &[Kind::Int]),
    call!(25, NONE, &[Kind::Dest, Kind::Machine], &[Kind::Bool]),
    call!(26, NONE, &[Kind::Dest], &[Kind::Bool]),
    call!(27, NONE, &[Kind::Dest, Kind::Dest], &[Kind::Dest]),
    call!(28, NONE, &[Kind::Dest, Kind::Dest], &[Kind::Dest]),
    call!(29, NONE, &[Kind::Dest, TYPE], &[Kind::Dest]),
    call!(30, NONE, &[Kind::Block], &[Kind::Block]),
    call!(31, NONE, &[Kind::Addr, Kind::Block], &[]),
    call!(32, NONE, &[Kind::Addr, Kind::Block, Kind::Bool], &[]),
    call!(33, NONE, &[Kind::Addr, Kind::Block, Kind::Bool, TYPE], &[]),
    call!(34, NONE, &[Kind::Addr, Kind::Block], &[Kind::Block]),
    call!(
        35,
        NONE,
        &[Kind::Addr, Kind::Block, Kind::Bool],
        &[Kind::Block]
    ),
    call!(
        36,
        NONE,
        &[Kind::Addr, Kind::Block, Kind::Bool, TYPE],
        &[Kind::Block]
    ),
    call!(37, NONE, &[], &[Kind::Int]),
    call!(38, NONE, &[], &[Kind::Int]),
    call!(39, NONE, &[Kind::Int], &[Kind::Int]),
    call!(40, NONE, &[Kind::Int], &[Kind::Int]),
    call!(41, NONE, &[Kind::Addr, TYPE], &[Kind::Machine]),
    call!(42, NONE, &[Kind::Addr], &[Kind::Addr]),
    call!(43, NONE, &[Kind::Machine], &[Kind::Int]),
    call!(44, NONE, &[Kind::Machine], &[TYPE]),
    call!(45, NOWHERE, &[], &[]),
    call!(46, NOWHERE, &[], &[]),
    call!(47, NOWHERE, &[], &[]),
    call!(48, NOWHERE, &[], &[]),
    call!(49, NONE, &[Kind::Addr], &[]),
    call!(50, NONE, &[], &[]),
    call!(51, NOWHERE, &[], &[]),
    call!(52, NOWHERE, &[], &[]),
    call!(53, NONE, &[Kind::Int, Kind::Int], &[]),
    call!(54, NONE, &[Kind::Entry(0), PERMISSION], &[]),
    call!(54, NONE, &[Kind::Entry(2), PERMISSION], &[]),
    call!(55, NONE, &[Kind::Addr], &[]),
    call!(56, CACHE, &[], &[]),
    call!(57, CACHE, &[], &[]),
    call!(58, NONE, &[], &[Kind::Machine]),
    call!(59, PORT, &[Kind::Addr], &[]),
    call!(60, NONE, &[Kind::Addr, Kind::Enum(4, 0)], &[]),
];

// Whether it gives its result alone where it may be, and isn't served elsewhere.
fn is_on(alloc: Global, call: &Call, on: u16) -> Result<bool, NoMemory> {
    let p = call_program(alloc, call.takes, call.number, on)?;
    let count = call.takes.len();
    if call.on.iter().any(|n| *n == on) {
        return is_broken(alloc, p, 5, 0, count.wrapping_add(1), call.gives);
    }
    is_broken(alloc, p, 5, 0, count, call.takes)
}

fn receiver(call: &Call) -> u16 {
    match call.on.first() {
        None => 0,
        Some(on) => *on,
    }
}

// These kinds with the wrong one at a place.
fn with_wrong(alloc: Global, takes: &[Kind], place: usize) -> Result<Seq<Kind>, NoMemory> {
    let mut kinds = Seq::new(alloc);
    for kind in takes {
        let at = kinds.len();
        kinds.push(if at == place { WRONG } else { *kind })?;
    }
    Ok(kinds)
}

// Whether a value of the wrong kind in the place of an argument is refused.
fn refuses(alloc: Global, call: &Call, place: usize) -> Result<bool, NoMemory> {
    let count = call.takes.len();
    if count <= place {
        return Ok(true);
    }
    let kinds = with_wrong(alloc, call.takes, place)?;
    let p = call_program(alloc, kinds.as_slice(), call.number, receiver(call))?;
    is_broken(alloc, p, 2, 0, count, kinds.as_slice())
}

// Whether its first argument has to be there.
fn lacks_first(alloc: Global, call: &Call) -> Result<bool, NoMemory> {
    match call.takes.split_first() {
        None => Ok(true),
        Some((_, others)) => {
            let p = call_program(alloc, others, call.number, receiver(call))?;
            is_broken(alloc, p, 1, 0, others.len(), others)
        }
    }
}

/// Whether verification knows what an operation is on, takes and gives, each by itself.
pub fn is_known(alloc: Global, call: &Call) -> Result<bool, NoMemory> {
    let mut known = lacks_first(alloc, call)?;
    for on in NUMBERS {
        known = is_on(alloc, call, *on)? && known;
    }
    for place in PLACES {
        known = refuses(alloc, call, *place)? && known;
    }
    Ok(known)
}
