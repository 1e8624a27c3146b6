// The numbers of the messages under a line, with places for the messages.
ghost use Rattle.std.specs.Prelude.{◌≡◌, ◌≢◌, ◌<◌, ◌≤◌, ◌+◌, ◌^◌, ℕ, [], IfOk, IfSome, None, Some, insert, length, vec_capacity};
ghost use Rattle.std.specs.List.{All, AllPairs};
ghost use Rattle.std.specs.FinMap as map;
ghost use Rattle.ruby_value.specs.declared.message.MsgNo.{MsgNo};
ghost use Rattle.ruby_value.specs.Prelude.{IsBefore, inserted, number_before};
ghost use Rattle.stall_map.specs.Prelude.{IsReady, IsSplit, IsWide, numbers_of};

use crate::{Message, MsgNo, NoMemory};
use ruby_value::LineMap;
use std::alloc::Global;

/// What is kept for a line with messages: their numbers, ascending, and an empty list with places for all of them.
#[derive(Drop)]
pub(crate) struct Lane {
    pub(crate) numbers: Vec<MsgNo>,
    pub(crate) places: Vec<Message>,
}

fn empty_lane(alloc: Global, places: usize) -> Result<Lane, NoMemory>
    ensures { IfOk result (λ lane. IsWide places lane) }
{
    Ok(Lane {
        numbers: Vec::with_capacity(alloc, places)?,
        places: Vec::with_capacity(alloc, places)?,
    })
}

/// Empty lanes, so many, each with so many places.
pub(crate) fn empty_lanes(alloc: Global, lanes: usize, places: usize) -> Result<Vec<Lane>, NoMemory>
    ensures { IfOk result (λ pool. (lanes ≤ length pool.items) × All (IsWide places) pool.items) }
{
    let mut pool = Vec::new(alloc);
    for _ in 0..lanes {
        pool.push(empty_lane(alloc, places)?)?;
    }
    Ok(pool)
}

// Where a new number goes among ascending ones.
fn place_in(numbers: &[MsgNo], number: MsgNo) -> usize
    requires { AllPairs IsBefore numbers.now }
    ensures { IsSplit (λ (n : MsgNo). n) number numbers.now result }
{
    numbers.partition_point(|n| !number.is_before(*n))
}

// The lane, if it has a place for one more number and message, or else the empty one with its numbers.
fn widened(lane: Lane, mut empty: Lane) -> Lane
    requires ready { IsReady lane }
    requires wide { IsWide (length lane.numbers.items + 1) empty }
    ensures same { result.numbers.items ≡ lane.numbers.items }
    ensures wide { length result.numbers.items < vec_capacity result.numbers }
    ensures empty { result.places.items ≡ [] }
    ensures enough { length result.numbers.items < vec_capacity result.places }
{
    let count = lane.numbers.len();
    if count < lane.numbers.capacity() && count < lane.places.capacity() {
        return lane;
    }
    if empty.numbers.extend_from_slice(&lane.numbers).is_err() {
        unreachable!()
    }
    empty
}

/// Adds the number of one more message under a line, which may take the empty lane for it. It answers how many messages the
/// line has.
pub(crate) fn add_number(lanes: &mut LineMap<Lane>, line: u64, number: MsgNo, empty: Lane) -> usize
    requires room { 0 < lanes.old.room }
    requires ready { IfSome (map.get lanes.old.kept line) IsReady }
    requires wide { IsWide (length (numbers_of (map.get lanes.old.kept line)) + 1) empty }
    requires ascends { AllPairs IsBefore (numbers_of (map.get lanes.old.kept line)) }
    requires new { All (λ (n : MsgNo). n ≢ number) (numbers_of (map.get lanes.old.kept line)) }
    ensures numbers { numbers_of (map.get lanes.new.kept line) ≡ inserted number_before (numbers_of (map.get lanes.old.kept line)) number }
    ensures ready { IfSome (map.get lanes.new.kept line) IsReady }
    ensures others { (q : ℕ) → q ≢ line → map.get lanes.new.kept q ≡ map.get lanes.old.kept q }
    ensures count { result ≡ length (numbers_of (map.get lanes.new.kept line)) }
    ensures small { result < 2 ^ 63 }
    ensures room { lanes.old.room ≤ lanes.new.room + 1 }
{
    let mut lane = match lanes.remove(line) {
        Some(lane) => widened(lane, empty),
        None => empty,
    };
    let at = place_in(&lane.numbers, number);
    if lane.numbers.insert(at, number).is_err() {
        unreachable!()
    }
    let count = lane.numbers.len();
    let _before = lanes.put(line, lane);
    count
}

/// Drops the lane of a line, if it has one.
pub(crate) fn drop_lane(lanes: &mut LineMap<Lane>, line: u64)
    ensures after { lanes.new.kept ≡ map.remove lanes.old.kept line }
    ensures room { lanes.old.room ≤ lanes.new.room }
{
    let _lane = lanes.remove(line);
}
