// A line's slot, which stores four bytes of the line and then loads and compares them.
ghost use Rattle.std.specs.Prelude.{◌≡◌, ◌≤◌, ◌<◌, ◌^◌};
ghost use Rattle.ruby_value.specs.Prelude.{IsRequest};
ghost use Rattle.random_tester.specs.Slot.{first_difference, is_same_kind, is_same_request, request_of, value_at};
ghost use Rattle.random_tester.specs.Turn.{is_to};

use sequencer::{Answer, Ask, Asked, Issued};

/// How far a line's slot is.
#[derive(Clone, Copy)]
pub struct Slot {
    /// How many of the four bytes are stored.
    pub stored: u8,
    /// The value of byte 0.
    pub first: u8,
    /// The request whose answer it waits for.
    pub waits: Option<Issued>,
}

/// The value that is stored at a byte.
pub(crate) fn value_at(first: u8, k: u8) -> u8
    ensures { result ≡ value_at first k }
{
    first.wrapping_add(k)
}

/// The store of a slot's next byte, or the load of all four.
pub(crate) fn request_of(line: u64, slot: &Slot, now: u64) -> Asked
    requires { line < 2 ^ 58 }
    ensures value { result ≡ request_of line slot.now now }
    ensures request { IsRequest result }
{
    if slot.stored < 4 {
        Asked {
            line,
            kind: Ask::Store,
            offset: slot.stored,
            size: 1,
            byte: value_at(slot.first, slot.stored),
            issued: now,
        }
    } else {
        Asked {
            line,
            kind: Ask::Load,
            offset: 0,
            size: 4,
            byte: 0,
            issued: now,
        }
    }
}

/// The first of the four bytes that isn't as it was stored.
pub(crate) fn first_difference(first: u8, bytes: &[u8; 64]) -> Option<u8>
    ensures { result ≡ first_difference first bytes.now }
{
    if bytes[0] != value_at(first, 0) {
        return Some(0);
    }
    if bytes[1] != value_at(first, 1) {
        return Some(1);
    }
    if bytes[2] != value_at(first, 2) {
        return Some(2);
    }
    if bytes[3] != value_at(first, 3) {
        return Some(3);
    }
    None
}

fn is_same_kind(a: Ask, b: Ask) -> bool
    ensures { result ≡ is_same_kind a b }
{
    match (a, b) {
        (Ask::Load, Ask::Load) => true,
        (Ask::Store, Ask::Store) => true,
        (Ask::Fetch, Ask::Fetch) => true,
        _ => false,
    }
}

fn is_same_request(a: &Asked, b: &Asked) -> bool
    ensures { result ≡ is_same_request a.now b.now }
{
    a.line == b.line
        && is_same_kind(a.kind, b.kind)
        && a.offset == b.offset
        && a.size == b.size
        && a.byte == b.byte
        && a.issued == b.issued
}

/// Whether an answer that came at a seat is to the request that a slot waits for.
pub(crate) fn is_to(seat: u32, controller: u32, a: &Answer, waits: &Option<Issued>) -> bool
    ensures { result
        ≡ is_to (record { seat = seat; controller = controller; answer = a.now }) waits.now }
{
    match waits {
        Some(i) => i.seat == seat && is_same_request(&a.asked, &i.asked),
        None => false,
    }
}
