// The slots that a controller's messages have in use in buffers with a size.
ghost use Rattle.std.specs.Prelude.{◌≡◌, ◌<◌, ◌≤◌, ◌+◌, ◌^◌, map, vec_len, vec_capacity};
ghost use Rattle.std.specs.List.{All, list_any};
ghost use Rattle.ctl_face.specs.declared.parcel.Lent.{Lent};
ghost use Rattle.ctl_face.specs.Prelude.{is_lent_of, lent_at, lent_from, one_more, settled, with_lent};

use crate::credits;
use ctl_face::{Credit, Lent};

// The count with one slot more, if it is of this buffer at this receiver.
fn one_more(lent: Lent, receiver: u32, buffer: u16) -> Lent
    requires { lent.count + 1 < 2 ^ 64 }
    ensures { result ≡ one_more receiver buffer lent }
{
    if lent.receiver == receiver && lent.buffer == buffer {
        return Lent {
            receiver,
            buffer,
            count: lent.count + 1,
        };
    }
    lent
}

// The count less the credits that have arrived.
fn settled(lent: Lent, credits: &[Credit], now: u64) -> Lent
    ensures { result ≡ settled credits.now now lent }
{
    let arrived = credits::arrived(credits, lent.receiver, lent.buffer, now);
    Lent {
        receiver: lent.receiver,
        buffer: lent.buffer,
        count: lent.count.saturating_sub(arrived as u64),
    }
}

// Whether the buffer at the receiver has a count.
fn has(lent: &[Lent], receiver: u32, buffer: u16) -> bool
    ensures { result ≡ list_any (is_lent_of receiver buffer) lent.now }
{
    lent.iter()
        .any(|l| l.receiver == receiver && l.buffer == buffer)
}

// Counts one slot more where the buffer at the receiver has a count.
fn raise(lent: &mut Vec<Lent>, receiver: u32, buffer: u16)
    requires { All (λ (l : Lent). l.count + 1 < 2 ^ 64) lent.old.items }
    ensures after { lent.new.items ≡ map (one_more receiver buffer) lent.old.items }
    ensures count { vec_len lent.new ≡ vec_len lent.old }
    ensures room { vec_capacity lent.new ≡ vec_capacity lent.old }
{
    for i in 0..lent.len() {
        lent[i] = one_more(lent[i], receiver, buffer);
    }
}

/// Counts one slot more of a buffer at a receiver, where there is room for its count. It takes no memory.
pub(crate) fn put(lent: &mut Vec<Lent>, receiver: u32, buffer: u16)
    requires fit { All (λ (l : Lent). l.count + 1 < 2 ^ 64) lent.old.items }
    requires room { vec_len lent.old < vec_capacity lent.old }
    ensures after { lent.new.items ≡ with_lent lent.old.items receiver buffer }
    ensures count { vec_len lent.new ≤ vec_len lent.old + 1 }
    ensures room { vec_capacity lent.old ≤ vec_capacity lent.new }
{
    if has(lent, receiver, buffer) {
        raise(lent, receiver, buffer);
        return;
    }
    lent.push_reserved(Lent {
        receiver,
        buffer,
        count: 1,
    });
}

/// Gives back the slots whose credits have arrived. It takes no memory.
pub(crate) fn settle(lent: &mut Vec<Lent>, credits: &[Credit], now: u64)
    ensures after { lent.new.items ≡ lent_from now credits.now lent.old.items }
    ensures count { vec_len lent.new ≡ vec_len lent.old }
    ensures room { vec_capacity lent.new ≡ vec_capacity lent.old }
{
    for i in 0..lent.len() {
        lent[i] = settled(lent[i], credits, now);
    }
}

/// How many slots of a buffer at a receiver are in use.
pub(crate) fn count_at(lent: &[Lent], receiver: u32, buffer: u16) -> u64
    ensures { result ≡ lent_at lent.now receiver buffer }
{
    let found = lent
        .iter()
        .find(|l| l.receiver == receiver && l.buffer == buffer);
    match found {
        Some(l) => l.count,
        None => 0,
    }
}
