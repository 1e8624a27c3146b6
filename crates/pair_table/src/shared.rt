//! Transitions that are written for one pair.
ghost use Rattle.std.specs.Prelude.{◌≡◌, ◌<◌, ◌≤◌, ◌^◌, ◌*◌, [], All, length, slice_get, IfOk};
ghost use Rattle.slicc_plan.specs.Prelude.{first_after, shared_after};
ghost use Rattle.slicc_plan.specs.TwoTransitions.{told_with};
ghost use Rattle.pair_table.specs.Prelude.{AreFirsts, IsAmong};

use crate::places::earliest;
use ruby_base::NoMemory;
use slicc_plan::{Broken, Rule, Written, earlier_broken};
use std::alloc::Global;

// A transition that shares a pair with the one of this number, where that is one of those before it.
fn judged(
    first: Option<Broken>,
    number: u16,
    w: &Written,
    before: &[Written],
    earliest: u32,
) -> Option<Broken>
    ensures { result ≡ first_after first (told_with number w.now (slice_get before.now earliest)) }
{
    match before.get(earliest as usize) {
        None => first,
        Some(u) => earlier_broken(
            first,
            Broken {
                rule: Rule::TwoTransitions,
                machine: number,
                place: w.span,
                other: Some(u.span),
            },
        ),
    }
}

/// Of the transitions of the machine of this number that share a pair with an earlier one, and of what was found before, the one
/// that is told.
pub fn first_shared(
    alloc: Global,
    first: Option<Broken>,
    number: u16,
    ws: &[Written],
    firsts: &[u32],
    states: usize,
    events: usize,
) -> Result<Option<Broken>, NoMemory>
    requires few { (states ≤ 2 ^ 16) × (events ≤ 2 ^ 16) × (length ws.now < 2 ^ 32) }
    requires among { All (IsAmong states events) ws.now }
    requires length { length firsts.now ≡ states * events }
    requires firsts { AreFirsts states events ws.now firsts.now }
    ensures { IfOk result (λ found. found ≡ first_after first (shared_after number [] ws.now)) }
{
    let mut found = first;
    for (k, w) in ws.iter().enumerate() {
        let earliest = earliest(alloc, firsts, w, events, k as u32)?;
        found = judged(found, number, w, &ws[..k], earliest);
    }
    Ok(found)
}
