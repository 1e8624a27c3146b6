ghost use Rattle.std.specs.Prelude.{◌≡◌, ℕ, ◌+◌, ◌<◌, ◌≤◌, [], ◌∷◌, ◌++◌, false, length, IfOk, All, slice_index_or};
ghost use Rattle.turn_lock.specs.Prelude.{owned};
ghost use Rattle.turn_lock_tests.specs.Counts.{count_of, counts_of};
ghost use Rattle.turn_lock_tests.specs.Meetings.{IsNew, HasCounted, IsReady, IsListed};

use crate::Tally;
use ruby_base::NoMemory;
use std::alloc::Global;
use std::sync::Wait;
use std::thread;
use std::thread::Threads;
use turn_lock::{Pass, Turnstile};

// One turn, in which the pass counts once more.
pub(crate) fn count_once<R: Wait>(
    rt: &R,
    lock: &Turnstile<Tally>,
    pass: &mut Pass<Tally>,
    number: u32,
    before: u32,
) -> Result<(), NoMemory>
    requires lock { (pass.old.lock ≡ lock.now.id) × (pass.old.inside ≡ false) }
    requires number { (pass.old.number ≡ number) × (number < 64) }
    ensures lock { (pass.new.lock ≡ pass.old.lock) × (pass.new.inside ≡ false) }
    ensures pass { (pass.new.number ≡ pass.old.number) × (pass.new.met ≡ pass.old.met) × (pass.new.others ≡ pass.old.others) }
    ensures mine { IfOk result (λ _. pass.new.mine ≡ pass.old.mine ++ count_of number before ∷ []) }
{
    let mut tally = lock.enter(rt, pass);
    let added = tally.add(before as u64 * 65536 + number as u64 * 256);
    lock.leave(pass, tally);
    added
}

// A worker: so many turns.
fn count<R: Wait>(
    rt: &R,
    lock: &Turnstile<Tally>,
    mut pass: Pass<Tally>,
    times: u32,
) -> Result<Pass<Tally>, NoMemory>
    requires { IsNew lock.now.id pass }
    ensures { HasCounted lock.now.id pass.number times result }
{
    let number = pass.number();
    for before in 0..times {
        count_once(rt, lock, &mut pass, number, before)?;
    }
    Ok(pass)
}

// Lets all passes meet in the last, or answers that one of them wanted memory.
fn all_met(
    lock: &Turnstile<Tally>,
    mut results: Vec<Result<Pass<Tally>, NoMemory>>,
) -> Result<Pass<Tally>, NoMemory>
    requires some { 0 < length results.items }
    requires each { All (IsReady lock.now.id) results.items }
    ensures pass { IfOk result (λ p. (p.lock ≡ lock.now.id) × (p.inside ≡ false) × (p.met ≡ length results.items)) }
    ensures each { IfOk result (λ p. All (IsListed p) results.items) }
{
    let Some(last) = results.pop() else {
        unreachable!()
    };
    let mut whole = last?;
    while let Some(result) = results.pop() {
        let pass = result?;
        lock.meet(&mut whole, pass);
    }
    Ok(whole)
}

// Each pass's worker, in a thread of its own where one can be made.
fn count_each<R: Threads + Wait + Sync>(
    rt: &R,
    lock: &Turnstile<Tally>,
    passes: Vec<Pass<Tally>>,
    times: u32,
) -> Result<Vec<Result<Pass<Tally>, NoMemory>>, NoMemory>
    requires { All (IsNew lock.now.id) passes.items }
    ensures len { IfOk result (λ v. length v.items ≡ length passes.items) }
    ensures each { IfOk result (λ v. (k : ℕ) (d : _) (e : _) → k < length passes.items → HasCounted lock.now.id (slice_index_or passes.items k d).number times (slice_index_or v.items k e)) }
{
    Ok(thread::map_vec(rt, passes, &|pass| count(rt, lock, pass, times))?)
}

/// So many workers, each in a thread of its own where one can be made, count so often each: of each, the tally has its counts in
/// their order, and it has no others.
pub fn count_together<R: Threads + Wait + Sync>(
    rt: &R,
    alloc: Global,
    workers: u32,
    times: u32,
) -> Result<Tally, NoMemory>
    requires { (1 ≤ workers) × (workers ≤ 64) }
    ensures each { IfOk result (λ t. (k : ℕ) → k < workers → owned k t.counts ≡ counts_of k times) }
    ensures others { IfOk result (λ t. (k : ℕ) → workers ≤ k → owned k t.counts ≡ []) }
{
    let Ok((lock, passes)) = Turnstile::new(alloc, Tally::new(alloc), workers) else {
        return Err(NoMemory);
    };
    let results = count_each(rt, &lock, passes.into_vec(), times)?;
    let whole = all_met(&lock, results)?;
    Ok(lock.close(whole))
}
