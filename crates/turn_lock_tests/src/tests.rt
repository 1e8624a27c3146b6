use crate::counting::count_once;
use crate::{Tally, count_together};
use std::test::Fail;
use turn_lock::Turnstile;

const WORKERS: u32 = 4;

const TIMES: u32 = 5_000;

#[test]
fn two_passes_share_one_history(rt: HostRuntime) -> Result<(), Fail> {
    let alloc = rt.alloc();
    let made = Turnstile::new(alloc, Tally::new(alloc), 2).ok();
    let (lock, passes) = made.ok_or("no memory")?;
    let mut passes = passes.into_vec();
    let mut second = passes.pop().ok_or("one pass")?;
    let mut first = passes.pop().ok_or("no pass")?;
    assert!(rt; count_once(&rt, &lock, &mut first, 0, 0).is_ok());
    let tally = lock.enter(&rt, &mut second);
    assert_eq!(rt; tally.counts.as_slice(), [0].as_slice());
    lock.leave(&mut second, tally);
    lock.meet(&mut first, second);
    assert_eq!(rt; lock.met(&first), 2);
    assert_eq!(rt; lock.close(first).counts.as_slice(), [0].as_slice());
    Ok(())
}

#[test]
fn four_threads_count_each_count_once_in_their_order(rt: HostRuntime) -> Result<(), Fail> {
    let tally = count_together(&rt, rt.alloc(), WORKERS, TIMES)
        .ok()
        .ok_or("no memory")?;
    let mut next = [0u64; 4];
    for count in &tally.counts {
        let owner = (*count / 256 % 256) as usize;
        assert!(rt; owner < 4);
        assert_eq!(rt; *count / 65536, next[owner]);
        next[owner] = *count / 65536 + 1;
    }
    assert_eq!(rt; tally.counts.len(), 20_000);
    assert_eq!(rt; next, [5_000; 4]);
    Ok(())
}
