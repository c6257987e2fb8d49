use hall_count::{Tally, count_together};
use std::alloc::{AllocError, Global};
use std::sync::Wait;
use std::test::Fail;
use std::thread::Threads;

/// How often each of two threads takes its turn.
const COUNTS: [u32; 4] = [0, 1, 1000, 100_000];

// One thread sleeps before the door while the other's list grows. It has to be woken, or the test never ends.
#[test]
fn two_threads_take_turns_until_both_are_done(rt: HostRuntime) -> Result<(), Fail> {
    assert!(rt; all_are_counted(&rt, rt.alloc())?);
    Ok(())
}

fn all_are_counted<R: Threads + Wait + Sync>(rt: &R, alloc: Global) -> Result<bool, AllocError> {
    'counts: for count in COUNTS {
        let tally = count_together(rt, alloc, u64::from(count))?;
        if !has_twice(&tally, count) {
            return Ok(false);
        }
    }
    Ok(true)
}

fn has_twice(tally: &Tally, count: u32) -> bool {
    let all = 2 * u64::from(count);
    tally.entries.len() as u64 == all && tally.work == all
}
