//! Waiting for what another thread does, up to a limit.

use std::sync::atomic::{AtomicBool, AtomicU32, Ordering};
use std::thread;
use std::time::{Clock, Duration};

// How often the clock is asked to wait, and for how long: some ten seconds in all.
const WAITS: u32 = 100_000;

const WAIT: u64 = 100;

/// Waits until the flag is set, and no longer than some ten seconds: then it says that it met its limit.
pub fn wait_for<C: Clock>(clock: &C, flag: &AtomicBool, met_limit: &AtomicBool) {
    for _ in 0..WAITS {
        if flag.load(Ordering::SeqCst) {
            return;
        }
        thread::sleep(clock, Duration::from_micros(WAIT));
    }
    met_limit.store(true, Ordering::SeqCst);
}

/// The same until the count has come so far.
pub fn wait_for_count<C: Clock>(clock: &C, count: &AtomicU32, far: u32, met_limit: &AtomicBool) {
    for _ in 0..WAITS {
        if count.load(Ordering::SeqCst) >= far {
            return;
        }
        thread::sleep(clock, Duration::from_micros(WAIT));
    }
    met_limit.store(true, Ordering::SeqCst);
}
