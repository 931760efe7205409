//! What the tests of several crates share: calls that are repeated after a lack of memory, and waits for other
//! threads.
#![tactic(auto)]

#[doc(hidden)]
pub use raft_base::Error;
use std::sync::atomic::{AtomicU64, Ordering};
use std::thread;
use std::time::{Clock, Duration};

/// Makes a call, and makes it once more if it returns `Memory`. It is for tests in which one allocation is refused: a
/// call that returned `Memory` must have changed nothing.
#[macro_export]
macro_rules! again {
    ($call:expr) => {{
        let mut answer = $call;
        if matches!(answer, Err($crate::Error::Memory)) {
            answer = $call;
        }
        answer
    }};
}

/// Waits until `number` is at least `goal`, for about ten seconds at most, and returns whether it is. It looks once a
/// millisecond.
pub fn wait_until_reached<R: Clock>(rt: &R, number: &AtomicU64, goal: u64) -> bool {
    for _ in 0..10_000 {
        if number.load(Ordering::SeqCst) >= goal {
            return true;
        }
        thread::sleep(rt, Duration::from_millis(1));
    }
    false
}
