//! Two parts of which one waits for the other.
use std::sync::atomic::{AtomicU64, Ordering};
use std::thread;
use std::time::{Clock, Duration};

/// How often a part looks whether the other one has come, a millisecond apart.
const TURNS: u32 = 10_000;

/// Nobody has come.
const OPEN: u64 = 0;

/// The other part has come.
const MET: u64 = 1;

/// The other part came too late, or is still to come.
const MISSED: u64 = 2;

/// Where one part meets another, so that neither begins alone. Where no thread can be made, one part runs behind the other: the one that
/// runs first waits for a limited time, and the one that comes behind it learns that it was given up.
#[derive(Drop)]
pub struct Meeting {
    state: AtomicU64,
}

impl Meeting {
    /// Nobody has come.
    pub fn new() -> Meeting {
        Meeting {
            state: AtomicU64::new(OPEN),
        }
    }

    /// Comes, and answers whether the other part has not given this one up.
    pub fn come(&self) -> bool {
        self.state
            .compare_exchange(OPEN, MET, Ordering::SeqCst, Ordering::SeqCst)
            .is_ok()
    }

    /// Waits until the other part has come. Answers whether it came in time; otherwise it is given up.
    pub fn meets(&self, rt: &impl Clock) -> bool {
        for _turn in 0..TURNS {
            if self.state.load(Ordering::SeqCst) == MET {
                return true;
            }
            thread::sleep(rt, Duration::from_millis(1));
        }
        self.state
            .compare_exchange(OPEN, MISSED, Ordering::SeqCst, Ordering::SeqCst)
            .is_err()
    }
}
