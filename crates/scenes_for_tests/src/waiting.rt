//! Waits of gates, each of which ends.
use std::sync::atomic::{AtomicBool, Ordering};

const TURNS: u32 = 100_000_000;

/// Waits for a flag, for so many turns at most. Whether it came.
pub fn wait_for(flag: &AtomicBool) -> bool {
    for _ in 0..TURNS {
        if flag.load(Ordering::SeqCst) {
            return true;
        }
    }
    false
}

/// The waits of a gate, and whether one of them was in vain.
#[derive(Drop)]
pub struct Patience {
    late: AtomicBool,
}

impl Patience {
    pub fn new() -> Patience {
        Patience {
            late: AtomicBool::new(false),
        }
    }

    /// Waits for a flag. If it doesn't come, this is late from then on.
    pub fn wait(&self, flag: &AtomicBool) {
        if !wait_for(flag) {
            self.late.store(true, Ordering::SeqCst);
        }
    }

    /// Whether one of the waits so far was in vain.
    pub fn is_late(&self) -> bool {
        self.late.load(Ordering::SeqCst)
    }
}
