//! Gates that look at which workers run side by side.

use khe_io::Gate;
use std::sync::atomic::{AtomicBool, AtomicU64, Ordering};

/// How often the first job at a gate looks for the others.
const MOST_TURNS: u32 = 100_000_000;

/// A gate at which the first job waits until a number of others have come, and which notes whether they did.
#[derive(Drop)]
pub struct Meeting {
    others: u64,
    entered: AtomicU64,
    came: AtomicBool,
}

impl Meeting {
    /// A gate at which no job has come yet, and the first one will wait for the given number of others.
    pub fn of(others: u64) -> Meeting {
        Meeting {
            others,
            entered: AtomicU64::new(0),
            came: AtomicBool::new(false),
        }
    }

    /// Whether all awaited others came while the first job waited.
    pub fn came(&self) -> bool {
        self.came.load(Ordering::SeqCst)
    }
}

impl Gate for Meeting {
    fn pass(&self, _job: u64) {
        if self.entered.fetch_add(1, Ordering::SeqCst) > 0 {
            return;
        }
        for _ in 0..MOST_TURNS {
            if self.entered.load(Ordering::SeqCst) > self.others {
                self.came.store(true, Ordering::SeqCst);
                return;
            }
        }
    }
}
