//! Gates that note which jobs pass.

use khe_io::Gate;
use std::sync::atomic::{AtomicU64, Ordering};

/// How many jobs a record tells apart.
pub const JOBS: usize = 8;

/// A gate that counts how often it is called with each number below `JOBS`, and how often with any other.
#[derive(Drop)]
pub struct Record {
    calls: [AtomicU64; JOBS],
    others: AtomicU64,
}

impl Record {
    /// A gate that was not called yet.
    pub fn new() -> Record {
        Record {
            calls: [
                AtomicU64::new(0),
                AtomicU64::new(0),
                AtomicU64::new(0),
                AtomicU64::new(0),
                AtomicU64::new(0),
                AtomicU64::new(0),
                AtomicU64::new(0),
                AtomicU64::new(0),
            ],
            others: AtomicU64::new(0),
        }
    }

    /// How often it was called with a number below `JOBS`, and 0 of any other.
    pub fn calls_of(&self, job: usize) -> u64 {
        match self.calls.get(job) {
            Some(calls) => calls.load(Ordering::SeqCst),
            None => 0,
        }
    }

    /// How often it was called with a number from `JOBS` on.
    pub fn others(&self) -> u64 {
        self.others.load(Ordering::SeqCst)
    }

    /// Whether it was called once with each number below the given one, and with no other.
    pub fn is_of_first(&self, count: usize) -> bool {
        for job in 0..JOBS {
            if self.calls_of(job) != u64::from(job < count) {
                return false;
            }
        }
        count <= JOBS && self.others() == 0
    }
}

impl Gate for Record {
    fn pass(&self, job: u64) {
        let calls = match self.calls.get(job as usize) {
            Some(calls) => calls,
            None => &self.others,
        };
        calls.fetch_add(1, Ordering::SeqCst);
    }
}
