//! Gates for the tests of workers: one that shows whether others come while a job waits, and one that counts the
//! jobs that pass. No test stands here.
#![tactic(auto)]

mod meetings;
mod records;

pub use meetings::Meeting;
pub use records::{JOBS, Record};
