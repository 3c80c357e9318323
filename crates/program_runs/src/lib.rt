//! Runs of the whole program on shelves and sinks in memory, for the crates of tests: what a run ends with,
//! compared with what it should, devices of which each call fails in turn, and archives that several of those
//! crates run it on. No test stands here.
#![tactic(auto)]

mod archives;
mod calls;
mod comparing;
mod devices;
mod pieces;
mod runs;
mod scripts;
mod sweeps;

pub use archives::{EMPTY, FRONT, GROUP, MADE_ONE_EVENT, PLACED, REST, SECOND, TWO_EVENTS};
pub use calls::{Call, End, File};
pub use comparing::{Difference, compared};
pub use devices::{Devices, GOOD, failing};
pub use pieces::{Piece, push_all, text_of};
pub use runs::{run, run_at};
pub use scripts::{NESTED_SCRIPT, NESTED_TEXT};
pub use sweeps::{reads_made, writes_made};
