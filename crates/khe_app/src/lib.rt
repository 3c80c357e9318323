//! The whole program as one call, `khe`: from the words of the command line and the bytes of an
//! archive, and of a script, to the bytes of the answer and the status.
#![tactic(auto)]

mod checking;
mod constructing;
mod making;
mod matching;
mod program;
mod repairing;
mod scripts;
mod solving;
mod starting;

pub use program::khe;
pub use reading_commands::{Answer, Status, Stop, answer_to, put_refusal};
