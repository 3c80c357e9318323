//! The whole program `khe-talk` as one call: from the words of the command line, the bytes of an archive and lines to
//! the bytes of the answers and the status.
#![tactic(auto)]

mod opening;
mod program;
mod words;

pub use program::talk_by_words;
pub use talk_run::Lines;
