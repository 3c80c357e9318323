//! A session: a solution of an archive in an engine of its own, asked line by line. It stands under whatever calls this
//! repository's code from elsewhere.
#![tactic(auto)]

mod answers;
mod faults;
mod gathering;
mod laws;
mod opening;
mod resting;
mod session;
mod waking;

pub use faults::{SessionFault, Unopened};
pub use session::{Session, open};
