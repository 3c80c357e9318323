//! Reading an archive: from its bytes to its instances and solutions, or to why it is refused, with the line
//! that says so. It is the front of every program.
#![tactic(auto)]

mod reading;
mod refusals;
mod starting;

pub use reading::{ReadArchive, Unread, read, read_slice, unresolved};
pub use refusals::{Refusal, push_refusal, refusal_line};
pub use starting::{begin, instance_numbered};
