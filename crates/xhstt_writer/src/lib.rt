//! The writer of archives: the bytes of an archive in the canonical spelling, which are read back as
//! the same archive.
#![tactic(auto)]

mod archives;
mod buffer;
mod constraints;
#[allow(dead_code)]
mod examples;
mod instances;
mod lists;
mod output;
mod parts;
mod records;
mod solutions;
mod stream;
mod texts;
mod writing;

pub use stream::{SendFault, send};
pub use writing::write;
