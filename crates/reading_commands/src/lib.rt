//! The commands that only read an archive, `evaluate` and `check`: what an archive under a name leads to, the report on
//! its solutions and its canonical spelling, and the status that a run ends with.
#![tactic(auto)]

mod answers;
mod crews;
mod outcomes;
mod report_parts;
mod reports;
mod spellings;
mod statuses;

pub use answers::{Answer, Stop, answer_to};
pub use crews::Crew;
pub use reports::write_report;
pub use spellings::{put_spelling, write_spelling};
pub use statuses::{Status, not_understood, put, put_refusal};
