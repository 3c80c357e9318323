//! Callers of the engine and of the readers of archives, as the pages CALLING.md of khe_engine and xhstt_resolve show
//! them.
#![tactic(auto)]

mod editing;
mod faults;
mod reading;

pub use editing::{assigned_totals, lower_by, opened_totals};
pub use faults::ReadFault;
pub use reading::{ReadArchive, read, totals_of};
