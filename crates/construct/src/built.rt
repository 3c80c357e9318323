//! A timetable that was constructed.

use khe_base::Totals;
use khe_instance::Plain;

/// A timetable that was constructed.
#[derive(Drop)]
pub struct Built {
    pub plain: Plain,
    /// What the timetable costs.
    pub totals: Totals,
}
