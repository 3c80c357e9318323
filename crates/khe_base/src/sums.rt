//! A hard and a soft cost, and their order.

ghost use Rattle.std.specs.Prelude.{◌≡◌};
ghost use Rattle.khe_base.specs.Totals.{is_lower};

/// A hard and a soft cost. Totals compare by hard first, then by soft: a timetable with a lower
/// hard cost is better whatever its soft cost.
#[derive(Clone, Copy, Debug, PartialEq, Eq, PartialOrd, Ord)]
pub struct Totals {
    pub hard: u128,
    pub soft: u128,
}

impl Totals {
    /// Whether these totals are lower than others: by the hard cost, and by the soft cost where the
    /// hard costs are equal. It takes constant time and no memory.
    pub fn is_lower(self, other: Totals) -> bool
        ensures { result ≡ is_lower self other }
    {
        self.hard < other.hard || self.hard == other.hard && self.soft < other.soft
    }
}
