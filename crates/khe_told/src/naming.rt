//! Which places of meets are given something else.

ghost use Rattle.std.specs.Prelude.{◌≡◌, ◌≤◌, ◌<◌, ◌==◌, ℕ, false, List};
ghost use Rattle.khe_told.specs.Changes.{after_all};
ghost use Rattle.khe_told.specs.Naming.{AreSameBut, gives_at, is_named};
ghost use Rattle.khe_told.specs.Slots.{slot_at};
ghost use Rattle.khe_told.specs.declared.slots.Slot.{Slot};

use crate::changes::Change;

/// The places that may be given something else, in whichever meet, so that a keeper looks at no other place. An
/// edit gives something else at one place, at two, or at all places of its meets, so at most two are kept by
/// number. Each call but `of` takes constant time.
#[derive(Clone, Copy)]
pub enum Places {
    /// No place.
    Nowhere,
    /// These two, which may be one and the same.
    Two { first: u32, second: u32 },
    /// Every place.
    All,
}

impl Places {
    /// The places that these changes give something else: at any other, what each meet's place is given stays. It
    /// takes time in proportion to the changes.
    pub fn of(changes: &[Change]) -> Places
        ensures { (s : List Slot) (k : ℕ) → AreSameBut result (slot_at s k).given (slot_at (after_all s changes.now) k).given }
    {
        let mut places = Places::Nowhere;
        for change in changes {
            places = places.with_change(*change);
        }
        places
    }

    /// These and the place that a change gives something else.
    fn with_change(self, change: Change) -> Places
        ensures { (j : ℕ) → is_named result j ≡ false → (is_named self j ≡ false) × (gives_at j change ≡ false) }
    {
        match change {
            Change::Give { task, .. } => self.with(task.place),
            Change::Take { task, .. } => self.with(task.place),
            _ => self,
        }
    }

    /// These and one more.
    fn with(self, place: u32) -> Places
        ensures { (j : ℕ) → is_named result j ≡ false → (is_named self j ≡ false) × ((place == j) ≡ false) }
    {
        match self {
            Places::Nowhere => Places::Two {
                first: place,
                second: place,
            },
            Places::Two { first, second } => {
                if place == first || place == second {
                    return self;
                }
                if first != second {
                    return Places::All;
                }
                Places::Two {
                    first,
                    second: place,
                }
            }
            Places::All => Places::All,
        }
    }

    /// The first of them from a number on, and the greatest number of all where there is none.
    pub fn next(self, from: usize) -> usize
        ensures from { from ≤ result }
        ensures none { (j : ℕ) → from ≤ j → j < result → is_named self j ≡ false }
    {
        match self {
            Places::Nowhere => usize::MAX,
            Places::Two { first, second } => nearer(from, first as usize, second as usize),
            Places::All => from,
        }
    }
}

/// The lesser of two numbers that are not before another, and the greatest number where neither is.
fn nearer(from: usize, first: usize, second: usize) -> usize
    ensures from { from ≤ result }
    ensures none { (j : ℕ) → from ≤ j → j < result → ((first == j) ≡ false) × ((second == j) ≡ false) }
{
    let first = if first < from { usize::MAX } else { first };
    let second = if second < from { usize::MAX } else { second };
    if first < second { first } else { second }
}
