//! A listener that counts what is set.

ghost use Rattle.std.specs.Prelude.{◌≡◌, length, IfOk};

use khe_base::NoMemory;
use std::alloc::Global;

/// The deviations of monitors, and how often one was set.
#[derive(Drop)]
pub(crate) struct Marks {
    pub(crate) values: Vec<u64>,
    pub(crate) calls: u64,
}

/// A deviation of 0 for each of the given number of monitors.
pub(crate) fn no_marks(alloc: Global, monitors: u32) -> Result<Marks, NoMemory>
    ensures { IfOk result (λ m. length m.values.items ≡ monitors) }
{
    Ok(Marks {
        values: vec![in alloc; 0; monitors as usize]?,
        calls: 0,
    })
}

impl Marks {
    /// Counts that a deviation was set.
    pub(crate) fn count(&mut self)
        ensures { self.new.values ≡ self.old.values }
    {
        self.calls = self.calls.saturating_add(1);
    }
}
