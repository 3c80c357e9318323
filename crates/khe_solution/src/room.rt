//! The room for the changes of one edit.

ghost use Rattle.std.specs.Prelude.{◌≡◌, ◌≤◌, ℕ, Some, length, vec_capacity, slice_get, IfOk};
ghost use Rattle.khe_base.specs.declared.limits.TheConstants.{TASKS};
ghost use Rattle.khe_instance.specs.declared.parts.EventInfo.{EventInfo};
ghost use Rattle.khe_solution.specs.Timetables.{HasRoom};

use khe_base::{EventId, NoMemory};
use khe_instance::Instance;
use khe_told::Change;
use std::alloc::Global;

/// The larger of two numbers.
fn larger(a: usize, b: usize) -> usize
    ensures first { a ≤ result }
    ensures second { b ≤ result }
    ensures least { (n : ℕ) → a ≤ n → b ≤ n → result ≤ n }
{
    if a < b { b } else { a }
}

/// How many places the event has that has most of them.
fn most_places(inst: &Instance) -> usize
    ensures few { result ≤ TASKS }
    ensures each { (e : ℕ) (event : EventInfo) → slice_get inst.now.events e ≡ Some event → length event.places ≤ result }
{
    inst.facts();
    let mut most = 0;
    for e in 0..inst.events() {
        most = larger(most, inst.event(EventId(e)).places.len());
    }
    most
}

/// An empty list with room for the longest list of changes that an edit can have. Its only error is that memory
/// is refused. It takes memory in proportion to the most places that an event has, and time in proportion to
/// the events.
pub fn room_for(alloc: Global, inst: &Instance) -> Result<Vec<Change>, NoMemory>
    ensures { IfOk result (λ list. HasRoom inst.now (vec_capacity list)) }
{
    let most = most_places(inst);
    Ok(Vec::with_capacity(alloc, 3 * most + 6)?)
}
