//! Which monitors became dearer, as a count and a sum that each change of a cost keeps.

ghost use Rattle.std.specs.Prelude.{◌≡◌, ◌<◌, ◌+◌, ◌*◌, ℕ, false, length, nat_eq, if◌then◌else◌, All};
ghost use Rattle.khe_base.specs.Bits.{is_set};
ghost use Rattle.monitor_graph.specs.Dearer.{is_dearer, CanRecount};
ghost use Rattle.monitor_graph.specs.Left.{AreLeft};
ghost use Rattle.monitor_graph.specs.Lines.{line_costs, IsLine};

use crate::lines::{Line, cost_of};
use crate::rows::{first_set, put};

/// Keeps how many monitors are dearer than marked, and the sum of their numbers, where the cost of
/// one of them changes. It takes constant time.
pub(crate) fn recount(
    count: &mut u64,
    numbers: &mut u64,
    marked: u128,
    before: u128,
    after: u128,
    number: u32,
)
    requires fits { CanRecount marked before count.old numbers.old number }
    ensures count { count.new + is_dearer marked before ≡ count.old + is_dearer marked after }
    ensures numbers { numbers.new + is_dearer marked before * number ≡ numbers.old + is_dearer marked after * number }
{
    if marked < before {
        if marked < after {
            return;
        }
        *count -= 1;
        *numbers -= u64::from(number);
        return;
    }
    if marked < after {
        *count += 1;
        *numbers += u64::from(number);
    }
}

/// Marks the costs of the monitors in a row anew, and empties the row. It takes time in proportion to
/// these, and to a 4096th of all monitors.
pub(crate) fn mark_changed(
    marked: &mut Vec<u128>,
    words: &mut Vec<u64>,
    summary: &mut Vec<u64>,
    lines: &[Line],
)
    requires left { AreLeft (line_costs lines.now) marked.old.items words.old.items summary.old.items }
    requires long { length marked.old.items ≡ length lines.now }
    requires each { All IsLine lines.now }
    ensures marked { marked.new.items ≡ line_costs lines.now }
    ensures left { AreLeft (line_costs lines.now) marked.new.items words.new.items summary.new.items }
{
    let mut from = 0;
    while let Some(place) = first_set(words.as_slice(), summary.as_slice(), from) {
        mark_one(marked, words, summary, lines, place);
        from = place + 1;
    }
}

/// Marks the cost of a monitor anew, and takes it out of the row.
fn mark_one(
    marked: &mut Vec<u128>,
    words: &mut Vec<u64>,
    summary: &mut Vec<u64>,
    lines: &[Line],
    place: usize,
)
    requires left { AreLeft (line_costs lines.now) marked.old.items words.old.items summary.old.items }
    requires long { length marked.old.items ≡ length lines.now }
    requires each { All IsLine lines.now }
    requires there { place < length lines.now }
    ensures left { AreLeft (line_costs lines.now) marked.new.items words.new.items summary.new.items }
    ensures long { length marked.new.items ≡ length lines.now }
    ensures bits { (m : ℕ) → is_set words.new.items m ≡ (if nat_eq m place then false else is_set words.old.items m) }
{
    let cost = cost_of(&lines[place]);
    marked[place] = cost;
    put(words, summary, place, false);
}
