//! Filling and emptying cells where a slot changes.

ghost use Rattle.std.specs.Prelude.{◌≡◌, ◌≤◌, ◌<◌, ℕ, true, length, ◌∷◌, [], Some};
ghost use Rattle.khe_base.specs.declared.limits.TheConstants.{GREATEST_COUNT};
ghost use Rattle.khe_base.specs.declared.numbers.ResourceId.{ResourceId};
ghost use Rattle.timetables.specs.Counts.{row_of, count_at};
ghost use Rattle.resource_monitors.specs.Cells.{AreRaised, AreAbove, in_run};
ghost use Rattle.resource_monitors.specs.Runs.{CanTurn, Turned};

use crate::runs::Run;
use crate::tables::CellTable;
use khe_base::{ResourceId, TimeId};

/// One more task of a resource at each time of a run.
fn fill(table: &mut CellTable, r: ResourceId, start: u32, end: u32)
    requires resource { r.0 < length table.old }
    requires order { start ≤ end }
    requires times { end ≤ length (row_of table.old r.0) }
    requires room { (t : ℕ) → in_run start end t ≡ true → count_at table.old r.0 t < GREATEST_COUNT }
    ensures { AreRaised r.0 start end table.old table.new }
{
    for t in start..end {
        table.rise(r, TimeId(t));
    }
}

/// One task of a resource less at each time of a run.
fn free(table: &mut CellTable, r: ResourceId, start: u32, end: u32)
    requires resource { r.0 < length table.old }
    requires order { start ≤ end }
    requires times { end ≤ length (row_of table.old r.0) }
    requires some { (t : ℕ) → in_run start end t ≡ true → 0 < count_at table.old r.0 t }
    ensures { AreRaised r.0 start end table.new table.old }
{
    for t in start..end {
        table.fall(r, TimeId(t));
    }
}

/// One more task, at each time of a run, of the resource that a place is given.
fn fill_place(table: &mut CellTable, place: Option<ResourceId>, start: u32, end: u32)
    requires resource { (r : ResourceId) → place ≡ Some r → r.0 < length table.old }
    requires order { start ≤ end }
    requires times { (q : ℕ) → q < length table.old → end ≤ length (row_of table.old q) }
    requires room { (r : ResourceId) (t : ℕ) → place ≡ Some r → in_run start end t ≡ true → count_at table.old r.0 t < GREATEST_COUNT }
    ensures resources { length table.new ≡ length table.old }
    ensures times { (q : ℕ) → length (row_of table.new q) ≡ length (row_of table.old q) }
    ensures counts { AreAbove (place ∷ []) start end (count_at table.old) (count_at table.new) }
{
    let Some(r) = place else {
        return;
    };
    fill(table, r, start, end);
}

/// One task less.
fn free_place(table: &mut CellTable, place: Option<ResourceId>, start: u32, end: u32)
    requires resource { (r : ResourceId) → place ≡ Some r → r.0 < length table.old }
    requires order { start ≤ end }
    requires times { (q : ℕ) → q < length table.old → end ≤ length (row_of table.old q) }
    requires some { (r : ResourceId) (t : ℕ) → place ≡ Some r → in_run start end t ≡ true → 0 < count_at table.old r.0 t }
    ensures resources { length table.new ≡ length table.old }
    ensures times { (q : ℕ) → length (row_of table.new q) ≡ length (row_of table.old q) }
    ensures counts { AreAbove (place ∷ []) start end (count_at table.new) (count_at table.old) }
{
    let Some(r) = place else {
        return;
    };
    free(table, r, start, end);
}

/// One task more or less, at each time of a run, of the resource that a place is given.
pub(crate) fn turn_place(table: &mut CellTable, place: Option<ResourceId>, run: Run, rises: bool)
    requires resource { (r : ResourceId) → place ≡ Some r → r.0 < length table.old }
    requires order { run.start ≤ run.end }
    requires times { (q : ℕ) → q < length table.old → run.end ≤ length (row_of table.old q) }
    requires counts { CanTurn rises place (Some run) (count_at table.old) }
    ensures resources { length table.new ≡ length table.old }
    ensures times { (q : ℕ) → length (row_of table.new q) ≡ length (row_of table.old q) }
    ensures counts { Turned rises place (Some run) (count_at table.old) (count_at table.new) }
{
    if rises {
        fill_place(table, place, run.start, run.end);
    } else {
        free_place(table, place, run.start, run.end);
    }
}
