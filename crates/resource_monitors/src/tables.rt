//! A timetable that knows how many tasks run beyond one.

ghost use Rattle.std.specs.Prelude.{ℕ, ◌≡◌, ◌+◌, ◌-◌, ◌<◌, ◌≤◌, length, nat_lt, slice_index, IfOk};
ghost use Rattle.std.specs.List.{range_with_len, sum_by};
ghost use Rattle.khe_base.specs.declared.limits.TheConstants.{GREATEST_COUNT, TIMES};
ghost use Rattle.khe_base.specs.Bits.{has_bit};
ghost use Rattle.timetables.specs.Counts.{is_busy, no_counts, row_of, count_at, with_count, busy_times, idle_times};
ghost use Rattle.resource_monitors.specs.Clashes.{HasClashes};

use khe_base::{NoMemory, ResourceId, TimeId};
use std::alloc::Global;
use std::marker::Model;
use timetables::{Mask, Timetable};

/// A timetable that keeps beside the counts, for each resource, how many tasks run beyond one at all
/// times together, so that clashes are read and not counted. Contracts see the rows of counts.
#[derive(Drop)]
pub(crate) struct CellTable {
    table: Timetable,
    clashes: Vec<u64>,
}

impl Model for CellTable {
    ghost use Rattle.std.specs.Prelude.{List, ℕ};
    ghost use Rattle.resource_monitors.specs.Clashes.{HasClashes};

    ghost Value = { List (List ℕ) };

    ghost view = { λ c. c.table };

    ghost invariant = { λ c. HasClashes c.table c.clashes.items };
}

impl CellTable {
    /// The table of this many resources and times in which every count is 0. It takes time and
    /// memory in proportion to resources times times; no other call takes any memory.
    pub(crate) fn open(alloc: Global, resources: u32, times: u32) -> Result<CellTable, NoMemory>
        requires { times ≤ TIMES }
        ensures { IfOk result (λ c. c ≡ no_counts resources times) }
    {
        Ok(CellTable {
            clashes: vec![in alloc; 0; resources as usize]?,
            table: Timetable::open(alloc, resources, times)?,
        })
    }

    /// Adds one to the count of a resource at a time; every other count stays as it was. It
    /// takes constant time.
    pub(crate) fn rise(&mut self, r: ResourceId, t: TimeId)
        requires resource { r.0 < length self.old }
        requires time { t.0 < length (row_of self.old r.0) }
        requires count { count_at self.old r.0 t.0 < GREATEST_COUNT }
        ensures { self.new ≡ with_count self.old r.0 t.0 (count_at self.old r.0 t.0 + 1) }
    {
        let count = self.table.count(r, t);
        recount(&mut self.clashes, &self.table, r, t, count + 1);
        self.table.rise(r, t);
    }

    /// Takes one from the count of a resource at a time; every other count stays as it was. It
    /// takes constant time.
    pub(crate) fn fall(&mut self, r: ResourceId, t: TimeId)
        requires resource { r.0 < length self.old }
        requires time { t.0 < length (row_of self.old r.0) }
        requires count { 0 < count_at self.old r.0 t.0 }
        ensures { self.new ≡ with_count self.old r.0 t.0 (count_at self.old r.0 t.0 - 1) }
    {
        let count = self.table.count(r, t);
        recount(&mut self.clashes, &self.table, r, t, count - 1);
        self.table.fall(r, t);
    }

    /// The count of a resource at a time. It takes constant time.
    pub(crate) fn count(&self, r: ResourceId, t: TimeId) -> u32
        requires resource { r.0 < length self.now }
        requires time { t.0 < length (row_of self.now r.0) }
        ensures { result ≡ count_at self.now r.0 t.0 }
    {
        self.table.count(r, t)
    }

    /// The busy times of a resource, of the first 64: the bit of value 2^i is set where it is busy at the time i, and
    /// nowhere else. It takes constant time.
    pub(crate) fn word(&self, r: ResourceId) -> u64
        requires resource { r.0 < length self.now }
        requires times { 0 < length (row_of self.now r.0) }
        ensures { (i : ℕ) → i < 64 → has_bit result i ≡ is_busy (row_of self.now r.0) i }
    {
        self.table.word(r, 0)
    }

    /// For each time, how many tasks of a resource run then beyond one. It takes constant time.
    pub(crate) fn clashes(&self, r: ResourceId) -> u64
        requires { r.0 < length self.now }
        ensures { result ≡ sum_by (λ t. slice_index (row_of self.now r.0) t - 1) (range_with_len 0 (length (row_of self.now r.0))) }
    {
        self.clashes[r.0 as usize]
    }

    /// The number of times of a mask at which a resource is busy. It takes time in proportion to
    /// the words, of 64 times each, from the mask's first time to its last.
    pub(crate) fn busy_in(&self, r: ResourceId, mask: &Mask) -> u32
        requires resource { r.0 < length self.now }
        requires size { length mask.now ≡ length (row_of self.now r.0) }
        ensures { result ≡ busy_times (row_of self.now r.0) mask.now }
    {
        self.table.busy_in(r, mask)
    }

    /// Whether a resource is busy at one of the times of a mask. It takes no more time than to count
    /// these times.
    pub(crate) fn meets(&self, r: ResourceId, mask: &Mask) -> bool
        requires resource { r.0 < length self.now }
        requires size { length mask.now ≡ length (row_of self.now r.0) }
        ensures { result ≡ nat_lt 0 (busy_times (row_of self.now r.0) mask.now) }
    {
        self.table.meets(r, mask)
    }

    /// The number of idle times of a mask: times of the mask at which a resource isn't busy,
    /// while it is busy at an earlier and at a later time of the mask. It takes time in
    /// proportion to the words, of 64 times each, from the mask's first time to its last.
    pub(crate) fn idle_in(&self, r: ResourceId, mask: &Mask) -> u32
        requires resource { r.0 < length self.now }
        requires size { length mask.now ≡ length (row_of self.now r.0) }
        ensures { result ≡ idle_times (row_of self.now r.0) mask.now }
    {
        self.table.idle_in(r, mask)
    }
}

/// Makes the total of a resource fit another count of it at a time.
fn recount(clashes: &mut Vec<u64>, table: &Timetable, r: ResourceId, t: TimeId, count: u32)
    requires resource { r.0 < length table.now }
    requires time { t.0 < length (row_of table.now r.0) }
    requires few { count ≤ GREATEST_COUNT }
    requires totals { HasClashes table.now clashes.old.items }
    ensures { HasClashes (with_count table.now r.0 t.0 count) clashes.new.items }
{
    let before = u64::from(table.count(r, t).saturating_sub(1));
    let beyond = u64::from(count.saturating_sub(1));
    let total = clashes[r.0 as usize];
    clashes[r.0 as usize] = total + beyond - before;
}
