//! How often each resource is used at each time.

ghost use Rattle.std.specs.Prelude.{◌≡◌, ◌+◌, ◌-◌, ◌*◌, ◌<◌, ℕ, length, nat_lt, IfOk};
ghost use Rattle.khe_base.specs.declared.limits.TheConstants.{GREATEST_COUNT};
ghost use Rattle.khe_base.specs.Bits.{has_bit, words_for};
ghost use Rattle.timetables.specs.Counts.{no_counts, row_of, count_at, with_count, is_busy, busy_times, idle_times};

use crate::Mask;
use crate::rows::Row;
use khe_base::{NoMemory, ResourceId, TimeId};
use std::alloc::Global;
use std::marker::Model;

/// How often each resource is used at each time. Contracts see a list of rows, one for each
/// resource: its counts at the times from 0 on.
///
/// Beside the counts it keeps a bit for each resource and time, set where the count is above 0,
/// 64 times in a word.
#[derive(Drop)]
pub struct Timetable {
    rows: Vec<Row>,
}

impl Model for Timetable {
    ghost use Rattle.std.specs.Prelude.{List, ℕ};

    ghost Value = { List (List ℕ) };

    ghost view = { λ t. t.rows.items };
}

impl Timetable {
    /// The timetable of this many resources and times in which every count is 0. It takes time
    /// and memory in proportion to resources times times; no other call takes any memory.
    pub fn open(alloc: Global, resources: u32, times: u32) -> Result<Timetable, NoMemory>
        ensures { IfOk result (λ t. t ≡ no_counts resources times) }
    {
        let mut rows = Vec::new(alloc);
        for _ in 0..resources {
            rows.push(Row::new(alloc, times as usize)?)?;
        }
        Ok(Timetable { rows })
    }

    /// Adds one to the count of a resource at a time; every other count stays as it was. It
    /// takes constant time.
    pub fn rise(&mut self, r: ResourceId, t: TimeId)
        requires resource { r.0 < length self.old }
        requires time { t.0 < length (row_of self.old r.0) }
        requires count { count_at self.old r.0 t.0 < GREATEST_COUNT }
        ensures { self.new ≡ with_count self.old r.0 t.0 (count_at self.old r.0 t.0 + 1) }
    {
        let row = &mut self.rows[r.0 as usize];
        row.rise(t.0 as usize);
    }

    /// Takes one from the count of a resource at a time; every other count stays as it was. It
    /// takes constant time.
    pub fn fall(&mut self, r: ResourceId, t: TimeId)
        requires resource { r.0 < length self.old }
        requires time { t.0 < length (row_of self.old r.0) }
        requires count { 0 < count_at self.old r.0 t.0 }
        ensures { self.new ≡ with_count self.old r.0 t.0 (count_at self.old r.0 t.0 - 1) }
    {
        let row = &mut self.rows[r.0 as usize];
        row.fall(t.0 as usize);
    }

    /// The count of a resource at a time. It takes constant time.
    pub fn count(&self, r: ResourceId, t: TimeId) -> u32
        requires resource { r.0 < length self.now }
        requires time { t.0 < length (row_of self.now r.0) }
        ensures { result ≡ count_at self.now r.0 t.0 }
    {
        self.rows[r.0 as usize].count(t.0 as usize)
    }

    /// Whether a resource is busy at a time: its count is above 0. It takes constant time.
    pub fn busy(&self, r: ResourceId, t: TimeId) -> bool
        requires resource { r.0 < length self.now }
        requires time { t.0 < length (row_of self.now r.0) }
        ensures { result ≡ is_busy (row_of self.now r.0) t.0 }
    {
        self.count(r, t) > 0
    }

    /// The word of the 64 times from 64 k on: its bit of value 2^i is set where 64 k + i is a
    /// time at which the resource is busy, and nowhere else. It takes constant time.
    pub fn word(&self, r: ResourceId, k: u32) -> u64
        requires resource { r.0 < length self.now }
        requires word { k < words_for (length (row_of self.now r.0)) }
        ensures { (i : ℕ) → i < 64 → has_bit result i ≡ is_busy (row_of self.now r.0) (64 * k + i) }
    {
        self.rows[r.0 as usize].word(k as usize)
    }

    /// The number of times of a mask at which a resource is busy. It takes time in proportion to
    /// the words, of 64 times each, from the mask's first time to its last.
    pub fn busy_in(&self, r: ResourceId, mask: &Mask) -> u32
        requires resource { r.0 < length self.now }
        requires size { length mask.now ≡ length (row_of self.now r.0) }
        ensures { result ≡ busy_times (row_of self.now r.0) mask.now }
    {
        self.rows[r.0 as usize].busy_in(mask)
    }

    /// Whether a resource is busy at one of the times of a mask. It takes no more time than to count
    /// these times.
    pub fn meets(&self, r: ResourceId, mask: &Mask) -> bool
        requires resource { r.0 < length self.now }
        requires size { length mask.now ≡ length (row_of self.now r.0) }
        ensures { result ≡ nat_lt 0 (busy_times (row_of self.now r.0) mask.now) }
    {
        self.rows[r.0 as usize].meets(mask)
    }

    /// The number of idle times of a mask: times of the mask at which a resource isn't busy,
    /// while it is busy at an earlier and at a later time of the mask. It takes time in
    /// proportion to the words, of 64 times each, from the mask's first time to its last.
    pub fn idle_in(&self, r: ResourceId, mask: &Mask) -> u32
        requires resource { r.0 < length self.now }
        requires size { length mask.now ≡ length (row_of self.now r.0) }
        ensures { result ≡ idle_times (row_of self.now r.0) mask.now }
    {
        self.rows[r.0 as usize].idle_in(mask)
    }
}
