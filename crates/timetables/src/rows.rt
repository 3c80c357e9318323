//! How often one resource is used at each time.

ghost use Rattle.std.specs.Prelude.{◌≡◌, ◌+◌, ◌-◌, ◌*◌, ◌^◌, ◌<◌, ℕ, length, nat_lt, replicate, slice_index, slice_set, IfOk};
ghost use Rattle.khe_base.specs.declared.limits.TheConstants.{GREATEST_COUNT};
ghost use Rattle.khe_base.specs.Bits.{has_bit, words_for};
ghost use Rattle.timetables.specs.Counts.{is_busy, busy_times, idle_times};

use crate::Mask;
use khe_base::NoMemory;
use khe_base::bits::{clear_bit, no_bits, set_bit};
use std::alloc::Global;
use std::marker::Model;

/// The counts of one resource at each time, and a bit for each time, set where the count is
/// above 0. Contracts see the list of the counts.
#[derive(Drop)]
pub struct Row {
    counts: Vec<u32>,
    busy: Vec<u64>,
}

impl Model for Row {
    ghost use Rattle.std.specs.Prelude.{List, ℕ};
    ghost use Rattle.timetables.specs.Stored.{HasBusyBits};

    ghost Value = { List ℕ };

    ghost view = { λ r. r.counts.items };

    ghost invariant = { λ r. HasBusyBits r.counts.items r.busy.items };
}

impl Row {
    pub fn new(alloc: Global, times: usize) -> Result<Row, NoMemory>
        requires { times < 2 ^ 32 }
        ensures { IfOk result (λ r. r ≡ replicate times 0) }
    {
        Ok(Row {
            counts: vec![in alloc; 0; times]?,
            busy: no_bits(alloc, (times + 63) / 64)?,
        })
    }

    pub fn rise(&mut self, t: usize)
        requires time { t < length self.old }
        requires count { slice_index self.old t < GREATEST_COUNT }
        ensures { self.new ≡ slice_set self.old t (slice_index self.old t + 1) }
    {
        self.counts[t] += 1;
        set_bit(&mut self.busy, t);
    }

    pub fn fall(&mut self, t: usize)
        requires time { t < length self.old }
        requires count { 0 < slice_index self.old t }
        ensures { self.new ≡ slice_set self.old t (slice_index self.old t - 1) }
    {
        self.counts[t] -= 1;
        if self.counts[t] == 0 {
            clear_bit(&mut self.busy, t);
        }
    }

    pub fn count(&self, t: usize) -> u32
        requires { t < length self.now }
        ensures { result ≡ slice_index self.now t }
    {
        self.counts[t]
    }

    pub fn word(&self, k: usize) -> u64
        requires { k < words_for (length self.now) }
        ensures { (i : ℕ) → i < 64 → has_bit result i ≡ is_busy self.now (64 * k + i) }
    {
        self.busy[k]
    }

    pub fn busy_in(&self, mask: &Mask) -> u32
        requires { length mask.now ≡ length self.now }
        ensures { result ≡ busy_times self.now mask.now }
    {
        mask.common(self.busy.as_slice())
    }

    pub fn meets(&self, mask: &Mask) -> bool
        requires { length mask.now ≡ length self.now }
        ensures { result ≡ nat_lt 0 (busy_times self.now mask.now) }
    {
        mask.meets(self.busy.as_slice())
    }

    pub fn idle_in(&self, mask: &Mask) -> u32
        requires { length mask.now ≡ length self.now }
        ensures { result ≡ idle_times self.now mask.now }
    {
        mask.idle(self.busy.as_slice())
    }
}
