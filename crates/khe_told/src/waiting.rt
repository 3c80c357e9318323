//! Monitors that wait to be measured anew.

ghost use Rattle.std.specs.Prelude.{◌≡◌, ◌<◌, ◌≤◌, ◌+◌, ◌++◌, ◌∷◌, [], ◌||◌, ◌&&◌, Bool, ℕ, true, false, length, nat_eq, replicate, slice_set, vec_capacity, vec_len, IfOk, MatchOption};
ghost use Rattle.std.specs.List.{count_by};
ghost use Rattle.khe_told.specs.Waits.{AreListedOnce, waits_in};

use khe_base::{MonitorId, NoMemory};
use std::alloc::Global;
use std::marker::Model;

/// What is notified of monitors whose deviations may have changed.
pub trait Waits {
    /// Whether it queues the monitors of which it is notified.
    ghost hears: { Bool };

    /// How many monitors there are.
    ghost monitors: { Self → ℕ };

    /// Whether the monitor with a number waits to be measured anew.
    ghost waits: { Self → ℕ → Bool };

    /// Whether it queues the monitors of which it is notified. It takes constant time.
    fn hears() -> bool
        ensures { result ≡ hears };

    /// Queues a monitor, in constant time and without memory. A monitor that is queued already stays queued
    /// once.
    fn add(&mut self, monitor: MonitorId)
        requires known { monitor.0 < monitors self.old }
        ensures monitors { monitors self.new ≡ monitors self.old }
        ensures waits { (k : ℕ) → waits self.new k ≡ (waits self.old k || (hears && nat_eq k monitor.0)) };
}

/// The queue of monitors that are to be measured anew, each once. Contracts see for each monitor whether it is
/// queued, and how many are, but not their order: each deviation is measured by itself, so any order gives the
/// same.
#[derive(Drop)]
pub struct Waiting {
    list: Vec<MonitorId>,
    /// For each monitor whether it is in the list.
    flags: Vec<bool>,
}

impl Model for Waiting {
    ghost use Rattle.std.specs.Prelude.{◌≤◌, length, vec_capacity};
    ghost use Rattle.khe_told.specs.Waits.{AreListedOnce, Waiters};

    ghost Value = { Waiters };

    ghost view = { λ w. record { flags = w.flags.items; amount = length w.list.items } };

    ghost invariant = { λ w. AreListedOnce w.list.items w.flags.items × (length w.flags.items ≤ vec_capacity w.list) };
}

impl Waiting {
    /// The empty queue for the given number of monitors. It takes time and memory in proportion to that number;
    /// no other call takes memory.
    pub fn open(alloc: Global, monitors: u32) -> Result<Waiting, NoMemory>
        ensures flags { IfOk result (λ w. w.flags ≡ replicate monitors false) }
        ensures amount { IfOk result (λ w. w.amount ≡ 0) }
    {
        let list = Vec::with_capacity(alloc, monitors as usize)?;
        let flags = vec![in alloc; false; monitors as usize]?;
        Ok(Waiting { list, flags })
    }

    /// What is true of every queue: exactly the flagged monitors are queued.
    pub fn facts(&self)
        ensures { self.now.amount ≡ count_by (λ (b : Bool). b) self.now.flags }
    {
        let _ = &self.list;
    }

    /// The queued monitors, each once, in the order in which they came. It takes constant time.
    pub fn as_slice(&self) -> &[MonitorId]
        ensures { AreListedOnce result.now self.now.flags }
    {
        self.list.as_slice()
    }

    /// Removes the monitor that was queued last and returns it, or `None` where the queue is empty. It takes
    /// constant time.
    pub fn pop(&mut self) -> Option<MonitorId>
        ensures { MatchOption result
            ((self.new ≡ self.old) × (self.old.amount ≡ 0) × ((k : ℕ) → waits_in self.old k ≡ false))
            (λ m. (m.0 < length self.old.flags) × (waits_in self.old m.0 ≡ true) × (self.new.flags ≡ slice_set self.old.flags m.0 false) × (self.old.amount ≡ self.new.amount + 1)) }
    {
        let monitor = self.list.pop()?;
        self.flags[monitor.0 as usize] = false;
        Some(monitor)
    }
}

/// Adds a monitor at the end of a list that has room for it.
fn push(list: &mut Vec<MonitorId>, monitor: MonitorId)
    requires { vec_len list.old < vec_capacity list.old }
    ensures items { list.new.items ≡ list.old.items ++ monitor ∷ [] }
    ensures room { vec_capacity list.old ≤ vec_capacity list.new }
{
    let Ok(()) = list.push(monitor) else {
        unreachable!()
    };
}

impl Waits for Waiting {
    ghost use Rattle.std.specs.Prelude.{true, length};
    ghost use Rattle.khe_told.specs.Waits.{waits_in};

    ghost hears = { true };

    ghost monitors = { λ w. length w.flags };

    ghost waits = { waits_in };

    fn hears() -> bool {
        true
    }

    fn add(&mut self, monitor: MonitorId) {
        let place = monitor.0 as usize;
        if self.flags[place] {
            return;
        }
        self.flags[place] = true;
        push(&mut self.list, monitor);
    }
}

/// A queue that ignores what it is told: for the undoing of a trial, after which every monitor has the
/// deviation that it had before.
#[derive(Drop)]
pub struct Unheard {
    /// How many monitors there are.
    pub monitors: u32,
}

impl Waits for Unheard {
    ghost use Rattle.std.specs.Prelude.{false};

    ghost hears = { false };

    ghost monitors = { λ w. w.monitors };

    ghost waits = { λ w k. false };

    fn hears() -> bool {
        false
    }

    fn add(&mut self, monitor: MonitorId) {
        let _ = monitor;
    }
}
