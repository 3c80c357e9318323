//! A value for each number below a size, cleared in the time of what was marked.

ghost use Rattle.std.specs.Prelude.{◌≡◌, ◌<◌, ◌++◌, ◌∷◌, [], ◌≤◌, ℕ, length, replicate, slice_index, slice_set, IfOk, All, if◌then◌else◌, ◌==◌, vec_len, vec_capacity};
ghost use Rattle.std.specs.List.{list_any, sum_by};
ghost use Rattle.khe_base.specs.IdSet.{has_member};
ghost use Rattle.khe_base.specs.declared.limits.TheConstants.{TIMES};
ghost use Rattle.event_deviations.specs.Marked.{marked_count, sum_in};

use khe_base::{IdSet, NoMemory};
use std::alloc::Global;
use std::marker::Model;

/// A value for each number below a size, 0 at first. Contracts see the list of the values.
///
/// It is made once and cleared in the time of what was marked since, whatever its size. No call but
/// `new` takes memory.
#[derive(Drop)]
pub(crate) struct Marks {
    values: Vec<u32>,
    /// The numbers whose value is above 0, with room for all numbers.
    marked: Vec<u32>,
}

impl Model for Marks {
    ghost use Rattle.std.specs.Prelude.{List, ℕ, ◌≤◌, length, vec_capacity};
    ghost use Rattle.event_deviations.specs.Marked.{AreListed};

    ghost Value = { List ℕ };

    ghost view = { λ m. m.values.items };

    ghost invariant = { λ m. AreListed m.values.items m.marked.items × (length m.values.items ≤ vec_capacity m.marked) };
}

impl Marks {
    /// The value 0 for the given number of numbers. It takes time and memory in proportion to the size.
    pub(crate) fn new(alloc: Global, size: u32) -> Result<Marks, NoMemory>
        ensures { IfOk result (λ m. m ≡ replicate size 0) }
    {
        Ok(Marks {
            values: vec![in alloc; 0; size as usize]?,
            marked: Vec::with_capacity(alloc, size as usize)?,
        })
    }

    /// The value of a number.
    pub(crate) fn at(&self, n: u32) -> u32
        requires { n < length self.now }
        ensures { result ≡ slice_index self.now n }
    {
        self.values[n as usize]
    }

    /// How many numbers have a value above 0.
    pub(crate) fn count(&self) -> u64
        ensures { result ≡ marked_count self.now }
    {
        self.marked.len() as u64
    }

    /// The sum of the values of the numbers in a set, in the time of the numbers that have a value
    /// above 0.
    pub(crate) fn sum_in(&self, set: &IdSet) -> u64
        requires { length self.now ≤ TIMES }
        ensures { result ≡ sum_in self.now set.now }
    {
        sum_of(self.values.as_slice(), self.marked.as_slice(), set)
    }

    /// Gives a number a value above 0, in constant time.
    pub(crate) fn put(&mut self, n: u32, value: u32)
        requires number { n < length self.old }
        requires value { 0 < value }
        ensures { self.new ≡ slice_set self.old n value }
    {
        if self.values[n as usize] == 0 {
            add(&mut self.marked, n);
        }
        self.values[n as usize] = value;
    }

    /// Gives all numbers the value 0 again, in time linear in the numbers that had another one.
    pub(crate) fn clear(&mut self)
        ensures { self.new ≡ replicate (length self.old) 0 }
    {
        reset(&mut self.values, self.marked.as_slice());
        self.marked.clear();
    }
}

/// Adds a number to a list that has room for it.
fn add(numbers: &mut Vec<u32>, n: u32)
    requires { vec_len numbers.old < vec_capacity numbers.old }
    ensures items { numbers.new.items ≡ numbers.old.items ++ n ∷ [] }
    ensures room { vec_capacity numbers.old ≤ vec_capacity numbers.new }
{
    let Ok(()) = numbers.push(n) else {
        unreachable!()
    };
}

/// The sum of the values of those of these numbers that are in a set.
fn sum_of(values: &[u32], numbers: &[u32], set: &IdSet) -> u64
    requires within { All (λ n. n < length values.now) numbers.now }
    requires few { length numbers.now ≤ TIMES }
    ensures { result ≡ sum_by (λ n. if has_member set.now n then slice_index values.now n else 0) numbers.now }
{
    let mut total = 0;
    for n in numbers {
        if set.has(*n) {
            total += u64::from(values[*n as usize]);
        }
    }
    total
}

/// Gives these numbers the value 0.
fn reset(values: &mut Vec<u32>, numbers: &[u32])
    requires { All (λ n. n < length values.old.items) numbers.now }
    ensures length { length values.new.items ≡ length values.old.items }
    ensures values { (n : ℕ) → slice_index values.new.items n ≡ (if list_any (λ m. m == n) numbers.now then 0 else slice_index values.old.items n) }
{
    for n in numbers {
        values[*n as usize] = 0;
    }
}
