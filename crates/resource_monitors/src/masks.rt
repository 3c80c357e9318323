//! The sets of times of one constraint, as masks.

ghost use Rattle.std.specs.Prelude.{◌≡◌, ◌≤◌, ℕ, false, IfOk};
ghost use Rattle.resource_monitors.specs.Sets.{has_time, sets_of, IsUnion};

use khe_base::{IdSet, NoMemory, both};
use khe_instance::Rule;
use std::alloc::Global;
use std::marker::Model;
use std::slice;
use timetables::Mask;

/// The sets of times that a constraint names for a resource, as masks that are made once for all
/// its monitors, and all times that one of them has. Contracts see the list of the sets, in the
/// order of the constraint.
#[derive(Drop)]
pub(crate) struct TimeMasks {
    masks: Vec<Mask>,
    times: IdSet,
}

impl Model for TimeMasks {
    ghost use Rattle.std.specs.Prelude.{List, Bool};
    ghost use Rattle.resource_monitors.specs.Sets.{IsUnion};

    ghost Value = { List (List Bool) };

    ghost view = { λ m. m.masks.items };

    ghost invariant = { λ m. IsUnion m.masks.items m.times };
}

impl TimeMasks {
    /// The sets of a rule: the times that AvoidUnavailableTimes names, or the time groups that
    /// LimitIdleTimes, ClusterBusyTimes or LimitBusyTimes lists; all other rules have none. It
    /// takes time in proportion to sets times times, and memory for a bit for each of these and for
    /// each time.
    pub(crate) fn new(alloc: Global, rule: &Rule) -> Result<TimeMasks, NoMemory>
        ensures { IfOk result (λ m. m ≡ sets_of rule.now) }
    {
        match rule {
            Rule::AvoidUnavailableTimes { times } => of_sets(alloc, slice::from_ref(times)),
            Rule::LimitIdleTimes { groups, .. } => of_sets(alloc, groups.as_slice()),
            Rule::ClusterBusyTimes { groups, .. } => of_sets(alloc, groups.as_slice()),
            Rule::LimitBusyTimes { groups, .. } => of_sets(alloc, groups.as_slice()),
            _ => of_sets(alloc, &[]),
        }
    }

    pub(crate) fn as_slice(&self) -> &[Mask]
        ensures { result.now ≡ self.now }
    {
        self.masks.as_slice()
    }

    /// Whether one of the sets has a time. It takes constant time.
    pub(crate) fn has(&self, time: u32) -> bool
        ensures { result ≡ has_time self.now time }
    {
        self.times.has(time)
    }
}

fn of_sets(alloc: Global, sets: &[IdSet]) -> Result<TimeMasks, NoMemory>
    ensures { IfOk result (λ m. m ≡ sets.now) }
{
    let (masks, times) = both(masks_of(alloc, sets), union_of(alloc, sets))?;
    Ok(TimeMasks { masks, times })
}

fn masks_of(alloc: Global, sets: &[IdSet]) -> Result<Vec<Mask>, NoMemory>
    ensures { IfOk result (λ m. m.items ≡ sets.now) }
{
    let mut masks = Vec::new(alloc);
    for set in sets {
        masks.push(Mask::new(alloc, set)?)?;
    }
    Ok(masks)
}

// The times that one of the sets has. It takes time in proportion to sets times times.
fn union_of(alloc: Global, sets: &[IdSet]) -> Result<IdSet, NoMemory>
    ensures { IfOk result (λ times. IsUnion sets.now times) }
{
    let size = greatest_size(sets);
    let mut times = IdSet::new(alloc, size)?;
    for time in 0..size {
        if has_time(sets, time) {
            times.insert(time);
        }
    }
    Ok(times)
}

// The greatest of the sets' sizes, from which on none has a time.
fn greatest_size(sets: &[IdSet]) -> u32
    ensures { (t : ℕ) → result ≤ t → has_time sets.now t ≡ false }
{
    let mut size = 0;
    for set in sets {
        size = larger(size, set.size());
    }
    size
}

fn larger(one: u32, other: u32) -> u32
    ensures one { one ≤ result }
    ensures other { other ≤ result }
{
    if one < other { other } else { one }
}

// Whether one of the sets has a time.
fn has_time(sets: &[IdSet], time: u32) -> bool
    ensures { result ≡ has_time sets.now time }
{
    for set in sets {
        if set.has(time) {
            return true;
        }
    }
    false
}
