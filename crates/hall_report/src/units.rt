//! The numbers of demands. An event has as many units as times of its duration, and one demand for
//! each unit and place. A meet holds as many units as it lasts, one for each offset, and the others
//! of its event are free.

ghost use Rattle.std.specs.Prelude.{◌≡◌, ◌<◌, ◌≤◌, ◌-◌, ℕ, length, slice_index_or, slice_set, map, ◌^◌, IfOk};
ghost use Rattle.std.specs.List.{range_with_len};
ghost use Rattle.khe_told.specs.Slots.{no_meets};
ghost use Rattle.hall_report.specs.Units.{walk, unit_at, AreUnits, AreFirsts};

use khe_base::{EventId, MeetId, NoMemory};
use khe_instance::Instance;
use std::alloc::Global;

/// Which units each meet holds. A unit has the number of a meet slot of its event; the units of a
/// meet follow one another, and so do the free ones of an event.
pub(crate) struct Units {
    /// Which unit follows each unit.
    next: Vec<u32>,
    /// The first unit of each meet slot's meet.
    held: Vec<u32>,
    /// The first free unit of each event.
    free: Vec<u32>,
    /// The number of the first demand of each unit: one for each place follows.
    tasks: Vec<u32>,
}

// By hand: an exit of a caller then has one call to prove, and not a drop for each field.
impl Drop for Units {
    fn drop(self) {
        let Units {
            next: _next,
            held: _held,
            free: _free,
            tasks: _tasks,
        } = self;
    }
}

impl Units {
    /// All units are free. It takes time and memory in proportion to the meet slots and the events.
    pub(crate) fn open(alloc: Global, inst: &Instance) -> Result<Units, NoMemory>
        ensures free { IfOk result (λ u. AreUnits inst.now.events (no_meets inst.now) u.next.items u.held.items u.free.items) }
        ensures firsts { IfOk result (λ u. AreFirsts inst.now.events u.tasks.items) }
    {
        inst.facts();
        let count = inst.meet_slots();
        let held = vec![in alloc; 0; count as usize]?;
        let next = followers(alloc, count)?;
        let free = first_units(alloc, inst)?;
        let tasks = first_demands(alloc, inst)?;
        Ok(Units {
            next,
            held,
            free,
            tasks,
        })
    }

    /// The first unit of a meet.
    pub(crate) fn first(&self, meet: MeetId) -> u32
        requires { meet.0 < length self.now.held.items }
        ensures { result ≡ slice_index_or self.now.held.items meet.0 0 }
    {
        self.held[meet.0 as usize]
    }

    /// The unit that follows a unit.
    pub(crate) fn next(&self, unit: u32) -> u32
        requires { unit < length self.now.next.items }
        ensures { result ≡ slice_index_or self.now.next.items unit 0 }
    {
        self.next[unit as usize]
    }

    /// The number of the first demand of a unit.
    pub(crate) fn first_demand(&self, unit: u32) -> u32
        requires { unit < length self.now.tasks.items }
        ensures { result ≡ slice_index_or self.now.tasks.items unit 0 }
    {
        self.tasks[unit as usize]
    }

    /// Gives free units of an event to a meet, one for each time that it lasts.
    pub(crate) fn hold(&mut self, event: EventId, meet: MeetId, duration: u32)
        requires event { event.0 < length self.old.free.items }
        requires meet { meet.0 < length self.old.held.items }
        requires within { (i : ℕ) → i < duration → unit_at self.old.next.items self.old.free.items event.0 i < length self.old.next.items }
        ensures held { self.new.held.items ≡ slice_set self.old.held.items meet.0 (slice_index_or self.old.free.items event.0 0) }
        ensures free { self.new.free.items ≡ slice_set self.old.free.items event.0 (unit_at self.old.next.items self.old.free.items event.0 duration) }
        ensures next { self.new.next.items ≡ self.old.next.items }
        ensures tasks { self.new.tasks.items ≡ self.old.tasks.items }
    {
        let first = self.free[event.0 as usize];
        let more = after(self.next.as_slice(), first, duration);
        self.held[meet.0 as usize] = first;
        self.free[event.0 as usize] = more;
    }

    /// Takes a meet's units back, which are free then.
    pub(crate) fn release(&mut self, event: EventId, meet: MeetId, duration: u32)
        requires event { event.0 < length self.old.free.items }
        requires meet { meet.0 < length self.old.held.items }
        requires some { 1 ≤ duration }
        requires within { (i : ℕ) → i < duration → unit_at self.old.next.items self.old.held.items meet.0 i < length self.old.next.items }
        ensures next { self.new.next.items ≡ slice_set self.old.next.items (unit_at self.old.next.items self.old.held.items meet.0 (duration - 1)) (slice_index_or self.old.free.items event.0 0) }
        ensures free { self.new.free.items ≡ slice_set self.old.free.items event.0 (slice_index_or self.old.held.items meet.0 0) }
        ensures held { self.new.held.items ≡ self.old.held.items }
        ensures tasks { self.new.tasks.items ≡ self.old.tasks.items }
    {
        let first = self.held[meet.0 as usize];
        let last = after(self.next.as_slice(), first, duration - 1);
        self.next[last as usize] = self.free[event.0 as usize];
        self.free[event.0 as usize] = first;
    }
}

// The unit that is `count` units after this one.
#[tactic(auto, using(crate::proofs::UnitLaws::walk_next, crate::proofs::UnitLaws::walk_zero))]
fn after(next: &[u32], unit: u32, count: u32) -> u32
    requires { (i : ℕ) → i < count → walk next.now unit i < length next.now }
    ensures { result ≡ walk next.now unit count }
{
    let mut at = unit;
    for _more in 0..count {
        at = next[at as usize];
    }
    at
}

// The unit after each of the given number of units.
#[tactic(auto, using(crate::proofs::UnitsOpened::range_next))]
fn followers(alloc: Global, count: u32) -> Result<Vec<u32>, NoMemory>
    requires { count < 2 ^ 32 - 1 }
    ensures { IfOk result (λ next. next.items ≡ range_with_len 1 count) }
{
    let mut next = Vec::new(alloc);
    for unit in 0..count {
        next.push(unit + 1)?;
    }
    Ok(next)
}

// The first unit of each event.
#[tactic(auto, using(crate::proofs::UnitsOpened::mapped_next))]
fn first_units(alloc: Global, inst: &Instance) -> Result<Vec<u32>, NoMemory>
    ensures { IfOk result (λ free. free.items ≡ map (λ e. e.first_meet) inst.now.events) }
{
    let mut free = Vec::new(alloc);
    for event in 0..inst.events() {
        free.push(inst.event(EventId(event)).first_meet)?;
    }
    Ok(free)
}

// The number of the first demand of each unit.
fn first_demands(alloc: Global, inst: &Instance) -> Result<Vec<u32>, NoMemory>
    ensures { IfOk result (λ tasks. AreFirsts inst.now.events tasks.items) }
{
    let mut tasks = Vec::new(alloc);
    for unit in 0..inst.meet_slots() {
        tasks.push(inst.first_task(MeetId(unit)))?;
    }
    Ok(tasks)
}
