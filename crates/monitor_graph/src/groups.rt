//! Groups of monitors, each with its children in order.

ghost use Rattle.std.specs.Prelude.{ℕ, ◌≡◌, ◌<◌, ◌≤◌, ◌+◌, ◌^◌, [], true, false, Some, None, is_none, length, replicate, slice_get, slice_index_or, slice_set, All, AllPairs, ◌≢◌, IfOk, IsOk, OnOk, OnErr, MatchOption, nat_le};
ghost use Rattle.std.specs.List.{insert, position_or_len};
ghost use Rattle.khe_base.specs.declared.limits.TheConstants.{GROUPS, MONITORS};
ghost use Rattle.monitor_graph.specs.Groups.{AreGroups, has_group, children_at, has_child, place_of, without, free_number, seats_at, HasSeat, HaveRoom, HaveAsMany};
ghost use Rattle.monitor_graph.specs.Opened.{groups_in};
ghost use Rattle.monitor_graph.specs.Seating.{groups_on};

use crate::benches::Bench;
use khe_base::bits::{clear_bit, is_set, no_bits, set_bit};
use khe_base::limits::GROUPS;
use khe_base::{GroupId, MonitorId, NoMemory};
use std::alloc::Global;
use std::marker::Model;

/// How many bits each monitor has: one for each group number, in whole words.
const BITS: usize = 256;

/// Groups of monitors, each with its children in the order in which they were added.
///
/// Each group number has a list of its own, so that a child that comes or goes moves children of its
/// group alone. A bit for each monitor and group number tells in constant time whether a monitor is
/// in a group.
#[derive(Drop)]
pub(crate) struct Groups {
    /// For each group number its group and the room for its children.
    benches: Vec<Bench>,
    /// How many children all groups together have.
    many: usize,
    /// For each monitor the groups that it is in.
    held: Vec<u64>,
    /// Of how many monitors these are groups.
    monitors: usize,
    /// For each monitor how many had come before it when it last came into a group while it was in
    /// none. The search for a child goes by these; whatever they are, it finds the child.
    came: Vec<u32>,
    /// How many came.
    arrivals: u32,
}

impl Model for Groups {
    ghost use Rattle.monitor_graph.specs.Groups.{HaveRoom};
    ghost use Rattle.monitor_graph.specs.Seating.{Seating, groups_on, seats_on, AreSeated};

    ghost Value = { Seating };

    ghost view = { λ g. record { groups = groups_on g.benches.items; monitors = g.monitors; seats = seats_on g.benches.items } };

    ghost invariant = { λ g. AreSeated (groups_on g.benches.items) g.monitors g.many g.held.items
        × HaveRoom (groups_on g.benches.items) (seats_on g.benches.items) };
}

impl Groups {
    /// No groups, for the given number of monitors and without room for children. It takes time and
    /// memory in proportion to the monitors.
    pub(crate) fn open(alloc: Global, monitors: usize) -> Result<Groups, NoMemory>
        requires { monitors ≤ MONITORS }
        ensures groups { IfOk result (λ g. g.groups ≡ groups_in []) }
        ensures monitors { IfOk result (λ g. g.monitors ≡ monitors) }
    {
        Ok(Groups {
            monitors,
            many: 0,
            benches: no_benches(alloc)?,
            held: no_bits(alloc, BITS / 64 * monitors)?,
            came: vec![in alloc; 0; monitors]?,
            arrivals: 0,
        })
    }

    /// Puts children into a group without any.
    pub(crate) fn put_all(&mut self, group: GroupId, children: &[MonitorId])
        requires empty { slice_get self.old.groups group.0 ≡ Some (Some []) }
        requires known { All (λ m. m.0 < self.old.monitors) children.now }
        requires once { AllPairs (λ x y. x ≢ y) children.now }
        requires room { group.0 < GROUPS → length children.now ≤ seats_at self.old.seats group.0 }
        ensures groups { self.new.groups ≡ slice_set self.old.groups group.0 (Some children.now) }
        ensures monitors { self.new.monitors ≡ self.old.monitors }
        ensures seats { self.new.seats ≡ self.old.seats }
    {
        for place in 0..children.len() {
            self.append(group, children[place], place);
        }
    }

    /// What is true of all groups: each child is one of the monitors and stands in a group at most
    /// once, and there is a seat for each child.
    pub(crate) fn facts(&self)
        ensures valid { AreGroups self.now.monitors self.now.groups }
        ensures few { (g : ℕ) → length (children_at self.now.groups g) ≤ self.now.monitors }
        ensures seats { HaveRoom self.now.groups self.now.seats }
    {
        let _ = &self.benches;
    }

    /// Whether a group has this number, in constant time.
    pub(crate) fn has(&self, group: GroupId) -> bool
        ensures { result ≡ has_group self.now.groups group.0 }
    {
        let place = group.0 as usize;
        if place < self.benches.len() {
            self.benches[place].is_taken()
        } else {
            false
        }
    }

    /// The children of a group, in their order, in constant time; none where no group has the number.
    pub(crate) fn children(&self, group: GroupId) -> &[MonitorId]
        ensures { result.now ≡ children_at self.now.groups group.0 }
    {
        let place = group.0 as usize;
        if place < self.benches.len() {
            self.benches[place].children()
        } else {
            &[]
        }
    }

    /// Whether a monitor is a child of a group, in constant time.
    pub(crate) fn holds(&self, group: GroupId, child: MonitorId) -> bool
        ensures { result ≡ has_child self.now.groups group.0 child.0 }
    {
        let group = group.0 as usize;
        group < self.benches.len() && is_set(self.held.as_slice(), BITS * child.0 as usize + group)
    }

    /// Whether a monitor is in no group, in constant time.
    pub(crate) fn is_alone(&self, child: MonitorId) -> bool
        ensures { result ≡ true → (g : ℕ) → has_child self.now.groups g child.0 ≡ false }
    {
        if self.many == 0 {
            return true;
        }
        is_clear(self.held.as_slice(), BITS / 64 * child.0 as usize)
    }

    /// The lowest number of no group; `None` where each number is taken.
    pub(crate) fn free(&self) -> Option<GroupId>
        ensures { MatchOption result
            (nat_le (length self.now.groups) (free_number self.now.groups) ≡ true)
            (λ g. (g.0 ≡ free_number self.now.groups) × (slice_get self.now.groups g.0 ≡ Some None)) }
    {
        first_none(self.benches.as_slice())
    }

    /// Makes a group without children, of a number that no group has.
    pub(crate) fn make(&mut self, group: GroupId)
        requires free { slice_get self.old.groups group.0 ≡ Some None }
        ensures groups { self.new.groups ≡ slice_set self.old.groups group.0 (Some []) }
        ensures monitors { self.new.monitors ≡ self.old.monitors }
        ensures seats { self.new.seats ≡ self.old.seats }
    {
        self.benches[group.0 as usize].take();
    }

    /// Drops a group without children.
    pub(crate) fn drop_empty(&mut self, group: GroupId)
        requires empty { slice_get self.old.groups group.0 ≡ Some (Some []) }
        ensures groups { self.new.groups ≡ slice_set self.old.groups group.0 None }
        ensures monitors { self.new.monitors ≡ self.old.monitors }
        ensures seats { self.new.seats ≡ self.old.seats }
    {
        self.benches[group.0 as usize].leave();
    }

    /// Notes that a monitor comes into a group, where it is in none so far.
    pub(crate) fn arrive(&mut self, child: MonitorId)
        ensures { self.new ≡ self.old }
    {
        let place = child.0 as usize;
        if place < self.came.len() && self.is_alone(child) {
            self.came[place] = self.arrivals;
            self.arrivals = self.arrivals.wrapping_add(1);
        }
    }

    /// Puts a child at a place of a group. The children behind it in its group move by one.
    pub(crate) fn insert(&mut self, group: GroupId, child: MonitorId, place: usize)
        requires there { has_group self.old.groups group.0 ≡ true }
        requires known { child.0 < self.old.monitors }
        requires place { place ≤ length (children_at self.old.groups group.0) }
        requires fresh { has_child self.old.groups group.0 child.0 ≡ false }
        requires room { HasSeat self.old.groups self.old.seats group.0 }
        ensures groups { self.new.groups ≡ slice_set self.old.groups group.0 (Some (insert (children_at self.old.groups group.0) place child)) }
        ensures monitors { self.new.monitors ≡ self.old.monitors }
        ensures seats { self.new.seats ≡ self.old.seats }
    {
        self.facts();
        self.benches[group.0 as usize].insert(child, place);
        self.many += 1;
        set_bit(&mut self.held, BITS * child.0 as usize + group.0 as usize);
    }

    /// Puts a child that may be new to all groups after the others of its group.
    fn append(&mut self, group: GroupId, child: MonitorId, place: usize)
        requires there { has_group self.old.groups group.0 ≡ true }
        requires known { child.0 < self.old.monitors }
        requires place { place ≤ length (children_at self.old.groups group.0) }
        requires fresh { has_child self.old.groups group.0 child.0 ≡ false }
        requires room { HasSeat self.old.groups self.old.seats group.0 }
        ensures groups { self.new.groups ≡ slice_set self.old.groups group.0 (Some (insert (children_at self.old.groups group.0) place child)) }
        ensures monitors { self.new.monitors ≡ self.old.monitors }
        ensures seats { self.new.seats ≡ self.old.seats }
    {
        self.arrive(child);
        self.insert(group, child, place);
    }

    /// Takes a child out of a group. It is looked for by `place`, and the children behind it in its
    /// group move by one.
    pub(crate) fn remove(&mut self, group: GroupId, child: MonitorId)
        requires there { has_child self.old.groups group.0 child.0 ≡ true }
        ensures groups { self.new.groups ≡ slice_set self.old.groups group.0 (Some (without child.0 (children_at self.old.groups group.0))) }
        ensures monitors { self.new.monitors ≡ self.old.monitors }
        ensures seats { self.new.seats ≡ self.old.seats }
    {
        let place = self.place(group, child);
        self.benches[group.0 as usize].remove(place);
        self.many -= 1;
        clear_bit(&mut self.held, BITS * child.0 as usize + group.0 as usize);
    }

    /// The place of a child in its group. It takes time by the logarithm of its children where they
    /// are in the order in which they came into a group first, and in proportion to them at most.
    pub(crate) fn place(&self, group: GroupId, child: MonitorId) -> usize
        ensures { result ≡ place_of child.0 (children_at self.now.groups group.0) }
    {
        self.facts();
        let children = self.children(group);
        let place = guess(children, self.came.as_slice(), child);
        if place < children.len() && children[place].0 == child.0 {
            place
        } else {
            first_of(children, child)
        }
    }

    /// Makes room for this many children more in the group of a number, whether it is there or not.
    /// Where memory is refused, all stays as it was.
    pub(crate) fn reserve(&mut self, group: GroupId, n: usize) -> Result<(), NoMemory>
        ensures groups { self.new.groups ≡ self.old.groups }
        ensures monitors { self.new.monitors ≡ self.old.monitors }
        ensures kept { HaveAsMany self.old.seats self.new.seats }
        ensures ok { OnOk result (group.0 < GROUPS → length (children_at self.new.groups group.0) + n ≤ seats_at self.new.seats group.0) }
        ensures err { OnErr result (self.new ≡ self.old) }
        ensures there { length (children_at self.old.groups group.0) + n ≤ seats_at self.old.seats group.0 → IsOk result }
    {
        let place = group.0 as usize;
        if place < self.benches.len() {
            self.benches[place].reserve(n)?;
        }
        Ok(())
    }
}

/// A bench for each group number, without groups and without room.
fn no_benches(alloc: Global) -> Result<Vec<Bench>, NoMemory>
    ensures { IfOk result (λ benches. benches.items ≡ replicate GROUPS (record { group = None; seats = 0 })) }
{
    let mut benches = Vec::with_capacity(alloc, GROUPS as usize)?;
    for _ in 0..GROUPS {
        benches.push(Bench::new(alloc))?;
    }
    Ok(benches)
}

/// Whether no bit is set in the words of a monitor, from this one on.
fn is_clear(held: &[u64], first: usize) -> bool
    requires { first < 2 ^ 63 }
    ensures { result ≡ true → (n : ℕ) → first ≤ n → n < first + 4 → slice_index_or held.now n 0 ≡ 0 }
{
    for word in first..first + BITS / 64 {
        if word < held.len() && held[word] != 0 {
            return false;
        }
    }
    true
}

/// The first number of no group.
fn first_none(benches: &[Bench]) -> Option<GroupId>
    requires { length benches.now < 2 ^ 32 }
    ensures { MatchOption result
        (length benches.now ≤ position_or_len is_none (groups_on benches.now))
        (λ g. (g.0 ≡ position_or_len is_none (groups_on benches.now)) × (g.0 < length benches.now)) }
{
    for place in 0..benches.len() {
        if !benches[place].is_taken() {
            return Some(GroupId(place as u32));
        }
    }
    None
}

/// Where a child stands if the children are in the order in which they came, of which there are
/// fewer than 2^32.
fn guess(children: &[MonitorId], came: &[u32], child: MonitorId) -> usize {
    let time = time_of(came, child);
    let mut low = 0;
    let mut high = children.len();
    for _ in 0..u32::BITS {
        if low < high {
            let middle = low + (high - low) / 2;
            if middle < children.len() && time_of(came, children[middle]) < time {
                low = middle + 1;
            } else {
                high = middle;
            }
        }
    }
    low
}

/// When a monitor came.
fn time_of(came: &[u32], monitor: MonitorId) -> u32 {
    let place = monitor.0 as usize;
    if place < came.len() { came[place] } else { 0 }
}

/// The place of a child, and after the last one where it is none of them.
fn first_of(children: &[MonitorId], child: MonitorId) -> usize
    ensures { result ≡ place_of child.0 children.now }
{
    for place in 0..children.len() {
        if children[place].0 == child.0 {
            return place;
        }
    }
    children.len()
}
