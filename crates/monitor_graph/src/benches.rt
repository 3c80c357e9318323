//! The children of one group number.

ghost use Rattle.std.specs.Prelude.{◌≡◌, ◌≤◌, ◌<◌, ◌+◌, [], None, Some, is_some, length, IsOk, OnOk, OnErr, true};
ghost use Rattle.std.specs.List.{insert, remove};
ghost use Rattle.monitor_graph.specs.Seating.{sitting};

use khe_base::{MonitorId, NoMemory};
use std::alloc::Global;
use std::marker::Model;

/// Whether there is a group of a number, and its children in their order. Its room never shrinks,
/// and stays when the group goes.
#[derive(Drop)]
pub(crate) struct Bench {
    taken: bool,
    /// The children; none where there is no group.
    children: Vec<MonitorId>,
}

impl Model for Bench {
    ghost use Rattle.std.specs.Prelude.{◌≡◌, false, [], Some, None, if◌then◌else◌, vec_capacity};
    ghost use Rattle.monitor_graph.specs.Seating.{Sitting};

    ghost Value = { Sitting };

    ghost view = { λ b. record { group = if b.taken then Some b.children.items else None; seats = vec_capacity b.children } };

    ghost invariant = { λ b. b.taken ≡ false → b.children.items ≡ [] };
}

impl Bench {
    /// A number of no group, without room.
    pub(crate) fn new(alloc: Global) -> Bench
        ensures { result ≡ record { group = None; seats = 0 } }
    {
        Bench {
            taken: false,
            children: Vec::new(alloc),
        }
    }

    /// Whether there is a group.
    pub(crate) fn is_taken(&self) -> bool
        ensures { result ≡ is_some self.now.group }
    {
        self.taken
    }

    /// The children; none where there is no group.
    pub(crate) fn children(&self) -> &[MonitorId]
        ensures { result.now ≡ sitting self.now.group }
    {
        self.children.as_slice()
    }

    /// What is true of all benches: there is room for the children.
    pub(crate) fn facts(&self)
        ensures { length (sitting self.now.group) ≤ self.now.seats }
    {
        let _ = &self.children;
    }

    /// Makes a group without children.
    pub(crate) fn take(&mut self)
        ensures { self.new ≡ record self.old { group = Some [] } }
    {
        self.children.clear();
        self.taken = true;
    }

    /// Drops the group, and keeps the room.
    pub(crate) fn leave(&mut self)
        ensures { self.new ≡ record self.old { group = None } }
    {
        self.children.clear();
        self.taken = false;
    }

    /// Puts a child at a place. The children behind it move by one.
    pub(crate) fn insert(&mut self, child: MonitorId, place: usize)
        requires there { is_some self.old.group ≡ true }
        requires place { place ≤ length (sitting self.old.group) }
        requires room { length (sitting self.old.group) < self.old.seats }
        ensures { self.new ≡ record self.old { group = Some (insert (sitting self.old.group) place child) } }
    {
        let Ok(()) = self.children.insert(place, child) else {
            unreachable!()
        };
    }

    /// Takes the child at a place out. The children behind it move by one.
    pub(crate) fn remove(&mut self, place: usize)
        requires there { is_some self.old.group ≡ true }
        requires place { place < length (sitting self.old.group) }
        ensures { self.new ≡ record self.old { group = Some (remove (sitting self.old.group) place) } }
    {
        let _ = self.children.remove(place);
    }

    /// Makes room for this many children more. Where memory is refused, all stays as it was. Room
    /// for one more at a time is made in constant time on average, as it doubles.
    pub(crate) fn reserve(&mut self, n: usize) -> Result<(), NoMemory>
        ensures group { self.new.group ≡ self.old.group }
        ensures kept { self.old.seats ≤ self.new.seats }
        ensures ok { OnOk result (length (sitting self.new.group) + n ≤ self.new.seats) }
        ensures err { OnErr result (self.new ≡ self.old) }
        ensures there { length (sitting self.old.group) + n ≤ self.old.seats → IsOk result }
    {
        self.children.reserve(n)?;
        Ok(())
    }
}
