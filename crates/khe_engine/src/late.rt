//! Changes that the families are told of later: when it is asked what the timetable costs, or when they are many.

ghost use Rattle.std.specs.Prelude.{◌≡◌, ◌<◌, ◌≤◌, ◌+◌, ◌++◌, ◌∷◌, [], length, vec_capacity, vec_len};
ghost use Rattle.khe_told.specs.Changes.{after_all};
ghost use Rattle.khe_told.specs.Fits.{AllFit};
ghost use Rattle.khe_told.specs.Watchers.{watcher_counts};
ghost use Rattle.khe_engine.specs.Late.{IsBehind, IsPut, LeadAlike};
ghost use Rattle.khe_engine.specs.Settled.{IsIdle};
ghost use Rattle.khe_engine.specs.States.{HaveSameGroups};
ghost use Rattle.khe_engine.specs.Values.{HasValues, ServesAll};

use crate::listeners::Listeners;
use crate::regrouping::GraphWatcher;
use khe_base::{GroupId, NoMemory};
use khe_instance::Instance;
use khe_told::{Back, Change, Edit, Family, Steps, Watcher};
use monitor_graph::Graph;
use std::sync::ledger::Ledger;

/// The listeners, and the changes that they were not told of yet. A change that takes the last of these back
/// removes it; so what is made and undone before a value is asked for costs next to nothing. Once there
/// is no room for the changes of an edit, all are told.
///
/// The deviations of the graph are those of the state that the families were told.
#[derive(Drop)]
pub(crate) struct Late<F: Family> {
    pub(crate) listeners: Listeners<F>,
    /// What was not told yet, the oldest first.
    pub(crate) changes: Vec<Change>,
    /// Whether anything is kept for later.
    pub(crate) defers: bool,
}

/// Tells the families changes that fit one after the other.
fn follow<F: Family, L: Ledger>(
    inst: &Instance,
    listeners: &mut Listeners<F>,
    changes: &[Change],
    steps: &mut Steps<L>,
)
    requires of { F.IsOf listeners.old.families inst.now }
    requires serves { ServesAll F.serves_kind }
    requires values { HasValues inst.now (F.told listeners.old.families) listeners.old.graph }
    requires idle { IsIdle inst.now listeners.old.waiting }
    requires fit { AllFit inst.now (F.told listeners.old.families) changes.now }
    ensures of { F.IsOf listeners.new.families inst.now }
    ensures told { F.told listeners.new.families ≡ after_all (F.told listeners.old.families) changes.now }
    ensures values { HasValues inst.now (F.told listeners.new.families) listeners.new.graph }
    ensures idle { IsIdle inst.now listeners.new.waiting }
    ensures rest { HaveSameGroups listeners.old.graph listeners.new.graph }
    ensures steps { steps.new ≤ steps.old + watcher_counts inst.now (F.told listeners.old.families) changes.now }
{
    listeners.note_all(inst, changes, steps);
}

/// Adds a change at the end of a list that has room for it.
fn push(list: &mut Vec<Change>, change: Change)
    requires { vec_len list.old < vec_capacity list.old }
    ensures items { list.new.items ≡ list.old.items ++ change ∷ [] }
    ensures room { vec_capacity list.old ≤ vec_capacity list.new }
{
    let Ok(()) = list.push(change) else {
        unreachable!()
    };
}

/// Adds a change at the end of a list that has room for it, or takes the last one away where the change takes it
/// back.
fn put(list: &mut Vec<Change>, change: Change)
    requires room { vec_len list.old < vec_capacity list.old }
    ensures put { IsPut list.old.items change list.new.items }
    ensures room { vec_capacity list.old ≤ vec_capacity list.new }
    ensures longer { vec_len list.new ≤ vec_len list.old + 1 }
{
    if let Some(last) = list.pop() {
        if change == last.inverse() {
            return;
        }
        push(list, last);
    }
    push(list, change);
}

/// Adds changes one by one to a list that has room for all of them.
fn put_all(list: &mut Vec<Change>, changes: &[Change])
    requires room { vec_len list.old + length changes.now ≤ vec_capacity list.old }
    ensures lead { LeadAlike list.old.items changes.now list.new.items }
    ensures room { vec_capacity list.old ≤ vec_capacity list.new }
{
    for change in changes {
        put(list, *change);
    }
}

impl<F: Family> Late<F> {
    /// Tells the families what they were not told yet, and measures whom that may alter: at most one step for each
    /// watcher of what is owed.
    #[tactic(auto, using(crate::proofs::ValueLaws::same_groups))]
    pub(crate) fn catch_up<L: Ledger>(&mut self, inst: &Instance, steps: &mut Steps<L>)
        requires of { F.IsOf self.old.listeners.families inst.now }
        requires serves { ServesAll F.serves_kind }
        requires values { HasValues inst.now (F.told self.old.listeners.families) self.old.listeners.graph }
        requires idle { IsIdle inst.now self.old.listeners.waiting }
        requires behind { IsBehind inst.now (F.told self.old.listeners.families) self.old.changes.items }
        ensures of { F.IsOf self.new.listeners.families inst.now }
        ensures told { F.told self.new.listeners.families ≡ after_all (F.told self.old.listeners.families) self.old.changes.items }
        ensures values { HasValues inst.now (F.told self.new.listeners.families) self.new.listeners.graph }
        ensures idle { IsIdle inst.now self.new.listeners.waiting }
        ensures none { self.new.changes.items ≡ [] }
        ensures room { vec_capacity self.old.changes ≤ vec_capacity self.new.changes }
        ensures rest { HaveSameGroups self.old.listeners.graph self.new.listeners.graph }
        ensures steps { steps.new ≤ steps.old + watcher_counts inst.now (F.told self.old.listeners.families) self.old.changes.items }
    {
        follow(inst, &mut self.listeners, self.changes.as_slice(), steps);
        self.changes.clear();
    }
}

impl<F: Family> Watcher for Late<F> {
    ghost use Rattle.std.specs.Prelude.{false, None, vec_capacity};
    ghost use Rattle.std.proofs.Common.{◌∙◌, refl};
    ghost use Rattle.khe_solution.specs.Timetables.{HasRoom};
    ghost use Rattle.khe_told.specs.Changes.{after_all};
    ghost use Rattle.khe_told.specs.Watchers.{watcher_counts};
    ghost use Rattle.khe_engine.specs.Late.{IsBehind};
    ghost use Rattle.khe_engine.specs.Settled.{IsIdle};
    ghost use Rattle.khe_engine.specs.Values.{HasValues, ServesAll};
    ghost use Rattle.khe_engine.specs.States.{HaveSameGroups};

    ghost told = { λ x. after_all (F.told x.listeners.families) x.changes.items };

    ghost IsOf = { λ x p. (F.IsOf x.listeners.families p × ServesAll F.serves_kind
        × HasValues p (F.told x.listeners.families) x.listeners.graph × IsIdle p x.listeners.waiting)
        × IsBehind p (F.told x.listeners.families) x.changes.items × HasRoom p (vec_capacity x.changes) };

    ghost noted = { λ x. None };

    ghost is_silent = { false };

    ghost owed = { λ x p. watcher_counts p (F.told x.listeners.families) x.changes.items };

    ghost HasSameRest = { λ x y. HaveSameGroups x.listeners.graph y.listeners.graph };

    fn note<L: Ledger>(&mut self, inst: &Instance, change: Change, steps: &mut Steps<L>) {
        self.note_all(inst, &[change], steps);
    }

    fn note_all<L: Ledger>(&mut self, inst: &Instance, changes: &[Change], steps: &mut Steps<L>) {
        let room = self.changes.capacity() - self.changes.len();
        if self.defers && changes.len() <= room {
            put_all(&mut self.changes, changes);
            return;
        }
        self.catch_up(inst, steps);
        follow(inst, &mut self.listeners, changes, steps);
    }

    ghost same_rest_refl = { λ x. record { grouping = refl; marked = refl; seats = refl } };

    ghost same_rest_trans = { λ x y z a b. record { grouping = a.grouping ∙ b.grouping; marked = a.marked ∙ b.marked; seats = a.seats ∙ b.seats } };
}

impl<F: Family> GraphWatcher for Late<F> {
    ghost board = { λ x. x.listeners.graph };

    fn graph(&self) -> &Graph {
        &self.listeners.graph
    }

    fn room(&mut self, inst: &Instance, group: GroupId, n: u32) -> Result<(), NoMemory> {
        self.listeners.room(inst, group, n)
    }

    fn regroup(&mut self, inst: &Instance, edit: Edit) -> Option<u32> {
        self.listeners.regroup(inst, edit)
    }

    fn undo_grouping(&mut self, inst: &Instance, back: Back) {
        self.listeners.undo_grouping(inst, back);
    }

    ghost same_groups = { λ x y h. h };
}
