//! The trait of a watcher that has the graph of an engine.

ghost use Rattle.std.specs.Prelude.{ℕ, ◌≡◌, ◌+◌, ◌<◌, ◌≤◌, None, true, length, OnErr, OnOk, IsOk};
ghost use Rattle.khe_base.specs.declared.limits.TheConstants.{GROUPS};
ghost use Rattle.monitor_graph.specs.Boards.{Board, grouping_of};
ghost use Rattle.monitor_graph.specs.Edits as groups;
ghost use Rattle.monitor_graph.specs.Groups.{HasSeat, HaveAsMany, children_at, seats_at};
ghost use Rattle.khe_engine.specs.States.{HaveSameGroups};

use khe_base::{GroupId, NoMemory};
use khe_instance::Instance;
use khe_told::{Back, Edit, Watcher};
use monitor_graph::Graph;

/// A watcher of the changes of meets and tasks that has the graph, through which monitors are attached and grouped.
/// What it is told, what it owes and what its graph's monitors deviate by stays in each call.
pub(crate) trait GraphWatcher: Watcher {
    /// The graph.
    ghost board: { Self → Board };

    /// The graph.
    fn graph(&self) -> &Graph
        ensures { result.now ≡ board self.now };

    /// Makes room for this many more children in a group, as the graph does.
    fn room(&mut self, inst: &Instance, group: GroupId, n: u32) -> Result<(), NoMemory>
        requires of { Self.IsOf self.old inst.now }
        ensures of { Self.IsOf self.new inst.now }
        ensures told { Self.told self.new ≡ Self.told self.old }
        ensures owed { Self.owed self.new inst.now ≡ Self.owed self.old inst.now }
        ensures lines { (board self.new).lines ≡ (board self.old).lines }
        ensures groups { (board self.new).groups ≡ (board self.old).groups }
        ensures marked { (board self.new).marked ≡ (board self.old).marked }
        ensures kept { HaveAsMany (board self.old).seats (board self.new).seats }
        ensures ok { OnOk result (group.0 < GROUPS → length (children_at (board self.new).groups group.0) + n ≤ seats_at (board self.new).seats group.0) }
        ensures err { OnErr result (board self.new ≡ board self.old) };

    /// Makes an accepted edit of monitors and groups, for which there is room, as the graph does.
    fn regroup(&mut self, inst: &Instance, edit: Edit) -> Option<u32>
        requires of { Self.IsOf self.old inst.now }
        requires ours { groups.is_of_groups edit ≡ true }
        requires accepted { groups.refusal (grouping_of (board self.old)) edit ≡ None }
        requires room { groups.adds_child edit ≡ true → HasSeat (board self.old).groups (board self.old).seats (groups.adds_to edit) }
        ensures of { Self.IsOf self.new inst.now }
        ensures told { Self.told self.new ≡ Self.told self.old }
        ensures owed { Self.owed self.new inst.now ≡ Self.owed self.old inst.now }
        ensures made { result ≡ groups.made (grouping_of (board self.old)) edit }
        ensures grouping { grouping_of (board self.new) ≡ groups.edited (grouping_of (board self.old)) edit }
        ensures marked { (board self.new).marked ≡ (board self.old).marked }
        ensures seats { (board self.new).seats ≡ (board self.old).seats };

    /// Undoes the edit of monitors and groups that a record leads back from, as the graph does.
    fn undo_grouping(&mut self, inst: &Instance, back: Back)
        requires of { Self.IsOf self.old inst.now }
        requires leads { groups.CanUndo (grouping_of (board self.old)) back }
        requires room { groups.inserts_child back ≡ true → HasSeat (board self.old).groups (board self.old).seats (groups.inserts_to back) }
        ensures of { Self.IsOf self.new inst.now }
        ensures told { Self.told self.new ≡ Self.told self.old }
        ensures owed { Self.owed self.new inst.now ≡ Self.owed self.old inst.now }
        ensures grouping { grouping_of (board self.new) ≡ groups.undone (grouping_of (board self.old)) back }
        ensures marked { (board self.new).marked ≡ (board self.old).marked }
        ensures seats { (board self.new).seats ≡ (board self.old).seats };

    /// What stays beside the meets and tasks is the graph but for its deviations.
    ghost same_groups: { (x y : Self) → Self.HasSameRest x y → HaveSameGroups (board x) (board y) };
}
