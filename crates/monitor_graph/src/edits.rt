//! The six edits of monitors and groups.

ghost use Rattle.std.specs.Prelude.{◌≡◌, ◌<◌, [], true, false, None, Some, length, nat_lt, slice_get, slice_set, OnOk, OnErr};
ghost use Rattle.std.specs.List.{insert};
ghost use Rattle.khe_told.specs.declared.edits.Edit.TheVariants.{Attach, Detach, MakeGroup, DropGroup, AddChild, RemoveChild};
ghost use Rattle.monitor_graph.specs.Boards.{KeepsValues, grouping_of, regrouped};
ghost use Rattle.monitor_graph.specs.Edits.{is_of_groups, adds_child, adds_to, inserts_child, inserts_to, refusal, edited, made, back_of, undone, CanUndo, CanInsert, checked, answer};
ghost use Rattle.monitor_graph.specs.Groups.{children_at, free_number, has_child, place_of, HasSeat};

use crate::graph::Graph;
use crate::lines::Line;
use khe_base::{GroupId, MonitorId};
use khe_told::{Back, Edit, Refusal};

impl Graph {
    /// Whether an edit of monitors and groups is accepted, and else why it is refused: the first
    /// refusal in its row. It takes constant time.
    pub fn check(&self, edit: &Edit) -> Result<(), Refusal>
        requires ours { is_of_groups edit.now ≡ true }
        ensures answer { result ≡ checked (refusal (grouping_of self.now) edit.now) }
        ensures accepted { OnOk result (refusal (grouping_of self.now) edit.now ≡ None) }
    {
        match *edit {
            Edit::Attach { monitor } => self.check_attach(monitor),
            Edit::Detach { monitor } => self.check_detach(monitor),
            Edit::MakeGroup => self.check_make(),
            Edit::DropGroup { group } => self.check_drop(group),
            Edit::AddChild { group, child } => self.check_add(group, child),
            Edit::RemoveChild { group, child } => self.check_remove(group, child),
            _ => unreachable!(),
        }
    }

    fn check_attach(&self, monitor: MonitorId) -> Result<(), Refusal>
        ensures { result ≡ checked (refusal (grouping_of self.now) (Attach monitor)) }
    {
        if !self.knows(monitor) {
            return Err(Refusal::NoSuchMonitor);
        }
        if self.attached(monitor) {
            return Err(Refusal::Attached);
        }
        Ok(())
    }

    fn check_detach(&self, monitor: MonitorId) -> Result<(), Refusal>
        ensures { result ≡ checked (refusal (grouping_of self.now) (Detach monitor)) }
    {
        if !self.knows(monitor) {
            return Err(Refusal::NoSuchMonitor);
        }
        if !self.attached(monitor) {
            return Err(Refusal::Detached);
        }
        Ok(())
    }

    fn check_make(&self) -> Result<(), Refusal>
        ensures { result ≡ checked (refusal (grouping_of self.now) MakeGroup) }
    {
        if self.groups.free().is_none() {
            return Err(Refusal::GroupsFull);
        }
        Ok(())
    }

    fn check_drop(&self, group: GroupId) -> Result<(), Refusal>
        ensures { result ≡ checked (refusal (grouping_of self.now) (DropGroup group)) }
    {
        if !self.has_group(group) {
            return Err(Refusal::NoSuchGroup);
        }
        if self.groups.children(group).len() > 0 {
            return Err(Refusal::NotEmpty);
        }
        Ok(())
    }

    fn check_add(&self, group: GroupId, child: MonitorId) -> Result<(), Refusal>
        ensures { result ≡ checked (refusal (grouping_of self.now) (AddChild group child)) }
    {
        if !self.has_group(group) {
            return Err(Refusal::NoSuchGroup);
        }
        if !self.knows(child) {
            return Err(Refusal::NoSuchMonitor);
        }
        if self.groups.holds(group, child) {
            return Err(Refusal::IsChild);
        }
        Ok(())
    }

    fn check_remove(&self, group: GroupId, child: MonitorId) -> Result<(), Refusal>
        ensures { result ≡ checked (refusal (grouping_of self.now) (RemoveChild group child)) }
    {
        if !self.has_group(group) {
            return Err(Refusal::NoSuchGroup);
        }
        if !self.knows(child) {
            return Err(Refusal::NoSuchMonitor);
        }
        if !self.groups.holds(group, child) {
            return Err(Refusal::NotChild);
        }
        Ok(())
    }

    /// Makes an edit of monitors and groups. It answers the number of the group that it made, if
    /// any, or the edit's refusal, and then nothing has changed. Deviations stay. An AddChild needs a
    /// seat in its group. A RemoveChild looks for its child as `back` does, and moves the children of
    /// its group that stand behind it; the others take constant time.
    pub fn edit(&mut self, edit: Edit) -> Result<Option<u32>, Refusal>
        requires ours { is_of_groups edit ≡ true }
        requires room { adds_child edit ≡ true → HasSeat self.old.groups self.old.seats (adds_to edit) }
        ensures answer { result ≡ answer (refusal (grouping_of self.old) edit) (made (grouping_of self.old) edit) }
        ensures grouping { OnOk result (grouping_of self.new ≡ edited (grouping_of self.old) edit) }
        ensures rest { KeepsValues self.old self.new }
        ensures refused { OnErr result (self.new ≡ self.old) }
    {
        self.check(&edit)?;
        Ok(self.apply(edit))
    }

    /// The record that leads back from an accepted edit. The place of a child that is removed is found
    /// in logarithmic time where its group's children came in the order in which they first came into
    /// any group, and by going through the group elsewhere.
    pub fn back(&self, edit: &Edit) -> Back
        requires ours { is_of_groups edit.now ≡ true }
        requires accepted { refusal (grouping_of self.now) edit.now ≡ None }
        ensures record_ { result ≡ back_of (grouping_of self.now) edit.now }
        ensures leads { CanUndo (edited (grouping_of self.now) edit.now) result }
        ensures grouping { undone (edited (grouping_of self.now) edit.now) result ≡ grouping_of self.now }
    {
        self.facts();
        self.record_of(edit)
    }

    /// Undoes the edit that a record leads back from. Deviations stay. A RemoveChild that is undone
    /// needs a seat in its group, and moves the children of its group that then stand behind the child;
    /// an AddChild that is undone takes what a RemoveChild takes, and the others constant time.
    pub fn undo(&mut self, back: Back)
        requires leads { CanUndo (grouping_of self.old) back }
        requires room { inserts_child back ≡ true → HasSeat self.old.groups self.old.seats (inserts_to back) }
        ensures grouping { grouping_of self.new ≡ undone (grouping_of self.old) back }
        ensures rest { KeepsValues self.old self.new }
    {
        match back {
            Back::By(Edit::Attach { monitor }) => self.turn_attached(monitor, true),
            Back::By(Edit::Detach { monitor }) => self.turn_attached(monitor, false),
            Back::By(Edit::DropGroup { group }) => self.drop_group(group),
            Back::By(Edit::RemoveChild { group, child }) => self.remove_child(group, child),
            Back::Make(group) => self.make_group(group),
            Back::Insert {
                group,
                child,
                place,
            } => self.insert_child(group, child, place as usize),
            _ => unreachable!(),
        }
    }

    /// Makes an edit that is accepted.
    fn apply(&mut self, edit: Edit) -> Option<u32>
        requires ours { is_of_groups edit ≡ true }
        requires room { adds_child edit ≡ true → HasSeat self.old.groups self.old.seats (adds_to edit) }
        requires accepted { refusal (grouping_of self.old) edit ≡ None }
        ensures made { result ≡ made (grouping_of self.old) edit }
        ensures grouping { grouping_of self.new ≡ edited (grouping_of self.old) edit }
        ensures rest { KeepsValues self.old self.new }
    {
        match edit {
            Edit::Attach { monitor } => self.turn_attached(monitor, true),
            Edit::Detach { monitor } => self.turn_attached(monitor, false),
            Edit::MakeGroup => return Some(self.make_free()),
            Edit::DropGroup { group } => self.drop_group(group),
            Edit::AddChild { group, child } => self.add_child(group, child),
            Edit::RemoveChild { group, child } => self.remove_child(group, child),
            _ => unreachable!(),
        }
        None
    }

    /// The record that leads back from an edit.
    fn record_of(&self, edit: &Edit) -> Back
        requires ours { is_of_groups edit.now ≡ true }
        requires accepted { refusal (grouping_of self.now) edit.now ≡ None }
        ensures { result ≡ back_of (grouping_of self.now) edit.now }
    {
        match *edit {
            Edit::Attach { monitor } => Back::By(Edit::Detach { monitor }),
            Edit::Detach { monitor } => Back::By(Edit::Attach { monitor }),
            Edit::MakeGroup => Back::By(Edit::DropGroup {
                group: self.free_group(),
            }),
            Edit::DropGroup { group } => Back::Make(group),
            Edit::AddChild { group, child } => Back::By(Edit::RemoveChild { group, child }),
            Edit::RemoveChild { group, child } => Back::Insert {
                group,
                child,
                place: self.place_of(group, child),
            },
            _ => unreachable!(),
        }
    }

    /// Whether a monitor has this number.
    fn knows(&self, monitor: MonitorId) -> bool
        ensures { result ≡ nat_lt monitor.0 (length (grouping_of self.now).attached) }
    {
        (monitor.0 as usize) < self.lines.len()
    }

    /// The lowest number of no group.
    fn free_group(&self) -> GroupId
        requires { refusal (grouping_of self.now) MakeGroup ≡ None }
        ensures value { result.0 ≡ free_number self.now.groups }
        ensures free { slice_get self.now.groups result.0 ≡ Some None }
    {
        let Some(group) = self.groups.free() else {
            unreachable!()
        };
        group
    }

    /// The place of a child in its group.
    fn place_of(&self, group: GroupId, child: MonitorId) -> u32
        requires { has_child self.now.groups group.0 child.0 ≡ true }
        ensures { result ≡ place_of child.0 (children_at self.now.groups group.0) }
    {
        self.groups.facts();
        self.groups.place(group, child) as u32
    }

    /// Attaches or detaches a monitor.
    pub(crate) fn turn_attached(&mut self, monitor: MonitorId, attached: bool)
        requires known { monitor.0 < length (grouping_of self.old).attached }
        ensures grouping { grouping_of self.new ≡ record (grouping_of self.old) { attached = slice_set (grouping_of self.old).attached monitor.0 attached } }
        ensures rest { KeepsValues self.old self.new }
    {
        let line = Line {
            attached,
            ..self.lines[monitor.0 as usize]
        };
        self.turn(monitor, line);
    }

    /// Makes the group of the lowest free number, and answers the number.
    fn make_free(&mut self) -> u32
        requires { refusal (grouping_of self.old) MakeGroup ≡ None }
        ensures made { result ≡ free_number self.old.groups }
        ensures grouping { grouping_of self.new ≡ edited (grouping_of self.old) MakeGroup }
        ensures rest { KeepsValues self.old self.new }
    {
        let group = self.free_group();
        self.make_group(group);
        group.0
    }

    fn make_group(&mut self, group: GroupId)
        requires free { slice_get self.old.groups group.0 ≡ Some None }
        ensures grouping { grouping_of self.new ≡ regrouped self.old group.0 (Some []) }
        ensures rest { KeepsValues self.old self.new }
    {
        self.groups.make(group);
    }

    fn drop_group(&mut self, group: GroupId)
        requires empty { slice_get self.old.groups group.0 ≡ Some (Some []) }
        ensures grouping { grouping_of self.new ≡ regrouped self.old group.0 None }
        ensures rest { KeepsValues self.old self.new }
    {
        self.groups.drop_empty(group);
    }

    fn add_child(&mut self, group: GroupId, child: MonitorId)
        requires room { HasSeat self.old.groups self.old.seats group.0 }
        requires accepted { refusal (grouping_of self.old) (AddChild group child) ≡ None }
        ensures grouping { grouping_of self.new ≡ edited (grouping_of self.old) (AddChild group child) }
        ensures rest { KeepsValues self.old self.new }
    {
        self.groups.arrive(child);
        let last = self.groups.children(group).len();
        self.insert_child(group, child, last);
    }

    fn insert_child(&mut self, group: GroupId, child: MonitorId, place: usize)
        requires room { HasSeat self.old.groups self.old.seats group.0 }
        requires fits { CanInsert (grouping_of self.old) group.0 child.0 place }
        ensures grouping { grouping_of self.new ≡ regrouped self.old group.0 (Some (insert (children_at self.old.groups group.0) place child)) }
        ensures rest { KeepsValues self.old self.new }
    {
        self.costs
            .add(&self.groups, group, self.lines.as_slice(), child);
        self.groups.insert(group, child, place);
    }

    fn remove_child(&mut self, group: GroupId, child: MonitorId)
        requires there { has_child self.old.groups group.0 child.0 ≡ true }
        ensures grouping { grouping_of self.new ≡ edited (grouping_of self.old) (RemoveChild group child) }
        ensures rest { KeepsValues self.old self.new }
    {
        self.costs
            .remove(&self.groups, group, self.lines.as_slice(), child);
        self.groups.remove(group, child);
    }
}
