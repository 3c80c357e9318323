//! The tables of edits: what an edit makes, its changes, its record, and the changes that a record
//! undoes.

ghost use Rattle.std.specs.Prelude.{◌≡◌, ◌≤◌, ◌<◌, ◌+◌, ◌*◌, ◌^◌, ◌++◌, true, None, length, vec_len, vec_capacity, IfSome};
ghost use Rattle.khe_told.specs.Slots.{slot_at, length_of, start_of};
ghost use Rattle.khe_told.specs.Fits.{AreTold};
ghost use Rattle.khe_instance.specs.WellMade.{AreWellMade};
ghost use Rattle.khe_solution.specs.Reading.{free_slot};
ghost use Rattle.khe_solution.specs.Editing.{made, later};
ghost use Rattle.khe_solution.specs.Changing.{changes, cut_changes, join_changes, whole};
ghost use Rattle.khe_solution.specs.Backs.{back_of, undone_changes, split_changes, merge_changes};
ghost use Rattle.khe_solution.specs.Timetables.{AreRoomy, StartsLater, CutsWithin, RecutsWithin};

use crate::lists::{
    Part, put_cutting, put_exchange, put_give, put_joining, put_lift, put_move, put_place,
    put_regive, put_take, put_trade,
};
use crate::reads::{duration_of, resource_at, start_of};
use crate::slots::{Slots, new_meet};
use khe_base::{MeetId, TimeId};
use khe_instance::Instance;
use khe_told::{Back, Change, Edit, Told};

/// The meet of a slot, as a part of an edit.
fn whole(told: &Told, meet: MeetId) -> Part
    ensures { result ≡ whole meet (slot_at told.now meet.0) }
{
    Part {
        meet,
        duration: duration_of(told, meet),
        start: start_of(told, meet),
    }
}

/// The time that is `count` times later.
pub(crate) fn later(count: u32, time: Option<TimeId>) -> Option<TimeId>
    requires { IfSome time (λ t. t.0 + count < 2 ^ 32) }
    ensures { result ≡ later count time }
{
    let time = time?;
    Some(TimeId(time.0 + count))
}

/// Lists the changes by which a meet is cut, where the rest is this new meet.
fn put_split(list: &mut Vec<Change>, told: &Told, meet: MeetId, cut: u32, new: MeetId)
    requires room { AreRoomy told.now (vec_capacity list.old) }
    requires empty { vec_len list.old ≡ 0 }
    requires later { StartsLater told.now meet cut }
    ensures items { list.new.items ≡ list.old.items ++ cut_changes told.now meet cut new }
    ensures room { vec_capacity list.old ≤ vec_capacity list.new }
{
    let own = whole(told, meet);
    let first = Part {
        meet,
        duration: cut,
        start: own.start,
    };
    let second = Part {
        meet: new,
        duration: own.duration.saturating_sub(cut),
        start: later(cut, own.start),
    };
    put_cutting(list, told.given(meet), own, first, second);
}

/// Lists the changes by which a second meet is joined to a first one.
fn put_merge(list: &mut Vec<Change>, told: &Told, a: MeetId, b: MeetId)
    requires room { AreRoomy told.now (vec_capacity list.old) }
    requires empty { vec_len list.old ≡ 0 }
    ensures items { list.new.items ≡ list.old.items ++ join_changes told.now a b }
    ensures room { vec_capacity list.old ≤ vec_capacity list.new }
{
    let first = whole(told, a);
    let second = whole(told, b);
    let new = Part {
        meet: a,
        duration: first.duration + second.duration,
        start: first.start,
    };
    put_joining(list, told.given(a), first, second, new);
}

/// Lists the changes of the Split that left these two meets.
fn put_split_again(list: &mut Vec<Change>, told: &Told, a: MeetId, b: MeetId)
    requires room { AreRoomy told.now (vec_capacity list.old) }
    requires empty { vec_len list.old ≡ 0 }
    ensures items { list.new.items ≡ list.old.items ++ split_changes told.now a b }
    ensures room { vec_capacity list.old ≤ vec_capacity list.new }
{
    let first = whole(told, a);
    let second = whole(told, b);
    let old = Part {
        meet: a,
        duration: first.duration + second.duration,
        start: first.start,
    };
    put_cutting(list, told.given(a), old, first, second);
}

/// Lists the changes of the Merge that left this meet, of two that it cuts into again.
fn put_merge_again(list: &mut Vec<Change>, told: &Told, a: MeetId, cut: u32, b: MeetId)
    requires room { AreRoomy told.now (vec_capacity list.old) }
    requires empty { vec_len list.old ≡ 0 }
    requires later { StartsLater told.now a cut }
    ensures items { list.new.items ≡ list.old.items ++ merge_changes told.now a cut b }
    ensures room { vec_capacity list.old ≤ vec_capacity list.new }
{
    let own = whole(told, a);
    let first = Part {
        meet: a,
        duration: cut,
        start: own.start,
    };
    let second = Part {
        meet: b,
        duration: own.duration.saturating_sub(cut),
        start: later(cut, own.start),
    };
    put_joining(list, told.given(a), first, second, own);
}

/// The number of the meet that an edit makes.
#[tactic(auto, unfolding(crate::specs::Editing::made))]
pub(crate) fn made(inst: &Instance, slots: &Slots, edit: Edit) -> Option<u32>
    requires told { AreTold inst.now slots.now }
    requires cut { CutsWithin slots.now edit }
    ensures { result ≡ made slots.now edit }
{
    match edit {
        Edit::Split { meet, .. } => Some(new_meet(inst, slots, meet).0),
        _ => None,
    }
}

/// The record that leads back from an edit.
#[tactic(auto, unfolding(crate::specs::Backs::back_of))]
pub(crate) fn back_of(inst: &Instance, slots: &Slots, edit: &Edit) -> Back
    requires told { AreTold inst.now slots.now }
    requires cut { CutsWithin slots.now edit.now }
    ensures { result ≡ back_of slots.now edit.now }
{
    let told = slots.told();
    match *edit {
        Edit::Assign { meet, .. } => Back::By(Edit::Unassign { meet }),
        Edit::Unassign { meet } => match start_of(told, meet) {
            Some(time) => Back::By(Edit::Assign { meet, time }),
            None => Back::By(Edit::Unassign { meet }),
        },
        Edit::MoveTo { meet, time } => match start_of(told, meet) {
            Some(old) => Back::By(Edit::MoveTo { meet, time: old }),
            None => Back::By(Edit::MoveTo { meet, time }),
        },
        Edit::Split { meet, .. } => Back::By(Edit::Merge {
            first: meet,
            second: new_meet(inst, slots, meet),
        }),
        Edit::Merge { first, second } => Back::Cut {
            first,
            cut: duration_of(told, first),
            second,
        },
        Edit::Give { task, .. } => Back::By(Edit::Take { task }),
        Edit::Take { task } => match resource_at(told, task) {
            Some(resource) => Back::By(Edit::Give { task, resource }),
            None => Back::By(Edit::Take { task }),
        },
        Edit::Regive { task, resource } => match resource_at(told, task) {
            Some(old) => Back::By(Edit::Regive {
                task,
                resource: old,
            }),
            None => Back::By(Edit::Regive { task, resource }),
        },
        other => Back::By(other),
    }
}

/// Lists the changes of an edit, of which this is the number of the new meet, if it makes one.
#[tactic(auto, unfolding(crate::specs::Changing::changes, crate::specs::Editing::made))]
pub(crate) fn list_edit(list: &mut Vec<Change>, told: &Told, edit: Edit, new: Option<u32>)
    requires room { AreRoomy told.now (vec_capacity list.old) }
    requires cut { CutsWithin told.now edit }
    requires new { new ≡ made told.now edit }
    ensures items { list.new.items ≡ changes told.now edit }
    ensures room { vec_capacity list.old ≤ vec_capacity list.new }
{
    list.clear();
    match edit {
        Edit::Assign { meet, time } => put_place(list, meet, Some(time)),
        Edit::Unassign { meet } => put_lift(list, meet, start_of(told, meet)),
        Edit::MoveTo { meet, time } => put_move(list, meet, start_of(told, meet), Some(time)),
        Edit::Split { meet, cut } => {
            if let Some(slot) = new {
                put_split(list, told, meet, cut, MeetId(slot));
            }
        }
        Edit::Merge { first, second } => put_merge(list, told, first, second),
        Edit::SwapMeets { a, b } => {
            put_exchange(list, a, start_of(told, a), b, start_of(told, b));
        }
        Edit::Give { task, resource } => put_give(list, task, Some(resource)),
        Edit::Take { task } => put_take(list, task, resource_at(told, task)),
        Edit::Regive { task, resource } => {
            put_regive(list, task, resource_at(told, task), Some(resource));
        }
        Edit::SwapTasks { a, b } => {
            put_trade(list, a, resource_at(told, a), b, resource_at(told, b));
        }
        _ => {}
    }
}

/// Lists the changes of the edit that a record undoes.
#[tactic(auto, unfolding(crate::specs::Backs::undone_changes))]
pub(crate) fn list_undo(list: &mut Vec<Change>, told: &Told, back: Back)
    requires room { AreRoomy told.now (vec_capacity list.old) }
    requires cut { RecutsWithin told.now back }
    ensures items { list.new.items ≡ undone_changes told.now back }
    ensures room { vec_capacity list.old ≤ vec_capacity list.new }
{
    list.clear();
    match back {
        Back::By(Edit::Unassign { meet }) => put_place(list, meet, start_of(told, meet)),
        Back::By(Edit::Assign { meet, time }) => put_lift(list, meet, Some(time)),
        Back::By(Edit::MoveTo { meet, time }) => {
            put_move(list, meet, Some(time), start_of(told, meet));
        }
        Back::By(Edit::Merge { first, second }) => put_split_again(list, told, first, second),
        Back::By(Edit::SwapMeets { a, b }) => {
            put_exchange(list, a, start_of(told, b), b, start_of(told, a));
        }
        Back::By(Edit::Take { task }) => put_give(list, task, resource_at(told, task)),
        Back::By(Edit::Give { task, resource }) => put_take(list, task, Some(resource)),
        Back::By(Edit::Regive { task, resource }) => {
            put_regive(list, task, Some(resource), resource_at(told, task));
        }
        Back::By(Edit::SwapTasks { a, b }) => {
            put_trade(list, a, resource_at(told, b), b, resource_at(told, a));
        }
        Back::Cut { first, cut, second } => put_merge_again(list, told, first, cut, second),
        _ => {}
    }
}
