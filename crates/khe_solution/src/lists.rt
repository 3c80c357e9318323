//! The changes of one edit, listed in a buffer that is never longer than its room.

ghost use Rattle.std.specs.Prelude.{◌≡◌, ◌≤◌, ◌<◌, ◌+◌, ◌*◌, ◌^◌, ◌++◌, ◌∷◌, [], length, vec_len, vec_capacity};
ghost use Rattle.khe_solution.specs.Changing.{lifts, places, takes, gives, takes_from, gives_from, entering, cutting, joining};

use khe_base::{MeetId, ResourceId, TaskId, TimeId};
use khe_told::Change;

/// A meet that is there before or after an edit.
#[derive(Clone, Copy, PartialEq, Eq)]
pub(crate) struct Part {
    pub(crate) meet: MeetId,
    pub(crate) duration: u32,
    pub(crate) start: Option<TimeId>,
}

/// Lists a change.
pub(crate) fn put(list: &mut Vec<Change>, change: Change)
    requires room { vec_len list.old < vec_capacity list.old }
    ensures items { list.new.items ≡ list.old.items ++ change ∷ [] }
    ensures len { vec_len list.new ≡ vec_len list.old + 1 }
    ensures room { vec_capacity list.old ≤ vec_capacity list.new }
{
    let Ok(()) = list.push(change) else {
        unreachable!()
    };
}

/// Lists the Lift of a meet, if it has a start.
pub(crate) fn put_lift(list: &mut Vec<Change>, meet: MeetId, start: Option<TimeId>)
    requires room { vec_len list.old + 1 ≤ vec_capacity list.old }
    ensures items { list.new.items ≡ list.old.items ++ lifts meet start }
    ensures len { vec_len list.new ≤ vec_len list.old + 1 }
    ensures room { vec_capacity list.old ≤ vec_capacity list.new }
{
    if let Some(start) = start {
        put(list, Change::Lift { meet, start });
    }
}

/// Lists the Place of a meet, if it gets a start.
pub(crate) fn put_place(list: &mut Vec<Change>, meet: MeetId, start: Option<TimeId>)
    requires room { vec_len list.old + 1 ≤ vec_capacity list.old }
    ensures items { list.new.items ≡ list.old.items ++ places meet start }
    ensures len { vec_len list.new ≤ vec_len list.old + 1 }
    ensures room { vec_capacity list.old ≤ vec_capacity list.new }
{
    if let Some(start) = start {
        put(list, Change::Place { meet, start });
    }
}

/// Lists the Take of a task, if it has a resource.
pub(crate) fn put_take(list: &mut Vec<Change>, task: TaskId, resource: Option<ResourceId>)
    requires room { vec_len list.old + 1 ≤ vec_capacity list.old }
    ensures items { list.new.items ≡ list.old.items ++ takes task resource }
    ensures len { vec_len list.new ≤ vec_len list.old + 1 }
    ensures room { vec_capacity list.old ≤ vec_capacity list.new }
{
    if let Some(resource) = resource {
        put(list, Change::Take { task, resource });
    }
}

/// Lists the Give of a task, if it gets a resource.
pub(crate) fn put_give(list: &mut Vec<Change>, task: TaskId, resource: Option<ResourceId>)
    requires room { vec_len list.old + 1 ≤ vec_capacity list.old }
    ensures items { list.new.items ≡ list.old.items ++ gives task resource }
    ensures len { vec_len list.new ≤ vec_len list.old + 1 }
    ensures room { vec_capacity list.old ≤ vec_capacity list.new }
{
    if let Some(resource) = resource {
        put(list, Change::Give { task, resource });
    }
}

/// Lists a Take for each place of a meet that has a resource.
fn put_takes(list: &mut Vec<Change>, meet: MeetId, given: &[Option<ResourceId>])
    requires room { vec_len list.old + length given.now ≤ vec_capacity list.old }
    requires few { length given.now < 2 ^ 32 }
    ensures items { list.new.items ≡ list.old.items ++ takes_from meet 0 given.now }
    ensures len { vec_len list.new ≤ vec_len list.old + length given.now }
    ensures room { vec_capacity list.old ≤ vec_capacity list.new }
{
    for (place, resource) in given.iter().enumerate() {
        if let Some(resource) = *resource {
            put(
                list,
                Change::Take {
                    task: TaskId {
                        meet,
                        place: place as u32,
                    },
                    resource,
                },
            );
        }
    }
}

/// Lists a Give for each place of a meet that gets a resource.
fn put_gives(list: &mut Vec<Change>, meet: MeetId, given: &[Option<ResourceId>])
    requires room { vec_len list.old + length given.now ≤ vec_capacity list.old }
    requires few { length given.now < 2 ^ 32 }
    ensures items { list.new.items ≡ list.old.items ++ gives_from meet 0 given.now }
    ensures len { vec_len list.new ≤ vec_len list.old + length given.now }
    ensures room { vec_capacity list.old ≤ vec_capacity list.new }
{
    for (place, resource) in given.iter().enumerate() {
        if let Some(resource) = *resource {
            put(
                list,
                Change::Give {
                    task: TaskId {
                        meet,
                        place: place as u32,
                    },
                    resource,
                },
            );
        }
    }
}

/// Lists the changes by which two meets come into free slots, with the same resources.
fn put_pair(list: &mut Vec<Change>, given: &[Option<ResourceId>], first: Part, second: Part)
    requires room { vec_len list.old + (2 * length given.now + 4) ≤ vec_capacity list.old }
    requires few { length given.now < 2 ^ 32 }
    ensures items { list.new.items ≡ list.old.items ++ entering given.now first second }
    ensures room { vec_capacity list.old ≤ vec_capacity list.new }
{
    put(
        list,
        Change::Add {
            meet: first.meet,
            duration: first.duration,
        },
    );
    put(
        list,
        Change::Add {
            meet: second.meet,
            duration: second.duration,
        },
    );
    put_gives(list, first.meet, given);
    put_gives(list, second.meet, given);
    put_place(list, first.meet, first.start);
    put_place(list, second.meet, second.start);
}

/// Lists the changes by which a meet becomes two.
pub(crate) fn put_cutting(
    list: &mut Vec<Change>,
    given: &[Option<ResourceId>],
    old: Part,
    first: Part,
    second: Part,
)
    requires room { vec_len list.old + (3 * length given.now + 6) ≤ vec_capacity list.old }
    requires few { length given.now < 2 ^ 32 }
    ensures items { list.new.items ≡ list.old.items ++ cutting given.now old first second }
    ensures room { vec_capacity list.old ≤ vec_capacity list.new }
{
    put_lift(list, old.meet, old.start);
    put_takes(list, old.meet, given);
    put(
        list,
        Change::Drop {
            meet: old.meet,
            duration: old.duration,
        },
    );
    put_pair(list, given, first, second);
}

/// Lists the changes by which two meets become one.
pub(crate) fn put_joining(
    list: &mut Vec<Change>,
    given: &[Option<ResourceId>],
    first: Part,
    second: Part,
    new: Part,
)
    requires room { vec_len list.old + (3 * length given.now + 6) ≤ vec_capacity list.old }
    requires few { length given.now < 2 ^ 32 }
    ensures items { list.new.items ≡ list.old.items ++ joining given.now first second new }
    ensures room { vec_capacity list.old ≤ vec_capacity list.new }
{
    put_lift(list, first.meet, first.start);
    put_lift(list, second.meet, second.start);
    put_takes(list, first.meet, given);
    put_takes(list, second.meet, given);
    put(
        list,
        Change::Drop {
            meet: first.meet,
            duration: first.duration,
        },
    );
    put(
        list,
        Change::Drop {
            meet: second.meet,
            duration: second.duration,
        },
    );
    put(
        list,
        Change::Add {
            meet: new.meet,
            duration: new.duration,
        },
    );
    put_gives(list, new.meet, given);
    put_place(list, new.meet, new.start);
}

/// Lists the changes by which a meet moves from one start to another.
pub(crate) fn put_move(
    list: &mut Vec<Change>,
    meet: MeetId,
    old: Option<TimeId>,
    new: Option<TimeId>,
)
    requires room { vec_len list.old + 2 ≤ vec_capacity list.old }
    ensures items { list.new.items ≡ list.old.items ++ (lifts meet old ++ places meet new) }
    ensures room { vec_capacity list.old ≤ vec_capacity list.new }
{
    put_lift(list, meet, old);
    put_place(list, meet, new);
}

/// Lists the changes by which two meets exchange their starts.
pub(crate) fn put_exchange(
    list: &mut Vec<Change>,
    a: MeetId,
    first: Option<TimeId>,
    b: MeetId,
    second: Option<TimeId>,
)
    requires room { vec_len list.old + 4 ≤ vec_capacity list.old }
    ensures items { list.new.items ≡ list.old.items ++ (lifts a first ++ (lifts b second ++ (places a second ++ places b first))) }
    ensures room { vec_capacity list.old ≤ vec_capacity list.new }
{
    put_lift(list, a, first);
    put_lift(list, b, second);
    put_place(list, a, second);
    put_place(list, b, first);
}

/// Lists the changes by which a task gets another resource.
pub(crate) fn put_regive(
    list: &mut Vec<Change>,
    task: TaskId,
    old: Option<ResourceId>,
    new: Option<ResourceId>,
)
    requires room { vec_len list.old + 2 ≤ vec_capacity list.old }
    ensures items { list.new.items ≡ list.old.items ++ (takes task old ++ gives task new) }
    ensures room { vec_capacity list.old ≤ vec_capacity list.new }
{
    put_take(list, task, old);
    put_give(list, task, new);
}

/// Lists the changes by which two tasks exchange their resources.
pub(crate) fn put_trade(
    list: &mut Vec<Change>,
    a: TaskId,
    first: Option<ResourceId>,
    b: TaskId,
    second: Option<ResourceId>,
)
    requires room { vec_len list.old + 4 ≤ vec_capacity list.old }
    ensures items { list.new.items ≡ list.old.items ++ (takes a first ++ (takes b second ++ (gives a second ++ gives b first))) }
    ensures room { vec_capacity list.old ≤ vec_capacity list.new }
{
    put_take(list, a, first);
    put_take(list, b, second);
    put_give(list, a, second);
    put_give(list, b, first);
}
