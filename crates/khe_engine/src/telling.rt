//! Listeners are told of a timetable, one meet after the other.

ghost use Rattle.std.specs.Prelude.{◌≡◌, ◌<◌, ◌+◌, Some, true, length, slice_set};
ghost use Rattle.khe_instance.specs.declared.parts.Parts.{Parts};
ghost use Rattle.khe_told.specs.Lists.{meet_in};
ghost use Rattle.khe_told.specs.Slots.{is_live, no_meets, slot_at};
ghost use Rattle.khe_engine.specs.Openings.{coming, told_to};

use khe_base::{MeetId, TaskId};
use khe_instance::{Instance, Meet};
use khe_solution::Solution;
use khe_told::{Change, Steps, Watcher};
use std::sync::ledger::Ledger;

/// Notes a watcher that was told of no meets of all meets of a timetable and their tasks, in time in
/// proportion to the meet slots and the watchers of what comes.
pub(crate) fn tell_all<V: Watcher, L: Ledger>(
    inst: &Instance,
    solution: &Solution<'_>,
    watcher: &mut V,
    steps: &mut Steps<L>,
)
    requires parts { solution.now.parts ≡ inst.now }
    requires of { V.IsOf watcher.old inst.now }
    requires none { V.told watcher.old ≡ no_meets inst.now }
    ensures of { V.IsOf watcher.new inst.now }
    ensures told { V.told watcher.new ≡ solution.now.slots }
    ensures rest { V.HasSameRest watcher.old watcher.new }
{
    inst.facts();
    solution.facts();
    for number in 0..inst.meet_slots() {
        tell_slot(inst, solution, watcher, MeetId(number), steps);
    }
}

/// Notes it of the meet of one slot, if there is one.
fn tell_slot<V: Watcher, L: Ledger>(
    inst: &Instance,
    solution: &Solution<'_>,
    watcher: &mut V,
    number: MeetId,
    steps: &mut Steps<L>,
)
    requires parts { solution.now.parts ≡ inst.now }
    requires there { number.0 < length solution.now.slots }
    requires of { V.IsOf watcher.old inst.now }
    requires before { V.told watcher.old ≡ told_to number.0 solution.now.slots }
    ensures of { V.IsOf watcher.new inst.now }
    ensures told { V.told watcher.new ≡ told_to (number.0 + 1) solution.now.slots }
    ensures rest { V.HasSameRest watcher.old watcher.new }
{
    solution.facts();
    let Some(meet) = solution.meet(number) else {
        return;
    };
    watcher.note(
        inst,
        Change::Add {
            meet: number,
            duration: meet.duration,
        },
        steps,
    );
    tell_tasks(inst, solution, watcher, number, meet, steps);
    tell_start(inst, solution, watcher, number, meet, steps);
}

/// Notes it of what the places of a meet are given.
fn tell_tasks<V: Watcher, L: Ledger>(
    inst: &Instance,
    solution: &Solution<'_>,
    watcher: &mut V,
    number: MeetId,
    meet: Meet,
    steps: &mut Steps<L>,
)
    requires parts { solution.now.parts ≡ inst.now }
    requires there { number.0 < length solution.now.slots }
    requires meet { meet_in (slot_at solution.now.slots number.0) ≡ Some meet }
    requires of { V.IsOf watcher.old inst.now }
    requires before { V.told watcher.old ≡ slice_set (told_to number.0 solution.now.slots) number.0 (coming 0 (slot_at solution.now.slots number.0)) }
    ensures of { V.IsOf watcher.new inst.now }
    ensures told { V.told watcher.new ≡ slice_set (told_to number.0 solution.now.slots) number.0 (coming (length (slot_at solution.now.slots number.0).given) (slot_at solution.now.slots number.0)) }
    ensures rest { V.HasSameRest watcher.old watcher.new }
{
    inst.facts();
    solution.facts();
    for place in 0..inst.event(meet.event).places.len() as u32 {
        tell_task(
            inst,
            solution,
            watcher,
            TaskId {
                meet: number,
                place,
            },
            steps,
        );
    }
}

/// Notes it of what one place is given, if anything.
fn tell_task<V: Watcher, L: Ledger>(
    inst: &Instance,
    solution: &Solution<'_>,
    watcher: &mut V,
    task: TaskId,
    steps: &mut Steps<L>,
)
    requires parts { solution.now.parts ≡ inst.now }
    requires there { task.meet.0 < length solution.now.slots }
    requires live { is_live (slot_at solution.now.slots task.meet.0) ≡ true }
    requires place { task.place < length (slot_at solution.now.slots task.meet.0).given }
    requires of { V.IsOf watcher.old inst.now }
    requires before { V.told watcher.old ≡ slice_set (told_to task.meet.0 solution.now.slots) task.meet.0 (coming task.place (slot_at solution.now.slots task.meet.0)) }
    ensures of { V.IsOf watcher.new inst.now }
    ensures told { V.told watcher.new ≡ slice_set (told_to task.meet.0 solution.now.slots) task.meet.0 (coming (task.place + 1) (slot_at solution.now.slots task.meet.0)) }
    ensures rest { V.HasSameRest watcher.old watcher.new }
{
    solution.facts();
    let Some(resource) = solution.resource(task) else {
        return;
    };
    watcher.note(inst, Change::Give { task, resource }, steps);
}

/// Notes it of the start of a meet, if it has one.
fn tell_start<V: Watcher, L: Ledger>(
    inst: &Instance,
    solution: &Solution<'_>,
    watcher: &mut V,
    number: MeetId,
    meet: Meet,
    steps: &mut Steps<L>,
)
    requires parts { solution.now.parts ≡ inst.now }
    requires there { number.0 < length solution.now.slots }
    requires meet { meet_in (slot_at solution.now.slots number.0) ≡ Some meet }
    requires of { V.IsOf watcher.old inst.now }
    requires before { V.told watcher.old ≡ slice_set (told_to number.0 solution.now.slots) number.0 (coming (length (slot_at solution.now.slots number.0).given) (slot_at solution.now.slots number.0)) }
    ensures of { V.IsOf watcher.new inst.now }
    ensures told { V.told watcher.new ≡ told_to (number.0 + 1) solution.now.slots }
    ensures rest { V.HasSameRest watcher.old watcher.new }
{
    solution.facts();
    let Some(start) = meet.start else {
        return;
    };
    watcher.note(
        inst,
        Change::Place {
            meet: number,
            start,
        },
        steps,
    );
}
