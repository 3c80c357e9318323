//! The timetable that a construction begins with, as plain lists.

ghost use Rattle.std.specs.Prelude.{◌≡◌, ◌<◌, ◌≤◌, ◌+◌, ◌++◌, ◌^◌, IfOk, OnOk, length, map};
ghost use Rattle.construct.specs.Amounts.{AreAmounts};
ghost use Rattle.construct.specs.Begun.{begun, begun_of, begun_slots};
ghost use Rattle.construct.specs.Cuts.{part};
ghost use Rattle.khe_instance.specs.declared.states.Meet.{Meet as Spoken};
ghost use Rattle.khe_told.specs.Lists.{meets_in, tasks_in, tasks_with};

use crate::amounts::amounts_of;
use khe_base::{EventId, MeetId, NoMemory, Seq, TaskId, both};
use khe_instance::{EventInfo, Instance, Meet, Plain, Task};
use std::alloc::Global;

/// The timetable in which each event is cut, with what is preassigned alone. It takes time in proportion to
/// the monitors, the meet slots and the tasks, and memory in proportion to the timetable and the events.
pub(crate) fn begin(alloc: Global, inst: &Instance) -> Result<Plain, NoMemory>
    ensures { IfOk result (λ plain. plain ≡ begun inst.now) }
{
    let amounts = amounts_of(alloc, inst)?;
    let meets = list_meets(alloc, inst, amounts.as_slice());
    let tasks = list_tasks(alloc, inst, amounts.as_slice());
    let (meets, tasks) = both(meets, tasks)?;
    Ok(Plain {
        meets,
        tasks,
        detached: Seq::new(alloc),
        groups: Seq::new(alloc),
    })
}

/// The meets of all events.
#[tactic(auto, unfolding(crate::specs::Begun::begun_slots))]
fn list_meets(alloc: Global, inst: &Instance, amounts: &[u32]) -> Result<Seq<Meet>, NoMemory>
    requires { AreAmounts inst.now (length inst.now.events) amounts.now }
    ensures { IfOk result (λ m. m ≡ meets_in (begun_slots inst.now)) }
{
    inst.facts();
    let mut meets = Seq::new(alloc);
    for number in 0..inst.events() {
        let event = EventId(number);
        let amount = amounts[number as usize];
        add_meets(event, inst.event(event), amount, &mut meets)?;
    }
    Ok(meets)
}

/// How long the meet with a number is, where an event is cut into `amount`.
#[tactic(auto, unfolding(crate::specs::Cuts::part))]
fn part(duration: u32, amount: u32, number: u32) -> u32
    requires some { 0 < amount }
    requires small { duration + 1 < 2 ^ 32 }
    ensures { result ≡ part duration amount number }
{
    let least = duration / amount;
    if number < duration % amount {
        least + 1
    } else {
        least
    }
}

/// The meet with a number, where an event is cut into `amount`.
fn meet_of(event: EventId, info: &EventInfo, amount: u32, number: u32) -> Meet
    requires some { number < amount }
    requires slots { info.now.first_meet + number < 2 ^ 32 }
    requires small { info.now.duration + 1 < 2 ^ 32 }
    ensures { result ≡ record { meet = record { 0 = info.now.first_meet + number }; event = event; duration = part info.now.duration amount number; start = info.now.fixed } }
{
    Meet {
        meet: MeetId(info.first_meet + number),
        event,
        duration: part(info.duration, amount, number),
        start: info.fixed,
    }
}

/// Adds the meets of an event.
fn add_meets(
    event: EventId,
    info: &EventInfo,
    amount: u32,
    meets: &mut Seq<Meet>,
) -> Result<(), NoMemory>
    requires few { amount ≤ info.now.duration }
    requires slots { info.now.first_meet + info.now.duration + 1 < 2 ^ 32 }
    ensures { OnOk result (meets.new ≡ meets.old ++ meets_in (begun_of event.0 info.now amount)) }
{
    for number in 0..amount {
        meets.push(meet_of(event, info, amount, number))?;
    }
    Ok(())
}

/// The tasks of all meets of all events.
#[tactic(auto, unfolding(crate::specs::Begun::begun_slots))]
fn list_tasks(alloc: Global, inst: &Instance, amounts: &[u32]) -> Result<Seq<Task>, NoMemory>
    requires { AreAmounts inst.now (length inst.now.events) amounts.now }
    ensures { IfOk result (λ t. t ≡ tasks_in (begun_slots inst.now)) }
{
    inst.facts();
    let mut tasks = Seq::new(alloc);
    for number in 0..inst.events() {
        let event = EventId(number);
        let amount = amounts[number as usize];
        add_tasks(event, inst.event(event), amount, &mut tasks)?;
    }
    Ok(tasks)
}

/// Adds the tasks of the meets of an event.
fn add_tasks(
    _event: EventId,
    info: &EventInfo,
    amount: u32,
    tasks: &mut Seq<Task>,
) -> Result<(), NoMemory>
    requires few { amount ≤ info.now.duration }
    requires slots { info.now.first_meet + info.now.duration + 1 < 2 ^ 32 }
    requires places { length info.now.places < 2 ^ 32 }
    ensures { OnOk result (tasks.new ≡ tasks.old ++ tasks_in (begun_of _event.0 info.now amount)) }
{
    for number in 0..amount {
        add_places(MeetId(info.first_meet + number), info, tasks)?;
    }
    Ok(())
}

/// Adds the task of each place of a meet, with what is preassigned.
fn add_places(meet: MeetId, info: &EventInfo, tasks: &mut Seq<Task>) -> Result<(), NoMemory>
    requires { length info.now.places < 2 ^ 32 }
    ensures { OnOk result ((m : Spoken) → m.meet ≡ meet → tasks.new ≡ tasks.old ++ tasks_with m 0 (map (λ place. place.fixed) info.now.places)) }
{
    let places = info.places.as_slice();
    for place in 0..places.len() as u32 {
        let resource = places[place as usize].fixed;
        let task = TaskId { meet, place };
        tasks.push(Task { task, resource })?;
    }
    Ok(())
}
