//! The present state as plain lists.

ghost use Rattle.std.specs.Prelude.{◌≡◌, ◌<◌, ◌++◌, ◌∷◌, [], Some, IfOk, OnOk, length};
ghost use Rattle.std.specs.List.{cons_option};
ghost use Rattle.khe_instance.specs.States.{IsValid};
ghost use Rattle.khe_told.specs.Lists.{meet_in, meets_in, tasks_in, tasks_of, tasks_with};
ghost use Rattle.khe_told.specs.Slots.{slot_at};
ghost use Rattle.monitor_graph.specs.Values.{IsOf};
ghost use Rattle.khe_engine.specs.Openings.{IsStateOf};
ghost use Rattle.khe_engine.specs.States.{state_of};

use crate::engine::Engine;
use khe_base::{MeetId, NoMemory, Seq, TaskId, both};
use khe_instance::{Instance, Meet, Plain, Task};
use khe_solution::Solution;
use khe_told::Family;
use monitor_graph::Graph;
use std::alloc::Global;

impl<'i, F: Family> Engine<'i, F> {
    /// The timetable of the present state as plain lists. It takes time in proportion to the meet
    /// slots, the task slots, the monitors and the children of the groups, and memory in proportion
    /// to what is listed.
    pub fn plain(&self, alloc: Global) -> Result<Plain, NoMemory>
        ensures state { IfOk result (λ s. IsStateOf self.now.parts s self.now.state) }
        ensures valid { IfOk result (λ s. IsValid self.now.parts s) }
    {
        plain_of(alloc, self.inst, &self.solution, &self.listeners.graph)
    }
}

/// The meets and tasks of a timetable, with the detached monitors and the groups of a graph.
fn plain_of(
    alloc: Global,
    inst: &Instance,
    solution: &Solution<'_>,
    graph: &Graph,
) -> Result<Plain, NoMemory>
    requires parts { solution.now.parts ≡ inst.now }
    requires rates { IsOf graph.now inst.now }
    ensures state { IfOk result (λ s. IsStateOf inst.now s (state_of solution.now.slots graph.now)) }
    ensures valid { IfOk result (λ s. IsValid inst.now s) }
{
    inst.facts();
    solution.facts();
    graph.facts();
    let meets = list_meets(alloc, inst, solution);
    let tasks = list_tasks(alloc, inst, solution);
    let detached = graph.detached(alloc);
    let groups = graph.groups(alloc);
    let ((meets, tasks), (detached, groups)) = both(both(meets, tasks), both(detached, groups))?;
    Ok(Plain {
        meets,
        tasks,
        detached,
        groups,
    })
}

/// The live meets, in the order of their numbers.
fn list_meets(
    alloc: Global,
    inst: &Instance,
    solution: &Solution<'_>,
) -> Result<Seq<Meet>, NoMemory>
    requires { solution.now.parts ≡ inst.now }
    ensures { IfOk result (λ m. m ≡ meets_in solution.now.slots) }
{
    inst.facts();
    solution.facts();
    let mut meets = Seq::new(alloc);
    for number in 0..inst.meet_slots() {
        add_meet(&mut meets, solution.meet(MeetId(number)))?;
    }
    Ok(meets)
}

/// Adds a meet to the list, if there is one.
fn add_meet(meets: &mut Seq<Meet>, meet: Option<Meet>) -> Result<(), NoMemory>
    ensures { OnOk result (meets.new ≡ meets.old ++ cons_option meet []) }
{
    if let Some(meet) = meet {
        meets.push(meet)?;
    }
    Ok(())
}

/// The tasks of the live meets, by meet and then by place.
fn list_tasks(
    alloc: Global,
    inst: &Instance,
    solution: &Solution<'_>,
) -> Result<Seq<Task>, NoMemory>
    requires { solution.now.parts ≡ inst.now }
    ensures { IfOk result (λ t. t ≡ tasks_in solution.now.slots) }
{
    inst.facts();
    solution.facts();
    let mut tasks = Seq::new(alloc);
    for number in 0..inst.meet_slots() {
        add_tasks(inst, solution, MeetId(number), &mut tasks)?;
    }
    Ok(tasks)
}

/// Adds the tasks of the meet of a slot to the list, if there is one.
fn add_tasks(
    inst: &Instance,
    solution: &Solution<'_>,
    number: MeetId,
    tasks: &mut Seq<Task>,
) -> Result<(), NoMemory>
    requires parts { solution.now.parts ≡ inst.now }
    requires there { number.0 < length solution.now.slots }
    ensures { OnOk result (tasks.new ≡ tasks.old ++ tasks_of (slot_at solution.now.slots number.0)) }
{
    match solution.meet(number) {
        Some(meet) => add_places(inst, solution, number, meet, tasks),
        None => Ok(()),
    }
}

/// Adds the task of each place of the meet of a slot.
fn add_places(
    inst: &Instance,
    solution: &Solution<'_>,
    number: MeetId,
    meet: Meet,
    tasks: &mut Seq<Task>,
) -> Result<(), NoMemory>
    requires parts { solution.now.parts ≡ inst.now }
    requires there { number.0 < length solution.now.slots }
    requires meet { meet_in (slot_at solution.now.slots number.0) ≡ Some meet }
    ensures { OnOk result (tasks.new ≡ tasks.old ++ tasks_with meet 0 (slot_at solution.now.slots number.0).given) }
{
    inst.facts();
    solution.facts();
    for place in 0..inst.event(meet.event).places.len() as u32 {
        let resource = solution.resource(TaskId {
            meet: number,
            place,
        });
        let task = TaskId {
            meet: meet.meet,
            place,
        };
        tasks.push(Task { task, resource })?;
    }
    Ok(())
}
