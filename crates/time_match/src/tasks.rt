//! The tasks of one time, and the resources of one type, as lists.

ghost use Rattle.std.specs.Prelude.{◌≡◌, length, IfOk};
ghost use Rattle.time_match.specs.Tasks.{matched, resources_of};

use crate::reads::is_matched;
use khe_base::{NoMemory, ResourceId, Seq, TaskId, TimeId};
use khe_instance::Instance;
use khe_solution::Solution;
use std::alloc::Global;

/// How many tasks there are. It takes time in proportion to the task slots, and no memory.
#[tactic(auto, using(crate::proofs::TaskLaws::list_whole))]
pub(crate) fn count_tasks(inst: &Instance, solution: &Solution<'_>, time: TimeId, rtype: u32) -> u32
    ensures { result ≡ length (matched inst.now solution.now.slots time.0 rtype) }
{
    let mut count = 0;
    for number in 0..inst.task_slots() {
        let task = inst.task(number);
        if is_matched(inst, solution, task, time, rtype) {
            count += 1;
        }
    }
    count
}

/// The tasks, in the order of their numbers. It takes time in proportion to the task slots.
#[tactic(auto, using(crate::proofs::TaskLaws::list_whole))]
pub(crate) fn list_tasks(
    alloc: Global,
    inst: &Instance,
    solution: &Solution<'_>,
    time: TimeId,
    rtype: u32,
) -> Result<Seq<TaskId>, NoMemory>
    ensures { IfOk result (λ tasks. tasks ≡ matched inst.now solution.now.slots time.0 rtype) }
{
    let mut tasks = Seq::new(alloc);
    for number in 0..inst.task_slots() {
        let task = inst.task(number);
        if is_matched(inst, solution, task, time, rtype) {
            tasks.push(task)?;
        }
    }
    Ok(tasks)
}

/// The resources of a type, in the order of their numbers. It takes time in proportion to all resources.
#[tactic(auto, unfolding(crate::specs::Tasks::resources_of))]
pub(crate) fn list_resources(
    alloc: Global,
    inst: &Instance,
    rtype: u32,
) -> Result<Seq<ResourceId>, NoMemory>
    ensures { IfOk result (λ resources. resources ≡ resources_of inst.now rtype) }
{
    let mut resources = Seq::new(alloc);
    for number in 0..inst.resources() {
        let resource = ResourceId(number);
        if inst.type_of(resource) == rtype {
            resources.push(resource)?;
        }
    }
    Ok(resources)
}
