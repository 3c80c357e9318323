//! The tasks of a timetable with their meets.

ghost use Rattle.std.specs.Prelude.{◌≡◌, ◌++◌, map, IfOk, OnOk};
ghost use Rattle.khe_instance.specs.Running.{duties as duties_of};
ghost use Rattle.khe_instance.specs.States.{IsTold};

use crate::lists::sized;
use khe_base::{NoMemory, Seq};
use khe_instance::{Duty, Instance, Meet, Task};
use std::alloc::Global;

/// The tasks of a timetable with their meets: those of the first meet in the order of its places, then those of
/// the second, and so on. The meets and tasks of any valid state will do.
///
/// It takes time and memory in proportion to the meets and the tasks.
pub fn duties(
    alloc: Global,
    inst: &Instance,
    meets: &[Meet],
    tasks: &[Task],
) -> Result<Seq<Duty>, NoMemory>
    requires { IsTold inst.now meets.now tasks.now }
    ensures { IfOk result (λ ds. ds ≡ duties_of meets.now tasks.now) }
{
    let mut duties = sized(alloc, tasks.len())?;
    let mut rest = tasks;
    for meet in meets {
        let places = inst.event(meet.event).places.len();
        let (own, later) = rest.split_at(places);
        push_duties(&mut duties, *meet, own)?;
        rest = later;
    }
    Ok(duties)
}

/// Adds the tasks of one meet.
fn push_duties(duties: &mut Seq<Duty>, meet: Meet, tasks: &[Task]) -> Result<(), NoMemory>
    ensures { OnOk result (duties.new ≡ duties.old ++ map (λ t. record { meet = meet; place = t.task.place; resource = t.resource }) tasks.now) }
{
    for task in tasks {
        duties.push(Duty {
            meet,
            place: task.task.place,
            resource: task.resource,
        })?;
    }
    Ok(())
}
