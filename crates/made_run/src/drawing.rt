//! The edits of a run.

ghost use Rattle.std.specs.Prelude.{◌≡◌, ◌<◌};
ghost use Rattle.made_run.specs.Commands as spec;

use archive_generator::{Draws, resource_count};
use khe_base::{MeetId, ResourceId, TaskId, TimeId};
use khe_told::Edit;

/// How many times there are.
const TIMES: u32 = 40;

/// An edit of a job whose events have the given number of meet slots.
#[tactic(auto, unfolding(crate::specs::Commands::edit))]
pub(crate) fn draw_edit(draws: &mut Draws, size: u32, slots: u32) -> Edit
    requires { 0 < slots }
    ensures value { result ≡ (spec.edit size slots draws.old.state).0 }
    ensures state { draws.new.state ≡ (spec.edit size slots draws.old.state).1 }
{
    let sort = draws.draw(4);
    let meet = MeetId(draws.draw(slots));
    if sort < 2 {
        return draw_time_edit(draws, sort, meet);
    }
    draw_task_edit(draws, size, sort, meet)
}

/// An edit of the start of a meet.
#[tactic(auto, unfolding(crate::specs::Commands::time_edit))]
fn draw_time_edit(draws: &mut Draws, sort: u32, meet: MeetId) -> Edit
    ensures value { result ≡ (spec.time_edit sort meet.0 draws.old.state).0 }
    ensures state { draws.new.state ≡ (spec.time_edit sort meet.0 draws.old.state).1 }
{
    let time = TimeId(draws.draw(TIMES));
    if sort == 0 {
        return Edit::Assign { meet, time };
    }
    Edit::MoveTo { meet, time }
}

/// An edit of the resource of a task.
#[tactic(auto, unfolding(crate::specs::Commands::task_edit))]
fn draw_task_edit(draws: &mut Draws, size: u32, sort: u32, meet: MeetId) -> Edit
    ensures value { result ≡ (spec.task_edit size sort meet.0 draws.old.state).0 }
    ensures state { draws.new.state ≡ (spec.task_edit size sort meet.0 draws.old.state).1 }
{
    let place = 1 + draws.draw(2);
    let resource = ResourceId(draws.draw(resource_count(size)));
    let task = TaskId { meet, place };
    if sort == 2 {
        return Edit::Give { task, resource };
    }
    Edit::Regive { task, resource }
}
