//! The forms of lines by their names, and their commands with the numbers of a line.

ghost use Rattle.std.specs.Prelude.{◌≡◌, ◌≤◌, bytes_eq, get_or, IfSome};
ghost use Rattle.edit_script.specs.Forms as spec;

use crate::Command;
use crate::commands::{FORMS, Form};
use khe_base::{GroupId, MeetId, MonitorId, ResourceId, TaskId, TimeId};
use khe_told::Edit;

/// The form whose name is this word, or `None` where none has it.
#[tactic(auto, unfolding(crate::specs::Forms::form_of))]
pub(crate) fn form_of(word: &[u8]) -> Option<Form>
    ensures form { result ≡ spec.form_of word.now }
    ensures few { IfSome result (λ form. form.1 ≤ 4) }
{
    form_among(&FORMS, word)
}

/// The one among these forms whose name is this word.
#[tactic(auto, unfolding(crate::specs::Forms::form_among))]
fn form_among(forms: &[Form], word: &[u8]) -> Option<Form>
    ensures { result ≡ spec.form_among forms.now word.now }
{
    for form in forms {
        if is_name(&form.0, word) {
            return Some(*form);
        }
    }
    None
}

/// Whether a word is this name, which spaces follow. Both are short, so their bytes are compared one after the
/// other, up to the first that differ.
fn is_name(name: &[u8], word: &[u8]) -> bool
    ensures { result ≡ bytes_eq (spec.before_space name.now) word.now }
{
    for place in 0..name.len() {
        if name[place] == b' ' {
            return place == word.len();
        }
        if place == word.len() || name[place] != word[place] {
            return false;
        }
    }
    name.len() == word.len()
}

/// The number at a place, or 0 past the last.
fn number_at(numbers: [u32; 4], place: u32) -> u32
    ensures { result ≡ spec.number_at numbers place }
{
    if place < 4 {
        numbers[place as usize]
    } else {
        0
    }
}

/// The meet whose number stands at a place.
fn meet_at(numbers: [u32; 4], place: MeetId) -> MeetId
    ensures { result ≡ spec.meet_at numbers place }
{
    MeetId(number_at(numbers, place.0))
}

/// The time whose number stands at a place.
fn time_at(numbers: [u32; 4], place: TimeId) -> TimeId
    ensures { result ≡ spec.time_at numbers place }
{
    TimeId(number_at(numbers, place.0))
}

/// The task whose numbers stand at these places.
fn task_at(numbers: [u32; 4], place: TaskId) -> TaskId
    ensures { result ≡ spec.task_at numbers place }
{
    TaskId {
        meet: meet_at(numbers, place.meet),
        place: number_at(numbers, place.place),
    }
}

/// The resource whose number stands at a place.
fn resource_at(numbers: [u32; 4], place: ResourceId) -> ResourceId
    ensures { result ≡ spec.resource_at numbers place }
{
    ResourceId(number_at(numbers, place.0))
}

/// The monitor whose number stands at a place.
fn monitor_at(numbers: [u32; 4], place: MonitorId) -> MonitorId
    ensures { result ≡ spec.monitor_at numbers place }
{
    MonitorId(number_at(numbers, place.0))
}

/// The group whose number stands at a place.
fn group_at(numbers: [u32; 4], place: GroupId) -> GroupId
    ensures { result ≡ spec.group_at numbers place }
{
    GroupId(number_at(numbers, place.0))
}

/// An edit with the numbers at its places.
#[tactic(auto, unfolding(crate::specs::Forms::edit_at))]
fn edit_at(numbers: [u32; 4], edit: Edit) -> Edit
    ensures { result ≡ spec.edit_at numbers edit }
{
    match edit {
        Edit::Assign { meet, time } => Edit::Assign {
            meet: meet_at(numbers, meet),
            time: time_at(numbers, time),
        },
        Edit::Unassign { meet } => Edit::Unassign {
            meet: meet_at(numbers, meet),
        },
        Edit::MoveTo { meet, time } => Edit::MoveTo {
            meet: meet_at(numbers, meet),
            time: time_at(numbers, time),
        },
        Edit::Split { meet, cut } => Edit::Split {
            meet: meet_at(numbers, meet),
            cut: number_at(numbers, cut),
        },
        Edit::Merge { first, second } => Edit::Merge {
            first: meet_at(numbers, first),
            second: meet_at(numbers, second),
        },
        Edit::SwapMeets { a, b } => Edit::SwapMeets {
            a: meet_at(numbers, a),
            b: meet_at(numbers, b),
        },
        Edit::Give { task, resource } => Edit::Give {
            task: task_at(numbers, task),
            resource: resource_at(numbers, resource),
        },
        Edit::Take { task } => Edit::Take {
            task: task_at(numbers, task),
        },
        Edit::Regive { task, resource } => Edit::Regive {
            task: task_at(numbers, task),
            resource: resource_at(numbers, resource),
        },
        Edit::SwapTasks { a, b } => Edit::SwapTasks {
            a: task_at(numbers, a),
            b: task_at(numbers, b),
        },
        Edit::Attach { monitor } => Edit::Attach {
            monitor: monitor_at(numbers, monitor),
        },
        Edit::Detach { monitor } => Edit::Detach {
            monitor: monitor_at(numbers, monitor),
        },
        Edit::MakeGroup => Edit::MakeGroup,
        Edit::DropGroup { group } => Edit::DropGroup {
            group: group_at(numbers, group),
        },
        Edit::AddChild { group, child } => Edit::AddChild {
            group: group_at(numbers, group),
            child: monitor_at(numbers, child),
        },
        Edit::RemoveChild { group, child } => Edit::RemoveChild {
            group: group_at(numbers, group),
            child: monitor_at(numbers, child),
        },
    }
}

/// What a line asks for: the command of its form with the numbers at its places.
#[tactic(auto, unfolding(crate::specs::Forms::command_at))]
pub(crate) fn command_at(numbers: [u32; 4], command: Command) -> Command
    ensures { result ≡ spec.command_at numbers command }
{
    match command {
        Command::Edit(edit) => Command::Edit(edit_at(numbers, edit)),
        Command::UndoTo(place) => Command::UndoTo(number_at(numbers, place)),
        Command::AskAbout(subject, place) => {
            Command::AskAbout(subject, number_at(numbers, place))
        }
        _ => command,
    }
}
