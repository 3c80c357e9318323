//! What a question is answered. A long answer goes on while it grows.

ghost use Rattle.std.specs.Prelude.{◌≡◌, ◌≤◌, ◌++◌, ◌<◌, ◌^◌, Some, OnOk, OnErr, IsErrOf, length, slice_get};
ghost use Rattle.std.specs.List.{enumerate_from, flat_map};
ghost use Rattle.khe_io.specs.Faults.{Rose};
ghost use Rattle.evaluation_report.specs.Answers as lines;
ghost use Rattle.evaluation_report.specs.Demands.{deficit_line, demand_line};
ghost use Rattle.evaluation_report.specs.Lines.{total_line};
ghost use Rattle.hall_report.specs.Shortages.{deficit_of, hall_of};
ghost use Rattle.khe_engine.specs.Values.{totals};
ghost use Rattle.khe_told.specs.Lists.{meet_in, tasks_of};
ghost use Rattle.khe_told.specs.Slots.{slot_at};
ghost use Rattle.script_run.specs.Added.{IsAdded, IsCutOff};
ghost use Rattle.script_run.specs.Answers as spec;

use crate::onward::Onward;
use crate::shortages::Shortages;
use edit_script::Question;
use evaluation_report::{
    deficit_line, meet_line, push_demand_line, push_monitor_line, task_line, total_line,
};
use hall_report::{Demand, Shortage};
use khe_base::{MeetId, MonitorId, NoMemory, TaskId, Text};
use khe_engine::Engine;
use khe_instance::{Instance, Meet, Task};
use khe_io::Cut;
use khe_solution::Solution;
use std::alloc::Global;

/// Adds the answer to a question. What is long goes on while it grows, so that of it only a piece waits in memory. After
/// an error some first bytes of what waited and of the answer went on. It takes the time of the answer.
#[tactic(auto, using(crate::proofs::AddedLaws::added_text, crate::proofs::AddedLaws::cut_none), unfolding(crate::specs::Answers::question_answer))]
pub fn push_question_answer<F: Shortages, G: Onward>(
    alloc: Global,
    engine: &Engine<'_, F>,
    question: Question,
    text: &mut Text,
    onward: &mut G,
) -> Result<(), Cut>
    ensures added { OnOk result (IsAdded (G.taken onward.old) (G.taken onward.new) text.old (spec.question_answer engine.now.parts engine.now.state question) text.new) }
    ensures front { OnErr result (IsCutOff (G.taken onward.old) (G.taken onward.new) text.old (spec.question_answer engine.now.parts engine.now.state question)) }
    ensures fault { IsErrOf result Cut.WriteFault → Rose (G.faults onward.old) (G.faults onward.new) }
    ensures faultless { OnOk result (G.faults onward.new ≡ G.faults onward.old) }
    ensures faultless_starved { IsErrOf result Cut.NoMemory → G.faults onward.new ≡ G.faults onward.old }
    ensures counted { G.faults onward.old ≤ G.faults onward.new }
{
    match question {
        Question::Monitors => push_monitors(alloc, engine, text, onward),
        Question::Total => Ok(push_total(alloc, engine, text)?),
        Question::Deficit => push_deficit(alloc, engine, text, onward),
        Question::Show => push_show(alloc, engine.instance(), engine.solution(), text, onward),
    }
}

/// Adds both totals.
fn push_total<F: Shortages>(
    alloc: Global,
    engine: &Engine<'_, F>,
    text: &mut Text,
) -> Result<(), NoMemory>
    ensures { OnOk result (text.new ≡ text.old ++ total_line (totals engine.now.parts engine.now.state)) }
{
    text.push_text(&total_line(alloc, engine.totals())?)
}

/// Adds the line of a monitor.
pub(crate) fn push_monitor<F: Shortages>(
    alloc: Global,
    engine: &Engine<'_, F>,
    monitor: MonitorId,
    text: &mut Text,
) -> Result<(), NoMemory>
    requires { monitor.0 < length engine.now.parts.monitors }
    ensures { OnOk result (text.new ≡ text.old ++ spec.monitor_answer engine.now.parts engine.now.state monitor.0 (slice_get engine.now.parts.monitors monitor.0)) }
{
    let deviation = engine.deviation(monitor);
    let cost = engine.cost(monitor);
    let attached = engine.attached(monitor);
    let inst = engine.instance();
    push_monitor_line(alloc, text, inst, monitor, deviation, cost, attached)
}

/// Adds the lines of all monitors, and both totals.
#[tactic(auto, using(crate::proofs::AddedLaws::added_push, crate::proofs::AddedLaws::cut_first, crate::proofs::AddedLaws::cut_second))]
fn push_monitors<F: Shortages, G: Onward>(
    alloc: Global,
    engine: &Engine<'_, F>,
    text: &mut Text,
    onward: &mut G,
) -> Result<(), Cut>
    ensures added { OnOk result (IsAdded (G.taken onward.old) (G.taken onward.new) text.old (spec.monitors_text engine.now.parts engine.now.state) text.new) }
    ensures front { OnErr result (IsCutOff (G.taken onward.old) (G.taken onward.new) text.old (spec.monitors_text engine.now.parts engine.now.state)) }
    ensures fault { IsErrOf result Cut.WriteFault → Rose (G.faults onward.old) (G.faults onward.new) }
    ensures faultless { OnOk result (G.faults onward.new ≡ G.faults onward.old) }
    ensures faultless_starved { IsErrOf result Cut.NoMemory → G.faults onward.new ≡ G.faults onward.old }
    ensures counted { G.faults onward.old ≤ G.faults onward.new }
{
    push_monitor_lines(alloc, engine, text, onward)?;
    Ok(push_total(alloc, engine, text)?)
}

/// Adds the lines of all monitors.
fn push_monitor_lines<F: Shortages, G: Onward>(
    alloc: Global,
    engine: &Engine<'_, F>,
    text: &mut Text,
    onward: &mut G,
) -> Result<(), Cut>
    ensures added { OnOk result (IsAdded (G.taken onward.old) (G.taken onward.new) text.old (flat_map (spec.monitor_text engine.now.parts engine.now.state) (enumerate_from 0 engine.now.parts.monitors)) text.new) }
    ensures front { OnErr result (IsCutOff (G.taken onward.old) (G.taken onward.new) text.old (flat_map (spec.monitor_text engine.now.parts engine.now.state) (enumerate_from 0 engine.now.parts.monitors))) }
    ensures fault { IsErrOf result Cut.WriteFault → Rose (G.faults onward.old) (G.faults onward.new) }
    ensures faultless { OnOk result (G.faults onward.new ≡ G.faults onward.old) }
    ensures faultless_starved { IsErrOf result Cut.NoMemory → G.faults onward.new ≡ G.faults onward.old }
    ensures counted { G.faults onward.old ≤ G.faults onward.new }
{
    let inst = engine.instance();
    inst.facts();
    for number in 0..inst.monitors() {
        push_monitor(alloc, engine, MonitorId(number), text)?;
        onward.pass(alloc, text)?;
    }
    Ok(())
}

/// Adds what is short.
#[tactic(auto, using(crate::proofs::AddedLaws::cut_none))]
fn push_deficit<F: Shortages, G: Onward>(
    alloc: Global,
    engine: &Engine<'_, F>,
    text: &mut Text,
    onward: &mut G,
) -> Result<(), Cut>
    ensures added { OnOk result (IsAdded (G.taken onward.old) (G.taken onward.new) text.old (spec.shortage_text (deficit_of engine.now.parts engine.now.state.slots) (hall_of engine.now.parts engine.now.state.slots)) text.new) }
    ensures front { OnErr result (IsCutOff (G.taken onward.old) (G.taken onward.new) text.old (spec.shortage_text (deficit_of engine.now.parts engine.now.state.slots) (hall_of engine.now.parts engine.now.state.slots))) }
    ensures fault { IsErrOf result Cut.WriteFault → Rose (G.faults onward.old) (G.faults onward.new) }
    ensures faultless { OnOk result (G.faults onward.new ≡ G.faults onward.old) }
    ensures faultless_starved { IsErrOf result Cut.NoMemory → G.faults onward.new ≡ G.faults onward.old }
    ensures counted { G.faults onward.old ≤ G.faults onward.new }
{
    let shortage = F::shortage(alloc, engine)?;
    push_shortage(alloc, &shortage, text, onward)
}

/// Adds a deficit and the demands that compete.
#[tactic(auto, using(crate::proofs::AddedLaws::push_added, crate::proofs::AddedLaws::push_cut, crate::proofs::AddedLaws::cut_none))]
fn push_shortage<G: Onward>(
    alloc: Global,
    shortage: &Shortage,
    text: &mut Text,
    onward: &mut G,
) -> Result<(), Cut>
    requires { length shortage.now.demands < 2 ^ 32 }
    ensures added { OnOk result (IsAdded (G.taken onward.old) (G.taken onward.new) text.old (spec.shortage_text shortage.now.deficit shortage.now.demands) text.new) }
    ensures front { OnErr result (IsCutOff (G.taken onward.old) (G.taken onward.new) text.old (spec.shortage_text shortage.now.deficit shortage.now.demands)) }
    ensures fault { IsErrOf result Cut.WriteFault → Rose (G.faults onward.old) (G.faults onward.new) }
    ensures faultless { OnOk result (G.faults onward.new ≡ G.faults onward.old) }
    ensures faultless_starved { IsErrOf result Cut.NoMemory → G.faults onward.new ≡ G.faults onward.old }
    ensures counted { G.faults onward.old ≤ G.faults onward.new }
{
    push_deficit_line(alloc, shortage, text)?;
    push_demands(alloc, shortage.demands.as_slice(), text, onward)
}

/// Adds how many demands no assignment can serve, and how many compete.
fn push_deficit_line(alloc: Global, shortage: &Shortage, text: &mut Text) -> Result<(), NoMemory>
    requires { length shortage.now.demands < 2 ^ 32 }
    ensures { OnOk result (text.new ≡ text.old ++ deficit_line shortage.now.deficit (length shortage.now.demands)) }
{
    let demands = shortage.demands.as_slice();
    text.push_text(&deficit_line(alloc, shortage.deficit, demands.len() as u32)?)
}

/// Adds the lines of demands.
fn push_demands<G: Onward>(
    alloc: Global,
    demands: &[Demand],
    text: &mut Text,
    onward: &mut G,
) -> Result<(), Cut>
    ensures added { OnOk result (IsAdded (G.taken onward.old) (G.taken onward.new) text.old (flat_map demand_line demands.now) text.new) }
    ensures front { OnErr result (IsCutOff (G.taken onward.old) (G.taken onward.new) text.old (flat_map demand_line demands.now)) }
    ensures fault { IsErrOf result Cut.WriteFault → Rose (G.faults onward.old) (G.faults onward.new) }
    ensures faultless { OnOk result (G.faults onward.new ≡ G.faults onward.old) }
    ensures faultless_starved { IsErrOf result Cut.NoMemory → G.faults onward.new ≡ G.faults onward.old }
    ensures counted { G.faults onward.old ≤ G.faults onward.new }
{
    for demand in demands {
        push_demand_line(text, *demand)?;
        onward.pass(alloc, text)?;
    }
    Ok(())
}

/// Adds the live meets, each with its tasks. It takes the time of these, and looks at a bit for each 4,096 meet
/// slots.
fn push_show<G: Onward>(
    alloc: Global,
    inst: &Instance,
    solution: &Solution<'_>,
    text: &mut Text,
    onward: &mut G,
) -> Result<(), Cut>
    requires parts { solution.now.parts ≡ inst.now }
    ensures added { OnOk result (IsAdded (G.taken onward.old) (G.taken onward.new) text.old (spec.show_text inst.now solution.now.slots) text.new) }
    ensures front { OnErr result (IsCutOff (G.taken onward.old) (G.taken onward.new) text.old (spec.show_text inst.now solution.now.slots)) }
    ensures fault { IsErrOf result Cut.WriteFault → Rose (G.faults onward.old) (G.faults onward.new) }
    ensures faultless { OnOk result (G.faults onward.new ≡ G.faults onward.old) }
    ensures faultless_starved { IsErrOf result Cut.NoMemory → G.faults onward.new ≡ G.faults onward.old }
    ensures counted { G.faults onward.old ≤ G.faults onward.new }
{
    inst.facts();
    solution.facts();
    let mut next = MeetId(0);
    while let Some(meet) = solution.next_meet(next) {
        push_slot(alloc, inst, solution, meet, text, onward)?;
        next = MeetId(meet.0 + 1);
    }
    Ok(())
}

/// Adds the meet of a slot and its tasks, if it has one.
#[tactic(auto, using(crate::proofs::AddedLaws::cut_none))]
fn push_slot<G: Onward>(
    alloc: Global,
    inst: &Instance,
    solution: &Solution<'_>,
    number: MeetId,
    text: &mut Text,
    onward: &mut G,
) -> Result<(), Cut>
    requires parts { solution.now.parts ≡ inst.now }
    requires there { number.0 < length solution.now.slots }
    ensures added { OnOk result (IsAdded (G.taken onward.old) (G.taken onward.new) text.old (spec.slot_text inst.now (slot_at solution.now.slots number.0)) text.new) }
    ensures front { OnErr result (IsCutOff (G.taken onward.old) (G.taken onward.new) text.old (spec.slot_text inst.now (slot_at solution.now.slots number.0))) }
    ensures fault { IsErrOf result Cut.WriteFault → Rose (G.faults onward.old) (G.faults onward.new) }
    ensures faultless { OnOk result (G.faults onward.new ≡ G.faults onward.old) }
    ensures faultless_starved { IsErrOf result Cut.NoMemory → G.faults onward.new ≡ G.faults onward.old }
    ensures counted { G.faults onward.old ≤ G.faults onward.new }
{
    solution.facts();
    let Some(meet) = solution.meet(number) else {
        return Ok(());
    };
    push_meet(alloc, inst, &meet, text)?;
    push_tasks(alloc, inst, solution, number, meet, text, onward)
}

/// Adds the line of a meet.
fn push_meet(alloc: Global, inst: &Instance, meet: &Meet, text: &mut Text) -> Result<(), NoMemory>
    requires { meet.now.event.0 < length inst.now.events }
    ensures { OnOk result (text.new ≡ text.old ++ lines.meet_line inst.now meet.now) }
{
    text.push_text(&meet_line(alloc, inst, meet)?)
}

/// Adds the tasks of a meet.
fn push_tasks<G: Onward>(
    alloc: Global,
    inst: &Instance,
    solution: &Solution<'_>,
    number: MeetId,
    meet: Meet,
    text: &mut Text,
    onward: &mut G,
) -> Result<(), Cut>
    requires parts { solution.now.parts ≡ inst.now }
    requires there { number.0 < length solution.now.slots }
    requires meet { meet_in (slot_at solution.now.slots number.0) ≡ Some meet }
    ensures added { OnOk result (IsAdded (G.taken onward.old) (G.taken onward.new) text.old (flat_map lines.task_line (tasks_of (slot_at solution.now.slots number.0))) text.new) }
    ensures front { OnErr result (IsCutOff (G.taken onward.old) (G.taken onward.new) text.old (flat_map lines.task_line (tasks_of (slot_at solution.now.slots number.0)))) }
    ensures fault { IsErrOf result Cut.WriteFault → Rose (G.faults onward.old) (G.faults onward.new) }
    ensures faultless { OnOk result (G.faults onward.new ≡ G.faults onward.old) }
    ensures faultless_starved { IsErrOf result Cut.NoMemory → G.faults onward.new ≡ G.faults onward.old }
    ensures counted { G.faults onward.old ≤ G.faults onward.new }
{
    inst.facts();
    solution.facts();
    for place in 0..inst.event(meet.event).places.len() as u32 {
        let resource = solution.resource(TaskId {
            meet: number,
            place,
        });
        let task = TaskId {
            meet: meet.meet,
            place,
        };
        push_task(alloc, &Task { task, resource }, text)?;
        onward.pass(alloc, text)?;
    }
    Ok(())
}

/// Adds the line of a task.
fn push_task(alloc: Global, task: &Task, text: &mut Text) -> Result<(), NoMemory>
    ensures { OnOk result (text.new ≡ text.old ++ lines.task_line task.now) }
{
    text.push_text(&task_line(alloc, task)?)
}
