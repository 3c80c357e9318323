//! What comes of the solutions of an archive, as the text that a report has of each of them.

ghost use Rattle.std.specs.Prelude.{◌≡◌, ◌<◌, ◌++◌, [], OnOk, IsSome, Some, false, length, map};
ghost use Rattle.std.specs.List.{flat_map};
ghost use Rattle.khe_instance.specs.Evaluated.{deviation_in, cost_in, is_detached};
ghost use Rattle.khe_instance.specs.declared.points.Monitor.{Monitor};
ghost use Rattle.khe_instance.specs.declared.states.Plain.{Plain};
ghost use Rattle.reading_commands.specs.Report as spec;
ghost use Rattle.resource_deviations.specs.Sets.{room_for};
ghost use Rattle.parallel_solve.specs.Ready.{IsOne};
ghost use Rattle.parallel_solve.specs.Verdicts.{parts_at, values_of, verdict_of};
ghost use Rattle.xhstt_completion.specs.Completed as completion;

use evaluation_report::{invalid_line, push_monitor_line, solution_line, total_line};
use khe_base::{MonitorId, NoMemory, Text};
use khe_instance::{Instance, Plain};
use khe_io::Gate;
use parallel_solve::{SolutionJob, Solutions, Verdict, numbered};
use plain_eval::Values;
use std::alloc::Global;
use xhstt_resolve::Resolved;
use xhstt_shape::RawSolution;

/// Adds the line of a monitor by its deviation and its cost, or nothing where it has no deviation and
/// not all are wanted.
fn push_monitor(
    alloc: Global,
    text: &mut Text,
    inst: &Instance,
    number: u32,
    deviation: u64,
    cost: u128,
    all: bool,
) -> Result<(), NoMemory>
    requires { number < length inst.now.monitors }
    ensures { (s : Plain) (m : Monitor) → deviation ≡ deviation_in inst.now s m → cost ≡ cost_in inst.now s (number, m)
        → is_detached s number ≡ false
        → OnOk result (text.new ≡ text.old ++ spec.monitor_text all inst.now s (number, m)) }
{
    if !all && deviation == 0 {
        return Ok(());
    }
    push_monitor_line(alloc, text, inst, MonitorId(number), deviation, cost, true)
}

/// Adds the lines of the monitors by what a timetable costs, of all or of those with a deviation, and
/// its totals.
fn push_evaluation(
    alloc: Global,
    text: &mut Text,
    inst: &Instance,
    values: &Values,
    all: bool,
) -> Result<(), NoMemory>
    requires { (length values.now.deviations ≡ length inst.now.monitors)
        × (length values.now.costs ≡ length inst.now.monitors) }
    ensures { (s : Plain) → values.now ≡ values_of inst.now s → s.detached ≡ []
        → OnOk result (text.new ≡ text.old ++ spec.evaluation all inst.now s) }
{
    let deviations = values.deviations.as_slice();
    let costs = values.costs.as_slice();
    for number in 0..inst.monitors() {
        let deviation = deviations[number as usize];
        let cost = costs[number as usize];
        push_monitor(alloc, text, inst, number, deviation, cost, all)?;
    }
    text.push_text(&total_line(alloc, values.totals)?)
}

/// Adds what comes of a solution by its verdict: its evaluation, or why it is invalid.
fn push_outcome(
    alloc: Global,
    text: &mut Text,
    inst: &Instance,
    verdict: &Verdict,
    _solution: &RawSolution,
    all: bool,
) -> Result<(), NoMemory>
    requires { verdict.now ≡ verdict_of inst.now (completion.completed inst.now _solution.now) }
    ensures { OnOk result (text.new ≡ text.old ++ spec.outcome_text all inst.now
        (completion.completed inst.now _solution.now)) }
{
    match verdict {
        Verdict::Valid(values) => push_evaluation(alloc, text, inst, values, all),
        Verdict::Invalid { cause, entry } => text.push_text(&invalid_line(alloc, *cause, *entry)?),
    }
}

/// The instance of the solution with this number.
pub(crate) fn instance_at(resolved: &Resolved, number: u32) -> &Instance
    requires { IsSome (parts_at resolved.now number) }
    ensures { parts_at resolved.now number ≡ Some result.now }
{
    let instance = resolved.of.as_slice()[number as usize];
    &resolved.instances.as_slice()[instance as usize]
}

/// Adds the part of a report on the solution with a number: its line, and what comes of it.
fn push_solution(
    alloc: Global,
    text: &mut Text,
    solutions: &Solutions<'_>,
    number: u32,
    group: &Text,
    raw: &RawSolution,
    all: bool,
) -> Result<(), NoMemory>
    requires one { IsOne solutions.now.resolved.now number raw.now }
    requires rooms { solutions.now.rooms.now ≡ map room_for solutions.now.resolved.now.instances }
    ensures { OnOk result (text.new ≡ text.old ++ spec.numbered_text all solutions.now.resolved.now group.now
        (number, raw.now)) }
{
    let verdict = numbered(alloc, solutions.resolved, solutions.rooms, number, raw)?;
    let inst = instance_at(solutions.resolved, number);
    let line = solution_line(alloc, number, group, inst.id())?;
    text.push_text(&line)?;
    push_outcome(alloc, text, inst, &verdict, raw, all)
}

/// The job of writing the part of a report on each solution of a batch: its line with the Id of its group, and what
/// comes of it: its evaluation, with the lines of all monitors or of the deviating ones, or why it is
/// invalid.
#[derive(Clone, Copy)]
pub(crate) struct Outcomes<'a> {
    pub all: bool,
    /// The Id of the group of each solution of the archive, in order.
    pub groups: &'a [&'a Text],
}

impl<'a> SolutionJob for Outcomes<'a> {
    type Made = Text;

    ghost made = { λ job r rows. flat_map (spec.row_text job.all r (map (λ x. x.now) job.groups.now)) rows };

    fn make<G: Gate>(
        &self,
        alloc: Global,
        solutions: &Solutions<'_>,
        first: usize,
        count: usize,
        gate: &G,
    ) -> Result<Text, NoMemory> {
        let raws = solutions.raws;
        let mut text = Text::new(alloc);
        for number in first..first + count {
            gate.pass(number as u64);
            if let Some(group) = self.groups.get(number) {
                let raw = raws[number];
                push_solution(
                    alloc,
                    &mut text,
                    solutions,
                    number as u32,
                    group,
                    raw,
                    self.all,
                )?;
            }
        }
        Ok(text)
    }

    fn size(&self, made: &Text) -> usize {
        made.as_bytes().len()
    }
}
