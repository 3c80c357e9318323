//! The run.

ghost use Rattle.std.specs.Prelude.{◌≡◌, ◌+◌, ◌-◌, ◌<◌, ◌≤◌, ◌^◌, [], IfOk, OnOk};
ghost use Rattle.edit_script.specs.declared.commands.Command.TheVariants as command;
ghost use Rattle.hall_report.specs.Shortages.{deficit_of};
ghost use Rattle.archive_generator.specs.Made.{state_after};
ghost use Rattle.khe_engine.specs.Values.{ServesAll};
ghost use Rattle.khe_instance.specs.States.{IsValid};
ghost use Rattle.made_run.specs.Commands as spec;
ghost use Rattle.made_run.specs.Courses.{after, course, course_of, started};
ghost use Rattle.made_run.specs.Lines.{made_line};
ghost use Rattle.made_run.specs.Runs.{IsJob, IsRunLine};
ghost use Rattle.made_run.specs.Steps.{run_steps, traced_all};
ghost use Rattle.script_run.specs.Steps.{command_steps, trace_of, traced};

use crate::drawing::draw_edit;
use crate::lines::{push_counts, push_deficit, push_instance, push_job, push_totals};
use crate::marks::{begin_before, end_after, undo_after};
use archive_generator::Draws;
use khe_base::{NoMemory, Text};
use khe_engine::{Behind, EditFault, Edited, Engine};
use khe_instance::{Instance, Plain};
use khe_told::{Blank, Edit, Family, Steps};
use std::alloc::Global;
use std::marker::Brand;
use std::sync::ledger::Ledger;

/// What a job was made from.
#[derive(Clone, Copy, PartialEq, Eq)]
pub struct Job {
    /// The seed that its draws began with.
    pub seed: u64,
    /// How many events it has.
    pub size: u32,
    /// For how many times its events run together, at least 1.
    pub slots: u32,
}

/// How many edits of a run were accepted and how many refused.
#[derive(Clone, Copy, PartialEq, Eq)]
pub struct Counts {
    /// How many were made.
    pub accepted: u32,
    /// How many were refused.
    pub refused: u32,
}

/// The line on the run of a job, `made seed S size N resources K monitors M accepted A refused F hard H
/// soft S deficit D` with a line feed: its ten edits an event are drawn, in tens of which each has a mark
/// and every second is undone, and carried out on an engine of a timetable of the job's instance.
///
/// The draws go on from those of the archive. It fails only where memory is refused. It takes what opening an
/// engine takes, for each edit what watches its changes, and at the end what it takes to find what is short.
pub fn run_line<F: Family + Drop>(
    alloc: Global,
    inst: &Instance,
    plain: &Plain,
    draws: &mut Draws,
    job: Job,
) -> Result<Text, NoMemory>
    requires joined { F.IsWellJoined }
    requires serves { ServesAll F.serves_kind }
    requires valid { IsValid inst.now plain.now }
    requires job { IsJob job }
    requires drawn { draws.old.state ≡ state_after job.seed job.size }
    ensures { IfOk result (IsRunLine job.seed job.size inst.now plain.now) }
{
    let engine = Engine::<F>::open(alloc, inst, plain)?;
    run_on::<F, Brand>(alloc, engine.put_off(), draws, job, Blank::new(1))
}

/// Runs the edits of a job on an engine, with the steps in a ledger of its own, and forms the line.
fn run_on<F: Family + Drop, L: Ledger>(
    alloc: Global,
    engine: Behind<'_, F>,
    draws: &mut Draws,
    job: Job,
    blank: Blank,
) -> Result<Text, NoMemory>
    requires name { blank.name ≡ L.name }
    requires shares { blank.parts ≡ L.parts }
    requires some { 0 < blank.parts }
    requires marks { engine.world.saved ≡ [] }
    requires small { job.size < 2 ^ 28 }
    requires slots { 1 ≤ job.slots }
    ensures { IfOk result (λ t. t ≡ made_line job.seed job.size engine.entry.world.parts (course engine.entry.world.parts (started engine.entry.world.state) (spec.drawn_commands job.size job.slots draws.old.state))) }
{
    let mut steps = Steps::<L>::new(blank);
    run_counting(alloc, engine, draws, job, &mut steps)
}

/// Runs the edits of a job on an engine, and forms the line. It takes at most as many steps as the engine owes and as
/// the changes of all edits that are accepted, and of all that is undone, have watchers.
fn run_counting<F: Family + Drop, L: Ledger>(
    alloc: Global,
    mut engine: Behind<'_, F>,
    draws: &mut Draws,
    job: Job,
    steps: &mut Steps<L>,
) -> Result<Text, NoMemory>
    requires marks { engine.world.saved ≡ [] }
    requires small { job.size < 2 ^ 28 }
    requires slots { 1 ≤ job.slots }
    ensures line { IfOk result (λ t. t ≡ made_line job.seed job.size engine.entry.world.parts (course engine.entry.world.parts (started engine.entry.world.state) (spec.drawn_commands job.size job.slots draws.old.state))) }
    ensures steps { steps.new ≤ steps.old + engine.entry.owed + run_steps engine.entry.world.parts (trace_of engine.entry.world) (spec.drawn_commands job.size job.slots draws.old.state) }
{
    let counts = run_all(&mut engine, draws, job, steps)?;
    let engine = engine.caught_up(steps);
    line_on(alloc, &engine, job, counts)
}

/// Carries out all edits and marks of a job, and counts the edits.
fn run_all<F: Family, L: Ledger>(
    engine: &mut Behind<'_, F>,
    draws: &mut Draws,
    job: Job,
    steps: &mut Steps<L>,
) -> Result<Counts, NoMemory>
    requires marks { engine.old.world.saved ≡ [] }
    requires small { job.size < 2 ^ 28 }
    requires slots { 1 ≤ job.slots }
    ensures parts { engine.new.world.parts ≡ engine.old.world.parts }
    ensures course { IfOk result (λ n. course_of engine.new.world n ≡ course engine.old.world.parts (started engine.old.world.state) (spec.drawn_commands job.size job.slots draws.old.state)) }
    ensures steps { steps.new + engine.new.owed ≤ steps.old + engine.old.owed + run_steps engine.old.world.parts (trace_of engine.old.world) (spec.drawn_commands job.size job.slots draws.old.state) }
{
    let mut counts = Counts {
        accepted: 0,
        refused: 0,
    };
    let edits = 10 * job.size;
    for number in 0..edits {
        step(engine, draws, job, number, &mut counts, steps)?;
    }
    Ok(counts)
}

/// Draws the edit with a number and carries it out, with the marks before and after it.
#[tactic(auto, unfolding(crate::specs::Commands::step))]
fn step<F: Family, L: Ledger>(
    engine: &mut Behind<'_, F>,
    draws: &mut Draws,
    job: Job,
    number: u32,
    counts: &mut Counts,
    steps: &mut Steps<L>,
) -> Result<(), NoMemory>
    requires slots { 1 ≤ job.slots }
    requires few { counts.old.accepted + counts.old.refused < 2 ^ 32 - 1 }
    ensures parts { engine.new.world.parts ≡ engine.old.world.parts }
    ensures course { OnOk result (course_of engine.new.world counts.new ≡ course engine.old.world.parts (course_of engine.old.world counts.old) (spec.step job.size job.slots number draws.old.state).0) }
    ensures state { OnOk result (draws.new.state ≡ (spec.step job.size job.slots number draws.old.state).1) }
    ensures counted { OnOk result (counts.new.accepted + counts.new.refused ≡ counts.old.accepted + counts.old.refused + 1) }
    ensures traced { OnOk result (trace_of engine.new.world ≡ traced_all engine.old.world.parts (trace_of engine.old.world) (spec.step job.size job.slots number draws.old.state).0) }
    ensures steps { steps.new + engine.new.owed ≤ steps.old + engine.old.owed + run_steps engine.old.world.parts (trace_of engine.old.world) (spec.step job.size job.slots number draws.old.state).0 }
{
    begin_before(engine, number);
    let edit = draw_edit(draws, job.size, job.slots);
    carry_out(engine, edit, counts, steps)?;
    undo_after(engine, number, steps);
    end_after(engine, number);
    Ok(())
}

/// Carries out an edit, and counts it.
#[tactic(auto, using(crate::proofs::CourseLaws::accepted_course, crate::proofs::CourseLaws::refused_course))]
fn carry_out<F: Family, L: Ledger>(
    engine: &mut Behind<'_, F>,
    edit: Edit,
    counts: &mut Counts,
    steps: &mut Steps<L>,
) -> Result<(), NoMemory>
    requires few { counts.old.accepted + counts.old.refused < 2 ^ 32 - 1 }
    ensures parts { engine.new.world.parts ≡ engine.old.world.parts }
    ensures course { OnOk result (course_of engine.new.world counts.new ≡ after engine.old.world.parts (course_of engine.old.world counts.old) (command.Edit edit)) }
    ensures counted { OnOk result (counts.new.accepted + counts.new.refused ≡ counts.old.accepted + counts.old.refused + 1) }
    ensures traced { OnOk result (trace_of engine.new.world ≡ traced engine.old.world.parts (trace_of engine.old.world) (command.Edit edit)) }
    ensures steps { steps.new + engine.new.owed ≤ steps.old + engine.old.owed + command_steps engine.old.world.parts (trace_of engine.old.world) (command.Edit edit) }
{
    match engine.edit(edit, steps) {
        Ok(_) => {
            counts.accepted += 1;
            Ok(())
        }
        Err(EditFault::Refused(_)) => {
            counts.refused += 1;
            Ok(())
        }
        Err(EditFault::NoMemory) => Err(NoMemory),
    }
}

/// The line on a run that left this engine.
#[tactic(auto, unfolding(crate::specs::Lines::made_line))]
fn line_on<F: Family>(
    alloc: Global,
    engine: &Engine<'_, F>,
    job: Job,
    counts: Counts,
) -> Result<Text, NoMemory>
    ensures { IfOk result (λ t. t ≡ made_line job.seed job.size engine.now.parts (course_of engine.now counts)) }
{
    let deficit = deficit_on(alloc, engine)?;
    let mut line = Text::new(alloc);
    push_job(&mut line, job.seed, job.size)?;
    push_instance(&mut line, engine.instance())?;
    push_counts(&mut line, counts.accepted, counts.refused)?;
    push_totals(&mut line, engine.totals())?;
    push_deficit(&mut line, deficit)?;
    Ok(line)
}

/// How many demands no assignment can serve.
fn deficit_on<F: Family>(alloc: Global, engine: &Engine<'_, F>) -> Result<u32, NoMemory>
    ensures { IfOk result (λ d. d ≡ deficit_of engine.now.parts engine.now.state.slots) }
{
    let shortage = engine.shortage(alloc)?;
    Ok(shortage.deficit)
}
