//! The marks of a run, by the number of an edit.

ghost use Rattle.std.specs.Prelude.{◌≡◌, ◌≤◌, ◌+◌, ℕ};
ghost use Rattle.edit_script.specs.declared.commands.Command.TheVariants as command;
ghost use Rattle.made_run.specs.Commands as spec;
ghost use Rattle.made_run.specs.Courses.{after, course, course_of};
ghost use Rattle.made_run.specs.Steps.{run_steps, traced_all};
ghost use Rattle.script_run.specs.Steps.{command_steps, trace_of, traced};
ghost use Rattle.made_run.specs.declared.running.Counts.{Counts as Counted};

use khe_engine::{Behind, Edited};
use khe_told::{Family, Steps};
use std::sync::ledger::Ledger;

/// Begins the mark that is begun before an edit, if there is one.
#[tactic(auto, using(crate::proofs::CourseLaws::begins_one, crate::proofs::CourseLaws::begins_none, crate::proofs::StepLaws::traced_begins, crate::proofs::StepLaws::traced_no_begins))]
pub(crate) fn begin_before<F: Family>(engine: &mut Behind<'_, F>, number: u32)
    ensures parts { engine.new.world.parts ≡ engine.old.world.parts }
    ensures course { (n : Counted) → course_of engine.new.world n ≡ course engine.old.world.parts (course_of engine.old.world n) (spec.begins number) }
    ensures traced { trace_of engine.new.world ≡ traced_all engine.old.world.parts (trace_of engine.old.world) (spec.begins number) }
    ensures owed { engine.new.owed ≡ engine.old.owed }
{
    if number % 10 == 0 {
        return begin(engine);
    }
}

/// Undoes the edits since the mark, where they are undone after this edit.
#[tactic(auto, using(crate::proofs::CourseLaws::undoes_one, crate::proofs::CourseLaws::undoes_none, crate::proofs::StepLaws::traced_undoes, crate::proofs::StepLaws::traced_no_undoes, crate::proofs::StepLaws::steps_undoes))]
pub(crate) fn undo_after<F: Family, L: Ledger>(
    engine: &mut Behind<'_, F>,
    number: u32,
    steps: &mut Steps<L>,
)
    ensures parts { engine.new.world.parts ≡ engine.old.world.parts }
    ensures course { (n : Counted) → course_of engine.new.world n ≡ course engine.old.world.parts (course_of engine.old.world n) (spec.undoes number) }
    ensures traced { trace_of engine.new.world ≡ traced_all engine.old.world.parts (trace_of engine.old.world) (spec.undoes number) }
    ensures steps { steps.new + engine.new.owed ≤ steps.old + engine.old.owed + run_steps engine.old.world.parts (trace_of engine.old.world) (spec.undoes number) }
{
    if number % 20 == 9 {
        return undo(engine, steps);
    }
}

/// Ends the mark, where it is ended after this edit.
#[tactic(auto, using(crate::proofs::CourseLaws::ends_one, crate::proofs::CourseLaws::ends_none, crate::proofs::StepLaws::traced_ends, crate::proofs::StepLaws::traced_no_ends))]
pub(crate) fn end_after<F: Family>(engine: &mut Behind<'_, F>, number: u32)
    ensures parts { engine.new.world.parts ≡ engine.old.world.parts }
    ensures course { (n : Counted) → course_of engine.new.world n ≡ course engine.old.world.parts (course_of engine.old.world n) (spec.ends number) }
    ensures traced { trace_of engine.new.world ≡ traced_all engine.old.world.parts (trace_of engine.old.world) (spec.ends number) }
    ensures owed { engine.new.owed ≡ engine.old.owed }
{
    if number % 10 == 9 {
        return end(engine);
    }
}

/// Begins a mark.
fn begin<F: Family>(engine: &mut Behind<'_, F>)
    ensures parts { engine.new.world.parts ≡ engine.old.world.parts }
    ensures course { (n : Counted) → course_of engine.new.world n ≡ after engine.old.world.parts (course_of engine.old.world n) command.Begin }
    ensures traced { trace_of engine.new.world ≡ traced engine.old.world.parts (trace_of engine.old.world) command.Begin }
    ensures owed { engine.new.owed ≡ engine.old.owed }
{
    let _done = engine.begin();
}

/// Undoes the edits since the innermost mark.
fn undo<F: Family, L: Ledger>(engine: &mut Behind<'_, F>, steps: &mut Steps<L>)
    ensures parts { engine.new.world.parts ≡ engine.old.world.parts }
    ensures course { (n : Counted) → course_of engine.new.world n ≡ after engine.old.world.parts (course_of engine.old.world n) command.Undo }
    ensures traced { trace_of engine.new.world ≡ traced engine.old.world.parts (trace_of engine.old.world) command.Undo }
    ensures steps { steps.new + engine.new.owed ≤ steps.old + engine.old.owed + command_steps engine.old.world.parts (trace_of engine.old.world) command.Undo }
{
    let _done = engine.undo(steps);
}

/// Ends the innermost mark.
fn end<F: Family>(engine: &mut Behind<'_, F>)
    ensures parts { engine.new.world.parts ≡ engine.old.world.parts }
    ensures course { (n : Counted) → course_of engine.new.world n ≡ after engine.old.world.parts (course_of engine.old.world n) command.End }
    ensures traced { trace_of engine.new.world ≡ traced engine.old.world.parts (trace_of engine.old.world) command.End }
    ensures owed { engine.new.owed ≡ engine.old.owed }
{
    let _done = engine.end();
}
