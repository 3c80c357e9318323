//! What one command makes of a timetable with ties, and what it answers.

ghost use Rattle.std.specs.Prelude.{◌≡◌, ◌≤◌, ◌++◌, true, IsErrOf, OnErr, OnOk};
ghost use Rattle.edit_script.specs.declared.commands.Command.TheVariants as base;
ghost use Rattle.khe_io.specs.Faults.{Rose};
ghost use Rattle.script_run.specs.Added.{IsAdded, IsCutOff};
ghost use Rattle.script_run.specs.Plays.{is_question};
ghost use Rattle.followers.specs.declared.lines.TiedCommand.TheVariants as tied_command;
ghost use Rattle.tied_run.specs.Answers as spec;
ghost use Rattle.tied_run.specs.Plays.{by_edit, tied_play_of, tied_played};

use crate::ties::{push_ties, tied_refused_line};
use edit_script::{Command, Question};
use followers::{Tied, TiedCommand, TiedEdit, TiedFault, TiedRefusal};
use khe_base::{MeetId, NoMemory, Text};
use khe_io::Cut;
use khe_told::Steps;
use script_run::{Onward, Shortages, push_answer, push_mark, push_ok, push_question_answer};
use std::alloc::Global;
use std::sync::ledger::Ledger;

/// Carries a command out, and adds its answer, which goes on while it grows where it is long. It takes the time of the
/// edit or of the answer.
#[tactic(auto, using(script_run::proofs::AddedLaws::added_text, script_run::proofs::AddedLaws::cut_none), unfolding(crate::specs::Answers::tied_answer, crate::specs::Plays::tied_played))]
pub(crate) fn carry_out<F: Shortages, L: Ledger, G: Onward>(
    alloc: Global,
    tied: &mut Tied<'_, F>,
    command: TiedCommand,
    text: &mut Text,
    onward: &mut G,
    steps: &mut Steps<L>,
) -> Result<(), Cut>
    ensures parts { tied.new.parts ≡ tied.old.parts }
    ensures played { OnOk result (tied_play_of tied.new ≡ tied_played tied.old.parts (tied_play_of tied.old) command) }
    ensures added { OnOk result (IsAdded (G.taken onward.old) (G.taken onward.new) text.old (spec.tied_answer tied.old.parts (tied_play_of tied.old) command) text.new) }
    ensures front { OnErr result (IsCutOff (G.taken onward.old) (G.taken onward.new) text.old (spec.tied_answer tied.old.parts (tied_play_of tied.old) command)) }
    ensures fault { IsErrOf result Cut.WriteFault → Rose (G.faults onward.old) (G.faults onward.new) }
    ensures faultless { OnOk result (G.faults onward.new ≡ G.faults onward.old) }
    ensures faultless_starved { IsErrOf result Cut.NoMemory → G.faults onward.new ≡ G.faults onward.old }
    ensures counted { G.faults onward.old ≤ G.faults onward.new }
{
    match command {
        TiedCommand::Base(command) => {
            carry_out_onward(alloc, tied, command, text, onward, steps)
        }
        TiedCommand::Tie {
            follower,
            leader,
            offset,
        } => {
            let edit = TiedEdit::Tie {
                follower: MeetId(follower),
                leader: MeetId(leader),
                offset,
            };
            Ok(carry_out_edit(alloc, tied, edit, text, steps)?)
        }
        TiedCommand::Untie { follower } => {
            let edit = TiedEdit::Untie {
                follower: MeetId(follower),
            };
            Ok(carry_out_edit(alloc, tied, edit, text, steps)?)
        }
        TiedCommand::Ties => push_ties(alloc, tied, text, onward),
    }
}

/// Carries out a command of scripts without ties, and adds its answer, which goes on while it grows where it is long.
#[tactic(auto, using(script_run::proofs::AddedLaws::added_text, script_run::proofs::AddedLaws::cut_none))]
fn carry_out_onward<F: Shortages, L: Ledger, G: Onward>(
    alloc: Global,
    tied: &mut Tied<'_, F>,
    command: Command,
    text: &mut Text,
    onward: &mut G,
    steps: &mut Steps<L>,
) -> Result<(), Cut>
    ensures parts { tied.new.parts ≡ tied.old.parts }
    ensures played { OnOk result (tied_play_of tied.new ≡ tied_played tied.old.parts (tied_play_of tied.old) (tied_command.Base command)) }
    ensures added { OnOk result (IsAdded (G.taken onward.old) (G.taken onward.new) text.old (spec.tied_answer tied.old.parts (tied_play_of tied.old) (tied_command.Base command)) text.new) }
    ensures front { OnErr result (IsCutOff (G.taken onward.old) (G.taken onward.new) text.old (spec.tied_answer tied.old.parts (tied_play_of tied.old) (tied_command.Base command))) }
    ensures fault { IsErrOf result Cut.WriteFault → Rose (G.faults onward.old) (G.faults onward.new) }
    ensures faultless { OnOk result (G.faults onward.new ≡ G.faults onward.old) }
    ensures faultless_starved { IsErrOf result Cut.NoMemory → G.faults onward.new ≡ G.faults onward.old }
    ensures counted { G.faults onward.old ≤ G.faults onward.new }
{
    match command {
        Command::Ask(question) => ask_question(alloc, tied, question, text, onward),
        _ => Ok(carry_out_base(alloc, tied, command, text, steps)?),
    }
}

/// Adds the answer to a question, which goes on while it grows where it is long.
#[tactic(auto, using(crate::proofs::PlayLaws::question_played))]
fn ask_question<F: Shortages, G: Onward>(
    alloc: Global,
    tied: &Tied<'_, F>,
    question: Question,
    text: &mut Text,
    onward: &mut G,
) -> Result<(), Cut>
    ensures played { tied_play_of tied.now ≡ tied_played tied.now.parts (tied_play_of tied.now) (tied_command.Base (base.Ask question)) }
    ensures added { OnOk result (IsAdded (G.taken onward.old) (G.taken onward.new) text.old (spec.tied_answer tied.now.parts (tied_play_of tied.now) (tied_command.Base (base.Ask question))) text.new) }
    ensures front { OnErr result (IsCutOff (G.taken onward.old) (G.taken onward.new) text.old (spec.tied_answer tied.now.parts (tied_play_of tied.now) (tied_command.Base (base.Ask question)))) }
    ensures fault { IsErrOf result Cut.WriteFault → Rose (G.faults onward.old) (G.faults onward.new) }
    ensures faultless { OnOk result (G.faults onward.new ≡ G.faults onward.old) }
    ensures faultless_starved { IsErrOf result Cut.NoMemory → G.faults onward.new ≡ G.faults onward.old }
    ensures counted { G.faults onward.old ≤ G.faults onward.new }
{
    push_question_answer(alloc, tied.engine(), question, text, onward)
}

/// The same, where the whole answer waits.
#[tactic(auto, unfolding(crate::specs::Answers::tied_answer, crate::specs::Plays::tied_played))]
fn carry_out_base<F: Shortages, L: Ledger>(
    alloc: Global,
    tied: &mut Tied<'_, F>,
    command: Command,
    text: &mut Text,
    steps: &mut Steps<L>,
) -> Result<(), NoMemory>
    ensures parts { tied.new.parts ≡ tied.old.parts }
    ensures played { OnOk result (tied_play_of tied.new ≡ tied_played tied.old.parts (tied_play_of tied.old) (tied_command.Base command)) }
    ensures text { OnOk result (text.new ≡ text.old ++ spec.tied_answer tied.old.parts (tied_play_of tied.old) (tied_command.Base command)) }
{
    match command {
        Command::Edit(edit) => carry_out_edit(alloc, tied, TiedEdit::Base(edit), text, steps),
        Command::Begin => begin(alloc, tied, text),
        Command::End => end(alloc, tied, text),
        Command::Undo => undo(alloc, tied, text, steps),
        Command::UndoTo(k) => undo_to(alloc, tied, k, text, steps),
        _ => ask(alloc, tied, command, text),
    }
}

/// Adds the answer to a command that changes nothing.
#[tactic(auto, using(crate::proofs::PlayLaws::asked_played, crate::proofs::PlayLaws::asked_answer))]
fn ask<F: Shortages>(
    alloc: Global,
    tied: &Tied<'_, F>,
    command: Command,
    text: &mut Text,
) -> Result<(), NoMemory>
    requires question { is_question command ≡ true }
    ensures played { tied_play_of tied.now ≡ tied_played tied.now.parts (tied_play_of tied.now) (tied_command.Base command) }
    ensures text { OnOk result (text.new ≡ text.old ++ spec.tied_answer tied.now.parts (tied_play_of tied.now) (tied_command.Base command)) }
{
    push_answer(alloc, tied.engine(), command, text)
}

/// Makes an edit, and adds what it made or why it is refused.
#[tactic(auto, using(crate::proofs::PlayLaws::edit_made, crate::proofs::PlayLaws::edit_refused, crate::proofs::PlayLaws::made_answer, crate::proofs::PlayLaws::refused_answer))]
fn carry_out_edit<F: Shortages, L: Ledger>(
    alloc: Global,
    tied: &mut Tied<'_, F>,
    edit: TiedEdit,
    text: &mut Text,
    steps: &mut Steps<L>,
) -> Result<(), NoMemory>
    ensures parts { tied.new.parts ≡ tied.old.parts }
    ensures played { OnOk result (tied_play_of tied.new ≡ by_edit tied.old.parts (tied_play_of tied.old) edit) }
    ensures text { OnOk result (text.new ≡ text.old ++ spec.edit_answer tied.old.parts (tied_play_of tied.old) edit) }
{
    match tied.edit(edit, steps) {
        Ok(made) => push_ok(alloc, made, text),
        Err(TiedFault::Refused(refusal)) => push_refused(alloc, refusal, text),
        Err(TiedFault::NoMemory) => Err(NoMemory),
    }
}

/// Adds why something is refused.
fn push_refused(alloc: Global, refusal: TiedRefusal, text: &mut Text) -> Result<(), NoMemory>
    ensures { OnOk result (text.new ≡ text.old ++ spec.tied_refused_line refusal) }
{
    text.push_text(&tied_refused_line(alloc, refusal)?)
}

/// Opens a mark.
fn begin<F: Shortages>(
    alloc: Global,
    tied: &mut Tied<'_, F>,
    text: &mut Text,
) -> Result<(), NoMemory>
    ensures parts { tied.new.parts ≡ tied.old.parts }
    ensures played { tied_play_of tied.new ≡ tied_played tied.old.parts (tied_play_of tied.old) (tied_command.Base base.Begin) }
    ensures text { OnOk result (text.new ≡ text.old ++ spec.tied_answer tied.old.parts (tied_play_of tied.old) (tied_command.Base base.Begin)) }
{
    let done = tied.begin();
    push_mark(alloc, done, text)
}

/// Closes the innermost mark.
fn end<F: Shortages>(alloc: Global, tied: &mut Tied<'_, F>, text: &mut Text) -> Result<(), NoMemory>
    ensures parts { tied.new.parts ≡ tied.old.parts }
    ensures played { tied_play_of tied.new ≡ tied_played tied.old.parts (tied_play_of tied.old) (tied_command.Base base.End) }
    ensures text { OnOk result (text.new ≡ text.old ++ spec.tied_answer tied.old.parts (tied_play_of tied.old) (tied_command.Base base.End)) }
{
    let done = tied.end();
    push_mark(alloc, done, text)
}

/// Undoes what was done since the innermost mark.
fn undo<F: Shortages, L: Ledger>(
    alloc: Global,
    tied: &mut Tied<'_, F>,
    text: &mut Text,
    steps: &mut Steps<L>,
) -> Result<(), NoMemory>
    ensures parts { tied.new.parts ≡ tied.old.parts }
    ensures played { tied_play_of tied.new ≡ tied_played tied.old.parts (tied_play_of tied.old) (tied_command.Base base.Undo) }
    ensures text { OnOk result (text.new ≡ text.old ++ spec.tied_answer tied.old.parts (tied_play_of tied.old) (tied_command.Base base.Undo)) }
{
    let done = tied.undo(steps);
    push_mark(alloc, done, text)
}

/// Undoes what was done since a mark.
fn undo_to<F: Shortages, L: Ledger>(
    alloc: Global,
    tied: &mut Tied<'_, F>,
    k: u32,
    text: &mut Text,
    steps: &mut Steps<L>,
) -> Result<(), NoMemory>
    ensures parts { tied.new.parts ≡ tied.old.parts }
    ensures played { tied_play_of tied.new ≡ tied_played tied.old.parts (tied_play_of tied.old) (tied_command.Base (base.UndoTo k)) }
    ensures text { OnOk result (text.new ≡ text.old ++ spec.tied_answer tied.old.parts (tied_play_of tied.old) (tied_command.Base (base.UndoTo k))) }
{
    let done = tied.undo_to(k, steps);
    push_mark(alloc, done, text)
}
