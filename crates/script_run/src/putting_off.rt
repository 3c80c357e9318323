//! A script on an engine that catches up only where a line asks for something.

ghost use Rattle.std.specs.Prelude.{◌≡◌, ◌≤◌, ◌+◌, ◌++◌, None, Some, true, false, OnOk, OnErr, IsErrOf, is_some};
ghost use Rattle.khe_io.specs.Faults.{Rose};
ghost use Rattle.khe_engine.specs.Worlds.{World};
ghost use Rattle.script_run.specs.Added.{IsAdded, IsCutOff};
ghost use Rattle.script_run.specs.Answers as said;
ghost use Rattle.script_run.specs.Plays.{asks, is_question, play_of, played};
ghost use Rattle.script_run.specs.Scripts.{either};
ghost use Rattle.script_run.specs.Steps.{command_steps, owed_by, trace_of, traced};

use crate::answering::{asks, play_change, push_answer};
use crate::faults::fault_line;
use crate::onward::Onward;
use crate::players::Player;
use crate::questions::push_question_answer;
use crate::shortages::Shortages;
use edit_script::{Command, read_line};
use khe_base::{NoMemory, Text};
use khe_engine::{Behind, Engine};
use khe_io::Cut;
use khe_told::{Family, Steps};
use std::alloc::Global;
use std::sync::ledger::Ledger;

/// How many commands that ask nothing come one after the other before the engine is put off: where a script asks
/// after each of a few edits it never is, since that takes time too.
const IN_A_ROW: u32 = 4;

/// An engine on which a script is run. It measures at once, or, where many edits come in a row, it is put off and
/// catches up once a line asks for something.
#[derive(Drop)]
pub struct PutOff<'i, F: Family> {
    /// The engine while it measures at once.
    settled: Option<Engine<'i, F>>,
    /// The engine while it is put off.
    behind: Option<Behind<'i, F>>,
    /// How many commands that ask nothing came since the last one that did.
    in_a_row: u32,
    ghost there: { is_some (either settled behind) ≡ true },
    ghost apart: { is_some behind ≡ true → settled ≡ None },
}

impl<'i, F: Shortages + Drop> PutOff<'i, F> {
    /// A script runs on this engine. It takes constant time and no memory.
    pub fn new(engine: Engine<'i, F>) -> PutOff<'i, F>
        ensures there { either result.settled result.behind ≡ Some engine.entry }
        ensures owed { owed_by result.behind ≡ 0 }
    {
        PutOff {
            settled: Some(engine),
            behind: None,
            in_a_row: 0,
        }
    }

    /// Lets the engine catch up, if it is put off.
    fn settle<L: Ledger>(&mut self, steps: &mut Steps<L>)
        ensures settled { self.new.settled ≡ either self.old.settled self.old.behind }
        ensures behind { self.new.behind ≡ None }
        ensures steps { steps.new ≤ steps.old + owed_by self.old.behind }
    {
        self.in_a_row = 0;
        if let Some(behind) = self.behind.take() {
            self.settled = Some(behind.caught_up(steps));
        }
    }

    /// Puts the engine off, unless it is.
    fn put_off(&mut self)
        ensures same { either self.new.settled self.new.behind ≡ either self.old.settled self.old.behind }
        ensures owed { owed_by self.new.behind ≡ owed_by self.old.behind }
    {
        if let Some(engine) = self.settled.take() {
            self.behind = Some(engine.put_off());
        }
    }
}

/// Adds the answer to a question. Where it is long it goes on while it grows.
#[tactic(auto, using(crate::proofs::AddedLaws::added_text, crate::proofs::AddedLaws::cut_none), unfolding(crate::specs::Answers::answer, crate::specs::Plays::played))]
fn answer<F: Shortages, G: Onward>(
    alloc: Global,
    engine: &Engine<'_, F>,
    command: Command,
    text: &mut Text,
    onward: &mut G,
) -> Result<(), Cut>
    requires question { is_question command ≡ true }
    ensures played { play_of engine.now ≡ played engine.now.parts (play_of engine.now) command }
    ensures added { OnOk result (IsAdded (G.taken onward.old) (G.taken onward.new) text.old (said.answer engine.now.parts (play_of engine.now) command) text.new) }
    ensures front { OnErr result (IsCutOff (G.taken onward.old) (G.taken onward.new) text.old (said.answer engine.now.parts (play_of engine.now) command)) }
    ensures fault { IsErrOf result Cut.WriteFault → Rose (G.faults onward.old) (G.faults onward.new) }
    ensures faultless { OnOk result (G.faults onward.new ≡ G.faults onward.old) }
    ensures faultless_starved { IsErrOf result Cut.NoMemory → G.faults onward.new ≡ G.faults onward.old }
    ensures counted { G.faults onward.old ≤ G.faults onward.new }
{
    match command {
        Command::Ask(question) => push_question_answer(alloc, engine, question, text, onward),
        _ => Ok(push_answer(alloc, engine, command, text)?),
    }
}

impl<'i, F: Shortages + Drop> PutOff<'i, F> {
    /// Adds the answer to a question, once the engine has caught up.
    fn ask<L: Ledger, G: Onward>(
        &mut self,
        alloc: Global,
        command: Command,
        text: &mut Text,
        onward: &mut G,
        steps: &mut Steps<L>,
    ) -> Result<(), Cut>
        requires question { is_question command ≡ true }
        ensures same { either self.new.settled self.new.behind ≡ either self.old.settled self.old.behind }
        ensures played { (w : World) → either self.old.settled self.old.behind ≡ Some w → play_of w ≡ played w.parts (play_of w) command }
        ensures added { (w : World) → either self.old.settled self.old.behind ≡ Some w → OnOk result (IsAdded (G.taken onward.old) (G.taken onward.new) text.old (said.answer w.parts (play_of w) command) text.new) }
        ensures front { (w : World) → either self.old.settled self.old.behind ≡ Some w → OnErr result (IsCutOff (G.taken onward.old) (G.taken onward.new) text.old (said.answer w.parts (play_of w) command)) }
        ensures fault { IsErrOf result Cut.WriteFault → Rose (G.faults onward.old) (G.faults onward.new) }
        ensures faultless { OnOk result (G.faults onward.new ≡ G.faults onward.old) }
        ensures faultless_starved { IsErrOf result Cut.NoMemory → G.faults onward.new ≡ G.faults onward.old }
        ensures counted { G.faults onward.old ≤ G.faults onward.new }
        ensures steps { steps.new + owed_by self.new.behind ≤ steps.old + owed_by self.old.behind }
    {
        self.settle(steps);
        let Some(engine) = self.settled.as_ref() else {
            unreachable!()
        };
        answer(alloc, engine, command, text, onward)
    }

    /// Carries out a command that asks nothing on the engine as it is, and adds its answer.
    fn change<L: Ledger>(
        &mut self,
        alloc: Global,
        command: Command,
        text: &mut Text,
        steps: &mut Steps<L>,
    ) -> Result<(), NoMemory>
        requires change { asks command ≡ false }
        ensures played { (w : World) → either self.old.settled self.old.behind ≡ Some w → (v : World) × (either self.new.settled self.new.behind ≡ Some v) × (v.parts ≡ w.parts) × OnOk result (play_of v ≡ played w.parts (play_of w) command) }
        ensures text { (w : World) → either self.old.settled self.old.behind ≡ Some w → OnOk result (text.new ≡ text.old ++ said.answer w.parts (play_of w) command) }
        ensures traced { (w : World) → either self.old.settled self.old.behind ≡ Some w → (v : World) × (either self.new.settled self.new.behind ≡ Some v) × (v.parts ≡ w.parts) × OnOk result (trace_of v ≡ traced w.parts (trace_of w) command) }
        ensures steps { (w : World) → either self.old.settled self.old.behind ≡ Some w → steps.new + owed_by self.new.behind ≤ steps.old + owed_by self.old.behind + command_steps w.parts (trace_of w) command }
    {
        if let Some(engine) = self.settled.as_mut() {
            return play_change(alloc, engine, command, text, steps);
        }
        let Some(behind) = self.behind.as_mut() else {
            unreachable!()
        };
        play_change(alloc, behind, command, text, steps)
    }

    /// Carries a command out, and adds its answer.
    fn carry_out<L: Ledger, G: Onward>(
        &mut self,
        alloc: Global,
        command: Command,
        text: &mut Text,
        onward: &mut G,
        steps: &mut Steps<L>,
    ) -> Result<(), Cut>
        ensures played { (w : World) → either self.old.settled self.old.behind ≡ Some w → (v : World) × (either self.new.settled self.new.behind ≡ Some v) × (v.parts ≡ w.parts) × OnOk result (play_of v ≡ played w.parts (play_of w) command) }
        ensures added { (w : World) → either self.old.settled self.old.behind ≡ Some w → OnOk result (IsAdded (G.taken onward.old) (G.taken onward.new) text.old (said.answer w.parts (play_of w) command) text.new) }
        ensures front { (w : World) → either self.old.settled self.old.behind ≡ Some w → OnErr result (IsCutOff (G.taken onward.old) (G.taken onward.new) text.old (said.answer w.parts (play_of w) command)) }
        ensures fault { IsErrOf result Cut.WriteFault → Rose (G.faults onward.old) (G.faults onward.new) }
        ensures faultless { OnOk result (G.faults onward.new ≡ G.faults onward.old) }
        ensures faultless_starved { IsErrOf result Cut.NoMemory → G.faults onward.new ≡ G.faults onward.old }
        ensures counted { G.faults onward.old ≤ G.faults onward.new }
        ensures traced { (w : World) → either self.old.settled self.old.behind ≡ Some w → (v : World) × (either self.new.settled self.new.behind ≡ Some v) × (v.parts ≡ w.parts) × OnOk result (trace_of v ≡ traced w.parts (trace_of w) command) }
        ensures steps { (w : World) → either self.old.settled self.old.behind ≡ Some w → steps.new + owed_by self.new.behind ≤ steps.old + owed_by self.old.behind + command_steps w.parts (trace_of w) command }
    {
        if asks(command) {
            return self.ask(alloc, command, text, onward, steps);
        }
        if self.in_a_row >= IN_A_ROW {
            self.put_off();
        } else {
            self.in_a_row += 1;
        }
        Ok(self.change(alloc, command, text, steps)?)
    }
}

impl<'i, F: Shortages + Drop> Player for PutOff<'i, F> {
    ghost use Rattle.std.specs.Prelude.{refl, true};
    ghost use Rattle.script_run.specs.Scripts as spec;
    ghost use Rattle.script_run.specs.Steps as counts;

    ghost answers = { λ e. spec.answers_of (spec.either e.settled e.behind) };

    ghost reads = { spec.reads };

    ghost is_counted = { true };

    ghost owed = { λ e. counts.owed_by e.behind };

    ghost ahead = { λ e ls. counts.steps_of (spec.either e.settled e.behind) ls };

    ghost ends = { λ x number. refl };

    fn play_line<L: Ledger, G: Onward>(
        &mut self,
        alloc: Global,
        line: &[u8],
        number: u32,
        text: &mut Text,
        onward: &mut G,
        steps: &mut Steps<L>,
    ) -> Result<bool, Cut> {
        match read_line(line) {
            Ok(command) => {
                self.carry_out(alloc, command, text, onward, steps)?;
                Ok(true)
            }
            Err(fault) => {
                text.push_text(&fault_line(alloc, u64::from(number), fault)?)?;
                Ok(false)
            }
        }
    }
}
