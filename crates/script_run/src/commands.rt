//! One command by itself, for callers that ask line by line.

ghost use Rattle.std.specs.Prelude.{◌≡◌, ◌++◌, ◌<◌, OnOk};
ghost use Rattle.script_run.specs.Answers as spec;
ghost use Rattle.script_run.specs.Plays.{play_of, played};

use crate::answering::carry_out;
use crate::shortages::Shortages;
use edit_script::Command;
use khe_base::{NoMemory, Text};
use khe_engine::Engine;
use khe_told::{Blank, Steps};
use std::alloc::Global;
use std::marker::Brand;
use std::sync::ledger::Ledger;

/// Carries out the command of one line, and adds its answer, as a script does.
///
/// It fails only where memory is refused, after which the instance is the same and nothing else is promised. It
/// takes the time of the edit or of the answer.
pub fn answer_command<F: Shortages>(
    alloc: Global,
    engine: &mut Engine<'_, F>,
    command: Command,
    text: &mut Text,
) -> Result<(), NoMemory>
    ensures parts { engine.new.parts ≡ engine.old.parts }
    ensures played { OnOk result (play_of engine.new ≡ played engine.old.parts (play_of engine.old) command) }
    ensures text { OnOk result (text.new ≡ text.old ++ spec.answer engine.old.parts (play_of engine.old) command) }
{
    answer_counting::<F, Brand>(alloc, engine, command, text, Blank::new(1))
}

/// The same, with the steps of the edit in a ledger.
fn answer_counting<F: Shortages, L: Ledger>(
    alloc: Global,
    engine: &mut Engine<'_, F>,
    command: Command,
    text: &mut Text,
    blank: Blank,
) -> Result<(), NoMemory>
    requires name { blank.name ≡ L.name }
    requires shares { blank.parts ≡ L.parts }
    requires some { 0 < blank.parts }
    ensures parts { engine.new.parts ≡ engine.old.parts }
    ensures played { OnOk result (play_of engine.new ≡ played engine.old.parts (play_of engine.old) command) }
    ensures text { OnOk result (text.new ≡ text.old ++ spec.answer engine.old.parts (play_of engine.old) command) }
{
    let mut steps = Steps::<L>::new(blank);
    carry_out(alloc, engine, command, text, &mut steps)
}
