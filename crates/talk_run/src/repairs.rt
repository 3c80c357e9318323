//! The repair of the timetable of a talk.

ghost use Rattle.std.specs.Prelude.{◌≡◌, ◌<◌, ◌≤◌, ◌++◌, [], IsTrue, OnOk, length};
ghost use Rattle.khe_base.specs.declared.limits.TheConstants.{CHAIN_MOVES};
ghost use Rattle.script_run.specs.Plays.{play_of};
ghost use Rattle.talk_run.specs.Answers as spec;
ghost use Rattle.talk_run.specs.Lines.{are_chains};

use crate::commands::Chains;
use ejection_repair::repair;
use khe_base::{NoMemory, Text};
use khe_engine::Engine;
use khe_told::{Blank, Family, Steps};
use repair_run::repair_line;
use std::alloc::Global;
use std::marker::Brand;
use std::sync::ledger::Ledger;

/// Repairs the timetable of an engine, and adds the line on it; where a mark is open, it adds the line that refuses.
///
/// It fails only where memory is refused, after which the instance is the same and nothing else is promised. It
/// takes what `repair` takes.
#[tactic(auto, using(crate::proofs::PlayLaws::no_marks, crate::proofs::PlayLaws::depth_some, crate::proofs::PlayLaws::depth_small, crate::proofs::PlayLaws::budget_some))]
pub(crate) fn answer_repair<F: Family>(
    alloc: Global,
    engine: &mut Engine<'_, F>,
    chains: Chains,
    text: &mut Text,
) -> Result<(), NoMemory>
    requires { IsTrue (are_chains chains) }
    ensures parts { engine.new.parts ≡ engine.old.parts }
    ensures played { OnOk result (play_of engine.new ≡ spec.repair_played engine.old.parts (play_of engine.old) chains) }
    ensures text { OnOk result (text.new ≡ text.old ++ spec.repair_answer engine.old.parts (play_of engine.old) chains) }
{
    if engine.marks() == 0 {
        repair_counting::<F, Brand>(alloc, engine, chains, text, Blank::new(1))
    } else {
        text.push_literal("refused 31 OpenMark\n")
    }
}

/// Repairs the timetable of an engine without open marks, with the steps in a ledger, and adds the line on it.
fn repair_counting<F: Family, L: Ledger>(
    alloc: Global,
    engine: &mut Engine<'_, F>,
    chains: Chains,
    text: &mut Text,
    blank: Blank,
) -> Result<(), NoMemory>
    requires name { blank.name ≡ L.name }
    requires shares { blank.parts ≡ L.parts }
    requires some { 0 < blank.parts }
    requires depth { 1 ≤ chains.depth }
    requires deepest { chains.depth ≤ CHAIN_MOVES }
    requires budget { 1 ≤ chains.budget }
    requires marks { engine.old.saved ≡ [] }
    ensures parts { engine.new.parts ≡ engine.old.parts }
    ensures marks { OnOk result (engine.new.saved ≡ []) }
    ensures state { OnOk result (engine.new.state ≡ (spec.repaired_by engine.old.parts engine.old.state chains).state) }
    ensures text { OnOk result (text.new ≡ text.old ++ spec.line_on engine.old.parts (spec.repaired_by engine.old.parts engine.old.state chains)) }
{
    let mut steps = Steps::<L>::new(blank);
    let outcome = repair(
        engine,
        chains.depth,
        u64::from(chains.budget),
        u64::from(chains.diversifier),
        &mut steps,
    )?;
    text.push_text(&repair_line(alloc, outcome, engine.totals())?)
}
