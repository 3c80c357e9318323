//! Repair that can be undone.

ghost use Rattle.std.specs.Prelude.{◌≡◌, ◌≤◌, ◌+◌, length, IfOk};
ghost use Rattle.khe_base.specs.declared.limits.TheConstants.{CHAIN_MOVES, MARKS};
ghost use Rattle.ejection_repair.specs.Kept.{states};
ghost use Rattle.ejection_repair.specs.Repaired.{repaired};

use crate::asks::{compare_from_here, totals_of};
use crate::looked::Aim;
use crate::outcome::{Outcome, Round};
use crate::repairing::round;
use crate::spans::Spans;
use khe_base::NoMemory;
use khe_base::limits::MARKS;
use khe_engine::Engine;
use khe_told::{Family, Steps};
use std::sync::ledger::Ledger;

/// Repairs the timetable of an engine inside the marks that are open, and comes to what `repair` comes
/// to by the same depth, budget and diversifier. The states at the marks stay, so an undo leads back.
/// As many further marks as the depth says have to be free.
///
/// Memory is taken for a record of each move that stays and one more for each chain, and before each
/// chain is looked for. Where it is refused, the timetable is that of the chains taken so far; an undo
/// leads back from there too. It takes the time of `repair` where one mark more is free; where none
/// is, nothing is lifted for several moves, and each makes both of its changes.
pub fn repair_inside<F: Family, L: Ledger>(
    engine: &mut Engine<'_, F>,
    depth: u32,
    budget: u64,
    diversifier: u64,
    steps: &mut Steps<L>,
) -> Result<Outcome, NoMemory>
    requires depth { 1 ≤ depth }
    requires deepest { depth ≤ CHAIN_MOVES }
    requires budget { 1 ≤ budget }
    requires marks { length engine.old.saved + depth ≤ MARKS }
    ensures outcome { IfOk result (λ o. o ≡ (repaired engine.old.parts engine.old.state depth budget diversifier).outcome) }
    ensures state { IfOk result (λ _. engine.new.state ≡ (repaired engine.old.parts engine.old.state depth budget diversifier).state) }
    ensures parts { engine.new.parts ≡ engine.old.parts }
    ensures saved { states engine.new.saved ≡ states engine.old.saved }
{
    let spare_marks = marks_beside(engine, depth);
    let mut spans = Spans::new();
    let mut left = budget;
    let mut accepted = 0;
    while accepted <= budget {
        engine.reserve(depth + spare_marks)?;
        compare_from_here(engine);
        let aim = Aim {
            lowest: totals_of(engine),
            diversifier,
            spare_marks,
        };
        match round(engine, &aim, &mut spans, depth, &mut left, steps) {
            Round::Settled => {
                let tried = budget - left;
                return Ok(Outcome::Done { accepted, tried });
            }
            Round::Taken => accepted += 1,
            Round::Spent(complete_to) => {
                return Ok(Outcome::Spent {
                    accepted,
                    tried: budget,
                    complete_to,
                });
            }
        }
    }
    unreachable!()
}

/// How many marks are free beside those of a chain's moves, up to the one that lifting takes.
fn marks_beside<F: Family>(engine: &Engine<'_, F>, depth: u32) -> u32
    requires { length engine.now.saved + depth ≤ MARKS }
    ensures most { result ≤ 1 }
    ensures marks { length engine.now.saved + depth + result ≤ MARKS }
{
    if engine.marks() + depth < MARKS { 1 } else { 0 }
}
