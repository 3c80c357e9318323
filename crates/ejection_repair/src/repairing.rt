//! Repairing the timetable of an engine.

ghost use Rattle.std.specs.Prelude.{◌≡◌, ◌<◌, ◌≤◌, ◌+◌, [], length, IfOk, OnErr, OnOk};
ghost use Rattle.khe_base.specs.declared.limits.TheConstants.{CHAIN_MOVES, MARKS};
ghost use Rattle.ejection_repair.specs.Bounds.{most_moves, IsWithin};
ghost use Rattle.ejection_repair.specs.Kept.{IsKept, room};
ghost use Rattle.ejection_repair.specs.Repaired.{repaired, Goes};
ghost use Rattle.ejection_repair.specs.Settled.{HasTried, IsNoWorse, IsReached, IsSettled, StopsBelow, accepted_of, settled_to};
ghost use Rattle.ejection_repair.specs.Stuck.{AreStuckSpans};
ghost use Rattle.ejection_repair.specs.Values.{costs_at, totals_at};

use crate::asks::{compare_from_here, totals_of};
use crate::looked::{Aim, Looked};
use crate::outcome::{Outcome, Round};
use crate::spans::Spans;
use crate::sweeping::sweep;
use khe_base::NoMemory;
use khe_engine::Engine;
use khe_told::{Family, Steps};
use std::sync::ledger::Ledger;

/// Repairs the timetable of an engine without open marks: it looks at the chains of at most one move,
/// then of at most two, up to the depth, and takes the first that leaves lower totals, until no chain
/// does or as many were looked at as the budget allows. The diversifier says where each list of
/// defects and of moves is begun, modulo its length.
///
/// The depth is 1 to `CHAIN_MOVES`, and the budget, a number of chains, at least 1. Memory is taken first, for a
/// record of each move of a chain and one more; where it is refused the timetable stays as it was.
/// What was spare before is spare afterwards too, and so is what was taken.
///
/// The new state is reached by edits of meets and tasks that the engine accepts, so groups and
/// detached monitors stay; it never costs more, and less where a chain was taken; no mark is open
/// afterwards.
///
/// A try of a chain makes its last move and takes it back: it takes the time of what watches the
/// move's changes, twice. Where last moves that follow one another put the same meet elsewhere, or
/// give the same task to others, it is lifted once for up to 64 of them: each then takes the time of
/// its second change alone, twice. A chain that is taken is made once. Where the diversifier isn't 0,
/// a list is gone past to the place where it is begun. Defects that are stuck, as `is_stuck` says, are
/// left out: those whose numbers follow one another are gone past at once from the second time on.
pub fn repair<F: Family, L: Ledger>(
    engine: &mut Engine<'_, F>,
    depth: u32,
    budget: u64,
    diversifier: u64,
    steps: &mut Steps<L>,
) -> Result<Outcome, NoMemory>
    requires depth { 1 ≤ depth }
    requires deepest { depth ≤ CHAIN_MOVES }
    requires budget { 1 ≤ budget }
    requires marks { engine.old.saved ≡ [] }
    ensures outcome { IfOk result (λ o. o ≡ (repaired engine.old.parts engine.old.state depth budget diversifier).outcome) }
    ensures state { IfOk result (λ _. engine.new.state ≡ (repaired engine.old.parts engine.old.state depth budget diversifier).state) }
    ensures no_worse { IfOk result (λ o. IsNoWorse engine.old.parts engine.old.state engine.new.state (accepted_of o)) }
    ensures settled { IfOk result (λ o. IsSettled engine.old.parts engine.new.state (settled_to depth o)) }
    ensures tried { IfOk result (HasTried budget) }
    ensures complete { IfOk result (StopsBelow depth) }
    ensures bound { IfOk result (λ o. IsWithin (length engine.old.parts.monitors) (most_moves engine.old.parts) depth o) }
    ensures reached { IfOk result (λ _. IsReached engine.old.parts engine.old.state engine.new.state) }
    ensures grouping { engine.new.state.grouping ≡ engine.old.state.grouping }
    ensures parts { engine.new.parts ≡ engine.old.parts }
    ensures marks { engine.new.saved ≡ [] }
    ensures spare { engine.old.spare ≤ engine.new.spare }
    ensures room { OnOk result (depth + 1 ≤ engine.new.spare) }
    ensures refused { OnErr result ((engine.new.state ≡ engine.old.state) × (engine.new.marked ≡ engine.old.marked)) }
{
    engine.instance().facts();
    engine.solution().facts();
    repair_exactly(engine, depth, budget, diversifier, steps)
}

/// Looks at the chains of each length up to the depth, in the present state.
pub(crate) fn round<F: Family, L: Ledger>(
    engine: &mut Engine<'_, F>,
    aim: &Aim,
    spans: &mut Spans,
    depth: u32,
    left: &mut u64,
    steps: &mut Steps<L>,
) -> Round
    requires marked { engine.old.marked ≡ costs_at engine.old.parts engine.old.state }
    requires lowest { aim.now.lowest ≡ totals_at engine.old.parts engine.old.state }
    requires spans { AreStuckSpans engine.old.parts spans.old }
    requires depth { depth ≤ CHAIN_MOVES }
    requires marks { length engine.old.saved + depth + aim.now.spare_marks ≤ MARKS }
    requires room { depth + aim.now.spare_marks ≤ engine.old.spare }
    ensures goes { Goes result depth aim.now.diversifier engine.old engine.new left.old left.new }
    ensures kept { IsKept engine.old engine.new }
    ensures room { room engine.old ≤ room engine.new }
    ensures spans { AreStuckSpans engine.old.parts spans.new }
{
    for gone in 0..depth {
        match sweep(engine, aim, spans, gone + 1, left, steps) {
            Looked::Through => {}
            Looked::Found => return Round::Taken,
            Looked::Spent => return Round::Spent(gone),
        }
    }
    Round::Settled
}

/// Looks at chains, and takes each one that leaves lower totals.
fn repair_exactly<F: Family, L: Ledger>(
    engine: &mut Engine<'_, F>,
    depth: u32,
    budget: u64,
    diversifier: u64,
    steps: &mut Steps<L>,
) -> Result<Outcome, NoMemory>
    requires depth { 1 ≤ depth }
    requires deepest { depth ≤ CHAIN_MOVES }
    requires budget { 1 ≤ budget }
    requires marks { engine.old.saved ≡ [] }
    ensures outcome { IfOk result (λ o. o ≡ (repaired engine.old.parts engine.old.state depth budget diversifier).outcome) }
    ensures state { IfOk result (λ _. engine.new.state ≡ (repaired engine.old.parts engine.old.state depth budget diversifier).state) }
    ensures parts { engine.new.parts ≡ engine.old.parts }
    ensures marks { engine.new.saved ≡ [] }
    ensures spare { engine.old.spare ≤ engine.new.spare }
    ensures room { OnOk result (depth + 1 ≤ engine.new.spare) }
    ensures refused { OnErr result ((engine.new.state ≡ engine.old.state) × (engine.new.marked ≡ engine.old.marked)) }
{
    engine.reserve(depth + 1)?;
    let mut spans = Spans::new();
    let mut left = budget;
    let mut accepted = 0;
    while accepted <= budget {
        compare_from_here(engine);
        let aim = Aim {
            lowest: totals_of(engine),
            diversifier,
            spare_marks: 1,
        };
        match round(engine, &aim, &mut spans, depth, &mut left, steps) {
            Round::Settled => {
                let tried = budget - left;
                return Ok(Outcome::Done { accepted, tried });
            }
            Round::Taken => accepted += 1,
            Round::Spent(complete_to) => {
                return Ok(Outcome::Spent {
                    accepted,
                    tried: budget,
                    complete_to,
                });
            }
        }
    }
    unreachable!()
}
