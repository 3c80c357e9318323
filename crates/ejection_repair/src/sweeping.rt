//! A sweep: the chains of all defects, one defect after the other.

ghost use Rattle.std.specs.Prelude.{ℕ, ◌≡◌, ◌<◌, ◌≤◌, ◌+◌, ◌*◌, List, length, drop, min, false, IfSome};
ghost use Rattle.std.specs.List.{flat_map};
ghost use Rattle.khe_base.specs.declared.limits.TheConstants.{MARKS};
ghost use Rattle.ejection_repair.specs.declared.lengths.TheConstants.{TRAIL_ITEMS};
ghost use Rattle.khe_instance.specs.declared.parts.Parts.{Parts};
ghost use Rattle.ejection_repair.specs.Chains.{Chain, chains, rotated};
ghost use Rattle.ejection_repair.specs.Kept.{IsKept, room};
ghost use Rattle.ejection_repair.specs.Looks.{look, Looks};
ghost use Rattle.ejection_repair.specs.Rounds.{defects_ahead, IsNextNumber};
ghost use Rattle.ejection_repair.specs.Stuck.{AreStuckFrom, AreStuckSpans, IsNextFree, LeavesOutStuck};
ghost use Rattle.ejection_repair.specs.Values.{costs_at, defects, defects_from};

use crate::asks::next_defect;
use crate::looked::{Aim, Looked};
use crate::moving::no_trail;
use crate::rounds::DefectRound;
use crate::searching::extend;
use crate::spans::Spans;
use khe_base::MonitorId;
use khe_engine::Engine;
use khe_told::{Family, Steps};
use repair_moves::is_stuck;
use std::sync::ledger::Ledger;

/// The least number that the given number of defects stand below.
#[derive(Clone, Copy)]
struct PassedDefects {
    from: u32,
    count: u64,
}

/// Goes past the given number of defects, or past all where there are fewer.
fn pass_defects<F: Family>(engine: &Engine<'_, F>, count: u64) -> PassedDefects
    ensures count { result.count ≡ min count (length (defects (costs_at engine.now.parts engine.now.state))) }
    ensures from { defects_from (costs_at engine.now.parts engine.now.state) result.from
        ≡ drop result.count (defects (costs_at engine.now.parts engine.now.state)) }
{
    let mut from = 0;
    for done in 0..count {
        match next_defect(engine, from) {
            None => return PassedDefects { from, count: done },
            Some(defect) => from = defect.0 + 1,
        }
    }
    PassedDefects { from, count }
}

/// The defects, begun at the place of a number.
fn round_of<F: Family>(engine: &Engine<'_, F>, diversifier: u64) -> DefectRound
    ensures { defects_ahead (costs_at engine.now.parts engine.now.state) result
        ≡ rotated diversifier (defects (costs_at engine.now.parts engine.now.state)) }
{
    let passed = pass_defects(engine, diversifier);
    if passed.count < diversifier {
        return begun_round(engine, passed.count, diversifier);
    }
    match next_defect(engine, passed.from) {
        None => begun_round(engine, passed.count, diversifier),
        Some(_) => begun_at(passed.from, diversifier),
    }
}

/// All defects, of known number, begun at the place of a number that is no less.
fn begun_round<F: Family>(engine: &Engine<'_, F>, count: u64, diversifier: u64) -> DefectRound
    requires { length (defects (costs_at engine.now.parts engine.now.state)) ≡ count }
    ensures { defects_ahead (costs_at engine.now.parts engine.now.state) result
        ≡ rotated diversifier (defects (costs_at engine.now.parts engine.now.state)) }
{
    if count == 0 {
        return begun_at(0, 0);
    }
    let place = diversifier % count;
    let passed = pass_defects(engine, place);
    begun_at(passed.from, place)
}

/// A walk that begins at one place of the defects.
fn begun_at(from: u32, before: u64) -> DefectRound
    ensures { result ≡ record { from = from; before = before; wrapped = false } }
{
    DefectRound {
        from,
        before,
        wrapped: false,
    }
}

/// The next defect of a walk round the defects.
#[tactic(auto, unfolding(crate::specs::Rounds::defects_ahead))]
fn next_of<F: Family>(engine: &Engine<'_, F>, round: &mut DefectRound) -> Option<MonitorId>
    ensures next { IsNextNumber result (defects_ahead (costs_at engine.now.parts engine.now.state) round.old)
        (defects_ahead (costs_at engine.now.parts engine.now.state) round.new) }
    ensures known { IfSome result (λ m. m.0 < length engine.now.parts.monitors) }
    ensures onward { IfSome result (λ m. round.new.wrapped ≡ false → round.new.from ≡ m.0 + 1) }
{
    if !round.wrapped {
        if let Some(defect) = next_defect(engine, round.from) {
            round.from = defect.0 + 1;
            return Some(defect);
        }
        round.wrapped = true;
        round.from = 0;
    }
    if round.before == 0 {
        return None;
    }
    round.before -= 1;
    let defect = next_defect(engine, round.from)?;
    round.from = defect.0 + 1;
    Some(defect)
}

/// Goes past the numbers before another one, unless those after the place of the beginning were taken already: then
/// the defects that are still to come are counted one by one.
#[tactic(auto, unfolding(crate::specs::Rounds::defects_ahead))]
fn pass_to(round: &mut DefectRound, end: u32)
    ensures same { (p : Parts) (costs : List ℕ) (f : ℕ → List Chain) → LeavesOutStuck p f
        → (round.old.wrapped ≡ false → AreStuckFrom p round.old.from end)
        → flat_map f (defects_ahead costs round.old) ≡ flat_map f (defects_ahead costs round.new) }
    ensures fewer { (costs : List ℕ) → length (defects_ahead costs round.new) ≤ length (defects_ahead costs round.old) }
{
    if !round.wrapped && round.from < end {
        round.from = end;
    }
}

/// The next defect of a walk that isn't stuck.
fn next_free<F: Family>(
    engine: &Engine<'_, F>,
    spans: &mut Spans,
    round: &mut DefectRound,
) -> Option<MonitorId>
    requires spans { AreStuckSpans engine.now.parts spans.old }
    ensures next { (f : ℕ → List Chain) → LeavesOutStuck engine.now.parts f
        → IsNextFree f result (defects_ahead (costs_at engine.now.parts engine.now.state) round.old)
        (defects_ahead (costs_at engine.now.parts engine.now.state) round.new) }
    ensures fewer { IfSome result (λ _. length (defects_ahead (costs_at engine.now.parts engine.now.state) round.new)
        < length (defects_ahead (costs_at engine.now.parts engine.now.state) round.old)) }
    ensures known { IfSome result (λ m. m.0 < length engine.now.parts.monitors) }
    ensures spans { AreStuckSpans engine.now.parts spans.new }
{
    let inst = engine.instance();
    while let Some(defect) = next_of(engine, round) {
        if !is_stuck(inst, defect) {
            return Some(defect);
        }
        pass_to(round, spans.end_from(inst, defect));
    }
    None
}

/// Looks at all chains of at most `more` moves.
pub(crate) fn sweep<F: Family, L: Ledger>(
    engine: &mut Engine<'_, F>,
    aim: &Aim,
    spans: &mut Spans,
    more: u32,
    left: &mut u64,
    steps: &mut Steps<L>,
) -> Looked
    requires marked { engine.old.marked ≡ costs_at engine.old.parts engine.old.state }
    requires spans { AreStuckSpans engine.old.parts spans.old }
    requires more { 2 * more ≤ TRAIL_ITEMS }
    requires marks { length engine.old.saved + more + aim.now.spare_marks ≤ MARKS }
    requires room { more + aim.now.spare_marks ≤ engine.old.spare }
    ensures looks { Looks result (look engine.old.parts aim.now.lowest left.old
        (chains engine.old.parts engine.old.state aim.now.diversifier more)) engine.old engine.new left.new }
    ensures kept { IsKept engine.old engine.new }
    ensures room { room engine.old ≤ room engine.new }
    ensures spans { AreStuckSpans engine.old.parts spans.new }
{
    let trail = no_trail();
    let mut round = round_of(engine, aim.diversifier);
    while let Some(defect) = next_free(engine, spans, &mut round) {
        match extend(engine, aim, &trail, defect, more, left, steps) {
            Looked::Through => {}
            Looked::Found => return Looked::Found,
            Looked::Spent => return Looked::Spent,
        }
    }
    Looked::Through
}
