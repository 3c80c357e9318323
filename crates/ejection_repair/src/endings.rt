//! The last moves of chains, of which only the totals are asked: each is tried by itself, or several
//! of one meet or task while it is lifted.

ghost use Rattle.std.specs.Prelude.{◌≡◌, ◌<◌, ◌≤◌, ◌+◌, ◌∷◌, [], Some, All, IfSome, length, map, take};
ghost use Rattle.khe_base.specs.declared.limits.TheConstants.{MARKS};
ghost use Rattle.repair_moves.specs.Cursors.{IsNext};
ghost use Rattle.ejection_repair.specs.Chains.{extensions};
ghost use Rattle.ejection_repair.specs.Kept.{IsKept, room};
ghost use Rattle.ejection_repair.specs.Lifts.{AreNext, IsMove, IsRun, ended, fresh_ahead, lifted_by, put_of as put_by};
ghost use Rattle.ejection_repair.specs.Looks.{look, Looks, chain_at};
ghost use Rattle.ejection_repair.specs.Rounds.{IsRound};
ghost use Rattle.ejection_repair.specs.Trails.{moved_of};

use crate::asks::is_lower_after;
use crate::lifting::{lift_of, put_of, run_of};
use crate::looked::{Aim, Looked};
use crate::marking::{keep, make, take_back};
use crate::moving::is_fresh;
use crate::rotating::{moves_from, next_of};
use crate::rounds::MoveRound;
use crate::trails::Trail;
use khe_base::MonitorId;
use khe_engine::Engine;
use khe_instance::Instance;
use khe_solution::Solution;
use khe_told::{Edit, Family, Steps};
use repair_moves::Moved;
use std::sync::ledger::Ledger;

/// Looks at the extensions of a chain by one move, a move of this monitor.
pub(crate) fn extend_last<F: Family, L: Ledger>(
    engine: &mut Engine<'_, F>,
    aim: &Aim,
    trail: &Trail,
    monitor: MonitorId,
    left: &mut u64,
    steps: &mut Steps<L>,
) -> Looked
    requires known { monitor.0 < length engine.old.parts.monitors }
    requires marks { length engine.old.saved + 1 + aim.now.spare_marks ≤ MARKS }
    requires room { 1 + aim.now.spare_marks ≤ engine.old.spare }
    ensures looks { Looks result (look engine.old.parts aim.now.lowest left.old (extensions engine.old.parts engine.old.marked aim.now.diversifier 1 (chain_at trail.now engine.old) monitor.0)) engine.old engine.new left.new }
    ensures kept { IsKept engine.old engine.new }
    ensures room { room engine.old ≤ room engine.new }
{
    let inst = engine.instance();
    let mut round = moves_from(inst, engine.solution(), monitor, aim.diversifier);
    let mut row = unwritten();
    while let Some(count) = gather(inst, engine.solution(), trail, &mut round, &mut row) {
        match try_moves(engine, aim, &row[..count], left, steps) {
            Looked::Through => {}
            Looked::Found => return Looked::Found,
            Looked::Spent => return Looked::Spent,
        }
    }
    Looked::Through
}

/// A row for moves, of which none is written yet.
fn unwritten() -> [Edit; 64] {
    [Edit::MakeGroup; 64]
}

/// The next move of a walk that moves nothing anew.
fn next_fresh(
    inst: &Instance,
    solution: &Solution<'_>,
    trail: &Trail,
    round: &mut MoveRound,
) -> Option<Edit>
    requires of { solution.now.parts ≡ inst.now }
    requires round { IsRound inst.now round.old }
    ensures next { IsNext result (fresh_ahead inst.now solution.now.slots (moved_of trail.now) round.old) (fresh_ahead inst.now solution.now.slots (moved_of trail.now) round.new) }
    ensures move_ { IfSome result (λ e. IsMove inst.now solution.now.slots e) }
    ensures round { IsRound inst.now round.new }
{
    while let Some(edit) = next_of(inst, solution, round) {
        if is_fresh(trail, solution, edit) {
            return Some(edit);
        }
    }
    None
}

/// Writes the next moves of a walk that move nothing anew into a row from its front on, and answers
/// how many there are, if any: fewer than the row is long only at the end of the walk.
fn gather(
    inst: &Instance,
    solution: &Solution<'_>,
    trail: &Trail,
    round: &mut MoveRound,
    row: &mut [Edit; 64],
) -> Option<usize>
    requires of { solution.now.parts ≡ inst.now }
    requires round { IsRound inst.now round.old }
    ensures next { AreNext result row.new (fresh_ahead inst.now solution.now.slots (moved_of trail.now) round.old) (fresh_ahead inst.now solution.now.slots (moved_of trail.now) round.new) }
    ensures moves { IfSome result (λ n. All (IsMove inst.now solution.now.slots) (take n row.new)) }
    ensures round { IsRound inst.now round.new }
{
    row[0] = next_fresh(inst, solution, trail, round)?;
    for count in 1..64 {
        match next_fresh(inst, solution, trail, round) {
            None => return Some(count),
            Some(edit) => row[count] = edit,
        }
    }
    Some(64)
}

/// Looks at the states that moves leave, each move made in this state.
fn try_moves<F: Family, L: Ledger>(
    engine: &mut Engine<'_, F>,
    aim: &Aim,
    moves: &[Edit],
    left: &mut u64,
    steps: &mut Steps<L>,
) -> Looked
    requires moves { All (IsMove engine.old.parts engine.old.state.slots) moves.now }
    requires marks { length engine.old.saved + 1 + aim.now.spare_marks ≤ MARKS }
    requires room { 1 + aim.now.spare_marks ≤ engine.old.spare }
    ensures looks { Looks result (look engine.old.parts aim.now.lowest left.old (map (ended engine.old.state) moves.now)) engine.old engine.new left.new }
    ensures kept { IsKept engine.old engine.new }
    ensures room { room engine.old ≤ room engine.new }
{
    let mut rest = moves;
    while !rest.is_empty() {
        let run = run_of(aim, rest);
        let (first, later) = rest.split_at(run.count);
        match try_run(engine, aim, run.lifted, first, left, steps) {
            Looked::Through => {}
            Looked::Found => return Looked::Found,
            Looked::Spent => return Looked::Spent,
        }
        rest = later;
    }
    Looked::Through
}

/// Looks at the states that the moves of a run leave.
fn try_run<F: Family, L: Ledger>(
    engine: &mut Engine<'_, F>,
    aim: &Aim,
    lifted: Option<Moved>,
    moves: &[Edit],
    left: &mut u64,
    steps: &mut Steps<L>,
) -> Looked
    requires some { 1 ≤ length moves.now }
    requires run { IsRun lifted moves.now aim.now.spare_marks }
    requires moves { All (IsMove engine.old.parts engine.old.state.slots) moves.now }
    requires marks { length engine.old.saved + 1 + aim.now.spare_marks ≤ MARKS }
    requires room { 1 + aim.now.spare_marks ≤ engine.old.spare }
    ensures looks { Looks result (look engine.old.parts aim.now.lowest left.old (map (ended engine.old.state) moves.now)) engine.old engine.new left.new }
    ensures kept { IsKept engine.old engine.new }
    ensures room { room engine.old ≤ room engine.new }
{
    match lifted {
        None => try_one(engine, aim, moves[0], left, steps),
        Some(moved) => try_lifted(engine, aim, moved, moves, left, steps),
    }
}

/// Looks at the states that moves leave which all lift this meet or task: it is lifted once.
fn try_lifted<F: Family, L: Ledger>(
    engine: &mut Engine<'_, F>,
    aim: &Aim,
    moved: Moved,
    moves: &[Edit],
    left: &mut u64,
    steps: &mut Steps<L>,
) -> Looked
    requires some { 1 ≤ length moves.now }
    requires same { All (λ e. lifted_by e ≡ Some moved) moves.now }
    requires moves { All (IsMove engine.old.parts engine.old.state.slots) moves.now }
    requires marks { length engine.old.saved + 2 ≤ MARKS }
    requires room { 2 ≤ engine.old.spare }
    ensures looks { Looks result (look engine.old.parts aim.now.lowest left.old (map (ended engine.old.state) moves.now)) engine.old engine.new left.new }
    ensures kept { IsKept engine.old engine.new }
    ensures room { room engine.old ≤ room engine.new }
{
    make(engine, lift_of(moved), steps);
    match put_each(engine, aim, moves, left, steps) {
        Looked::Through => {
            take_back(engine, steps);
            Looked::Through
        }
        Looked::Found => {
            keep(engine);
            Looked::Found
        }
        Looked::Spent => {
            take_back(engine, steps);
            Looked::Spent
        }
    }
}

/// Looks at the states that moves leave of which the lifting is done.
fn put_each<F: Family, L: Ledger>(
    engine: &mut Engine<'_, F>,
    aim: &Aim,
    moves: &[Edit],
    left: &mut u64,
    steps: &mut Steps<L>,
) -> Looked
    requires puts { All (IsMove engine.old.parts engine.old.state.slots) (map put_by moves.now) }
    requires marks { length engine.old.saved < MARKS }
    requires room { 1 ≤ engine.old.spare }
    ensures looks { Looks result (look engine.old.parts aim.now.lowest left.old (map (ended engine.old.state) (map put_by moves.now))) engine.old engine.new left.new }
    ensures kept { IsKept engine.old engine.new }
    ensures room { room engine.old ≤ room engine.new }
{
    for edit in moves {
        match try_one(engine, aim, put_of(*edit), left, steps) {
            Looked::Through => {}
            Looked::Found => return Looked::Found,
            Looked::Spent => return Looked::Spent,
        }
    }
    Looked::Through
}

/// Looks at the state that an edit leaves: it is made only where its totals are lower.
fn try_one<F: Family, L: Ledger>(
    engine: &mut Engine<'_, F>,
    aim: &Aim,
    edit: Edit,
    left: &mut u64,
    steps: &mut Steps<L>,
) -> Looked
    requires move_ { IsMove engine.old.parts engine.old.state.slots edit }
    requires marks { length engine.old.saved < MARKS }
    requires room { 1 ≤ engine.old.spare }
    ensures looks { Looks result (look engine.old.parts aim.now.lowest left.old (ended engine.old.state edit ∷ [])) engine.old engine.new left.new }
    ensures kept { IsKept engine.old engine.new }
    ensures room { room engine.old ≤ room engine.new }
{
    if *left == 0 {
        return Looked::Spent;
    }
    *left -= 1;
    if is_lower_after(engine, edit, aim.lowest) {
        make(engine, edit, steps);
        keep(engine);
        return Looked::Found;
    }
    Looked::Through
}
