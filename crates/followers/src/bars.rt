//! Which edits are refused because a meet follows another or has followers.

ghost use Rattle.std.specs.Prelude.{◌≡◌, ◌&&◌, ◌∷◌, []};
ghost use Rattle.khe_told.specs.Slots.{is_live, slot_at};
ghost use Rattle.monitor_graph.specs.Boards.{Grouping};
ghost use Rattle.followers.specs.Bars as spec;
ghost use Rattle.followers.specs.Records.{with_ties};
ghost use Rattle.followers.specs.Starts.{IsCheck};
ghost use Rattle.followers.specs.Tables.{base_refusal};
ghost use Rattle.followers.specs.Ties.{follows, leads};
ghost use Rattle.followers.specs.declared.edits.TiedRefusal.TheVariants as why;
ghost use Rattle.khe_solution.specs.Refusing.{is_of_meets};
ghost use Rattle.std.specs.Prelude.{true};

use crate::TiedRefusal;
use crate::table::Ties;
use khe_base::MeetId;
use khe_solution::Solution;
use khe_told::Edit;

/// Whether a meet is live.
#[tactic(auto, using(crate::proofs::StartLaws::meet_live))]
pub(crate) fn is_live(solution: &Solution<'_>, meet: MeetId) -> bool
    ensures { result ≡ is_live (slot_at solution.now.slots meet.0) }
{
    solution.meet(meet).is_some()
}

/// Whether a meet follows another.
pub(crate) fn follows(ties: &Ties, meet: MeetId) -> bool
    ensures { result ≡ follows ties.now meet.0 }
{
    ties.get(meet).is_some()
}

/// Why ties refuse that a meet gets another start.
fn bar_start(solution: &Solution<'_>, ties: &Ties, meet: MeetId) -> Option<TiedRefusal>
    ensures { result ≡ spec.barred_by (spec.live_at solution.now.slots meet) ((follows ties.now meet.0, why.Follower) ∷ []) }
{
    if is_live(solution, meet) && follows(ties, meet) {
        Some(TiedRefusal::Follower)
    } else {
        None
    }
}

/// Why ties refuse that a meet is cut.
fn bar_cut(solution: &Solution<'_>, ties: &Ties, meet: MeetId) -> Option<TiedRefusal>
    ensures { result ≡ spec.barred_by (spec.live_at solution.now.slots meet) ((follows ties.now meet.0, why.Follower) ∷ (leads ties.now meet.0, why.Leader) ∷ []) }
{
    if !is_live(solution, meet) {
        return None;
    }
    if follows(ties, meet) {
        return Some(TiedRefusal::Follower);
    }
    if ties.leads(meet) {
        return Some(TiedRefusal::Leader);
    }
    None
}

/// Why ties refuse that two meets get each other's starts.
fn bar_swap(solution: &Solution<'_>, ties: &Ties, a: MeetId, b: MeetId) -> Option<TiedRefusal>
    ensures { result ≡ spec.barred_by (spec.live_at solution.now.slots a && spec.live_at solution.now.slots b) ((follows ties.now a.0, why.Follower) ∷ (follows ties.now b.0, why.Follower) ∷ []) }
{
    if is_live(solution, a) && is_live(solution, b) && (follows(ties, a) || follows(ties, b)) {
        Some(TiedRefusal::Follower)
    } else {
        None
    }
}

/// Why ties refuse that two meets are joined.
fn bar_join(solution: &Solution<'_>, ties: &Ties, a: MeetId, b: MeetId) -> Option<TiedRefusal>
    ensures { result ≡ spec.barred_by (spec.live_at solution.now.slots a && spec.live_at solution.now.slots b) ((follows ties.now a.0, why.Follower) ∷ (follows ties.now b.0, why.Follower) ∷ (leads ties.now a.0, why.Leader) ∷ (leads ties.now b.0, why.Leader) ∷ []) }
{
    if !(is_live(solution, a) && is_live(solution, b)) {
        return None;
    }
    if follows(ties, a) || follows(ties, b) {
        return Some(TiedRefusal::Follower);
    }
    if ties.leads(a) || ties.leads(b) {
        return Some(TiedRefusal::Leader);
    }
    None
}

/// Why ties refuse an edit of live meets, if they do. It takes constant time.
#[tactic(auto, unfolding(crate::specs::Bars::bar))]
pub(crate) fn bar(solution: &Solution<'_>, ties: &Ties, edit: &Edit) -> Option<TiedRefusal>
    ensures { result ≡ spec.bar solution.now.slots ties.now edit.now }
{
    match *edit {
        Edit::Assign { meet, .. } => bar_start(solution, ties, meet),
        Edit::Unassign { meet } => bar_start(solution, ties, meet),
        Edit::MoveTo { meet, .. } => bar_start(solution, ties, meet),
        Edit::Split { meet, .. } => bar_cut(solution, ties, meet),
        Edit::Merge { first, second } => bar_join(solution, ties, first, second),
        Edit::SwapMeets { a, b } => bar_swap(solution, ties, a, b),
        _ => None,
    }
}

/// Whether an edit of meets and tasks is accepted, and else why it is refused.
pub(crate) fn check(solution: &Solution<'_>, ties: &Ties, edit: &Edit) -> Result<(), TiedRefusal>
    requires { is_of_meets edit.now ≡ true }
    ensures { (g : Grouping) → IsCheck (base_refusal solution.now.parts (with_ties (record { slots = solution.now.slots; grouping = g }) ties.now) edit.now) result }
{
    if let Some(refusal) = bar(solution, ties, edit) {
        return Err(refusal);
    }
    match solution.check(edit) {
        Ok(()) => Ok(()),
        Err(refusal) => Err(TiedRefusal::Base(refusal)),
    }
}
