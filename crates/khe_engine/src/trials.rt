//! What the timetable would cost after an edit.

ghost use Rattle.std.specs.Prelude.{◌≡◌, ◌≤◌, true, None, length, vec_capacity, IfSome};
ghost use Rattle.khe_base.specs.Totals.{is_lower};
ghost use Rattle.khe_solution.specs.Editing.{edited as slots_after};
ghost use Rattle.khe_solution.specs.Refusing.{is_of_meets, refusal};
ghost use Rattle.khe_solution.specs.Timetables.{HasRoom};
ghost use Rattle.khe_told.specs.Changes.{after_all, inverses};
ghost use Rattle.khe_told.specs.Effects.{AreTurns, turned_all};
ghost use Rattle.khe_told.specs.Fits.{AllFit};
ghost use Rattle.khe_told.specs.Waits.{waits_in};
ghost use Rattle.monitor_graph.specs.Boards.{deviations_of};
ghost use Rattle.khe_engine.specs.States.{edited, state_of};
ghost use Rattle.khe_engine.specs.Settled.{AreMeasured, IsIdle};
ghost use Rattle.khe_engine.specs.Values.{HasValues, ServesAll, totals};

use crate::listeners::Listeners;
use crate::measuring::{AsForeseen, AsTold, is_lower_measured, measured};
use khe_base::Totals;
use khe_instance::Instance;
use khe_solution::{Solution, invert};
use khe_told::{Change, Edit, Effects, Family, Unheard};

/// Turns the families back, the last change first, and empties the list. No monitor is queued.
fn turn_back<F: Family>(inst: &Instance, list: &mut Vec<Change>, families: &mut F)
    requires of { F.IsOf families.old inst.now }
    requires fit { AllFit inst.now (F.told families.old) (inverses list.old.items) }
    ensures of { F.IsOf families.new inst.now }
    ensures told { F.told families.new ≡ after_all (F.told families.old) (inverses list.old.items) }
    ensures room { vec_capacity list.old ≤ vec_capacity list.new }
{
    let mut unheard = Unheard {
        monitors: inst.monitors(),
    };
    invert(list);
    families.turn_all(inst, list.as_slice(), &mut unheard);
    list.clear();
}

/// Turns the families by the changes of an accepted edit of meets and tasks, which are listed. Monitors whose
/// deviations may have changed are queued.
fn turn_by<F: Family>(
    inst: &Instance,
    solution: &Solution<'_>,
    listeners: &mut Listeners<F>,
    list: &mut Vec<Change>,
    edit: &Edit,
)
    requires ours { is_of_meets edit.now ≡ true }
    requires accepted { refusal inst.now solution.now.slots edit.now ≡ None }
    requires parts { solution.now.parts ≡ inst.now }
    requires of { F.IsOf listeners.old.families inst.now }
    requires serves { ServesAll F.serves_kind }
    requires told { F.told listeners.old.families ≡ solution.now.slots }
    requires values { HasValues inst.now solution.now.slots listeners.old.graph }
    requires idle { IsIdle inst.now listeners.old.waiting }
    requires room { HasRoom inst.now (vec_capacity list.old) }
    ensures of { F.IsOf listeners.new.families inst.now }
    ensures state { state_of (F.told listeners.new.families) listeners.old.graph ≡ edited (state_of solution.now.slots listeners.old.graph) edit.now }
    ensures graph { listeners.new.graph ≡ listeners.old.graph }
    ensures monitors { length listeners.new.waiting.flags ≡ length inst.now.monitors }
    ensures measured { AreMeasured inst.now (waits_in listeners.new.waiting) (F.told listeners.new.families) (deviations_of listeners.old.graph) }
    ensures back { AllFit inst.now (F.told listeners.new.families) (inverses list.new.items) }
    ensures home { after_all (F.told listeners.new.families) (inverses list.new.items) ≡ solution.now.slots }
    ensures room { vec_capacity list.old ≤ vec_capacity list.new }
{
    solution.list_changes(edit, list);
    listeners
        .families
        .turn_all(inst, list.as_slice(), &mut listeners.waiting);
}

/// What an accepted edit of meets and tasks would make of the slots, where the families can tell deviations after it
/// without a change. It takes constant time.
#[inline(always)]
fn foreseen<'s, F: Family>(
    inst: &Instance,
    solution: &'s Solution<'_>,
    families: &F,
    edit: &Edit,
) -> Option<Effects<'s>>
    requires ours { is_of_meets edit.now ≡ true }
    requires accepted { refusal inst.now solution.now.slots edit.now ≡ None }
    requires parts { solution.now.parts ≡ inst.now }
    ensures foresees { IfSome result (λ ts. F.Foresees families.now inst.now ts) }
    ensures turns { IfSome result (λ ts. AreTurns inst.now solution.now.slots ts) }
    ensures leads { IfSome result (λ ts. turned_all solution.now.slots ts ≡ slots_after solution.now.slots edit.now) }
{
    let effects = solution.effects(edit)?;
    if families.foresees(inst, &effects) {
        Some(effects)
    } else {
        None
    }
}

/// Queues the monitors whose deviations may be others after effects that the families foresee. Nothing else changes.
#[inline(always)]
fn queue_by<F: Family>(inst: &Instance, listeners: &mut Listeners<F>, effects: &Effects<'_>)
    requires of { F.IsOf listeners.old.families inst.now }
    requires serves { ServesAll F.serves_kind }
    requires values { HasValues inst.now (F.told listeners.old.families) listeners.old.graph }
    requires idle { IsIdle inst.now listeners.old.waiting }
    requires turns { AreTurns inst.now (F.told listeners.old.families) effects.now }
    requires foreseen { F.Foresees listeners.old.families inst.now effects.now }
    ensures families { listeners.new.families ≡ listeners.old.families }
    ensures graph { listeners.new.graph ≡ listeners.old.graph }
    ensures monitors { length listeners.new.waiting.flags ≡ length inst.now.monitors }
    ensures measured { AreMeasured inst.now (waits_in listeners.new.waiting) (turned_all (F.told listeners.old.families) effects.now) (deviations_of listeners.old.graph) }
{
    listeners
        .families
        .queue_affected(inst, effects, &mut listeners.waiting);
}

/// The totals after effects that the families foresee. Nothing is turned.
fn totals_foreseen<F: Family>(
    inst: &Instance,
    listeners: &mut Listeners<F>,
    effects: &Effects<'_>,
) -> Totals
    requires of { F.IsOf listeners.old.families inst.now }
    requires serves { ServesAll F.serves_kind }
    requires values { HasValues inst.now (F.told listeners.old.families) listeners.old.graph }
    requires idle { IsIdle inst.now listeners.old.waiting }
    requires turns { AreTurns inst.now (F.told listeners.old.families) effects.now }
    requires foreseen { F.Foresees listeners.old.families inst.now effects.now }
    ensures totals { result ≡ totals inst.now (state_of (turned_all (F.told listeners.old.families) effects.now) listeners.old.graph) }
    ensures families { listeners.new.families ≡ listeners.old.families }
    ensures graph { listeners.new.graph ≡ listeners.old.graph }
    ensures idle { IsIdle inst.now listeners.new.waiting }
{
    queue_by(inst, listeners, effects);
    let after = AsForeseen {
        families: &listeners.families,
        effects,
    };
    measured(inst, &after, &listeners.graph, &mut listeners.waiting)
}

/// Whether effects that the families foresee leave lower totals than others. Nothing is turned.
fn is_lower_foreseen<F: Family>(
    inst: &Instance,
    listeners: &mut Listeners<F>,
    effects: &Effects<'_>,
    lowest: Totals,
) -> bool
    requires of { F.IsOf listeners.old.families inst.now }
    requires serves { ServesAll F.serves_kind }
    requires values { HasValues inst.now (F.told listeners.old.families) listeners.old.graph }
    requires idle { IsIdle inst.now listeners.old.waiting }
    requires turns { AreTurns inst.now (F.told listeners.old.families) effects.now }
    requires foreseen { F.Foresees listeners.old.families inst.now effects.now }
    ensures lower { result ≡ is_lower (totals inst.now (state_of (turned_all (F.told listeners.old.families) effects.now) listeners.old.graph)) lowest }
    ensures families { listeners.new.families ≡ listeners.old.families }
    ensures graph { listeners.new.graph ≡ listeners.old.graph }
    ensures idle { IsIdle inst.now listeners.new.waiting }
{
    queue_by(inst, listeners, effects);
    let after = AsForeseen {
        families: &listeners.families,
        effects,
    };
    is_lower_measured(
        inst,
        &after,
        &listeners.graph,
        &mut listeners.waiting,
        lowest,
    )
}

/// The totals after an accepted edit of meets and tasks. The families are turned by its changes and then
/// back.
fn totals_turned<F: Family>(
    inst: &Instance,
    solution: &Solution<'_>,
    listeners: &mut Listeners<F>,
    list: &mut Vec<Change>,
    edit: &Edit,
) -> Totals
    requires ours { is_of_meets edit.now ≡ true }
    requires accepted { refusal inst.now solution.now.slots edit.now ≡ None }
    requires parts { solution.now.parts ≡ inst.now }
    requires of { F.IsOf listeners.old.families inst.now }
    requires serves { ServesAll F.serves_kind }
    requires told { F.told listeners.old.families ≡ solution.now.slots }
    requires values { HasValues inst.now solution.now.slots listeners.old.graph }
    requires idle { IsIdle inst.now listeners.old.waiting }
    requires room { HasRoom inst.now (vec_capacity list.old) }
    ensures totals { result ≡ totals inst.now (edited (state_of solution.now.slots listeners.old.graph) edit.now) }
    ensures of { F.IsOf listeners.new.families inst.now }
    ensures told { F.told listeners.new.families ≡ solution.now.slots }
    ensures graph { listeners.new.graph ≡ listeners.old.graph }
    ensures idle { IsIdle inst.now listeners.new.waiting }
    ensures room { HasRoom inst.now (vec_capacity list.new) }
{
    turn_by(inst, solution, listeners, list, edit);
    let after = AsTold {
        families: &listeners.families,
    };
    let totals = measured(inst, &after, &listeners.graph, &mut listeners.waiting);
    turn_back(inst, list, &mut listeners.families);
    totals
}

/// Whether an accepted edit of meets and tasks leaves lower totals than others. The families are turned by its
/// changes and then back.
fn is_lower_turned<F: Family>(
    inst: &Instance,
    solution: &Solution<'_>,
    listeners: &mut Listeners<F>,
    list: &mut Vec<Change>,
    edit: &Edit,
    lowest: Totals,
) -> bool
    requires ours { is_of_meets edit.now ≡ true }
    requires accepted { refusal inst.now solution.now.slots edit.now ≡ None }
    requires parts { solution.now.parts ≡ inst.now }
    requires of { F.IsOf listeners.old.families inst.now }
    requires serves { ServesAll F.serves_kind }
    requires told { F.told listeners.old.families ≡ solution.now.slots }
    requires values { HasValues inst.now solution.now.slots listeners.old.graph }
    requires idle { IsIdle inst.now listeners.old.waiting }
    requires room { HasRoom inst.now (vec_capacity list.old) }
    ensures lower { result ≡ is_lower (totals inst.now (edited (state_of solution.now.slots listeners.old.graph) edit.now)) lowest }
    ensures of { F.IsOf listeners.new.families inst.now }
    ensures told { F.told listeners.new.families ≡ solution.now.slots }
    ensures graph { listeners.new.graph ≡ listeners.old.graph }
    ensures idle { IsIdle inst.now listeners.new.waiting }
    ensures room { HasRoom inst.now (vec_capacity list.new) }
{
    turn_by(inst, solution, listeners, list, edit);
    let after = AsTold {
        families: &listeners.families,
    };
    let lower = is_lower_measured(
        inst,
        &after,
        &listeners.graph,
        &mut listeners.waiting,
        lowest,
    );
    turn_back(inst, list, &mut listeners.families);
    lower
}

/// The totals after an accepted edit of meets and tasks. Where the families foresee them nothing is turned; else the
/// families are turned by its changes and then back.
pub(crate) fn totals_after<F: Family>(
    inst: &Instance,
    solution: &Solution<'_>,
    listeners: &mut Listeners<F>,
    list: &mut Vec<Change>,
    edit: &Edit,
) -> Totals
    requires ours { is_of_meets edit.now ≡ true }
    requires accepted { refusal inst.now solution.now.slots edit.now ≡ None }
    requires parts { solution.now.parts ≡ inst.now }
    requires of { F.IsOf listeners.old.families inst.now }
    requires serves { ServesAll F.serves_kind }
    requires told { F.told listeners.old.families ≡ solution.now.slots }
    requires values { HasValues inst.now solution.now.slots listeners.old.graph }
    requires idle { IsIdle inst.now listeners.old.waiting }
    requires room { HasRoom inst.now (vec_capacity list.old) }
    ensures totals { result ≡ totals inst.now (edited (state_of solution.now.slots listeners.old.graph) edit.now) }
    ensures of { F.IsOf listeners.new.families inst.now }
    ensures told { F.told listeners.new.families ≡ solution.now.slots }
    ensures graph { listeners.new.graph ≡ listeners.old.graph }
    ensures idle { IsIdle inst.now listeners.new.waiting }
    ensures room { HasRoom inst.now (vec_capacity list.new) }
{
    match foreseen(inst, solution, &listeners.families, edit) {
        Some(effects) => totals_foreseen(inst, listeners, &effects),
        None => totals_turned(inst, solution, listeners, list, edit),
    }
}

/// Whether an accepted edit of meets and tasks leaves lower totals than others. Where the families foresee it nothing
/// is turned; else the families are turned by its changes and then back.
pub(crate) fn is_lower_after<F: Family>(
    inst: &Instance,
    solution: &Solution<'_>,
    listeners: &mut Listeners<F>,
    list: &mut Vec<Change>,
    edit: &Edit,
    lowest: Totals,
) -> bool
    requires ours { is_of_meets edit.now ≡ true }
    requires accepted { refusal inst.now solution.now.slots edit.now ≡ None }
    requires parts { solution.now.parts ≡ inst.now }
    requires of { F.IsOf listeners.old.families inst.now }
    requires serves { ServesAll F.serves_kind }
    requires told { F.told listeners.old.families ≡ solution.now.slots }
    requires values { HasValues inst.now solution.now.slots listeners.old.graph }
    requires idle { IsIdle inst.now listeners.old.waiting }
    requires room { HasRoom inst.now (vec_capacity list.old) }
    ensures lower { result ≡ is_lower (totals inst.now (edited (state_of solution.now.slots listeners.old.graph) edit.now)) lowest }
    ensures of { F.IsOf listeners.new.families inst.now }
    ensures told { F.told listeners.new.families ≡ solution.now.slots }
    ensures graph { listeners.new.graph ≡ listeners.old.graph }
    ensures idle { IsIdle inst.now listeners.new.waiting }
    ensures room { HasRoom inst.now (vec_capacity list.new) }
{
    match foreseen(inst, solution, &listeners.families, edit) {
        Some(effects) => is_lower_foreseen(inst, listeners, &effects, lowest),
        None => is_lower_turned(inst, solution, listeners, list, edit, lowest),
    }
}
