//! The matching of a timetable.

ghost use Rattle.std.specs.Prelude.{ℕ, ◌≡◌, ◌<◌, ◌≤◌, [], IfOk, IfErr, length};
ghost use Rattle.khe_engine.specs.Openings.{IsStateOf};
ghost use Rattle.khe_engine.specs.Values.{ServesAll, totals};
ghost use Rattle.khe_instance.specs.States.{IsValid};
ghost use Rattle.match_run.specs.Found.{IsFaultOf, IsFound};
ghost use Rattle.resource_match.specs.declared.choices.TheConstants.{MATCHED_TASKS};
ghost use Rattle.time_match.specs.Matching.{IsFaultFor, IsMatched, left_by};
ghost use Rattle.time_match.specs.Tasks.{matched};
ghost use Rattle.time_match.specs.declared.outcomes.MatchFault.TheVariants.{TooManyTasks};

use khe_base::{TimeId, Totals};
use khe_engine::Engine;
use khe_instance::{Instance, Plain};
use khe_told::{Blank, Family, Steps};
use std::alloc::Global;
use std::marker::Brand;
use std::sync::ledger::Ledger;
use time_match::{MatchFault, Matched, match_at};

/// What a matching leaves.
#[derive(Drop)]
pub struct Found {
    /// The choice with its prices.
    pub matched: Matched,
    /// What the timetable costs.
    pub totals: Totals,
    /// The timetable.
    pub plain: Plain,
}

/// Matches the tasks of a timetable that run at a time with the resources of a type, as `match_at` says.
///
/// Its errors are those of `match_at`. It opens an engine on the timetable, which it takes no longer than this call.
pub fn find<F: Family + Drop>(
    alloc: Global,
    inst: &Instance,
    plain: &Plain,
    time: TimeId,
    rtype: u32,
) -> Result<Found, MatchFault>
    requires joined { F.IsWellJoined }
    requires serves { ServesAll F.serves_kind }
    requires valid { IsValid inst.now plain.now }
    ensures found { IfOk result (IsFound inst.now plain.now time.0 rtype) }
    ensures valid { IfOk result (λ f. IsValid inst.now f.plain) }
    ensures fault { IfErr result (IsFaultOf inst.now plain.now time.0 rtype) }
{
    let mut engine = Engine::<F>::open(alloc, inst, plain)?;
    find_on::<F, Brand>(alloc, &mut engine, time, rtype, Blank::new(1))
}

/// Matches the tasks of the timetable of an engine, and lists it.
fn find_on<F: Family, L: Ledger>(
    alloc: Global,
    engine: &mut Engine<'_, F>,
    time: TimeId,
    rtype: u32,
    blank: Blank,
) -> Result<Found, MatchFault>
    requires marks { engine.old.saved ≡ [] }
    requires name { blank.name ≡ L.name }
    requires parts { blank.parts ≡ L.parts }
    requires some { 0 < blank.parts }
    ensures few { IfOk result (λ f. length (matched engine.old.parts engine.old.state.slots time.0 rtype) ≤ MATCHED_TASKS) }
    ensures matched { IfOk result (λ f. IsMatched engine.old.parts engine.old.state time.0 rtype f.matched) }
    ensures listed { IfOk result (λ f. IsStateOf engine.old.parts f.plain (left_by engine.old.parts engine.old.state time.0 rtype f.matched)) }
    ensures totals { IfOk result (λ f. f.totals ≡ totals engine.old.parts (left_by engine.old.parts engine.old.state time.0 rtype f.matched)) }
    ensures valid { IfOk result (λ f. IsValid engine.old.parts f.plain) }
    ensures fault { IfErr result (λ e. (n : ℕ) → e ≡ TooManyTasks n → (n ≡ length (matched engine.old.parts engine.old.state.slots time.0 rtype)) × (MATCHED_TASKS < n)) }
{
    let mut steps = Steps::<L>::new(blank);
    let matched = match_at(alloc, engine, time, rtype, &mut steps)?;
    let plain = engine.plain(alloc)?;
    Ok(Found {
        totals: engine.totals(),
        matched,
        plain,
    })
}
