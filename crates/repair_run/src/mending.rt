//! The repair of a timetable.

ghost use Rattle.std.specs.Prelude.{◌≡◌, ◌<◌, ◌≤◌, [], IfOk};
ghost use Rattle.khe_base.specs.declared.limits.TheConstants.{CHAIN_MOVES};
ghost use Rattle.ejection_repair.specs.Repaired.{repaired};
ghost use Rattle.khe_engine.specs.Openings.{IsStateOf};
ghost use Rattle.khe_engine.specs.Values.{ServesAll, totals};
ghost use Rattle.khe_instance.specs.States.{IsValid};
ghost use Rattle.repair_run.specs.Repairs.{IsMended};

use ejection_repair::{Outcome, repair};
use khe_base::{NoMemory, Totals};
use khe_engine::Engine;
use khe_instance::{Instance, Plain};
use khe_told::{Blank, Family, Steps};
use std::alloc::Global;
use std::marker::Brand;
use std::sync::ledger::Ledger;

/// What a repair leaves.
pub struct Mended {
    /// How it ended.
    pub outcome: Outcome,
    /// What the timetable costs.
    pub totals: Totals,
    /// The timetable.
    pub plain: Plain,
}

// By hand: an exit of a caller then has one call to prove, and not a drop for each field.
impl Drop for Mended {
    fn drop(self) {
        let Mended {
            outcome: _outcome,
            totals: _totals,
            plain: _plain,
        } = self;
    }
}

/// Repairs a timetable by chains of at most `depth` moves, 1 to `CHAIN_MOVES`, of which `budget` may be tried, at
/// least 1. Each list of defects and of moves is begun at its first.
///
/// It fails only where memory is refused. It opens an engine on the timetable, which it takes no longer than
/// this call, and takes the time of the repair, as `repair` says.
pub fn mend<F: Family + Drop>(
    alloc: Global,
    inst: &Instance,
    plain: &Plain,
    depth: u32,
    budget: u64,
) -> Result<Mended, NoMemory>
    requires joined { F.IsWellJoined }
    requires serves { ServesAll F.serves_kind }
    requires valid { IsValid inst.now plain.now }
    requires depth { 1 ≤ depth }
    requires deepest { depth ≤ CHAIN_MOVES }
    requires budget { 1 ≤ budget }
    ensures mended { IfOk result (IsMended inst.now plain.now depth budget) }
    ensures valid { IfOk result (λ m. IsValid inst.now m.plain) }
{
    let mut engine = Engine::<F>::open(alloc, inst, plain)?;
    mend_on::<F, Brand>(alloc, &mut engine, depth, budget, Blank::new(1))
}

/// Repairs the timetable of an engine, and lists it.
fn mend_on<F: Family, L: Ledger>(
    alloc: Global,
    engine: &mut Engine<'_, F>,
    depth: u32,
    budget: u64,
    blank: Blank,
) -> Result<Mended, NoMemory>
    requires marks { engine.old.saved ≡ [] }
    requires depth { 1 ≤ depth }
    requires deepest { depth ≤ CHAIN_MOVES }
    requires budget { 1 ≤ budget }
    requires name { blank.name ≡ L.name }
    requires parts { blank.parts ≡ L.parts }
    requires some { 0 < blank.parts }
    ensures outcome { IfOk result (λ m. m.outcome ≡ (repaired engine.old.parts engine.old.state depth budget 0).outcome) }
    ensures listed { IfOk result (λ m. IsStateOf engine.old.parts m.plain (repaired engine.old.parts engine.old.state depth budget 0).state) }
    ensures totals { IfOk result (λ m. m.totals ≡ totals engine.old.parts (repaired engine.old.parts engine.old.state depth budget 0).state) }
    ensures valid { IfOk result (λ m. IsValid engine.old.parts m.plain) }
{
    let mut steps = Steps::<L>::new(blank);
    let outcome = repair(engine, depth, budget, 0, &mut steps)?;
    Ok(Mended {
        outcome,
        totals: engine.totals(),
        plain: engine.plain(alloc)?,
    })
}
