//! What a search asks of an engine and of totals.

ghost use Rattle.std.specs.Prelude.{◌≡◌, ◌<◌, ◌+◌, ◌^◌, IfSome, length};
ghost use Rattle.std.specs.Option.{option_map};
ghost use Rattle.monitor_graph.specs.Dearer.{dearer, only};
ghost use Rattle.khe_engine.specs.States.{edited};
ghost use Rattle.ejection_repair.specs.Lifts.{IsMove};
ghost use Rattle.ejection_repair.specs.Rounds.{IsFirstDefect};
ghost use Rattle.ejection_repair.specs.Values.{are_lower, costs_at, totals_at};

use khe_base::{MonitorId, Totals};
use khe_engine::Engine;
use khe_told::{Edit, Family};

/// Whether totals are lower than others.
#[tactic(auto, unfolding(crate::specs::Values::are_lower))]
pub(crate) fn are_lower(totals: Totals, lowest: Totals) -> bool
    ensures { result ≡ are_lower totals lowest }
{
    totals.is_lower(lowest)
}

/// The totals of the engine's state.
#[tactic(auto, unfolding(crate::specs::Values::totals_at))]
pub(crate) fn totals_of<F: Family>(engine: &Engine<'_, F>) -> Totals
    ensures { result ≡ totals_at engine.now.parts engine.now.state }
{
    engine.totals()
}

/// Whether a move of the engine's state would leave lower totals.
#[tactic(auto, unfolding(crate::specs::Values::totals_at, crate::specs::Values::are_lower))]
pub(crate) fn is_lower_after<F: Family>(
    engine: &mut Engine<'_, F>,
    edit: Edit,
    lowest: Totals,
) -> bool
    requires { IsMove engine.old.parts engine.old.state.slots edit }
    ensures lower { result ≡ are_lower (totals_at engine.old.parts (edited engine.old.state edit)) lowest }
    ensures same { engine.new ≡ engine.old }
{
    engine.is_lower_after(&edit, lowest)
}

/// Marks the costs of the engine's state.
#[tactic(auto, unfolding(crate::specs::Values::costs_at))]
pub(crate) fn compare_from_here<F: Family>(engine: &mut Engine<'_, F>)
    ensures parts { engine.new.parts ≡ engine.old.parts }
    ensures state { engine.new.state ≡ engine.old.state }
    ensures saved { engine.new.saved ≡ engine.old.saved }
    ensures spare { engine.new.spare ≡ engine.old.spare }
    ensures marked { engine.new.marked ≡ costs_at engine.old.parts engine.old.state }
{
    engine.compare_from_here();
}

/// The first defect from a number on.
pub(crate) fn next_defect<F: Family>(engine: &Engine<'_, F>, from: u32) -> Option<MonitorId>
    ensures next { IsFirstDefect result (costs_at engine.now.parts engine.now.state) from }
    ensures known { IfSome result (λ m. m.0 < length engine.now.parts.monitors) }
    ensures small { IfSome result (λ m. m.0 + 1 < 2 ^ 32) }
{
    engine.instance().facts();
    engine.next_defect(from)
}

/// The only monitor that is dearer than marked.
pub(crate) fn only_dearer<F: Family>(engine: &Engine<'_, F>) -> Option<MonitorId>
    ensures only { result ≡ option_map (λ m. record { 0 = m }) (only (dearer engine.now.marked (costs_at engine.now.parts engine.now.state))) }
    ensures known { IfSome result (λ m. m.0 < length engine.now.parts.monitors) }
{
    engine.only_dearer()
}
