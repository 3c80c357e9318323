//! The edit of a meet or a task that lowers the totals most.

ghost use Rattle.std.specs.Prelude.{◌≡◌, true, None, IfSome};
ghost use Rattle.construct.specs.Best.{improved, no_edit};
ghost use Rattle.construct.specs.Choices.{IsMove, assigns, gives, is_accepted, lowering};
ghost use Rattle.khe_solution.specs.Refusing.{is_of_meets, refusal};

use khe_base::{MeetId, ResourceId, TaskId, TimeId, Totals};
use khe_engine::Engine;
use khe_told::{Edit, Family};

/// The least totals so far, and the edit that leaves them, if one is lower than what there is.
#[derive(Clone, Copy)]
pub(crate) struct Best {
    pub totals: Totals,
    pub edit: Option<Edit>,
}

/// Nothing is better yet than the present state.
#[tactic(auto, unfolding(crate::specs::Best::no_edit, crate::specs::Choices::totals_at))]
fn no_edit<F: Family>(engine: &Engine<'_, F>) -> Best
    ensures { result ≡ no_edit engine.now.parts engine.now.state }
{
    Best {
        totals: engine.totals(),
        edit: None,
    }
}

/// Whether the table of edits accepts an edit. It takes constant time.
#[tactic(auto, unfolding(crate::specs::Choices::is_accepted))]
fn accepts<F: Family>(engine: &Engine<'_, F>, edit: Edit) -> bool
    requires { is_of_meets edit ≡ true }
    ensures { result ≡ is_accepted engine.now.parts engine.now.state edit }
{
    engine.solution().check(&edit).is_ok()
}

/// Looks at one edit more: where the table accepts it, the engine is asked what it would leave. It is better
/// only where that is strictly lower than the least so far.
fn look<F: Family>(engine: &mut Engine<'_, F>, edit: Edit, best: &mut Best)
    requires { is_of_meets edit ≡ true }
    ensures best { best.new ≡ improved engine.old.parts engine.old.state best.old edit }
    ensures same { engine.new ≡ engine.old }
{
    if !accepts(engine, edit) {
        return;
    }
    if !engine.is_lower_after(&edit, best.totals) {
        return;
    }
    let totals = engine.totals_after(&edit);
    *best = Best {
        totals,
        edit: Some(edit),
    };
}

/// The assignment of a meet that lowers the totals most, to the first of several times that do. It takes the
/// time of a try, or two where it is the best so far, for each time that the table accepts.
pub(crate) fn best_time<F: Family>(engine: &mut Engine<'_, F>, meet: MeetId) -> Option<Edit>
    ensures best { result ≡ lowering engine.old.parts engine.old.state (assigns engine.old.parts meet.0) }
    ensures move_ { IfSome result (IsMove engine.old.parts engine.old.state) }
    ensures same { engine.new ≡ engine.old }
{
    let mut best = no_edit(engine);
    for number in 0..engine.instance().times() {
        let time = TimeId(number);
        look(engine, Edit::Assign { meet, time }, &mut best);
    }
    best.edit
}

/// The gift to a task that lowers the totals most, of the first of several resources that do. It takes the
/// time of a try, or two where it is the best so far, for each resource that the table accepts.
pub(crate) fn best_resource<F: Family>(engine: &mut Engine<'_, F>, task: TaskId) -> Option<Edit>
    ensures best { result ≡ lowering engine.old.parts engine.old.state (gives engine.old.parts task) }
    ensures move_ { IfSome result (IsMove engine.old.parts engine.old.state) }
    ensures same { engine.new ≡ engine.old }
{
    let mut best = no_edit(engine);
    for number in 0..engine.instance().resources() {
        let resource = ResourceId(number);
        look(engine, Edit::Give { task, resource }, &mut best);
    }
    best.edit
}
