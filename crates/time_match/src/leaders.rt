//! What a task costs with each resource, by what another that is alike does, which leads it.

ghost use Rattle.std.specs.Prelude.{◌≡◌, ◌≤◌, ◌<◌, ◌+◌, ◌++◌, None, All, IfOk, OnOk, length};
ghost use Rattle.khe_solution.specs.Refusing.{refusal};
ghost use Rattle.khe_told.specs.declared.edits.Edit.TheVariants.{Give};
ghost use Rattle.resource_match.specs.Smallness.{IsSmall};
ghost use Rattle.time_match.specs.Alike.{IsBare};
ghost use Rattle.time_match.specs.Costs.{row};
ghost use Rattle.time_match.specs.Leaders.{AreExchanged, IsLeader, IsLikeness, preferences};

use crate::asking::totals_after;
use crate::likenesses::Likeness;
use crate::reads::facts;
use crate::wishes::{wished, wishes_among};
use khe_base::{NoMemory, ResourceId, Seq, TaskId, Totals};
use khe_engine::Engine;
use khe_told::{Edit, Family};
use std::alloc::Global;

/// A task whose costs were asked, and what is left of each without its wishes.
#[derive(Drop)]
pub(crate) struct Leader {
    pub task: TaskId,
    pub rests: Seq<Totals>,
}

/// What is left of a cost without what wishes cost.
fn without(cost: Totals, wish: Totals) -> Totals
    requires hard { wish.hard ≤ cost.hard }
    requires soft { wish.soft ≤ cost.soft }
    ensures hard { result.hard + wish.hard ≡ cost.hard }
    ensures soft { result.soft + wish.soft ≡ cost.soft }
{
    Totals {
        hard: cost.hard - wish.hard,
        soft: cost.soft - wish.soft,
    }
}

/// What a task costs with a resource: what the leader's rest with it and its own with another are, without the
/// leader's with that other one, and its own wishes with the resource.
fn led(rest: Totals, own: Totals, other: Totals, wish: Totals) -> Totals
    requires rest { IsSmall rest }
    requires own { IsSmall own }
    requires wish { IsSmall wish }
    requires hard { other.hard ≤ rest.hard + own.hard }
    requires soft { other.soft ≤ rest.soft + own.soft }
    ensures hard { result.hard + other.hard ≡ rest.hard + own.hard + wish.hard }
    ensures soft { result.soft + other.soft ≡ rest.soft + own.soft + wish.soft }
{
    Totals {
        hard: rest.hard + own.hard - other.hard + wish.hard,
        soft: rest.soft + own.soft - other.soft + wish.soft,
    }
}

/// A task as the leader of others, by what it costs with each resource.
pub(crate) fn leader_of<F: Family>(
    alloc: Global,
    engine: &Engine<'_, F>,
    asked: &[Totals],
    of: &Likeness,
    numbers: &[u32],
    resources: &[ResourceId],
) -> Result<Leader, NoMemory>
    requires numbers { numbers.now ≡ preferences engine.now.parts }
    requires asked { asked.now ≡ row engine.now.parts engine.now.state resources.now of.now.task }
    requires small { All IsSmall asked.now }
    requires like { IsLikeness engine.now.parts engine.now.state.slots of.now }
    requires bare { IsBare engine.now.state.slots of.now.task }
    requires accepted { All (λ r. refusal engine.now.parts engine.now.state.slots (Give of.now.task r) ≡ None) resources.now }
    ensures is { IfOk result (IsLeader engine.now.parts engine.now.state resources.now) }
    ensures task { IfOk result (λ x. x.task ≡ of.now.task) }
    ensures small { IfOk result (λ x. All IsSmall x.rests) }
{
    facts(engine);
    let wishes = wishes_among(alloc, engine, of.event, of.task.place, of.duration, numbers)?;
    let wanted = wishes.as_slice();
    let mut rests = Seq::new(alloc);
    for k in 0..resources.len() {
        let wish = wished(engine, wanted, resources[k]);
        rests.push(without(asked[k], wish))?;
    }
    Ok(Leader {
        task: of.task,
        rests,
    })
}

/// Adds what it would cost with each of these resources given to a task alone, by its leader. It asks for the first
/// of them.
pub(crate) fn push_led<F: Family>(
    alloc: Global,
    engine: &mut Engine<'_, F>,
    pairs: &mut Seq<Totals>,
    of: &Likeness,
    leader: &Leader,
    numbers: &[u32],
    resources: &[ResourceId],
) -> Result<(), NoMemory>
    requires numbers { numbers.now ≡ preferences engine.old.parts }
    requires like { IsLikeness engine.old.parts engine.old.state.slots of.now }
    requires bare { IsBare engine.old.state.slots of.now.task }
    requires accepted { All (λ r. refusal engine.old.parts engine.old.state.slots (Give of.now.task r) ≡ None) resources.now }
    requires some { 0 < length resources.now }
    requires leader { IsLeader engine.old.parts engine.old.state resources.now leader.now }
    requires rests { All IsSmall leader.now.rests }
    requires exchanged { AreExchanged engine.old.parts engine.old.state leader.now.task of.now.task }
    requires small { All IsSmall pairs.old }
    ensures row { OnOk result (pairs.new ≡ pairs.old ++ row engine.old.parts engine.old.state resources.now of.now.task) }
    ensures small { All IsSmall pairs.new }
    ensures same { engine.new ≡ engine.old }
{
    facts(engine);
    let wishes = wishes_among(alloc, engine, of.event, of.task.place, of.duration, numbers)?;
    let wanted = wishes.as_slice();
    let resource = resources[0];
    let wish = wished(engine, wanted, resource);
    let edit = Edit::Give {
        task: of.task,
        resource,
    };
    let cost = totals_after(engine, edit);
    let own = without(cost, wish);
    let rests = leader.rests.as_slice();
    for k in 0..resources.len() {
        let more = wished(engine, wanted, resources[k]);
        pairs.push(led(rests[k], own, rests[0], more))?;
    }
    Ok(())
}
