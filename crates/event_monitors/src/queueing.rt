//! Queueing the monitors whose deviations effects may change.

ghost use Rattle.std.specs.Prelude.{ℕ, ◌≡◌, ◌<◌, [], List, Some, false, true, length, slice_get};
ghost use Rattle.khe_told.specs.Turns.{IsTurn, turned};
ghost use Rattle.khe_told.specs.Waits.{WaitOn};
ghost use Rattle.khe_told.specs.declared.slots.Slot.{Slot};
ghost use Rattle.event_monitors.specs.Effects.{AreKeptOrWait, HoldOrWait, IsUncut};
ghost use Rattle.event_monitors.specs.Posts.{AreKept, AreListed, ArePosts, names, posts_at};
ghost use Rattle.event_monitors.specs.declared.posts.Post.{Post};

use crate::gauges::Gauge;
use crate::indexes::Index;
use crate::posts::Post;
use khe_base::EventId;
use khe_instance::Instance;
use khe_told::{Effect, Waits};

/// Queues one monitor where an effect on a slot of an event that it names may change its deviation.
#[inline(always)]
fn queue_one<G: Gauge, W: Waits>(
    inst: &Instance,
    effect: &Effect<'_>,
    post: &Post,
    gauge: &G,
    waits: &mut W,
)
    requires keeps { (s : List Slot) × G.Keeps gauge.now inst.now post.now.monitor s }
    requires known { post.now.number.0 < W.monitors waits.old }
    ensures monitors { W.monitors waits.new ≡ W.monitors waits.old }
    ensures unaffected { W.hears ≡ true → W.waits waits.new post.now.number.0 ≡ false → G.IsUnaffected gauge.now
        inst.now post.now.monitor effect.now }
    ensures kept { WaitOn (W.waits waits.old) (W.waits waits.new) }
{
    if !gauge.is_affected(inst, post.monitor, effect) {
        return;
    }
    waits.add(post.number);
}

/// Queues one monitor where a cut may change its deviation.
#[inline(always)]
fn queue_one_cut<G: Gauge, W: Waits>(post: &Post, gauge: &G, waits: &mut W)
    requires known { post.now.number.0 < W.monitors waits.old }
    ensures monitors { W.monitors waits.new ≡ W.monitors waits.old }
    ensures uncut { W.hears ≡ true → W.waits waits.new post.now.number.0 ≡ false → IsUncut G.Keeps G.value gauge.now }
    ensures kept { WaitOn (W.waits waits.old) (W.waits waits.new) }
{
    if !gauge.observes_cut() {
        return;
    }
    waits.add(post.number);
}

/// Queues the monitors at places of a list whose deviations an effect on a slot of the list's event may change.
fn queue_listed<G: Gauge, W: Waits>(
    inst: &Instance,
    effect: &Effect<'_>,
    posts: &[Post],
    list: &[u32],
    gauges: &[G],
    waits: &mut W,
)
    requires posts { ArePosts inst.now G.serves_kind posts.now }
    requires list { list.now ≡ posts_at inst.now posts.now effect.now.before.event.0 }
    requires amount { length gauges.now ≡ length posts.now }
    requires keeps { (s : List Slot) × AreKept G.Keeps inst.now posts.now gauges.now s }
    requires monitors { W.monitors waits.old ≡ length inst.now.monitors }
    ensures monitors { W.monitors waits.new ≡ W.monitors waits.old }
    ensures unaffected { W.hears ≡ true → HoldOrWait (λ k a. (g : G) → slice_get gauges.now k ≡ Some g
        → G.IsUnaffected g inst.now a.monitor effect.now) posts.now list.now [] (W.waits waits.new) }
    ensures kept { WaitOn (W.waits waits.old) (W.waits waits.new) }
{
    for place in list {
        let k = *place as usize;
        queue_one(inst, effect, &posts[k], &gauges[k], waits);
    }
}

/// Queues the monitors at places of a list whose deviations a cut of a meet of the list's event may change.
fn queue_cut_listed<G: Gauge, W: Waits>(
    inst: &Instance,
    event: EventId,
    posts: &[Post],
    list: &[u32],
    gauges: &[G],
    waits: &mut W,
)
    requires posts { ArePosts inst.now G.serves_kind posts.now }
    requires list { list.now ≡ posts_at inst.now posts.now event.0 }
    requires amount { length gauges.now ≡ length posts.now }
    requires monitors { W.monitors waits.old ≡ length inst.now.monitors }
    ensures monitors { W.monitors waits.new ≡ W.monitors waits.old }
    ensures uncut { W.hears ≡ true → HoldOrWait (λ k a. (g : G) → slice_get gauges.now k ≡ Some g
        → IsUncut G.Keeps G.value g) posts.now list.now [] (W.waits waits.new) }
    ensures kept { WaitOn (W.waits waits.old) (W.waits waits.new) }
{
    let _ = inst;
    let _ = event;
    for place in list {
        let k = *place as usize;
        queue_one_cut(&posts[k], &gauges[k], waits);
    }
}

/// The places of the monitors that name an event.
fn list_of<'a>(inst: &Instance, index: &'a Index, event: EventId) -> &'a [u32]
    requires lists { AreListed inst.now index.now.posts index.now.lists }
    requires event { event.0 < length inst.now.events }
    ensures { result.now ≡ posts_at inst.now index.now.posts event.0 }
{
    let _ = inst;
    index.lists.as_slice()[event.0 as usize].as_slice()
}

/// Queues the monitors whose deviations an effect on one slot may change. It takes the time of the monitors that name
/// the slot's event.
pub(crate) fn queue_affected<G: Gauge, W: Waits>(
    inst: &Instance,
    effect: &Effect<'_>,
    index: &Index,
    gauges: &[G],
    waits: &mut W,
)
    requires posts { ArePosts inst.now G.serves_kind index.now.posts }
    requires lists { AreListed inst.now index.now.posts index.now.lists }
    requires amount { length gauges.now ≡ length index.now.posts }
    requires keeps { (s : List Slot) × AreKept G.Keeps inst.now index.now.posts gauges.now s }
    requires event { effect.now.before.event.0 < length inst.now.events }
    requires monitors { W.monitors waits.old ≡ length inst.now.monitors }
    ensures monitors { W.monitors waits.new ≡ W.monitors waits.old }
    ensures keeps { W.hears ≡ true → (s : List Slot) → IsTurn inst.now s effect.now
        → AreKeptOrWait G.Keeps inst.now index.now.posts gauges.now (W.waits waits.old) s
        → AreKeptOrWait G.Keeps inst.now index.now.posts gauges.now (W.waits waits.new) (turned s effect.now) }
    ensures kept { WaitOn (W.waits waits.old) (W.waits waits.new) }
{
    if !G::observes(effect) {
        return;
    }
    let list = list_of(inst, index, effect.event());
    queue_listed(inst, effect, index.posts.as_slice(), list, gauges, waits);
}

/// Queues the monitors whose deviations a cut of a meet of an event may change. It takes the time of the monitors that
/// name the event.
pub(crate) fn queue_cut<G: Gauge, W: Waits>(
    inst: &Instance,
    event: EventId,
    index: &Index,
    gauges: &[G],
    waits: &mut W,
)
    requires posts { ArePosts inst.now G.serves_kind index.now.posts }
    requires lists { AreListed inst.now index.now.posts index.now.lists }
    requires amount { length gauges.now ≡ length index.now.posts }
    requires event { event.0 < length inst.now.events }
    requires monitors { W.monitors waits.old ≡ length inst.now.monitors }
    ensures monitors { W.monitors waits.new ≡ W.monitors waits.old }
    ensures uncut { W.hears ≡ true → (k : ℕ) → (a : Post) → (g : G) → slice_get index.now.posts k ≡ Some a
        → slice_get gauges.now k ≡ Some g → W.waits waits.new a.number.0 ≡ false
        → names inst.now event.0 a.monitor ≡ true → IsUncut G.Keeps G.value g }
    ensures kept { WaitOn (W.waits waits.old) (W.waits waits.new) }
{
    if !G::observes_cuts() {
        return;
    }
    let list = list_of(inst, index, event);
    queue_cut_listed(inst, event, index.posts.as_slice(), list, gauges, waits);
}
