//! Turning the gauges of the monitors that name an event.

ghost use Rattle.std.specs.Prelude.{◌≡◌, ◌≢◌, ◌<◌, ℕ, false, true, length};
ghost use Rattle.khe_told.specs.Turns.{IsTurn, turned};
ghost use Rattle.khe_told.specs.Waits.{WaitOn};
ghost use Rattle.event_monitors.specs.Posts.{names, posts_at, ArePosts, AreKept};
ghost use Rattle.event_monitors.specs.Turns.{AreListedSince, AreSameOrWait};

use crate::gauges::Gauge;
use crate::posts::Post;
use khe_instance::Instance;
use khe_told::{Told, Turn, Waits};

/// Turns the gauge of one monitor, and queues the monitor if its deviation may have changed.
fn turn_one<G: Gauge, W: Waits>(
    inst: &Instance,
    told: &Told,
    turn: &Turn<'_>,
    post: &Post,
    gauge: &mut G,
    waits: &mut W,
)
    requires turns { IsTurn inst.now told.now turn.now }
    requires keeps { G.Keeps gauge.old inst.now post.now.monitor told.now }
    requires named { names inst.now turn.now.before.event.0 post.now.monitor ≡ true }
    requires known { post.now.number.0 < W.monitors waits.old }
    ensures keeps { G.Keeps gauge.new inst.now post.now.monitor (turned told.now turn.now) }
    ensures monitors { W.monitors waits.new ≡ W.monitors waits.old }
    ensures unmoved { W.hears ≡ true → W.waits waits.new post.now.number.0 ≡ false → G.value gauge.new inst.now post.now.monitor ≡ G.value gauge.old inst.now post.now.monitor }
    ensures kept { WaitOn (W.waits waits.old) (W.waits waits.new) }
    ensures others { (i : ℕ) → i ≢ post.now.number.0 → W.waits waits.new i ≡ W.waits waits.old i }
{
    if !gauge.turn(inst, post.monitor, told, turn) {
        return;
    }
    waits.add(post.number);
}

/// Turns the gauges of the monitors that name the event of a slot that changes. What was told is the
/// state before. It takes the time of these monitors.
pub(crate) fn turn_all<G: Gauge, W: Waits>(
    inst: &Instance,
    told: &Told,
    turn: &Turn<'_>,
    posts: &[Post],
    list: &[u32],
    gauges: &mut Vec<G>,
    waits: &mut W,
)
    requires turns { IsTurn inst.now told.now turn.now }
    requires posts { ArePosts inst.now G.serves_kind posts.now }
    requires list { list.now ≡ posts_at inst.now posts.now turn.now.before.event.0 }
    requires amount { length gauges.old.items ≡ length posts.now }
    requires keeps { AreKept G.Keeps inst.now posts.now gauges.old.items told.now }
    requires monitors { W.monitors waits.old ≡ length inst.now.monitors }
    ensures gauges { length gauges.new.items ≡ length posts.now }
    ensures keeps { AreKept G.Keeps inst.now posts.now gauges.new.items (turned told.now turn.now) }
    ensures monitors { W.monitors waits.new ≡ W.monitors waits.old }
    ensures unmoved { W.hears ≡ true → AreSameOrWait G.value inst.now posts.now gauges.old.items gauges.new.items (W.waits waits.new) }
    ensures kept { WaitOn (W.waits waits.old) (W.waits waits.new) }
    ensures listed { AreListedSince posts.now list.now (W.waits waits.old) (W.waits waits.new) }
{
    for place in list {
        let k = *place as usize;
        turn_one(inst, told, turn, &posts[k], &mut gauges[k], waits);
    }
}
