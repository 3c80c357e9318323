//! Queueing the monitors of a list.

ghost use Rattle.std.specs.Prelude.{◌≡◌, [], true, length};
ghost use Rattle.event_monitors.specs.Posts.{ArePosts, posts_at};
ghost use Rattle.event_monitors.specs.Turns.{AreListedSince};
ghost use Rattle.khe_told.specs.Waits.{WaitOn};
ghost use Rattle.set_monitors.specs.OrderPairs.{is_order};
ghost use Rattle.set_monitors.specs.OrderWaits.{NamedWait};

use event_monitors::Post;
use khe_base::EventId;
use khe_instance::Instance;
use khe_told::Waits;

/// Queues each monitor that names an event. It takes the time of these monitors.
pub(crate) fn add_all<W: Waits>(
    inst: &Instance,
    posts: &[Post],
    event: EventId,
    list: &[u32],
    waits: &mut W,
)
    requires posts { ArePosts inst.now is_order posts.now }
    requires list { list.now ≡ posts_at inst.now posts.now event.0 }
    requires monitors { W.monitors waits.old ≡ length inst.now.monitors }
    ensures monitors { W.monitors waits.new ≡ W.monitors waits.old }
    ensures named { W.hears ≡ true → NamedWait inst.now posts.now event.0 (W.waits waits.new) [] }
    ensures kept { WaitOn (W.waits waits.old) (W.waits waits.new) }
    ensures listed { AreListedSince posts.now list.now (W.waits waits.old) (W.waits waits.new) }
{
    let _ = inst;
    let _ = event;
    if !W::hears() {
        return;
    }
    for place in list {
        waits.add(posts[*place as usize].number);
    }
}
