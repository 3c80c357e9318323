//! The monitors that are served, with their numbers.

ghost use Rattle.std.specs.Prelude.{◌≡◌, ◌++◌, ◌∷◌, [], if◌then◌else◌, length, IfOk, OnOk};
ghost use Rattle.khe_told.specs.Slots.{no_meets};
ghost use Rattle.event_monitors.specs.Posts.{ArePosts, AreKept};

use crate::gauges::Gauge;
use khe_base::{MonitorId, NoMemory, Seq};
use khe_instance::{Instance, Monitor};
use std::alloc::Global;

/// A served monitor with its number.
#[derive(Clone, Copy)]
pub struct Post {
    pub number: MonitorId,
    pub monitor: Monitor,
}

/// The monitors that such gauges serve, in time of all monitors.
pub(crate) fn posts_of<G: Gauge>(alloc: Global, inst: &Instance) -> Result<Seq<Post>, NoMemory>
    ensures { IfOk result (λ posts. ArePosts inst.now G.serves_kind posts) }
{
    let mut posts = Seq::new(alloc);
    for i in 0..inst.monitors() {
        let number = MonitorId(i);
        let monitor = inst.monitor(number);
        add_served::<G>(&mut posts, Post { number, monitor })?;
    }
    Ok(posts)
}

// Adds a post where such gauges serve its monitor.
fn add_served<G: Gauge>(posts: &mut Seq<Post>, post: Post) -> Result<(), NoMemory>
    ensures { OnOk result (posts.new ≡ (if G.serves_kind post.monitor.kind then posts.old ++ post ∷ [] else posts.old)) }
{
    if !G::serves(post.monitor.kind) {
        return Ok(());
    }
    posts.push(post)?;
    Ok(())
}

/// A gauge for each post, while there are no meets.
pub(crate) fn gauges_of<G: Gauge + Drop>(
    alloc: Global,
    inst: &Instance,
    posts: &[Post],
) -> Result<Vec<G>, NoMemory>
    requires { ArePosts inst.now G.serves_kind posts.now }
    ensures amount { IfOk result (λ gs. length gs.items ≡ length posts.now) }
    ensures kept { IfOk result (λ gs. AreKept G.Keeps inst.now posts.now gs.items (no_meets inst.now)) }
{
    inst.facts();
    let mut gauges = Vec::new(alloc);
    for post in posts {
        gauges.push(G::open(alloc, inst, post.monitor)?)?;
    }
    Ok(gauges)
}
