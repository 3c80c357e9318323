//! The monitors that are served, with their numbers.

ghost use Rattle.std.specs.Prelude.{◌≡◌, ◌++◌, ◌∷◌, [], if◌then◌else◌, IfOk, OnOk};
ghost use Rattle.event_monitors.specs.Posts.{ArePosts};
ghost use Rattle.set_monitors.specs.OrderPairs.{is_order};

use event_monitors::Post;
use khe_base::{MonitorId, NoMemory, Seq};
use khe_instance::{Instance, Kind};
use std::alloc::Global;

/// The monitors of the kind with their numbers, in time of all monitors.
pub(crate) fn posts_of(alloc: Global, inst: &Instance) -> Result<Seq<Post>, NoMemory>
    ensures { IfOk result (λ posts. ArePosts inst.now is_order posts) }
{
    let mut posts = Seq::new(alloc);
    for i in 0..inst.monitors() {
        let number = MonitorId(i);
        let monitor = inst.monitor(number);
        add_post(&mut posts, Post { number, monitor })?;
    }
    Ok(posts)
}

/// Adds a post where its monitor is of the kind.
fn add_post(posts: &mut Seq<Post>, post: Post) -> Result<(), NoMemory>
    ensures { OnOk result (posts.new ≡ (if is_order post.monitor.kind then posts.old ++ post ∷ [] else posts.old)) }
{
    if post.monitor.kind != Kind::OrderEvents {
        return Ok(());
    }
    posts.push(post)?;
    Ok(())
}
