//! Queueing the monitors of a list.

ghost use Rattle.std.specs.Prelude.{◌≡◌, ◌<◌, ℕ, length, slice_get, Some};
ghost use Rattle.resource_monitors.specs.Posts.{AreAdded};
ghost use Rattle.resource_monitors.specs.declared.posts.Post.{Post};

use crate::posts::Post;
use khe_told::Waits;

/// Lets each monitor of a list wait. It takes time in proportion to the list.
pub(crate) fn add_all<W: Waits>(list: &[Post], waits: &mut W)
    requires known { (k : ℕ) (a : Post) → slice_get list.now k ≡ Some a → a.number.0 < W.monitors waits.old }
    ensures monitors { W.monitors waits.new ≡ W.monitors waits.old }
    ensures added { AreAdded (λ m. W.hears) list.now (length list.now) (W.waits waits.old) (W.waits waits.new) }
{
    for post in list {
        waits.add(post.number);
    }
}
