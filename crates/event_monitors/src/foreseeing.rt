//! Whether the gauges of all monitors can tell the deviations after effects.

ghost use Rattle.std.specs.Prelude.{ℕ, ◌≡◌, Some, true, slice_get};
ghost use Rattle.event_monitors.specs.Effects.{HoldAt};
ghost use Rattle.event_monitors.specs.Posts.{AreListed, names};
ghost use Rattle.event_monitors.specs.declared.posts.Post.{Post};

use crate::gauges::Gauge;
use crate::indexes::Index;
use crate::posts::Post;
use khe_base::EventId;
use khe_instance::Instance;
use khe_told::Effects;

/// Whether the monitor at a place foresees effects, where there is one.
#[inline(always)]
fn foresees_at<G: Gauge>(inst: &Instance, posts: &[Post], place: u32, effects: &Effects<'_>) -> bool
    ensures { result ≡ true → (a : Post) → slice_get posts.now place ≡ Some a
        → G.Foresees inst.now a.monitor effects.now }
{
    match posts.get(place as usize) {
        None => true,
        Some(post) => G::foresees(inst, post.monitor, effects),
    }
}

/// Whether the monitors at all places of a list foresee effects. It takes the time of the list.
fn foresee_listed<G: Gauge>(
    inst: &Instance,
    posts: &[Post],
    list: &[u32],
    effects: &Effects<'_>,
) -> bool
    ensures { result ≡ true → HoldAt (λ m. G.Foresees inst.now m effects.now) posts.now list.now }
{
    for place in list {
        if !foresees_at::<G>(inst, posts, *place, effects) {
            return false;
        }
    }
    true
}

/// Whether the monitors that name an event foresee effects. It takes the time of these.
fn foresee_named<G: Gauge>(
    inst: &Instance,
    index: &Index,
    event: EventId,
    effects: &Effects<'_>,
) -> bool
    ensures { result ≡ true → AreListed inst.now index.now.posts index.now.lists → (k : ℕ) (a : Post)
        → slice_get index.now.posts k ≡ Some a → names inst.now event.0 a.monitor ≡ true
        → G.Foresees inst.now a.monitor effects.now }
{
    match index.lists.as_slice().get(event.0 as usize) {
        None => false,
        Some(list) => foresee_listed::<G>(inst, index.posts.as_slice(), list.as_slice(), effects),
    }
}

/// Whether all monitors foresee effects. It takes the time of the monitors that name the events of the slots.
pub(crate) fn foresee<G: Gauge>(inst: &Instance, index: &Index, effects: &Effects<'_>) -> bool
    ensures { result ≡ true → AreListed inst.now index.now.posts index.now.lists → (k : ℕ) (a : Post)
        → slice_get index.now.posts k ≡ Some a → G.Foresees inst.now a.monitor effects.now }
{
    let (first, second) = effects.slots();
    if !foresee_named::<G>(inst, index, first.event(), effects) {
        return false;
    }
    match second {
        None => true,
        Some(second) => foresee_named::<G>(inst, index, second.event(), effects),
    }
}
