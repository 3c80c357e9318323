//! Served monitors found by the events that they name.

ghost use Rattle.std.specs.Prelude.{ℕ, ◌≡◌, ◌<◌, Some, length, slice_get, IfOk};
ghost use Rattle.event_monitors.specs.Posts.{ArePosts, AreListed, ArePlaces};

use crate::gauges::Gauge;
use crate::lists::lists_of;
use crate::posts::{Post, posts_of};
use khe_base::{MonitorId, NoMemory, Seq, beside, both};
use khe_instance::Instance;
use std::alloc::Global;

/// The served monitors by their numbers, for each event the places among them of the monitors
/// that name it, and for each monitor its own place.
#[derive(Drop)]
pub(crate) struct Index {
    pub(crate) posts: Seq<Post>,
    pub(crate) lists: Seq<Seq<u32>>,
    /// 0 where a monitor is not served.
    pub(crate) places: Vec<u32>,
}

impl Index {
    /// The index of the monitors that such gauges serve. It takes time in proportion to the events,
    /// to all monitors, and to what the served ones watch.
    pub(crate) fn open<G: Gauge>(alloc: Global, inst: &Instance) -> Result<Index, NoMemory>
        ensures posts { IfOk result (λ i. ArePosts inst.now G.serves_kind i.posts) }
        ensures lists { IfOk result (λ i. AreListed inst.now i.posts i.lists) }
        ensures places { IfOk result (λ i. ArePlaces i.posts i.places.items) }
    {
        let posts = posts_of::<G>(alloc, inst)?;
        let lists = lists_of::<G>(alloc, inst, posts.as_slice());
        let places = places_of::<G>(alloc, inst, posts.as_slice());
        let parts = both(lists, places);
        let ((lists, places), posts) = beside(parts, posts)?;
        Ok(Index {
            posts,
            lists,
            places,
        })
    }

    /// The place of a served monitor, in constant time.
    pub(crate) fn place_of(&self, monitor: MonitorId) -> usize
        requires places { ArePlaces self.now.posts self.now.places.items }
        requires served { (k : ℕ) × (a : Post) × (slice_get self.now.posts k ≡ Some a) × (a.number.0 ≡ monitor.0) }
        ensures { (a : Post) × (slice_get self.now.posts result ≡ Some a) × (a.number.0 ≡ monitor.0) }
    {
        self.places[monitor.0 as usize] as usize
    }
}

/// For each monitor its place among the posts, in time of all monitors.
fn places_of<G: Gauge>(alloc: Global, inst: &Instance, posts: &[Post]) -> Result<Vec<u32>, NoMemory>
    requires { ArePosts inst.now G.serves_kind posts.now }
    ensures { IfOk result (λ places. ArePlaces posts.now places.items) }
{
    inst.facts();
    let mut places = vec![in alloc; 0; inst.monitors() as usize]?;
    for (place, post) in posts.iter().enumerate() {
        places[post.number.0 as usize] = place as u32;
    }
    Ok(places)
}
