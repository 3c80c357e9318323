//! Order Events.

ghost use Rattle.std.specs.Prelude.{◌≡◌, ◌≢◌, [], true, length, IfOk};
ghost use Rattle.khe_told.specs.Slots.{no_meets};
ghost use Rattle.khe_told.specs.Turns.{IsTurn, turned};
ghost use Rattle.set_monitors.specs.Foreseeing.{AllKeep};
ghost use Rattle.set_monitors.specs.MeetEdges.{AreEdges, IsEdges, LeavesEdges};

use crate::meet_edges::Edges;
use crate::order_pairs::value;
use crate::order_posts::posts_of;
use crate::order_waits::add_all;
use crate::pair_lists::lists_of;
use event_monitors::{Post, alters_meet};
use family_keepers::{Keeper, Keeping};
use khe_base::{EventId, MonitorId, NoMemory, Seq, beside};
use khe_instance::{EventInfo, Instance, Kind};
use khe_told::{Effect, Effects, Told, Turn, Waits};
use std::alloc::Global;

/// The family of Order Events: a monitor's deviation is how far the times from the end of its first
/// event's meets to the start of its second's lie outside the bounds, while both have a start.
pub type OrderEvents = Keeping<OrderEdges>;

/// The keeper of Order Events. It is lent the told state.
///
/// It keeps, for each event that a served monitor names, when the meet of each meet slot starts and ends, four
/// numbers a slot. A turn that moves a meet takes time in proportion to the logarithm of its event's meet
/// slots, and then that of the monitors that name the event. Where there are none, and where the meet does not
/// move, it takes constant time.
#[derive(Drop)]
pub struct OrderEdges {
    posts: Seq<Post>,
    /// For each event the places of the posts that name it.
    lists: Seq<Seq<u32>>,
    /// For each event that has a list when its meets start and end.
    edges: Vec<Edges>,
}

impl Keeper for OrderEdges {
    ghost use Rattle.std.specs.Prelude.{◌≡◌};
    ghost use Rattle.event_monitors.specs.Posts.{ArePosts, AreListed};
    ghost use Rattle.set_monitors.specs.Foreseeing.{AreCutOrKeep};
    ghost use Rattle.set_monitors.specs.MeetEdges.{AreEdges, AreShort, LeavesEdges};
    ghost use Rattle.set_monitors.specs.OrderPairs.{is_order};

    ghost serves_kind = { is_order };

    ghost IsWellJoined = { Unit {0} };

    ghost Keeps = { λ f p s. ArePosts p is_order f.posts × AreListed p f.posts f.lists × AreEdges p f.lists s f.edges.items × AreShort s };

    ghost Foresees = { λ f p ts. AreCutOrKeep (LeavesEdges f.lists) ts };

    fn open(alloc: Global, inst: &Instance) -> Result<OrderEdges, NoMemory> {
        let posts = posts_of(alloc, inst)?;
        let lists = lists_of(alloc, inst, posts.as_slice());
        let (lists, posts) = beside(lists, posts)?;
        let edges = edges_of(alloc, inst, lists.as_slice());
        let (edges, (lists, posts)) = beside(edges, (lists, posts))?;
        Ok(OrderEdges {
            posts,
            lists,
            edges,
        })
    }

    fn serves(&self, kind: Kind) -> bool {
        kind == Kind::OrderEvents
    }

    fn turn<W: Waits>(&mut self, inst: &Instance, told: &Told, turn: &Turn<'_>, waits: &mut W) {
        inst.facts();
        if !turn.moves() {
            return;
        }
        let event = turn.event();
        let list = self.lists.as_slice()[event.0 as usize].as_slice();
        if list.is_empty() {
            return;
        }
        follow(inst, told, turn, &mut self.edges[event.0 as usize]);
        let posts = self.posts.as_slice();
        add_all(inst, posts, event, list, waits);
    }

    fn deviation(&self, inst: &Instance, monitor: MonitorId) -> u64 {
        inst.facts();
        value(inst, self.edges.as_slice(), inst.monitor(monitor))
    }

    fn foresees(&self, inst: &Instance, effects: &Effects<'_>) -> bool {
        let _ = inst;
        effects.is_cut() || leave_edges(self.lists.as_slice(), effects)
    }

    fn queue_affected<W: Waits>(
        &self,
        inst: &Instance,
        told: &Told,
        effects: &Effects<'_>,
        waits: &mut W,
    ) {
        let _ = told;
        let _ = effects;
        let _ = waits;
        inst.facts();
    }

    fn deviation_after(
        &self,
        inst: &Instance,
        told: &Told,
        effects: &Effects<'_>,
        monitor: MonitorId,
    ) -> u64 {
        let _ = told;
        let _ = effects;
        inst.facts();
        self.deviation(inst, monitor)
    }
}

/// Whether each slot would keep its meet, or is of an event without a list. It takes constant time.
fn leave_edges(lists: &[Seq<u32>], effects: &Effects<'_>) -> bool
    ensures { result ≡ true → AllKeep (LeavesEdges lists.now) effects.now }
{
    let (first, second) = effects.slots();
    if !leaves_edges(lists, first) {
        return false;
    }
    match second {
        Some(second) => leaves_edges(lists, second),
        None => true,
    }
}

/// The same of one slot.
fn leaves_edges(lists: &[Seq<u32>], effect: &Effect<'_>) -> bool
    ensures { result ≡ true → LeavesEdges lists.now effect.now }
{
    if !alters_meet(effect) {
        return true;
    }
    match lists.get(effect.event().0 as usize) {
        Some(list) => list.is_empty(),
        None => true,
    }
}

/// When the meets of all events that have a list start and end, while there are none. It takes time
/// and memory in proportion to the events and to the meet slots of those.
fn edges_of(alloc: Global, inst: &Instance, lists: &[Seq<u32>]) -> Result<Vec<Edges>, NoMemory>
    requires { length lists.now ≡ length inst.now.events }
    ensures { IfOk result (λ edges. AreEdges inst.now lists.now (no_meets inst.now) edges.items) }
{
    let mut edges = Vec::new(alloc);
    for i in 0..inst.events() {
        let slots = slots_for(&lists[i as usize], inst.event(EventId(i)));
        edges.push(Edges::open(alloc, slots)?)?;
    }
    Ok(edges)
}

/// How many meet slots are kept for an event with this list: none where it is empty.
fn slots_for(list: &Seq<u32>, event: &EventInfo) -> u32
    ensures { list.now ≢ [] → result ≡ event.now.duration }
{
    if list.is_empty() { 0 } else { event.duration }
}

/// Follows a turn of one of an event's meet slots. The told state is the one before it.
fn follow(inst: &Instance, told: &Told, turn: &Turn<'_>, edges: &mut Edges)
    requires turns { IsTurn inst.now told.now turn.now }
    requires of { IsEdges turn.now.before.event.0 told.now edges.old }
    ensures { IsEdges turn.now.before.event.0 (turned told.now turn.now) edges.new }
{
    let _ = told;
    inst.facts();
    let event = inst.event(turn.event());
    let place = turn.meet().0 - event.first_meet;
    let meet = turn.after();
    edges.set(place as usize, meet);
}
