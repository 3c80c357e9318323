//! For each event the monitors that name it.

ghost use Rattle.std.specs.Prelude.{ℕ, ◌≡◌, ◌<◌, ◌≤◌, ◌+◌, ◌==◌, ◌||◌, ◌++◌, ◌∷◌, [], Some, false, All, drop, length, replicate, slice_get, slice_index_or, slice_set, IfOk, OnOk};
ghost use Rattle.khe_instance.specs.Watching.{pair_names};
ghost use Rattle.khe_instance.specs.WellMade.{IsMonitor};
ghost use Rattle.event_monitors.specs.Lists.{AreAdded, AreOnce, HasPair};
ghost use Rattle.event_monitors.specs.Posts.{ArePosts, AreListed, names};
ghost use Rattle.event_monitors.specs.Turns.{has};

use crate::gauges::Gauge;
use crate::posts::Post;
use khe_base::{EventId, NoMemory, Seq};
use khe_instance::{EventPair, Instance, Monitor, Point, Rule};
use std::alloc::Global;

/// For each event the places of the posts that name it, in time of the events and of what the posts
/// watch.
pub(crate) fn lists_of<G: Gauge>(
    alloc: Global,
    inst: &Instance,
    posts: &[Post],
) -> Result<Seq<Seq<u32>>, NoMemory>
    requires { ArePosts inst.now G.serves_kind posts.now }
    ensures { IfOk result (λ lists. AreListed inst.now posts.now lists) }
{
    inst.facts();
    let mut lists = no_lists(alloc, inst.events())?;
    for (place, post) in posts.iter().enumerate() {
        add(inst, post.monitor, place as u32, &mut lists)?;
    }
    Ok(lists)
}

/// The given number of empty lists.
fn no_lists(alloc: Global, count: u32) -> Result<Seq<Seq<u32>>, NoMemory>
    ensures { IfOk result (λ lists. lists ≡ replicate count []) }
{
    let mut lists = Seq::new(alloc);
    for _ in 0..count {
        lists.push(Seq::new(alloc))?;
    }
    Ok(lists)
}

/// Adds a place to the lists of the events that a monitor names, once to each.
fn add(
    inst: &Instance,
    monitor: Monitor,
    place: u32,
    lists: &mut Seq<Seq<u32>>,
) -> Result<(), NoMemory>
    requires monitor { IsMonitor inst.now monitor }
    requires rows { length lists.old ≡ length inst.now.events }
    ensures { OnOk result (AreAdded (λ e. names inst.now e monitor) place lists.old lists.new) }
{
    inst.facts();
    match monitor.point {
        Point::Event(event) => push(lists, event, place),
        Point::EventResource { event, .. } => push(lists, event, place),
        Point::EventGroup(group) => push_all(lists, inst.members(group), place),
        Point::EventPair(pair) => {
            let rule = &inst.constraint(monitor.constraint).rule;
            add_pair(rule, pair, place, lists)
        }
        Point::Resource(_) => Ok(()),
    }
}

/// Adds a place to the lists of the events of a rule's pair.
fn add_pair(rule: &Rule, pair: u32, place: u32, lists: &mut Seq<Seq<u32>>) -> Result<(), NoMemory>
    requires { HasPair rule.now pair (length lists.old) }
    ensures { OnOk result (AreAdded (pair_names rule.now pair) place lists.old lists.new) }
{
    match rule {
        Rule::OrderEvents { pairs } => push_both(lists, pairs.as_slice()[pair as usize], place),
        _ => Ok(()),
    }
}

/// Adds a place to the lists of both events of a pair, which may be one.
fn push_both(lists: &mut Seq<Seq<u32>>, pair: EventPair, place: u32) -> Result<(), NoMemory>
    requires first { pair.first.0 < length lists.old }
    requires second { pair.second.0 < length lists.old }
    ensures { OnOk result (AreAdded (λ e. (pair.first.0 == e) || (pair.second.0 == e)) place lists.old lists.new) }
{
    push(lists, pair.first, place)?;
    if pair.second.0 == pair.first.0 {
        return Ok(());
    }
    push(lists, pair.second, place)
}

/// Adds a place to the lists of all these events, of which each comes once.
fn push_all(lists: &mut Seq<Seq<u32>>, events: &[u32], place: u32) -> Result<(), NoMemory>
    requires within { All (λ e. e < length lists.old) events.now }
    requires once { AreOnce events.now }
    ensures { OnOk result (AreAdded (has events.now) place lists.old lists.new) }
{
    for event in events {
        push(lists, EventId(*event), place)?;
    }
    Ok(())
}

/// Adds a place to the list of an event.
fn push(lists: &mut Seq<Seq<u32>>, event: EventId, place: u32) -> Result<(), NoMemory>
    requires { event.0 < length lists.old }
    ensures { OnOk result (AreAdded (λ e. event.0 == e) place lists.old lists.new) }
{
    let list = &mut lists.items[event.0 as usize];
    list.push(place)?;
    Ok(())
}
