//! For each event the monitors that name it.

ghost use Rattle.std.specs.Prelude.{◌≡◌, ◌<◌, ◌==◌, ◌||◌, [], true, length, replicate, IfOk, OnOk};
ghost use Rattle.khe_instance.specs.WellMade.{IsMonitor};
ghost use Rattle.event_monitors.specs.Lists.{AreAdded};
ghost use Rattle.event_monitors.specs.Posts.{ArePosts, AreListed, names};
ghost use Rattle.set_monitors.specs.OrderPairs.{is_order};

use crate::order_pairs::pair_of;
use event_monitors::Post;
use khe_base::{EventId, NoMemory, Seq};
use khe_instance::{EventPair, Instance, Monitor};
use std::alloc::Global;

/// For each event the places of the posts that name it, in time of the events and the posts.
pub(crate) fn lists_of(
    alloc: Global,
    inst: &Instance,
    posts: &[Post],
) -> Result<Seq<Seq<u32>>, NoMemory>
    requires { ArePosts inst.now is_order posts.now }
    ensures { IfOk result (λ lists. AreListed inst.now posts.now lists) }
{
    inst.facts();
    let mut lists = no_lists(alloc, inst.events())?;
    for (place, post) in posts.iter().enumerate() {
        add(inst, post.monitor, place as u32, &mut lists)?;
    }
    Ok(lists)
}

/// The given number of empty lists.
fn no_lists(alloc: Global, count: u32) -> Result<Seq<Seq<u32>>, NoMemory>
    ensures { IfOk result (λ lists. lists ≡ replicate count []) }
{
    let mut lists = Seq::new(alloc);
    for _ in 0..count {
        lists.push(Seq::new(alloc))?;
    }
    Ok(lists)
}

/// Adds a place to the lists of both events of a monitor's pair.
fn add(
    inst: &Instance,
    monitor: Monitor,
    place: u32,
    lists: &mut Seq<Seq<u32>>,
) -> Result<(), NoMemory>
    requires monitor { IsMonitor inst.now monitor }
    requires kind { is_order monitor.kind ≡ true }
    requires rows { length lists.old ≡ length inst.now.events }
    ensures { OnOk result (AreAdded (λ e. names inst.now e monitor) place lists.old lists.new) }
{
    inst.facts();
    let Some(pair) = pair_of(inst, monitor) else {
        return Ok(());
    };
    push_both(lists, pair, place)
}

/// Adds a place to the lists of both events of a pair, which may be one.
fn push_both(lists: &mut Seq<Seq<u32>>, pair: EventPair, place: u32) -> Result<(), NoMemory>
    requires first { pair.first.0 < length lists.old }
    requires second { pair.second.0 < length lists.old }
    ensures { OnOk result (AreAdded (λ e. (pair.first.0 == e) || (pair.second.0 == e)) place lists.old lists.new) }
{
    push(lists, pair.first, place)?;
    if pair.second.0 == pair.first.0 {
        return Ok(());
    }
    push(lists, pair.second, place)
}

/// Adds a place to the list of an event.
fn push(lists: &mut Seq<Seq<u32>>, event: EventId, place: u32) -> Result<(), NoMemory>
    requires { event.0 < length lists.old }
    ensures { OnOk result (AreAdded (λ e. event.0 == e) place lists.old lists.new) }
{
    let list = &mut lists.items[event.0 as usize];
    list.push(place)?;
    Ok(())
}
