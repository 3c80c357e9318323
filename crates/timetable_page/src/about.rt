//! Which time groups, times, resources or parts a defect is about: what a monitor found and what its constraint wants.

use crate::busy::{Cells, Given, list_at};
use crate::defects::push_resource_link;
use crate::draft::Draft;
use crate::layout::time_group_name;
use crate::naming::time_name;
use crate::view::View;
use khe_base::{EventId, IdSet, ResourceId, Seq, Text};
use khe_instance::{EventPair, Meet, Point, Rule, Spread};
use xhstt_shape::{RawInstance, RawRule};

/// How many groups, times or resources of a monitor are listed at most.
const LISTED: u32 = 40;

/// The Id of the time group at a place of a constraint's list, as the archive spells it.
fn group_at(raw: &RawInstance, which: u32, place: usize) -> Option<&Text> {
    let Some(constraint) = raw.constraints.as_slice().get(which as usize) else {
        return None;
    };
    let groups = match &constraint.rule {
        RawRule::SpreadEvents { time_groups } => match time_groups.as_slice().get(place) {
            Some(spread) => return Some(&spread.reference.id),
            None => return None,
        },
        RawRule::ClusterBusyTimes { time_groups, .. } => time_groups,
        RawRule::LimitBusyTimes { time_groups, .. } => time_groups,
        RawRule::LimitIdleTimes { time_groups, .. } => time_groups,
        _ => return None,
    };
    match groups.as_slice().get(place) {
        Some(group) => Some(&group.id),
        None => None,
    }
}

/// Adds what the time group at a place of a constraint's list is called.
fn push_group(page: &mut Draft, view: &View<'_>, which: u32, place: usize) {
    let Some(id) = group_at(view.raw, which, place) else {
        return;
    };
    let number = match view.time_groups.number(id) {
        Some(number) => u32::try_from(number).unwrap_or(u32::MAX),
        None => u32::MAX,
    };
    page.push_named("", time_group_name(view.raw, number).unwrap_or(id), "");
}

/// The least and the most that are wanted of something.
#[derive(Clone, Copy)]
struct Wanted {
    min: u32,
    max: u32,
}

impl Wanted {
    /// Whether a number is below the least or above the most.
    fn is_missed(&self, count: u32) -> bool {
        count < self.min || count > self.max
    }
}

/// Adds which bound a number misses.
fn push_bound(page: &mut Draft, count: u32, wanted: Wanted) {
    if count > wanted.max {
        page.push_counted(", at most ", u128::from(wanted.max), "");
    } else {
        page.push_counted(", at least ", u128::from(wanted.min), "");
    }
}

/// Adds how many are there, and which bound that misses.
fn push_missed(page: &mut Draft, count: u32, wanted: Wanted) {
    page.push_counted("", u128::from(count), "");
    push_bound(page, count, wanted);
}

/// Adds what stands before the item with a number of a list, and says whether it is listed.
fn push_comma(page: &mut Draft, listed: u32) -> bool {
    if listed > LISTED {
        return false;
    }
    if listed == LISTED {
        page.push_literal("; and more");
        return false;
    }
    page.push_str(if listed == 0 { ": " } else { "; " });
    true
}

/// Adds the time group at a place with what it has, where that is not as wanted, and says how many are listed then.
fn push_count(
    page: &mut Draft,
    view: &View<'_>,
    which: u32,
    place: usize,
    counted: (u32, Wanted),
    listed: u32,
) -> u32 {
    let (count, wanted) = counted;
    if !wanted.is_missed(count) {
        return listed;
    }
    if push_comma(page, listed) {
        push_group(page, view, which, place);
        page.push_literal(" has ");
        push_missed(page, count, wanted);
    }
    listed.saturating_add(1)
}

/// The meets of an event, by their places among all meets.
fn parts_of<'a>(view: &View<'a>, event: u32) -> &'a [u32] {
    let table = view.table;
    list_at(&table.parts, event)
}

/// The meet at a place among all meets.
fn meet_at<'a>(view: &View<'a>, place: u32) -> Option<&'a Meet> {
    let plain = view.plain;
    plain.meets.as_slice().get(place as usize)
}

/// How many meets of an event start in a time group.
fn starts_of(view: &View<'_>, event: u32, group: &IdSet) -> u32 {
    let mut count = 0u32;
    for place in parts_of(view, event) {
        if let Some(meet) = meet_at(view, *place) {
            if meet.start.is_some_and(|start| group.has(start.0)) {
                count = count.saturating_add(1);
            }
        }
    }
    count
}

/// How many meets of the events of a group start in a time group.
fn starts_in(view: &View<'_>, events: &[u32], group: &IdSet) -> u32 {
    let mut count = 0u32;
    for event in events {
        count = count.saturating_add(starts_of(view, *event, group));
    }
    count
}

/// Adds the time groups over which the events of a group are not spread as wanted.
fn push_spread(page: &mut Draft, view: &View<'_>, which: u32, group: u32, groups: &[Spread]) {
    if group >= view.inst.event_groups() {
        return;
    }
    let events = view.inst.members(group);
    let mut listed = 0u32;
    for place in 0..groups.len() {
        let spread = &groups[place];
        let wanted = Wanted {
            min: spread.min,
            max: spread.max,
        };
        let count = starts_in(view, events, &spread.group);
        listed = push_count(page, view, which, place, (count, wanted), listed);
    }
}

/// At how many times of a group a resource is busy.
fn busy_in(times: u32, cells: &Cells, group: &IdSet) -> u32 {
    let mut count = 0u32;
    for time in 0..times {
        if !cells.at(time).is_empty() && group.has(time) {
            count = count.saturating_add(1);
        }
    }
    count
}

/// Adds the time groups in which a resource is busy more or less than wanted.
fn push_limits(
    page: &mut Draft,
    view: &View<'_>,
    which: u32,
    groups: &Seq<IdSet>,
    wanted: Wanted,
    cells: &Cells,
) {
    let groups = groups.as_slice();
    let mut listed = 0u32;
    for place in 0..groups.len() {
        let count = busy_in(view.inst.times(), cells, &groups[place]);
        if count > 0 {
            listed = push_count(page, view, which, place, (count, wanted), listed);
        }
    }
}

/// Adds the time groups in which a resource is busy, and how many are wanted.
fn push_cluster(
    page: &mut Draft,
    view: &View<'_>,
    which: u32,
    groups: &Seq<IdSet>,
    wanted: Wanted,
    cells: &Cells,
) {
    let groups = groups.as_slice();
    let mut busy = 0u32;
    for place in 0..groups.len() {
        if busy_in(view.inst.times(), cells, &groups[place]) > 0 {
            if push_comma(page, busy) {
                push_group(page, view, which, place);
            }
            busy = busy.saturating_add(1);
        }
    }
    page.push_literal("; busy in ");
    push_missed(page, busy, wanted);
}

/// Adds the times of the meets of an event that are not preferred, of those of a duration where one is wanted.
fn push_times(
    page: &mut Draft,
    view: &View<'_>,
    event: EventId,
    times: &IdSet,
    duration: Option<u32>,
) {
    let mut listed = 0u32;
    for place in parts_of(view, event.0) {
        if let Some(meet) = meet_at(view, *place) {
            if duration.unwrap_or(meet.duration) == meet.duration {
                listed = push_start(page, view, meet, times, listed);
            }
        }
    }
}

/// Adds the time of a meet, where it is not preferred, and says how many are listed then.
fn push_start(page: &mut Draft, view: &View<'_>, meet: &Meet, times: &IdSet, listed: u32) -> u32 {
    let Some(start) = meet.start else {
        return listed;
    };
    if times.has(start.0) {
        return listed;
    }
    if push_comma(page, listed) {
        page.push_named("", time_name(view.raw, start.0), "");
    }
    listed.saturating_add(1)
}

/// Adds the resources at a place of an event's meets that are not preferred.
fn push_resources(
    page: &mut Draft,
    view: &View<'_>,
    event: EventId,
    place: u32,
    preferred: &IdSet,
) {
    let mut listed = 0u32;
    for part in parts_of(view, event.0) {
        let given = list_at(&view.table.given, *part);
        listed = push_others(page, view, place, preferred, given, listed);
    }
}

/// Adds the resources of a meet at a place that are not preferred, and says how many are listed then.
fn push_others(
    page: &mut Draft,
    view: &View<'_>,
    place: u32,
    preferred: &IdSet,
    given: &[Given],
    listed: u32,
) -> u32 {
    let mut listed = listed;
    for one in given {
        if one.place == place {
            if let Some(resource) = one.resource {
                if !preferred.has(resource.0) {
                    listed = push_given(page, view, resource, listed);
                }
            }
        }
    }
    listed
}

/// Adds a resource, and says how many are listed then.
fn push_given(page: &mut Draft, view: &View<'_>, resource: ResourceId, listed: u32) -> u32 {
    if push_comma(page, listed) {
        push_resource_link(page, view, resource.0);
    }
    listed.saturating_add(1)
}

/// Adds the lengths of the parts of an event.
fn push_parts(page: &mut Draft, view: &View<'_>, event: EventId) {
    let mut listed = 0u32;
    for place in parts_of(view, event.0) {
        if let Some(meet) = meet_at(view, *place) {
            if listed < LISTED {
                page.push_str(if listed == 0 { ": parts of " } else { ", " });
                page.push_counted("", u128::from(meet.duration), "");
            }
            listed = listed.saturating_add(1);
        }
    }
    if listed > LISTED {
        page.push_counted(", .. (", u128::from(listed), " parts)");
    }
}

/// Adds how many parts of which lengths are wanted.
fn push_split(page: &mut Draft, amount: Wanted, duration: Wanted) {
    page.push_counted("; wanted ", u128::from(amount.min), " to ");
    page.push_counted("", u128::from(amount.max), " parts of ");
    page.push_counted("", u128::from(duration.min), " to ");
    page.push_counted("", u128::from(duration.max), "");
}

/// Adds how many parts of one length are wanted.
fn push_distribution(page: &mut Draft, duration: u32, wanted: Wanted) {
    page.push_counted("; wanted ", u128::from(wanted.min), " to ");
    page.push_counted("", u128::from(wanted.max), " of ");
    page.push_counted("", u128::from(duration), "");
}

/// Adds how many times are wanted between the two events of a pair.
fn push_between(page: &mut Draft, pair: &EventPair) {
    page.push_counted("; wanted between them: ", u128::from(pair.min), " to ");
    page.push_counted("", u128::from(pair.max), " times");
}

/// Adds what a monitor at an event is about.
fn push_at_event(page: &mut Draft, view: &View<'_>, rule: &Rule, event: EventId) {
    match rule {
        Rule::PreferTimes { times, duration } => push_times(page, view, event, times, *duration),
        Rule::SplitEvents {
            min_duration,
            max_duration,
            min_amount,
            max_amount,
        } => {
            push_parts(page, view, event);
            let amount = Wanted {
                min: *min_amount,
                max: *max_amount,
            };
            let duration = Wanted {
                min: *min_duration,
                max: *max_duration,
            };
            push_split(page, amount, duration);
        }
        Rule::DistributeSplitEvents { duration, min, max } => {
            push_parts(page, view, event);
            let wanted = Wanted {
                min: *min,
                max: *max,
            };
            push_distribution(page, *duration, wanted);
        }
        _ => {}
    }
}

/// Adds what a monitor at a resource is about, by when it is busy: its time groups, or what is wanted.
pub(crate) fn push_at_resource(
    page: &mut Draft,
    view: &View<'_>,
    which: u32,
    rule: &Rule,
    cells: &Cells,
) {
    match rule {
        Rule::ClusterBusyTimes { groups, min, max } => {
            let wanted = Wanted {
                min: *min,
                max: *max,
            };
            push_cluster(page, view, which, groups, wanted, cells);
        }
        Rule::LimitBusyTimes { groups, min, max } => {
            let wanted = Wanted {
                min: *min,
                max: *max,
            };
            push_limits(page, view, which, groups, wanted, cells);
        }
        Rule::LimitIdleTimes { min, max, .. } => {
            page.push_counted("; wanted idle: ", u128::from(*min), " to ");
            page.push_counted("", u128::from(*max), "");
        }
        Rule::LimitWorkload { min, max } => {
            page.push_counted("; wanted ", u128::from(*min), " to ");
            page.push_counted("", u128::from(*max), "");
        }
        _ => {}
    }
}

/// Adds what a monitor of a constraint that is not at a resource is about.
pub(crate) fn push_about(page: &mut Draft, view: &View<'_>, which: u32, rule: &Rule, point: Point) {
    match point {
        Point::Event(event) => push_at_event(page, view, rule, event),
        Point::EventResource { event, place } => {
            if let Rule::PreferResources { resources, .. } = rule {
                push_resources(page, view, event, place, resources);
            }
        }
        Point::EventGroup(group) => {
            if let Rule::SpreadEvents { groups } = rule {
                push_spread(page, view, which, group, groups.as_slice());
            }
        }
        Point::EventPair(number) => {
            if let Rule::OrderEvents { pairs } = rule {
                if let Some(pair) = pairs.as_slice().get(number as usize) {
                    push_between(page, pair);
                }
            }
        }
        Point::Resource(_) => {}
    }
}
